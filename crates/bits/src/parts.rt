// A part of the caller's buffer: an enum cannot hold a slice, so `read_slice` answers the place and
// `bytes` turns it into the slice.
ghost use Rattle.std.specs.Prelude.{◌≡◌};
ghost use Rattle.bits.specs.Calls.{part_of};

use crate::Part;

impl Part {
    // The bytes of the part, as far as the buffer has them: all of them where `read_slice` gave the part.
    pub fn bytes(self, s: &[u8]) -> &[u8]
        ensures { result.now ≡ part_of s.now self }
    {
        let a = self.start.0.min(s.len());
        let n = self.len.0.min(s.len() - a);
        let e = a + n;
        &s[a..e]
    }
}
