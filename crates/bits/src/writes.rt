// The calls of the Rust's BitWriter. Skipping over bits is its `advance`, here `write_advance`.
ghost use Rattle.std.specs.Prelude.{◌≡◌, ◌≤◌, length};
ghost use Rattle.bits.specs.Calls.{advance_of, written_of, write_slice_of, sliced_of};

use crate::{BitPos, BitRefusal, Cursor, limits, runs};

impl Cursor {
    // The n low bits of v, n at most max.
    fn write_most(self, s: &mut [u8], v: u64, n: u32, max: u32) -> Result<Cursor, BitRefusal>
        requires { max ≤ 64 }
        ensures { (result ≡ advance_of (length s.old) self n max) × (s.new ≡ written_of s.old self n max v) }
    {
        let at = self.at.0;
        limits::room_for(s.len(), at, n, max)?;
        let m = n as usize;
        let to = at + m;
        runs::scatter(s, at, m, v);
        Ok(Cursor { at: BitPos(to) })
    }

    pub fn write_u64(self, s: &mut [u8], v: u64, n: u32) -> Result<Cursor, BitRefusal>
        ensures { (result ≡ advance_of (length s.old) self n 64) × (s.new ≡ written_of s.old self n 64 v) }
    {
        self.write_most(s, v, n, 64)
    }

    pub fn write_u32(self, s: &mut [u8], v: u32, n: u32) -> Result<Cursor, BitRefusal>
        ensures { (result ≡ advance_of (length s.old) self n 32) × (s.new ≡ written_of s.old self n 32 v) }
    {
        self.write_most(s, v as u64, n, 32)
    }

    pub fn write_u16(self, s: &mut [u8], v: u16, n: u32) -> Result<Cursor, BitRefusal>
        ensures { (result ≡ advance_of (length s.old) self n 16) × (s.new ≡ written_of s.old self n 16 v) }
    {
        self.write_most(s, v as u64, n, 16)
    }

    pub fn write_u8(self, s: &mut [u8], v: u8, n: u32) -> Result<Cursor, BitRefusal>
        ensures { (result ≡ advance_of (length s.old) self n 8) × (s.new ≡ written_of s.old self n 8 v) }
    {
        self.write_most(s, v as u64, n, 8)
    }

    // Past n bits, with the limits of a 64-bit write. They stay as they are.
    pub fn write_advance(self, s: &mut [u8], n: u32) -> Result<Cursor, BitRefusal>
        ensures { (result ≡ advance_of (length s.old) self n 64) × (s.new ≡ s.old) }
    {
        self.advance_most(s.len(), n, 64)
    }

    // All of src, from the cursor on.
    pub fn write_slice(self, s: &mut [u8], src: &[u8]) -> Result<Cursor, BitRefusal>
        ensures { (result ≡ write_slice_of (length s.old) self (length src.now)) × (s.new ≡ sliced_of s.old self src.now) }
    {
        let at = self.at.0;
        let n = src.len();
        limits::slice_room_for(s.len(), at, n)?;
        let to = at + n * 8;
        runs::store(s, at / 8, src);
        Ok(Cursor { at: BitPos(to) })
    }
}
