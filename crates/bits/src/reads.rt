// The calls of the Rust's BitReader.
ghost use Rattle.std.specs.Prelude.{◌≡◌, ◌≤◌, length};
ghost use Rattle.bits.specs.Calls.{read_of, read_u64_of, read_u32_of, read_u16_of, read_u8_of, advance_of, read_slice_of};

use crate::{BitPos, BitRefusal, ByteCount, Cursor, Part, Read, limits, runs};

impl Cursor {
    // A number of n bits, at most max.
    fn read_most(self, s: &[u8], n: u32, max: u32) -> Result<Read<u64>, BitRefusal>
        requires { max ≤ 64 }
        ensures { result ≡ read_of s.now self n max }
    {
        let at = self.at.0;
        limits::room_for(s.len(), at, n, max)?;
        let m = n as usize;
        let to = at + m;
        let value = runs::gather(s, at, m);
        Ok(Read {
            value,
            next: Cursor { at: BitPos(to) },
        })
    }

    pub fn read_u64(self, s: &[u8], n: u32) -> Result<Read<u64>, BitRefusal>
        ensures { result ≡ read_u64_of s.now self n }
    {
        self.read_most(s, n, 64)
    }

    #[tactic(auto, using(crate::proofs::Answers::read_fits))]
    pub fn read_u32(self, s: &[u8], n: u32) -> Result<Read<u32>, BitRefusal>
        ensures { result ≡ read_u32_of s.now self n }
    {
        let read = self.read_most(s, n, 32)?;
        let value = read.value as u32;
        Ok(Read {
            value,
            next: read.next,
        })
    }

    #[tactic(auto, using(crate::proofs::Answers::read_fits))]
    pub fn read_u16(self, s: &[u8], n: u32) -> Result<Read<u16>, BitRefusal>
        ensures { result ≡ read_u16_of s.now self n }
    {
        let read = self.read_most(s, n, 16)?;
        let value = read.value as u16;
        Ok(Read {
            value,
            next: read.next,
        })
    }

    #[tactic(auto, using(crate::proofs::Answers::read_fits))]
    pub fn read_u8(self, s: &[u8], n: u32) -> Result<Read<u8>, BitRefusal>
        ensures { result ≡ read_u8_of s.now self n }
    {
        let read = self.read_most(s, n, 8)?;
        let value = read.value as u8;
        Ok(Read {
            value,
            next: read.next,
        })
    }

    // Past n bits, with the limits of a 64-bit read.
    pub fn advance(self, s: &[u8], n: u32) -> Result<Cursor, BitRefusal>
        ensures { result ≡ advance_of (length s.now) self n 64 }
    {
        self.advance_most(s.len(), n, 64)
    }

    // The len bytes from the cursor on. The part's `bytes` hands them out.
    pub fn read_slice(self, s: &[u8], len: ByteCount) -> Result<Read<Part>, BitRefusal>
        ensures { result ≡ read_slice_of (length s.now) self len.0 }
    {
        let at = self.at.0;
        let n = len.0;
        limits::slice_room_for(s.len(), at, n)?;
        let start = ByteCount(at / 8);
        let to = at + n * 8;
        Ok(Read {
            value: Part { start, len },
            next: Cursor { at: BitPos(to) },
        })
    }

    // Past n bits, at most max, of a buffer of len bytes.
    pub(crate) fn advance_most(self, len: usize, n: u32, max: u32) -> Result<Cursor, BitRefusal>
        ensures { result ≡ advance_of len self n max }
    {
        let at = self.at.0;
        limits::room_for(len, at, n, max)?;
        let to = at + (n as usize);
        Ok(Cursor { at: BitPos(to) })
    }
}
