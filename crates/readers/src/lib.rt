// A reader that carries its buffer: document 01, "the reader that carries its buffer is also offered".
//
// Promise: each call is the call of `bits` of the same name at the reader's slice and cursor, with its answer. The reader
// keeps its slice. Its cursor is the moved one, or where it was if the call was refused. No call has a `requires`, and
// nothing is assumed.
#![tactic(auto)]

ghost use Rattle.std.specs.Prelude.{◌≡◌, length};
ghost use Rattle.bits.specs.Calls.{cursor_at, remaining_of, read_u64_of, read_u32_of, read_u16_of, read_u8_of, advance_of, read_slice_of};
ghost use Rattle.readers.specs.Reader.{at_cursor, after_read_lem, after_moved_lem};
ghost use Rattle.readers.specs.Clauses.{Reads};

use bits::{BitPos, BitRefusal, ByteCount, Cursor, Part, Read};

#[derive(Clone, Copy)]
pub struct BitReader<'a> {
    pub src: &'a [u8],
    pub cursor: Cursor,
}

impl<'a> BitReader<'a> {
    // At the start of a buffer.
    pub fn new(src: &'a [u8]) -> BitReader<'a>
        ensures { (result.src ≡ src.entry) × (result.cursor ≡ cursor_at 0) }
    {
        BitReader {
            src,
            cursor: Cursor { at: BitPos(0) },
        }
    }

    pub fn bit_cursor(self) -> BitPos
        ensures { result ≡ self.entry.cursor.at }
    {
        self.cursor.at
    }

    // The bits from the cursor to the end of the buffer, 0 past it.
    pub fn bits_remaining(self) -> BitPos
        ensures { result ≡ remaining_of (length self.entry.src.now) self.entry.cursor }
    {
        self.cursor.bits_remaining(self.src)
    }

    // To any position. Past the end of the buffer, 0 bits are available.
    pub fn seek(&mut self, to: BitPos)
        ensures { self.new ≡ at_cursor self.old (cursor_at to.0) }
    {
        self.cursor = self.cursor.seek(to);
    }

    // A number of n bits.
    pub fn read_u64(&mut self, n: u32) -> Result<Read<u64>, BitRefusal>
        ensures { Reads after_read_lem result self.new self.old (read_u64_of self.old.src.now self.old.cursor n) }
    {
        let read = self.cursor.read_u64(self.src, n)?;
        self.cursor = read.next;
        Ok(read)
    }

    pub fn read_u32(&mut self, n: u32) -> Result<Read<u32>, BitRefusal>
        ensures { Reads after_read_lem result self.new self.old (read_u32_of self.old.src.now self.old.cursor n) }
    {
        let read = self.cursor.read_u32(self.src, n)?;
        self.cursor = read.next;
        Ok(read)
    }

    pub fn read_u16(&mut self, n: u32) -> Result<Read<u16>, BitRefusal>
        ensures { Reads after_read_lem result self.new self.old (read_u16_of self.old.src.now self.old.cursor n) }
    {
        let read = self.cursor.read_u16(self.src, n)?;
        self.cursor = read.next;
        Ok(read)
    }

    pub fn read_u8(&mut self, n: u32) -> Result<Read<u8>, BitRefusal>
        ensures { Reads after_read_lem result self.new self.old (read_u8_of self.old.src.now self.old.cursor n) }
    {
        let read = self.cursor.read_u8(self.src, n)?;
        self.cursor = read.next;
        Ok(read)
    }

    // Past n bits, with the limits of a 64-bit read.
    pub fn advance(&mut self, n: u32) -> Result<Cursor, BitRefusal>
        ensures { Reads after_moved_lem result self.new self.old (advance_of (length self.old.src.now) self.old.cursor n 64) }
    {
        let next = self.cursor.advance(self.src, n)?;
        self.cursor = next;
        Ok(next)
    }

    // Where the len bytes from the cursor on stand. The part's `bytes` hands them out, of the reader's `src`.
    pub fn read_slice(&mut self, len: ByteCount) -> Result<Read<Part>, BitRefusal>
        ensures { Reads after_read_lem result self.new self.old (read_slice_of (length self.old.src.now) self.old.cursor len.0) }
    {
        let read = self.cursor.read_slice(self.src, len)?;
        self.cursor = read.next;
        Ok(read)
    }
}

// The first n bits of a buffer. Its contract says nothing of a reader.
pub fn first_u64(s: &[u8], n: u32) -> Result<Read<u64>, BitRefusal>
    ensures { result ≡ read_u64_of s.now (cursor_at 0) n }
{
    let mut r = BitReader::new(s);
    r.read_u64(n)
}
