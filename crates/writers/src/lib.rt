// A writer that carries its lent buffer, as the Rust has it beside the reader that document 01 asks for.
//
// Promise: each call is the call of `bits` of the same name at the writer's slice and cursor, with its answer. `advance`
// is its `write_advance`. The writer keeps its slice, with the bytes that the call of `bits` leaves in it. Its cursor is
// the moved one, or where it was if the call was refused. No call has a `requires`, and nothing is assumed.
#![tactic(auto)]

ghost use Rattle.std.specs.Prelude.{◌≡◌};
ghost use Rattle.bits.specs.Calls.{cursor_at};
ghost use Rattle.writers.specs.Clauses.{Writes, Advances, WritesSlice, FirstBits};

use bits::{BitPos, BitRefusal, Cursor};

#[derive(Drop)]
pub struct BitWriter<'a> {
    pub dest: &'a mut [u8],
    pub cursor: Cursor,
}

impl<'a> BitWriter<'a> {
    // At the start of a buffer.
    pub fn new(dest: &'a mut [u8]) -> BitWriter<'a>
        ensures { (result.dest ≡ dest.entry) × (result.cursor ≡ cursor_at 0) }
    {
        BitWriter {
            dest,
            cursor: Cursor { at: BitPos(0) },
        }
    }

    // Where the next bit goes. The writer is as it was.
    pub fn bit_cursor(&mut self) -> BitPos
        ensures { (result ≡ self.old.cursor.at) × (self.new ≡ self.old) }
    {
        self.cursor.at
    }

    // The n low bits of a number.
    pub fn write_u64(&mut self, value: u64, n: u32) -> Result<Cursor, BitRefusal>
        ensures { Writes result self.new self.old 64 value n }
    {
        let next = self.cursor.write_u64(&mut *self.dest, value, n)?;
        self.cursor = next;
        Ok(next)
    }

    pub fn write_u32(&mut self, value: u32, n: u32) -> Result<Cursor, BitRefusal>
        ensures { Writes result self.new self.old 32 value n }
    {
        let next = self.cursor.write_u32(&mut *self.dest, value, n)?;
        self.cursor = next;
        Ok(next)
    }

    pub fn write_u16(&mut self, value: u16, n: u32) -> Result<Cursor, BitRefusal>
        ensures { Writes result self.new self.old 16 value n }
    {
        let next = self.cursor.write_u16(&mut *self.dest, value, n)?;
        self.cursor = next;
        Ok(next)
    }

    pub fn write_u8(&mut self, value: u8, n: u32) -> Result<Cursor, BitRefusal>
        ensures { Writes result self.new self.old 8 value n }
    {
        let next = self.cursor.write_u8(&mut *self.dest, value, n)?;
        self.cursor = next;
        Ok(next)
    }

    // Past n bits, with the limits of a 64-bit write. They stay as they are.
    pub fn advance(&mut self, n: u32) -> Result<Cursor, BitRefusal>
        ensures { Advances result self.new self.old n }
    {
        let next = self.cursor.write_advance(&mut *self.dest, n)?;
        self.cursor = next;
        Ok(next)
    }

    // All of src, from the cursor on.
    pub fn write_slice(&mut self, src: &[u8]) -> Result<Cursor, BitRefusal>
        ensures { WritesSlice result self.new self.old src.now }
    {
        let next = self.cursor.write_slice(&mut *self.dest, src)?;
        self.cursor = next;
        Ok(next)
    }
}

// The n low bits of a number, at the start of a buffer. Its contract says nothing of a writer.
pub fn first_bits(dest: &mut [u8], value: u64, n: u32) -> Result<Cursor, BitRefusal>
    ensures { FirstBits result dest.new dest.old value n }
{
    let mut w = BitWriter::new(dest);
    w.write_u64(value, n)
}
