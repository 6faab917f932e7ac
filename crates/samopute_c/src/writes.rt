// The calls that write. A refused one leaves the buffer as it was.
ghost use Rattle.std.specs.Prelude.{◌≡◌, length};
ghost use Rattle.bits.specs.Calls.{cursor_at, advance_of};
ghost use Rattle.samopute_c.specs.Answers.{Laid, of_moved};
ghost use Rattle.samopute_c.specs.Clauses.{Writes, WritesSlice};

use crate::tell_moved;
use bits::{BitPos, Cursor};

pub fn samopute_write_u64(
    buffer: &mut [u8],
    cursor: usize,
    value: u64,
    width: u32,
    answer: &mut [u64; 3],
) -> u32
    ensures { Writes result buffer.new answer.new 64 buffer.old cursor value width }
{
    let from = Cursor { at: BitPos(cursor) };
    let m = from.write_u64(buffer, value, width);
    tell_moved(answer, cursor, m)
}

pub fn samopute_write_u32(
    buffer: &mut [u8],
    cursor: usize,
    value: u32,
    width: u32,
    answer: &mut [u64; 3],
) -> u32
    ensures { Writes result buffer.new answer.new 32 buffer.old cursor value width }
{
    let from = Cursor { at: BitPos(cursor) };
    let m = from.write_u32(buffer, value, width);
    tell_moved(answer, cursor, m)
}

pub fn samopute_write_u16(
    buffer: &mut [u8],
    cursor: usize,
    value: u16,
    width: u32,
    answer: &mut [u64; 3],
) -> u32
    ensures { Writes result buffer.new answer.new 16 buffer.old cursor value width }
{
    let from = Cursor { at: BitPos(cursor) };
    let m = from.write_u16(buffer, value, width);
    tell_moved(answer, cursor, m)
}

pub fn samopute_write_u8(
    buffer: &mut [u8],
    cursor: usize,
    value: u8,
    width: u32,
    answer: &mut [u64; 3],
) -> u32
    ensures { Writes result buffer.new answer.new 8 buffer.old cursor value width }
{
    let from = Cursor { at: BitPos(cursor) };
    let m = from.write_u8(buffer, value, width);
    tell_moved(answer, cursor, m)
}

pub fn samopute_write_advance(
    buffer: &mut [u8],
    cursor: usize,
    width: u32,
    answer: &mut [u64; 3],
) -> u32
    ensures { Laid result answer.new cursor (of_moved (advance_of (length buffer.old) (cursor_at cursor) width 64)) × (buffer.new ≡ buffer.old) }
{
    let from = Cursor { at: BitPos(cursor) };
    let m = from.write_advance(buffer, width);
    tell_moved(answer, cursor, m)
}

pub fn samopute_write_slice(
    buffer: &mut [u8],
    cursor: usize,
    source: &[u8],
    answer: &mut [u64; 3],
) -> u32
    ensures { WritesSlice result buffer.new answer.new buffer.old cursor source.now }
{
    let from = Cursor { at: BitPos(cursor) };
    let m = from.write_slice(buffer, source);
    tell_moved(answer, cursor, m)
}
