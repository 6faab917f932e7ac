// The calls that read.
ghost use Rattle.std.specs.Prelude.{◌≡◌, length};
ghost use Rattle.bits.specs.Calls.{cursor_at, read_u64_of, read_u32_of, read_u16_of, read_u8_of, advance_of, read_slice_of};
ghost use Rattle.samopute_c.specs.Answers.{Laid, of_read, of_slice, of_moved};

use crate::{tell, tell_moved, tell_refused};
use bits::{BitPos, ByteCount, Cursor};

pub fn samopute_read_u64(buffer: &[u8], cursor: usize, width: u32, answer: &mut [u64; 3]) -> u32
    ensures { Laid result answer.new cursor (of_read (read_u64_of buffer.now (cursor_at cursor) width)) }
{
    let from = Cursor { at: BitPos(cursor) };
    match from.read_u64(buffer, width) {
        Ok(read) => tell(answer, cursor, read.next, read.value, 0),
        Err(e) => tell_refused(answer, cursor, e),
    }
}

pub fn samopute_read_u32(buffer: &[u8], cursor: usize, width: u32, answer: &mut [u64; 3]) -> u32
    ensures { Laid result answer.new cursor (of_read (read_u32_of buffer.now (cursor_at cursor) width)) }
{
    let from = Cursor { at: BitPos(cursor) };
    match from.read_u32(buffer, width) {
        Ok(read) => tell(answer, cursor, read.next, u64::from(read.value), 0),
        Err(e) => tell_refused(answer, cursor, e),
    }
}

pub fn samopute_read_u16(buffer: &[u8], cursor: usize, width: u32, answer: &mut [u64; 3]) -> u32
    ensures { Laid result answer.new cursor (of_read (read_u16_of buffer.now (cursor_at cursor) width)) }
{
    let from = Cursor { at: BitPos(cursor) };
    match from.read_u16(buffer, width) {
        Ok(read) => tell(answer, cursor, read.next, u64::from(read.value), 0),
        Err(e) => tell_refused(answer, cursor, e),
    }
}

pub fn samopute_read_u8(buffer: &[u8], cursor: usize, width: u32, answer: &mut [u64; 3]) -> u32
    ensures { Laid result answer.new cursor (of_read (read_u8_of buffer.now (cursor_at cursor) width)) }
{
    let from = Cursor { at: BitPos(cursor) };
    match from.read_u8(buffer, width) {
        Ok(read) => tell(answer, cursor, read.next, u64::from(read.value), 0),
        Err(e) => tell_refused(answer, cursor, e),
    }
}

pub fn samopute_advance(buffer: &[u8], cursor: usize, width: u32, answer: &mut [u64; 3]) -> u32
    ensures { Laid result answer.new cursor (of_moved (advance_of (length buffer.now) (cursor_at cursor) width 64)) }
{
    let from = Cursor { at: BitPos(cursor) };
    let m = from.advance(buffer, width);
    tell_moved(answer, cursor, m)
}

pub fn samopute_read_slice(buffer: &[u8], cursor: usize, count: usize, answer: &mut [u64; 3]) -> u32
    ensures { Laid result answer.new cursor (of_slice (read_slice_of (length buffer.now) (cursor_at cursor) count)) }
{
    let from = Cursor { at: BitPos(cursor) };
    match from.read_slice(buffer, ByteCount(count)) {
        Ok(read) => {
            let start = read.value.start.0;
            let len = read.value.len.0;
            tell(answer, cursor, read.next, start as u64, len as u64)
        }
        Err(e) => tell_refused(answer, cursor, e),
    }
}
