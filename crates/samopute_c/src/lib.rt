// The boundary to C and Rust: functions on numbers and byte slices, under plain names, by which `samopute_c_c` exports
// them.
//
// Promise: each call takes whatever it is given and answers as the crates below do, laid out as specs/
// says. A status is 0 or document 01's number of the refusal. A bit call's lent `answer` gets the
// cursor after the call, then the number read (or the start and the length of the part), or what the
// refusal carries. A field goes in as five numbers and a value as two, its kind's code and 64 bits,
// none of which is cut to low bits. Readings come out as records of 64 bytes, and the values of an
// encode go in as records of 24. No call has a `requires`. A slice is a pointer and a length, and
// `answer` a pointer to as many numbers as its type says.
#![tactic(auto)]

ghost use Rattle.std.specs.Prelude.{◌≡◌, length};
ghost use Rattle.bits.specs.Calls.{cursor_at, remaining_of};
ghost use Rattle.samopute_c.specs.Answers.{Laid, done, refused, of_moved};

use bits::{BitPos, BitRefusal, Cursor};

mod checking;
mod decoding;
mod encoding;
mod reads;
mod scaling;
mod worded;
mod writes;

pub use crate::checking::samopute_check;
pub use crate::decoding::{samopute_decode, samopute_decode_pgn, samopute_version, told};
pub use crate::encoding::{samopute_encode, samopute_encode_pgn};
pub use crate::reads::{
    samopute_advance, samopute_read_slice, samopute_read_u8, samopute_read_u16, samopute_read_u32,
    samopute_read_u64,
};
pub use crate::scaling::{samopute_raw_of, samopute_scale};
pub use crate::writes::{
    samopute_write_advance, samopute_write_slice, samopute_write_u8, samopute_write_u16,
    samopute_write_u32, samopute_write_u64,
};

// Lays out an accepted answer: its status is 0.
fn tell(answer: &mut [u64; 3], at: usize, next: Cursor, a: u64, b: u64) -> u32
    ensures { Laid result answer.new at (done next a b) }
{
    *answer = [next.at.0 as u64, a, b];
    0
}

// Lays out the refusal of a call at bit `at`: its status is the number.
fn tell_refused(answer: &mut [u64; 3], at: usize, e: BitRefusal) -> u32
    ensures { Laid result answer.new at (refused e) }
{
    let first = e.carried(0);
    let second = e.carried(1);
    *answer = [at as u64, first as u64, second as u64];
    e.number()
}

// Lays out where a call that reads no number leaves the cursor.
fn tell_moved(answer: &mut [u64; 3], at: usize, m: Result<Cursor, BitRefusal>) -> u32
    ensures { Laid result answer.new at (of_moved m) }
{
    match m {
        Ok(next) => tell(answer, at, next, 0, 0),
        Err(e) => tell_refused(answer, at, e),
    }
}

// The bits from the cursor to the end of the buffer, 0 past it.
pub fn samopute_bits_remaining(buffer: &[u8], cursor: usize) -> usize
    ensures { result ≡ (remaining_of (length buffer.now) (cursor_at cursor)).0 }
{
    let from = Cursor { at: BitPos(cursor) };
    let left = from.bits_remaining(buffer);
    left.0
}
