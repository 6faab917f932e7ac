// Bit cursors over byte slices: document 01, "Bit calls".
//
// Promise: every call takes any buffer, cursor and width. It answers the number or the place and the
// moved cursor, or refusal 6, 1, 3 or 2, tested in that order, exactly as specs/Calls.antt says; a
// refused call changes neither cursor nor buffer. No call has a `requires`, and nothing is assumed.
// A cursor is a value: it goes in and the moved one comes back. The buffer is lent to each call.
#![tactic(auto)]

ghost use Rattle.std.specs.Prelude.{◌≡◌, length};
ghost use Rattle.bits.specs.Calls.{cursor_at, remaining_of};

mod limits;
mod parts;
mod reads;
mod refusals;
mod runs;
mod writes;

pub use crate::limits::room_for;

// A place in a buffer, or a distance, in bits.
#[derive(Clone, Copy)]
pub struct BitPos(pub usize);

// A count of bytes. No count of bits is ever one.
#[derive(Clone, Copy)]
pub struct ByteCount(pub usize);

// Where the next call reads or writes.
#[derive(Clone, Copy)]
pub struct Cursor {
    pub at: BitPos,
}

// A part of a buffer: `len` bytes after the first `start`. `bytes` hands them out.
#[derive(Clone, Copy)]
pub struct Part {
    pub start: ByteCount,
    pub len: ByteCount,
}

// The refusals of a bit call. `number` gives document 01's number, `carried` what it carries.
#[derive(Clone, Copy)]
pub enum BitRefusal {
    // 6: the buffer is over 65,536 bytes.
    BufferTooLong {
        length: ByteCount,
    },
    // 1: width 0, or over the call's maximum.
    TooLongForType {
        max: u32,
        asked: u32,
    },
    // 3: a byte slice at a cursor that is not a multiple of 8.
    NonAlignedBit {
        cursor: BitPos,
    },
    // 2 of a number call: it counts bits.
    OutOfBits {
        asked: BitPos,
        available: BitPos,
    },
    // 2 of a slice call: it counts bytes, those asked and the whole ones left from the cursor on.
    OutOfBytes {
        asked: ByteCount,
        available: ByteCount,
    },
}

// What a read answers: what it read and the moved cursor.
#[derive(Clone, Copy)]
pub struct Read<T> {
    pub value: T,
    pub next: Cursor,
}

impl Cursor {
    // At the start of a buffer.
    pub fn new() -> Cursor
        ensures { result ≡ cursor_at 0 }
    {
        Cursor { at: BitPos(0) }
    }

    // At any position. Past the end of a buffer, 0 bits are available.
    pub fn seek(self, to: BitPos) -> Cursor
        ensures { result ≡ cursor_at to.0 }
    {
        Cursor { at: to }
    }

    pub fn bit_cursor(self) -> BitPos
        ensures { result ≡ self.at }
    {
        self.at
    }

    // The bits from the cursor to the end of the buffer, 0 past it.
    pub fn bits_remaining(self, s: &[u8]) -> BitPos
        ensures { result ≡ remaining_of (length s.now) self }
    {
        let end = s.len().saturating_mul(8);
        BitPos(end.saturating_sub(self.at.0))
    }
}
