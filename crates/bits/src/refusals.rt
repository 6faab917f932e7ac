// Document 01's number for a refusal, the values that it carries, in the paper's order, and what they
// count.
ghost use Rattle.std.specs.Prelude.{◌≡◌, [], ◌∷◌, length, get_or};
ghost use Rattle.bits.specs.Refusals.{number_of, carried_of, unit_of};

use crate::BitRefusal;

impl BitRefusal {
    pub fn number(self) -> u32
        ensures { result ≡ number_of self }
    {
        match self {
            BitRefusal::TooLongForType { .. } => 1,
            BitRefusal::OutOfBits { .. } | BitRefusal::OutOfBytes { .. } => 2,
            BitRefusal::NonAlignedBit { .. } => 3,
            BitRefusal::BufferTooLong { .. } => 6,
        }
    }

    // How many values it carries.
    pub fn carried_count(self) -> usize
        ensures { result ≡ length (carried_of self) }
    {
        match self {
            BitRefusal::NonAlignedBit { .. } | BitRefusal::BufferTooLong { .. } => 1,
            _ => 2,
        }
    }

    // The value at place i of what it carries, 0 past the last.
    pub fn carried(self, i: usize) -> usize
        ensures { result ≡ get_or (carried_of self) i 0 }
    {
        match (self, i) {
            (BitRefusal::TooLongForType { max, .. }, 0) => max as usize,
            (BitRefusal::TooLongForType { asked, .. }, 1) => asked as usize,
            (BitRefusal::OutOfBits { asked, .. }, 0) => asked.0,
            (BitRefusal::OutOfBits { available, .. }, 1) => available.0,
            (BitRefusal::OutOfBytes { asked, .. }, 0) => asked.0,
            (BitRefusal::OutOfBytes { available, .. }, 1) => available.0,
            (BitRefusal::NonAlignedBit { cursor }, 0) => cursor.0,
            (BitRefusal::BufferTooLong { length }, 0) => length.0,
            _ => 0,
        }
    }

    // How many bits are one of what refusal 2 counts: 1 for bits, 8 for bytes. 0 of any other refusal.
    pub fn unit(self) -> u32
        ensures { result ≡ unit_of self }
    {
        match self {
            BitRefusal::OutOfBits { .. } => 1,
            BitRefusal::OutOfBytes { .. } => 8,
            _ => 0,
        }
    }
}
