// Readings as records in bytes: what crosses the boundary to C and Rust.
//
// Promise: each call takes whatever it is given and answers as the crate `reading` does; the lent
// buffer at exit is what specs/Layout.antt lays out: a count, a record of 64 bytes for each reading,
// little-endian, and every later byte as it was. Refusals 7 and 8 leave it as it was. The way there is
// a quick one for numbers, proved to come to the same.
#![tactic(auto)]

use reading::Decoded;

mod into;
mod layout;
mod pgns;
mod readings;
mod runs;
mod stretches;
mod walks;

pub use crate::into::{decode_into, room_in};
pub use crate::pgns::decode_pgn_into;
pub use crate::readings::{bytes_in, element_word, raw_mark, raw_word, value_word};

// What was done at a field that is read quickly.
#[derive(Clone, Copy)]
pub(crate) enum Quick {
    // A number: its bits, and its raw.
    Took { bits: usize, raw: u64 },
    // Bits that are skipped.
    Skipped { bits: usize },
}

// Where a stretch of fields ended: the field after it, the bit, the readings made, and the raw that its
// last field still has to be noted with.
#[derive(Clone, Copy)]
pub(crate) struct Stretch {
    field: usize,
    at: usize,
    made: usize,
    last: Option<u64>,
}
