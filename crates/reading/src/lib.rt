// Reading a payload by a table: document 01, "Reading a payload".
//
// Promise: `for_each_field` takes any words, payload, padding run and room, and answers exactly as
// specs/Decode.antt says of the table that the words are: refusal 7 or 8; else the end and the number
// of readings, or the refusal that ended the walk and the number of readings made before it. The padding run
// holds at exit what specs/Filling.antt says. `next_field` takes one turn of the same walk and hands
// out the reading: going by it alone, no reading is stored anywhere. No public call has a `requires`.
//
//     prepare               7 and 8, and fills the lent padding run where the table asks for it
//     pad_to_min_length     the working payload: the received slice, or a part of the padding run
//     start, next_field     turn by turn: a reading, a field skipped, the end or the refusal
//     came_to               what a turn came to: the answer of the decode, or none where the walk goes on
//     for_each_field        all of it in one call, without the readings
#![tactic(auto)]

use bits::BitPos;
use descriptor::{Availability, PgnValue};
use fields::DecodeRefusal;
use walking::Spot;

mod decoding;
mod filling;
mod groups;
mod turns;

pub use crate::decoding::{for_each_field, room_enough};
pub use crate::filling::{is_filled, pad_to_min_length, prepare};
pub use crate::groups::{counter_at, noted_by, repeating_group_count};
pub use crate::turns::{came_to, next_field, start};

// With room for so many readings no decode gives 9: `room_enough` holds it to the definition of which
// proofs/Answered.antt shows that. It is here for the lengths of arrays.
pub const ROOM_ENOUGH: usize = tables::PAYLOAD_MAX * 8 + 1;

// A field met, skipped ones too: `bits` bits from `start` on. `element` says in which element of a set,
// where it stands in one.
#[derive(Clone, Copy)]
pub struct Span {
    pub field: usize,
    pub element: Option<usize>,
    pub start: BitPos,
    pub bits: BitPos,
}

// What was read of a field. Texts and bytes stand at their place in the working payload.
#[derive(Clone, Copy)]
pub struct Reading {
    pub field: usize,
    pub element: Option<usize>,
    pub start: BitPos,
    pub bits: BitPos,
    pub raw: Option<u64>,
    pub value: PgnValue,
    pub availability: Availability,
}

// How far a walk has come: its cursor, the readings made, the raw of each set's counter.
#[derive(Clone, Copy)]
pub struct Progress {
    pub at: BitPos,
    pub made: usize,
    pub counters: [u64; tables::SET_MAX],
}

// A walk between two turns.
#[derive(Clone, Copy)]
pub struct Walk {
    pub spot: Spot,
    pub progress: Progress,
}

// What one turn came to.
#[derive(Clone, Copy)]
pub enum Answer {
    Met(Reading),
    Skipped(Span),
    // No field: into a set, to its next element or out of it.
    Moved,
    // At the end, which is the walk's cursor.
    Ended,
}

// The answer of `next_field`: an enum cannot hold the counters, so the walk stands beside it.
#[derive(Clone, Copy)]
pub struct Next {
    pub answer: Result<Answer, DecodeRefusal>,
    pub walk: Walk,
}

// The answer of `for_each_field`: the end or the refusal, and the number of readings made.
#[derive(Clone, Copy)]
pub struct Decoded {
    pub end: Result<BitPos, DecodeRefusal>,
    pub count: usize,
}
