// Writing a payload by a table: document 01, "Writing a payload".
//
// Promise: each call takes whatever it is given. `encode` answers as specs/Encode.antt says of the table
// that the words are: refusal 7 or 8, which leave the buffer as it was; else the bytes used, or the
// refusal that ended the walk, and the buffer at exit is ones, into which each field wholly written is
// put: a faulty field leaves no bit. `write_next` takes one turn of the same walk, as specs/Strokes.antt
// says: `weigh_next`, which needs no buffer, and what it weighed is put. It and `write_field` put one
// field and keep every other bit. No public call has a `requires`.
//
//     begin                 7 and 8, and all bits of the buffer are ones
//     start, write_next     turn by turn: each takes the next value, or says that there is none
//     weigh_next            the same turn before anything is put, by lengths alone
//     encode                all of it in one call, by value records in bytes
//     write_field           one field, by itself
//     bytes_used            the bytes that so many bits take
#![tactic(auto)]

use bits::BitPos;
use reading::Span;
use walking::Spot;
use weighing::{EncodeRefusal, Weighed};

mod begins;
mod encodes;
mod ink;
mod strokes;

pub use crate::begins::begin;
pub use crate::encodes::{bytes_used, encode};
pub use crate::ink::write_field;
pub use crate::strokes::{start, weigh_next, write_next};

// How far a walk has come: its cursor, the values used, the raw of each set's counter.
#[derive(Clone, Copy)]
pub struct Pen {
    pub at: BitPos,
    pub used: usize,
    pub counters: [u64; tables::SET_MAX],
}

// A walk between two turns.
#[derive(Clone, Copy)]
pub struct Draft {
    pub spot: Spot,
    pub pen: Pen,
}

// What one turn came to, if it was not refused.
#[derive(Clone, Copy)]
pub enum Stroke {
    // The offered value is written.
    Wrote(Span),
    // The field stays as `begin` left it, ones: the offer is not used.
    Skipped(Span),
    // No field: into a set, to its next element or out of it. The offer is not used.
    Moved,
    // At the end, and nothing was offered.
    Ended,
}

// The answer of `write_next`: an enum cannot hold the counters, so the walk stands beside it.
#[derive(Clone, Copy)]
pub struct Stroked {
    pub stroke: Result<Stroke, EncodeRefusal>,
    pub draft: Draft,
}

// The answer of `weigh_next`: what the turn comes to, and what it puts at the bit where the pen stood.
#[derive(Clone, Copy)]
pub struct Weighing {
    pub stroked: Stroked,
    pub content: Result<Weighed, EncodeRefusal>,
}
