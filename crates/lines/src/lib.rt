// Lines out of chunks of input: a lent buffer holds the line that is being taken.
//
// Promise: specs/Machine.antt says, for any program that answers lines, what one call of it with a chunk
// and a page leaves, and what it owes for all that it was fed; the theorems on any list of calls, on
// any chunks and pages, are proofs/Stream.antt. `pass` makes that call, of any `Program`. `Lines` is one
// that holds a line as specs/Held.antt says: a line that has more bytes than the buffer is handed on as
// an empty one. `begin`, `next` and `answered` make the call in steps, of a line that is held in a lent
// buffer of any length: proofs/Steps.antt. No call has a `requires`.
#![tactic(auto)]

mod holding;
mod passing;
mod program;
mod stepping;

pub use crate::holding::{feed, line_of, nothing};
pub use crate::passing::pass;
pub use crate::program::{Answers, Lines, Program};
pub use crate::stepping::{answered, begin, next};

// What is held of a line: so many bytes, in the lent buffer; `long` says that the line has more than
// there was room for.
#[derive(Clone, Copy)]
pub struct Held {
    pub count: usize,
    pub long: bool,
}

// How many bytes of a piece belong to the line, and what is held with them.
#[derive(Clone, Copy)]
pub struct Fed {
    pub held: Held,
    pub taken: usize,
}

// How far a call has come: whether a whole line waits for its answer, which has found no room; the
// bytes of the chunk that are taken; the place after the text.
#[derive(Clone, Copy)]
pub struct Passed {
    pub waits: bool,
    pub taken: usize,
    pub to: usize,
}

// How far a call has come that is made in steps: what is held; whether that is a whole line that waits
// for its answer; the bytes of the chunk that are taken; the place after the text; whether the call is
// over.
#[derive(Clone, Copy)]
pub struct Step {
    pub held: Held,
    pub waits: bool,
    pub taken: usize,
    pub to: usize,
    pub over: bool,
}
