// Standard input by the chunk and standard output by the page, for programs that answer lines.
//
// Promise: what a call of a program put is written, once, before more input is read; so is the answer to
// a line that has found no room, as no read comes before the call that puts it (specs/Io.antt). At the
// end of the input a line that lacks its newline gets one. Where the input or the output fails it is said
// on standard error, and the program ends; a line that a failed read cuts short is not answered. A write
// that a signal interrupts is no failure: it is tried again.
// Where a reader's bytes and a writer's are known, a contract says what is read and written: the input's
// next bytes, each once, and the page, or a beginning of it where a write fails. What that comes to, turn
// by turn, is proofs/Turns.antt: `run`, of any program of `lines`, writes the text of its whole input
// (specs/Run.antt). Of standard input and output no contract knows the bytes: that they are handed on is
// the kit's.
#![tactic(auto)]

mod chunks;
mod failures;
mod runs;

pub use crate::chunks::{fetch, start, store};
pub use crate::failures::{Failure, tell};
pub use crate::runs::run;

// The bytes of a chunk of the input, at the most, and of most programs' pages.
pub const BUFFER: usize = 65536;

// Where a program stands with its input and output: which part of the chunk is not taken yet; whether a
// line waits, whose answer has found no room; whether the input so far ends within a line; whether it has
// ended.
#[derive(Clone, Copy)]
pub struct Io {
    pub from: usize,
    pub to: usize,
    pub waits: bool,
    pub inside: bool,
    pub ended: bool,
}
