// The printing program on slices: a chunk of input and a page in, text out. Document 01, the end of
// "Cases".
//
// Promise: specs/Text.antt says which text is printed for any input; `put_answer` puts the answer to a
// line, and `pass` those of the lines that end in a chunk, as specs/Clauses.antt has it: one answer,
// one content of each lent buffer. proofs/Stream.antt shows, for any list of calls, that all that was
// put and what is owed is the text of all that was taken, whatever the chunks and the pages; that with
// an empty page of PAGE bytes no line waits for its answer twice; and that enough calls take all of a
// chunk. No call has a `requires`.
#![tactic(auto)]

mod answers;
mod passing;
mod program;

pub use crate::answers::put_answer;
pub use crate::passing::pass;
pub use crate::program::Printing;
use frames::Line;

// A page with room for the answer to any line: proofs/Sizes.antt.
pub const PAGE: usize = 262144;

// What a call leaves, beside the payload's buffer and the page: what is known of the line; whether it
// is whole and waits for its answer; how many bytes of the chunk are taken; the place after the text.
#[derive(Clone, Copy)]
pub struct Passed {
    pub line: Line,
    pub waits: bool,
    pub taken: usize,
    pub to: usize,
}
