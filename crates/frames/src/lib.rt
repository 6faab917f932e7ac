// A line of the printing program, as its bytes come: document 01, the end of "Cases", "one frame a
// line".
//
// Promise: `feed` takes the bytes of a line as they come, in pieces of any length, and keeps of them
// what specs/Digest.antt says; `pieces-read` of proofs/Exact.antt shows that this is, for every line
// under 2^64 bytes, what specs/Lines.antt says a line is, and that the lent buffer holds the first of
// its payload bytes.
// So lines of any length are read right in the memory of one short frame. `frame_of` answers 14, 15 or
// the message, as these definitions have it. No call has a `requires`.
#![tactic(auto)]

mod digest;
mod lookup;

pub use crate::digest::{empty_line, feed};
pub use crate::lookup::frame_of;
use messages::Message;

// What is known of a line by its bytes so far: how many digits they are, the number in the first six
// and the digit that came last. Once a byte is no digit the line is bad, and nothing else counts.
#[derive(Clone, Copy)]
pub struct Line {
    pub bad: bool,
    pub digits: usize,
    pub pgn: u32,
    pub last: u32,
}

// How many bytes of a piece belong to the line, and what is known of it with them.
#[derive(Clone, Copy)]
pub struct Fed {
    pub line: Line,
    pub taken: usize,
}

// A frame of a built-in message, with the bytes of its payload counted.
#[derive(Clone, Copy)]
pub struct Frame {
    pub message: Message,
    pub pgn: u32,
    pub received: usize,
}

// What a line is that is no frame: 15 or 14, as specs/Refusals.antt numbers them.
#[derive(Clone, Copy)]
pub enum FrameRefusal {
    // 15
    Unknown { pgn: u32 },
    // 14
    Malformed,
}
