// The program, for a run of it.
ghost use Rattle.std.specs.Prelude.{◌≡◌, replicate};
ghost use Rattle.frames.specs.Digest.{empty_line_lem};
ghost use Rattle.printing.specs.Answers.{Kept, kept, samopute};

use crate::answers::put_answer;
use crate::passing::pass;
use frames::{Line, empty_line, feed};
use lines::{Passed, Program};

// What the program keeps of a line: what is known of it, and the first N bytes of its payload.
#[derive(Drop)]
pub struct Printing<const N: usize> {
    pub line: Line,
    pub buffer: [u8; N],
}

impl<const N: usize> Printing<N> {
    // Before the first byte of a line.
    pub fn new() -> Printing<N>
        ensures line { result.line ≡ empty_line_lem }
        ensures buffer { result.buffer ≡ replicate N 0 }
    {
        Printing {
            line: empty_line(),
            buffer: [0; N],
        }
    }
}

impl<const N: usize> Program for Printing<N> {
    ghost Kept = { Kept };

    ghost machine = { samopute };

    ghost kept = { λ s. kept s.line s.buffer };

    fn feed(&mut self, input: &[u8]) -> usize {
        let fed = feed(self.line, &mut self.buffer, input);
        self.line = fed.line;
        fed.taken
    }

    fn put_answer(&mut self, out: &mut [u8], at: usize) -> usize {
        put_answer(self.line, &self.buffer, out, at)
    }

    fn begin_line(&mut self) {
        self.line = empty_line();
    }

    fn pass(&mut self, waits: bool, input: &[u8], out: &mut [u8], at: usize) -> Passed {
        let passed = pass(self.line, waits, &mut self.buffer, input, out, at);
        self.line = passed.line;
        Passed {
            waits: passed.waits,
            taken: passed.taken,
            to: passed.to,
        }
    }
}
