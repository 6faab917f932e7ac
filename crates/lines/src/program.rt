// What answers lines, and what holds them.
ghost use Rattle.std.specs.Prelude.{◌≡◌, ℕ, List, length, replicate};
ghost use Rattle.text.specs.Sheet.{Puts, PutsOn};
ghost use Rattle.lines.specs.Machine.{Machine, up_to_newline, feds};
ghost use Rattle.lines.specs.Held.{nothing_held, Store, store, held};
ghost use Rattle.lines.specs.Passing.{Passes};

use crate::holding::{feed, line_of, nothing};
use crate::{Held, Passed};
use text::Page;

// A program that answers lines, by what it holds of the line that is being taken.
pub trait Program {
    ghost Kept: { Type 0 };

    ghost machine: { Machine Kept };

    ghost kept: { Self → Kept };

    // Takes a piece of the input into the line: up to a newline, or all of it. How many bytes it took.
    fn feed(&mut self, input: &[u8]) -> usize
        ensures taken { result ≡ length (up_to_newline input.now) }
        ensures kept { kept self.new ≡ feds machine (kept self.old) (up_to_newline input.now) };

    // Puts the answer to the line, with its newlines.
    fn put_answer(&mut self, out: &mut [u8], at: usize) -> usize
        ensures puts { Puts out.old at (machine.answer (kept self.old)) out.new result }
        ensures kept { kept self.new ≡ kept self.old };

    // The next line begins.
    fn begin_line(&mut self)
        ensures { kept self.new ≡ machine.fresh (kept self.old) };

    // One call: the line that waits is answered first, and then the lines that end in the chunk, one after
    // another, until one finds no room on the page or the chunk is all taken.
    fn pass(&mut self, waits: bool, input: &[u8], out: &mut [u8], at: usize) -> Passed
        ensures { Passes machine result (kept self.new) out.new (kept self.old) waits input.now out.old at }
    {
        let mut taken = 0;
        let mut to = at;
        if waits {
            to = self.put_answer(out, at);
            if out.len() < to {
                return Passed {
                    waits,
                    taken: 0,
                    to: at,
                };
            }
            self.begin_line();
        }
        while taken < input.len() {
            let end = taken + self.feed(&input[taken..]);
            if input.len() <= end {
                return Passed {
                    waits: false,
                    taken: end,
                    to,
                };
            }
            let next = self.put_answer(out, to);
            if out.len() < next {
                return Passed {
                    waits: true,
                    taken: end + 1,
                    to,
                };
            }
            self.begin_line();
            taken = end + 1;
            to = next;
        }
        Passed {
            waits: false,
            taken,
            to,
        }
    }
}

// What answers whole lines, each by itself.
pub trait Answers {
    ghost answered: { List ℕ → List ℕ };

    // Puts the answer to a line, with its newlines. What it works with may change; what it answers does
    // not.
    fn put_answer(&mut self, line: &[u8], page: &mut Page<'_>)
        ensures { PutsOn page.old (answered line.now) page.new };
}

// A program that holds each line in a buffer of N bytes, until it is answered.
#[derive(Drop)]
pub struct Lines<A, const N: usize> {
    pub held: Held,
    pub line: [u8; N],
    pub answers: A,
}

impl<A: Answers, const N: usize> Lines<A, N> {
    // Before the first byte of a line.
    pub fn new(answers: A) -> Lines<A, N>
        ensures held { result.held ≡ nothing_held }
        ensures line { result.line ≡ replicate N 0 }
        ensures answers { result.answers ≡ answers }
    {
        Lines {
            held: nothing(),
            line: [0; N],
            answers,
        }
    }
}

impl<A: Answers, const N: usize> Program for Lines<A, N> {
    ghost Kept = { Store };

    ghost machine = { held A.answered };

    ghost kept = { λ s. store s.held s.line };

    fn feed(&mut self, input: &[u8]) -> usize {
        let fed = feed(self.held, &mut self.line, input);
        self.held = fed.held;
        fed.taken
    }

    fn put_answer(&mut self, out: &mut [u8], at: usize) -> usize {
        let mut page = Page::new(out, at);
        self.answers
            .put_answer(line_of(self.held, &self.line), &mut page);
        page.at
    }

    fn begin_line(&mut self) {
        self.held = nothing();
    }
}
