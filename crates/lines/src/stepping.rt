// A call, line by line. A program loops: `next`, then, where a line waits, its answer and `answered`,
// until the call is over.
ghost use Rattle.std.specs.Prelude.{◌≡◌};
ghost use Rattle.lines.specs.Steps.{begun, took_of, line_after, answered_by};

use crate::holding::{feed, nothing};
use crate::{Held, Step};

// Before the chunk: what was held, and whether it waits for its answer.
pub fn begin(held: Held, waits: bool, at: usize) -> Step
    ensures { result ≡ begun held waits at }
{
    Step {
        held,
        waits,
        taken: 0,
        to: at,
        over: false,
    }
}

// Takes the chunk up to the end of the next line, unless a line waits. Where no line ends in the rest
// of the chunk the call is over.
pub fn next(p: Step, line: &mut [u8], input: &[u8]) -> Step
    ensures { (result ≡ took_of p line.old input.now) × (line.new ≡ line_after p line.old input.now) }
{
    let from = p.taken;
    if p.waits || input.len() < from {
        return p;
    }
    let held = p.held;
    let fed = feed(held, line, &input[from..]);
    let known = fed.held;
    let end = from + fed.taken;
    if end < input.len() {
        return Step {
            held: known,
            waits: true,
            taken: end + 1,
            to: p.to,
            over: false,
        };
    }
    Step {
        held: known,
        waits: false,
        taken: end,
        to: p.to,
        over: true,
    }
}

// After a line's answer, which ends at `to`. Where it has found no room on a page of so many bytes the
// line waits, and the call is over.
pub fn answered(p: Step, to: usize, room: usize) -> Step
    ensures { result ≡ answered_by p to room }
{
    let held = p.held;
    if room < to {
        return Step {
            held,
            waits: true,
            taken: p.taken,
            to: p.to,
            over: true,
        };
    }
    let empty = nothing();
    Step {
        held: empty,
        waits: false,
        taken: p.taken,
        to,
        over: false,
    }
}
