// A chunk of input, line by line.
ghost use Rattle.std.specs.Prelude.{◌≡◌};
ghost use Rattle.printing.specs.Clauses.{passed_at, Passes, PassesLines};

use crate::Passed;
use crate::answers::put_answer;
use frames::{Line, empty_line, feed};

fn passed(line: Line, waits: bool, taken: usize, to: usize) -> Passed
    ensures { result ≡ passed_at line waits taken to }
{
    Passed {
        line,
        waits,
        taken,
        to,
    }
}

// The lines that end in a chunk are answered, one after another, until one finds no room on the page
// or the chunk is all taken. `line` is known of the first.
fn pass_lines(line: Line, buffer: &mut [u8], input: &[u8], out: &mut [u8], at: usize) -> Passed
    ensures { PassesLines result buffer.new out.new line buffer.old input.now out.old at }
{
    let mut known = line;
    let mut from: usize = 0;
    let mut to = at;
    while from < input.len() {
        let fed = feed(known, buffer, &input[from..]);
        let whole = fed.line;
        let end = from + fed.taken;
        if input.len() <= end {
            return passed(whole, false, end, to);
        }
        let after = end + 1;
        let next = put_answer(whole, buffer, out, to);
        if out.len() < next {
            return passed(whole, true, after, to);
        }
        known = empty_line();
        from = after;
        to = next;
    }
    passed(known, false, from, to)
}

// One call: the line that waits is answered first.
pub fn pass(
    line: Line,
    waits: bool,
    buffer: &mut [u8],
    input: &[u8],
    out: &mut [u8],
    at: usize,
) -> Passed
    ensures { Passes result buffer.new out.new line waits buffer.old input.now out.old at }
{
    if !waits {
        return pass_lines(line, buffer, input, out, at);
    }
    let to = put_answer(line, buffer, out, at);
    if out.len() < to {
        return passed(line, true, 0, at);
    }
    pass_lines(empty_line(), buffer, input, out, to)
}
