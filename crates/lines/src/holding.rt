// A line in a lent buffer, as its bytes come.
ghost use Rattle.std.specs.Prelude.{◌≡◌};
ghost use Rattle.lines.specs.Held.{nothing_held, held_by, kept_by, Feeds, line_in};

use crate::{Fed, Held};

// Before the first byte of a line.
pub fn nothing() -> Held
    ensures { result ≡ nothing_held }
{
    Held {
        count: 0,
        long: false,
    }
}

// One more byte of the line, if there is room for it.
fn hold(held: Held, line: &mut [u8], b: u8) -> Held
    ensures { (result ≡ held_by held line.old) × (line.new ≡ kept_by held line.old b) }
{
    let n = held.count;
    if n < line.len() {
        line[n] = b;
        return Held {
            count: n + 1,
            long: held.long,
        };
    }
    Held {
        count: n,
        long: true,
    }
}

// Takes a piece of the input into the line: up to a newline, or all of it.
pub fn feed(held: Held, line: &mut [u8], input: &[u8]) -> Fed
    ensures { Feeds result line.new held line.old input.now }
{
    let mut known = held;
    for (i, &b) in input.iter().enumerate() {
        if b == b'\n' {
            return Fed {
                held: known,
                taken: i,
            };
        }
        known = hold(known, line, b);
    }
    Fed {
        held: known,
        taken: input.len(),
    }
}

// The line that is held; of one that is too long, nothing.
pub fn line_of(held: Held, line: &[u8]) -> &[u8]
    ensures { result.now ≡ line_in held line.now }
{
    let n = held.count;
    if held.long || line.len() < n {
        return &line[0..0];
    }
    &line[0..n]
}
