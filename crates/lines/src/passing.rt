// A call of any program.
ghost use Rattle.lines.specs.Passing.{Passes};

use crate::{Passed, Program};

// One call: the line that waits is answered first.
pub fn pass<P: Program>(
    program: &mut P,
    waits: bool,
    input: &[u8],
    out: &mut [u8],
    at: usize,
) -> Passed
    ensures { Passes P.machine result (P.kept program.new) out.new (P.kept program.old) waits input.now out.old at }
{
    program.pass(waits, input, out, at)
}
