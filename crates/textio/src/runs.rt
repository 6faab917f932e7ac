// A run of a program, turn by turn.
ghost use Rattle.std.specs.Prelude.{IfSome};
ghost use Rattle.lines.specs.Machine.{closed, text_from};
ghost use Rattle.textio.specs.Run.{Prints};

use crate::{Failure, fetch, start, store};
use lines::{Program, pass};
use std::io::{Read, Write};

// A proved loop has to end, and nothing says that the input does. So the loop has as many turns as no
// run uses up; one that did would count as one that failed.
pub fn run<P: Program, R: Read, W: Write>(
    program: &mut P,
    reader: &mut R,
    writer: &mut W,
    input: &mut [u8],
    page: &mut [u8],
) -> Result<(), Failure>
    ensures { IfSome (R.remaining reader.old) (λ bytes. Prints result (W.contents writer.old)
        (W.contents writer.new) (text_from P.machine (P.kept program.old) (closed bytes))) }
{
    let mut at = start();
    for _ in 0..u64::MAX {
        let Some(chunk) = fetch(reader, input, at)? else {
            return Ok(());
        };
        let p = pass(program, chunk.waits, &input[chunk.from..chunk.to], page, 0);
        at = store(writer, page, p.to, p.taken, p.waits, chunk)?;
    }
    Err(Failure::Unfit)
}
