// A program that checks tables. Each line of standard input is one table in words, as `tables` has
// them: 1 to 200 words of 1 to 16 capital hexadecimal digits, set apart by one space.
//
// Each line has one answer, on one line of standard output: 'ok', or 'F 8 LETTER INDEX' with the rule
// that is broken, a to h, and the field or the set that breaks it.
//
// Promise: any bytes may come, and any number of them; the memory used stays the same. A line that is
// no table in words is answered F 14. The last line may lack its newline.
//
// What is answered is specs/Answers.antt; that it does not depend on the chunks, and that no answer
// waits for room forever, is proofs/Stream.antt. Here is read and written: `run` promises that what it
// writes is the answers to the lines of its input, or a beginning of them where something fails.
#![tactic(auto)]

ghost use Rattle.std.specs.Prelude.{IfSome};
ghost use Rattle.lines.specs.Machine.{text_of};
ghost use Rattle.lines.specs.Held.{capped};
ghost use Rattle.textio.specs.Run.{Prints};
ghost use Rattle.tablecalls.specs.Answers.{answered, line_max};

mod replies;

use crate::replies::Tables;
use lines::Lines;
use std::io::{Read, Write};
use textio::Failure;

const NAME: [u8; 10] = *b"tablecalls";

// 200 words of 16 digits and the spaces between them have 3,399 bytes.
const LINE: usize = 3400;

fn main(rt: HostRuntime) {
    let ended = run(
        &mut rt.stdin(),
        &mut rt.stdout(),
        &mut [0u8; textio::BUFFER],
        &mut [0u8; textio::BUFFER],
    );
    textio::tell(&NAME, &mut rt.stderr(), ended);
}

fn run<R: Read, W: Write>(
    reader: &mut R,
    writer: &mut W,
    input: &mut [u8],
    page: &mut [u8],
) -> Result<(), Failure>
    ensures { IfSome (R.remaining reader.old) (λ bytes. Prints result
        (W.contents writer.old) (W.contents writer.new) (text_of (capped line_max answered) bytes)) }
{
    let mut program: Lines<Tables, LINE> = Lines::new(Tables);
    textio::run(&mut program, reader, writer, input, page)
}
