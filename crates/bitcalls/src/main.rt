// A program that answers bit calls. Each line of standard input is one call, its fields set apart by
// one space:
//
//     CALL CURSOR COUNT BUFFER [VALUE]
//
// CURSOR and COUNT are decimal. COUNT is a width in bits, in the slice calls a length in bytes, and
// in bits_remaining 0. BUFFER is capital hexadecimal, two digits a byte, or '-' where it is empty.
// Only the calls that write bits or bytes have a VALUE: a number, or bytes as in BUFFER.
//
// Each line has one answer, on one line of standard output: 'ok CURSOR' and what was read, or
// 'F NUMBER' and what the refusal carries. After a write call ' | BUFFER' follows.
//
// Promise: any bytes may come, and any number of them; the memory used stays the same. A line that is
// no call, or is over 1,024 bytes, is answered F 14. The last line may lack its newline.
//
// What is answered is specs/Answers.antt; that it does not depend on the chunks, and that no answer
// waits for room forever, is proofs/Stream.antt. Here is read and written: `run` promises that what it
// writes is the answers to the lines of its input, or a beginning of them where something fails.
#![tactic(auto)]

ghost use Rattle.std.specs.Prelude.{IfSome};
ghost use Rattle.textio.specs.Run.{Prints};
ghost use Rattle.bitcalls.specs.Answers.{printed};

mod answers;
mod names;
mod reads;
mod replies;
mod writes;

use crate::replies::Calls;
use lines::Lines;
use std::io::{Read, Write};
use textio::Failure;

const NAME: [u8; 8] = *b"bitcalls";

// The longest line that is answered as it is.
const LINE: usize = 1024;

fn main(rt: HostRuntime) {
    let ended = run(
        &mut rt.stdin(),
        &mut rt.stdout(),
        &mut [0u8; textio::BUFFER],
        &mut [0u8; textio::BUFFER],
    );
    textio::tell(&NAME, &mut rt.stderr(), ended);
}

fn run<R: Read, W: Write>(
    reader: &mut R,
    writer: &mut W,
    input: &mut [u8],
    page: &mut [u8],
) -> Result<(), Failure>
    ensures { IfSome (R.remaining reader.old) (λ bytes. Prints result
        (W.contents writer.old) (W.contents writer.new) (printed bytes)) }
{
    let mut program: Lines<Calls, LINE> = Lines::new(Calls);
    textio::run(&mut program, reader, writer, input, page)
}
