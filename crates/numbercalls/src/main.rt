// A program that answers calls on numbers. Each line of standard input is one call, its fields set
// apart by one space:
//
//     scale KIND WIDTH SIGN MARK RESOLUTION RAW
//     raw KIND WIDTH SIGN MARK RESOLUTION VALUEKIND VALUE
//
// KIND is a field's kind by its name, or by any code in decimal. WIDTH is decimal. SIGN is u or s. MARK
// is '-', S, D or any number in decimal, and RESOLUTION the eight digits of a float's bits, or '-' for
// none where MARK is '-'. RAW and VALUE are 64 bits in at most 16 digits; VALUEKIND is U64 to U8, I64
// to I8, F64, F32 or Bytes. Digits are capital hexadecimal.
//
// Each line has one answer, on one line of standard output: to scale 'VALUEKIND VALUE' and A, or N
// where the raw says nothing; to raw 'ok RAW'; or 'F NUMBER' and what the refusal carries.
//
// Promise: any bytes may come, and any number of them; the memory used stays the same. A line that is
// no call, or is over 1,024 bytes, is answered F 14. The last line may lack its newline. The calls are
// those that C and Rust make.
//
// What is answered is specs/Answers.antt; that it does not depend on the chunks, and that no answer
// waits for room forever, is proofs/Stream.antt. Here is read and written: `run` promises that what it
// writes is the answers to the lines of its input, or a beginning of them where something fails.
#![tactic(auto)]

ghost use Rattle.std.specs.Prelude.{IfSome};
ghost use Rattle.textio.specs.Run.{Prints};
ghost use Rattle.numbercalls.specs.Answers.{printed};

mod calls;
mod line_fields;
mod replies;

use crate::replies::Calls;
use lines::Lines;
use std::io::{Read, Write};
use textio::Failure;

const NAME: [u8; 11] = *b"numbercalls";

// The longest line that is answered as it is.
const LINE: usize = 1024;

fn main(rt: HostRuntime) {
    let ended = run(
        &mut rt.stdin(),
        &mut rt.stdout(),
        &mut [0u8; textio::BUFFER],
        &mut [0u8; textio::BUFFER],
    );
    textio::tell(&NAME, &mut rt.stderr(), ended);
}

fn run<R: Read, W: Write>(
    reader: &mut R,
    writer: &mut W,
    input: &mut [u8],
    page: &mut [u8],
) -> Result<(), Failure>
    ensures { IfSome (R.remaining reader.old) (λ bytes. Prints result
        (W.contents writer.old) (W.contents writer.new) (printed bytes)) }
{
    let mut program: Lines<Calls, LINE> = Lines::new(Calls);
    textio::run(&mut program, reader, writer, input, page)
}
