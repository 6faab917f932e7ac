// The printing program. Each line of standard input is one frame in capital hexadecimal: a PGN in six
// digits, then the payload, two digits a byte. What it says is printed on standard output:
//
//     P PGN LENGTH                                the frame, and the bytes of its payload
//     R FIELD ELEMENT START BITS A|N RAW          a reading; N is not available, ELEMENT may be '-'
//     E END                                       the end, in bits
//     F NUMBER CARRIED..                          a refusal, in place of E; 14 and 15 stand alone
//
// RAW is hexadecimal; where there is none it is PLACE:LENGTH of the text or bytes, in decimal.
//
// Promise: any bytes may come, and any number of them, on lines of any length; the memory used stays
// the same. The last line may lack its newline. Answers are written before more input is waited for.
// Where the input or the output fails the program says so on standard error and ends.
//
// What is printed, and that it does not depend on the chunks, is `printing`'s. Here is read and written:
// `run` promises that what it writes is what is printed for its input, or a beginning of it where
// something fails.
#![tactic(auto)]

ghost use Rattle.std.specs.Prelude.{◌<◌, ◌^◌, IfSome, length};
ghost use Rattle.lines.specs.Machine.{closed};
ghost use Rattle.printing.specs.Text.{printed};
ghost use Rattle.textio.specs.Run.{Prints};

use printing::Printing;
use std::io::{Read, Write};
use tables::PAYLOAD_MAX;
use textio::Failure;

const NAME: [u8; 8] = *b"samopute";

fn main(rt: HostRuntime) {
    let ended = run(
        &mut rt.stdin(),
        &mut rt.stdout(),
        &mut [0u8; textio::BUFFER],
        &mut [0u8; printing::PAGE],
    );
    textio::tell(&NAME, &mut rt.stderr(), ended);
}

fn run<R: Read, W: Write>(
    reader: &mut R,
    writer: &mut W,
    input: &mut [u8],
    page: &mut [u8],
) -> Result<(), Failure>
    ensures { IfSome (R.remaining reader.old) (λ bytes. length (closed bytes) < 2 ^ 64 →
        Prints result
        (W.contents writer.old) (W.contents writer.new) (printed bytes)) }
{
    let mut program: Printing<PAYLOAD_MAX> = Printing::new();
    textio::run(&mut program, reader, writer, input, page)
}
