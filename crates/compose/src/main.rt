// The program that makes frames, the other way round of `samopute`. Each line of standard input is a
// message and its values, set apart by one space:
//
//     PGN VALUES..                  a built-in message, by its PGN in six digits
//     T WORDS SIZE VALUES..         any table, and a buffer of SIZE bytes
//
// WORDS is a table in words, as `tables` has them: 1 to 200, of 1 to 16 digits, set apart by commas.
// SIZE is decimal, 0 to 300; the bytes of the buffer all hold A5 before the call. The values, at most
// 2,000, come in the order of the fields that take one. Each is one of
//
//     u42                           an unsigned integer below 2^64, of at most 20 digits
//     i-42                          a signed integer of 64 bits
//     f-0.25                        the f64 nearest to a decimal number of at most 15 digits; a point
//                                   has digits on both sides
//     vKIND:BITS                    64 bits, of 1 to 16 digits, by the code of a value's kind, 0 to
//                                   255; they need not be a value of that kind
//     tBYTES                        text or bytes, two digits each; t alone is empty
//     eXX:BYTES                     text, with the encoding byte XX
//
// KIND and the numbers after u, i and f are decimal, all other digits capital hexadecimal. The line's
// texts, one after another, are the lent text.
//
// A PGN line has one line on standard output, a T line two:
//
//     PGN and payload, as `samopute` takes them    or F NUMBER CARRIED..
//
//     E USED                                       or F NUMBER CARRIED..
//     D BYTES                                      the whole buffer after the call, '-' if it has none
//
// USED counts bytes. F 8 carries the rule's letter and the index.
//
// Promise: any bytes may come, and any number of them; the memory used stays the same. A line that is
// neither, or is over 8,192 bytes, is answered F 14 alone; then a PGN that is not built in F 15 with the
// PGN. The last line may lack its newline.
//
// What is answered is specs/Answers.antt; that it does not depend on the chunks, and that no answer
// waits for room forever, is proofs/Stream.antt. Here is read and written: `run` promises that what it
// writes is the answers to the lines of its input, or a beginning of them where something fails.
#![tactic(auto)]

ghost use Rattle.std.specs.Prelude.{IfSome};
ghost use Rattle.textio.specs.Run.{Prints};
ghost use Rattle.compose.specs.Answers.{printed};

mod answers;
mod decimals;
mod encodes;
mod entries;
mod orders;

use crate::orders::Orders;
use lines::Lines;
use std::io::{Read, Write};
use textio::Failure;

const NAME: [u8; 7] = *b"compose";

// The longest line that is answered as it is.
const LINE: usize = 8192;

fn main(rt: HostRuntime) {
    let ended = run(
        &mut rt.stdin(),
        &mut rt.stdout(),
        &mut [0u8; textio::BUFFER],
        &mut [0u8; textio::BUFFER],
    );
    textio::tell(&NAME, &mut rt.stderr(), ended);
}

fn run<R: Read, W: Write>(
    reader: &mut R,
    writer: &mut W,
    input: &mut [u8],
    page: &mut [u8],
) -> Result<(), Failure>
    ensures { IfSome (R.remaining reader.old) (λ bytes. Prints result
        (W.contents writer.old) (W.contents writer.new) (printed bytes)) }
{
    let mut program: Lines<Orders, LINE> = Lines::new(Orders::new());
    textio::run(&mut program, reader, writer, input, page)
}
