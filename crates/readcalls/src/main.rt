// A program that replays payloads against tables. Each line of standard input is one case, its fields
// set apart by one space:
//
//     ROOM PADDING WORDS PAYLOAD
//
// ROOM is decimal: how many readings there is room for. PADDING is decimal, 0 to 300: the bytes of the
// lent padding run, which all hold A5 before the call. WORDS is a table in words, as `tables` has them:
// 1 to 200, of 1 to 16 digits, set apart by commas. PAYLOAD is at most 300 bytes of two digits each, or
// '-' where it is empty. Digits are capital hexadecimal.
//
// Each case has several lines on standard output:
//
//     R FIELD ELEMENT START BITS A|N RAW KIND VALUE [ENCODING]     for each reading
//     E END COUNT                                  or F NUMBER CARRIED..
//     D BYTES                                      the padding run, up to the last byte that is not A5
//
// ELEMENT, RAW, ENCODING and BYTES are '-' where there is none. KIND and VALUE are those of the program
// numbercalls; for text and bytes they are Bytes, PLACE:LENGTH and the ENCODING. F 8 carries the rule's
// letter and the index. The readings come turn by turn; the whole decode in one call has to come to the
// same end, count, refusal and padding run, or a line X follows. It is proved that none does: the one
// call is made so that its compiled code runs too.
//
// Promise: any bytes may come, and any number of them; the memory used stays the same. A line that is
// no case, or is over 8,192 bytes, is answered F 14 alone. The last line may lack its newline.
//
// What is answered is specs/Answers.antt; that it does not depend on the chunks, and that no answer
// waits for room forever, is proofs/Stream.antt. Here is read and written: `run` promises that what it
// writes is the answers to the lines of its input, or a beginning of them where something fails.
#![tactic(auto)]

ghost use Rattle.std.specs.Prelude.{IfSome};
ghost use Rattle.textio.specs.Run.{Prints};
ghost use Rattle.readcalls.specs.Answers.{printed};

mod alike;
mod answers;
mod replies;
mod turning;

use crate::replies::Cases;
use lines::Lines;
use std::io::{Read, Write};
use textio::Failure;

const NAME: [u8; 9] = *b"readcalls";

// The longest line that is answered as it is.
const LINE: usize = 8192;

// A page holds the longest answer (proofs/Sizes.antt): a payload of at most 223 bytes has 1,785
// readings at the most, and the line of each at most 160 bytes.
const PAGE: usize = 524288;

fn main(rt: HostRuntime) {
    let ended = run(
        &mut rt.stdin(),
        &mut rt.stdout(),
        &mut [0u8; textio::BUFFER],
        &mut [0u8; PAGE],
    );
    textio::tell(&NAME, &mut rt.stderr(), ended);
}

fn run<R: Read, W: Write>(
    reader: &mut R,
    writer: &mut W,
    input: &mut [u8],
    page: &mut [u8],
) -> Result<(), Failure>
    ensures { IfSome (R.remaining reader.old) (λ bytes. Prints result
        (W.contents writer.old) (W.contents writer.new) (printed bytes)) }
{
    let mut program: Lines<Cases, LINE> = Lines::new(Cases);
    textio::run(&mut program, reader, writer, input, page)
}
