// The answer to a line.
ghost use Rattle.text.specs.Sheet.{Puts, PutsOn};
ghost use Rattle.frames.specs.Frames.{frame_by};
ghost use Rattle.printing.specs.Answers.{payload_text, answer_by};

use bits::{ByteCount, Part};
use fields::DecodeRefusal;
use frame_lines::{put_decode, put_frame, put_refusal, put_unknown};
use frames::{Frame, FrameRefusal, Line, frame_of};
use messages::Message;
use text::Page;

// The lines after the first: those of the decode, by a message, of the payload that the buffer begins
// with; or 7.
fn put_payload(message: Message, buffer: &[u8], received: usize, page: &mut Page<'_>)
    ensures { PutsOn page.old (payload_text message received buffer.now) page.new }
{
    if tables::PAYLOAD_MAX < received {
        let e = DecodeRefusal::WrongLength {
            length: ByteCount(received),
        };
        return put_refusal(page, e);
    }
    let payload = Part {
        start: ByteCount(0),
        len: ByteCount(received),
    };
    put_decode(message, payload.bytes(buffer), page);
}

// The lines of an answer.
fn put_lines(line: Line, buffer: &[u8], page: &mut Page<'_>)
    ensures { PutsOn page.old (answer_by (frame_by line) buffer.now) page.new }
{
    match frame_of(line) {
        Ok(
            Frame {
                message,
                pgn,
                received,
            },
        ) => {
            put_frame(page, pgn, received);
            put_payload(message, buffer, received, page);
        }
        Err(FrameRefusal::Unknown { pgn }) => put_unknown(page, pgn),
        Err(FrameRefusal::Malformed) => page.put_text(b"F 14\n"),
    }
}

// The answer to a line, by what is known of it and by the buffer that holds its payload: from a place of
// the page on, with the place after it.
pub fn put_answer(line: Line, buffer: &[u8], out: &mut [u8], at: usize) -> usize
    ensures { Puts out.old at (answer_by (frame_by line) buffer.now) out.new result }
{
    let mut page = Page::new(out, at);
    put_lines(line, buffer, &mut page);
    page.at
}
