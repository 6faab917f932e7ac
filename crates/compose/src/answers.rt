// What came of an encode, and of a line that asks for none.
ghost use Rattle.text.specs.Sheet.{PutsOn};
ghost use Rattle.frame_lines.specs.Lines.{malformed_line};
ghost use Rattle.compose.specs.Answers.{refusal_text, payload_text, made_text, outcome_text, buffer_text};

use bits::ByteCount;
use columns::part;
use text::Page;
use weighing::EncodeRefusal;

// How many digits a PGN has.
const PGN_DIGITS: usize = 6;

// The encode was refused. No refusal carries more than three values.
fn put_refusal(page: &mut Page<'_>, e: EncodeRefusal)
    ensures { PutsOn page.old (refusal_text e) page.new }
{
    let number = e.number() as usize;
    let count = e.carried_count();
    let first = e.carried(0);
    let second = e.carried(1);
    let third = e.carried(2);
    page.put_refused(number, count, first, second, third);
}

// A frame: its PGN and the bytes used.
fn put_payload(page: &mut Page<'_>, pgn: u32, payload: &[u8], used: usize)
    ensures { PutsOn page.old (payload_text pgn payload.now used) page.new }
{
    page.put_fixed_hex(pgn as u64, PGN_DIGITS);
    page.put_pairs(part(payload, 0, used));
}

// What came of a message: its frame, or the refusal.
pub(crate) fn put_made(
    page: &mut Page<'_>,
    pgn: u32,
    payload: &[u8],
    encoded: Result<ByteCount, EncodeRefusal>,
)
    ensures { PutsOn page.old (made_text pgn payload.now encoded) page.new }
{
    match encoded {
        Ok(used) => put_payload(page, pgn, payload, used.0),
        Err(e) => put_refusal(page, e),
    }
}

// The bytes used, or the refusal.
pub(crate) fn put_outcome(page: &mut Page<'_>, encoded: Result<ByteCount, EncodeRefusal>)
    ensures { PutsOn page.old (outcome_text encoded) page.new }
{
    match encoded {
        Ok(used) => {
            page.put(b'E');
            page.put_number(used.0)
        }
        Err(e) => put_refusal(page, e),
    }
}

// The buffer after the call, on a line of its own.
pub(crate) fn put_buffer(page: &mut Page<'_>, buffer: &[u8])
    ensures { PutsOn page.old (buffer_text buffer.now) page.new }
{
    page.put_text(b"\nD ");
    page.put_bytes(buffer);
    page.put(b'\n');
}

// 14, alone.
pub(crate) fn put_malformed(page: &mut Page<'_>)
    ensures { PutsOn page.old malformed_line page.new }
{
    page.put_text(b"F 14\n");
}
