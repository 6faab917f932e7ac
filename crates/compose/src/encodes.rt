// The encodes: by the table of a built-in message, and by any table.
ghost use Rattle.std.specs.Prelude.{◌≤◌};
ghost use Rattle.text.specs.Sheet.{PutsOn};
ghost use Rattle.messages.specs.Messages.{message_of_lem};
ghost use Rattle.compose.specs.Answers.{frame_line, known_text, pgn_line, encode_text, buffer_of, table_text};

use crate::answers::{put_buffer, put_made, put_malformed, put_outcome};
use text::Page;

const PGN_DIGITS: usize = 6;

// A table's buffer has at most so many bytes.
const SIZE_MAX: usize = 300;

// What a table's buffer holds before the call.
const UNTOUCHED: u8 = 0xa5;

// The frame of a message: values by its table into a payload.
fn put_frame(words: &[u64], pgn: u32, values: &[u8], lent: &[u8], page: &mut Page<'_>)
    ensures { PutsOn page.old (frame_line words.now pgn values.now lent.now) page.new }
{
    let mut payload = [0u8; tables::PAYLOAD_MAX];
    let encoded = writing::encode(words, values, lent, &mut payload);
    put_made(page, pgn, &payload, encoded);
    page.put(b'\n');
}

// A built-in message, or 15.
fn put_known(pgn: u32, values: &[u8], lent: &[u8], page: &mut Page<'_>)
    ensures { PutsOn page.old (known_text (message_of_lem pgn) pgn values.now lent.now) page.new }
{
    match messages::message_of(pgn) {
        Some(message) => put_frame(message.table().words, pgn, values, lent, page),
        None => frame_lines::put_unknown(page, pgn),
    }
}

// A PGN in six digits.
pub(crate) fn put_by_pgn(s: &[u8], values: &[u8], lent: &[u8], page: &mut Page<'_>)
    ensures { PutsOn page.old (pgn_line s.now values.now lent.now) page.new }
{
    let Some(pgn) = columns::hex(s) else {
        return put_malformed(page);
    };
    if s.len() != PGN_DIGITS {
        return put_malformed(page);
    }
    put_known(pgn as u32, values, lent, page);
}

// An encode by a table into a buffer of so many bytes, and the buffer after it.
fn put_sized(words: &[u64], size: usize, values: &[u8], lent: &[u8], page: &mut Page<'_>)
    requires { size ≤ 300 }
    ensures { PutsOn page.old (encode_text words.now values.now lent.now (buffer_of size)) page.new }
{
    let mut buffer = [UNTOUCHED; SIZE_MAX];
    let encoded = writing::encode(words, values, lent, &mut buffer[0..size]);
    put_outcome(page, encoded);
    put_buffer(page, &buffer[0..size]);
}

// Any table, and a buffer.
pub(crate) fn put_by_table(
    table: &[u8],
    size: &[u8],
    values: &[u8],
    lent: &[u8],
    page: &mut Page<'_>,
)
    ensures { PutsOn page.old (table_text table.now size.now values.now lent.now) page.new }
{
    let mut words = [0u64; 200];
    let (Some(n), Some(bytes)) = (
        columns::words(table, b',', &mut words),
        columns::decimal(size),
    ) else {
        return put_malformed(page);
    };
    let count = bytes as usize;
    if SIZE_MAX < count {
        return put_malformed(page);
    }
    put_sized(&words[0..n], count, values, lent, page);
}
