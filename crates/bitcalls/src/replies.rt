// A line's fields, and which call they go to; and a chunk of input, line by line.
ghost use Rattle.std.specs.Prelude.{◌≤◌, ◌≡◌};
ghost use Rattle.bits.specs.Calls.{cursor_at};
ghost use Rattle.text.specs.Sheet.{PutsOn};
ghost use Rattle.columns.specs.Parts.{field};
ghost use Rattle.columns.specs.Numbers.{decimal_in};
ghost use Rattle.bitcalls.specs.Answers.{counted_text, form_text, answer_text, answered};

use crate::names::{Call, call_of, count_max, spaces_of};
use crate::reads::{put_advance, put_read, put_remaining, put_slice};
use crate::writes::{put_write, put_write_advance, put_write_slice};
use bits::{BitPos, Cursor};
use columns::word;
use lines::Answers;
use text::Page;

fn place(n: u64) -> usize
    ensures { result ≡ n }
{
    n as usize
}

// The field at place i, in decimal.
fn number(line: &[u8], i: usize) -> Option<u64>
    ensures { result ≡ decimal_in (field line.now i) }
{
    columns::decimal(word(line, i))
}

fn cursor_of(n: u64) -> Cursor
    ensures { result ≡ cursor_at n }
{
    Cursor::new().seek(BitPos(place(n)))
}

// n itself where it has 32 bits.
fn narrow(n: usize) -> u32
    ensures { n ≤ 0xffffffff → result ≡ n }
{
    (n % 0x1_0000_0000) as u32
}

// A call by its fields; `text` is the VALUE, if there is one.
fn put_call(call: Call, c: Cursor, s: &mut [u8], count: usize, text: &[u8], page: &mut Page<'_>)
    ensures { PutsOn page.old (counted_text call c s.old count text.now) page.new }
{
    if count_max(call) < count {
        return page.put_malformed();
    }
    let n = narrow(count);
    match call {
        Call::Read(w) => put_read(w, c, s, n, page),
        Call::Advance => put_advance(c, s, n, page),
        Call::ReadSlice => put_slice(c, s, count, page),
        Call::Write(w) => put_write(w, c, s, n, text, page),
        Call::WriteAdvance => put_write_advance(c, s, n, page),
        Call::WriteSlice => put_write_slice(c, s, count, text, page),
        Call::Remaining => put_remaining(c, s, count, page),
        Call::Unknown => page.put_malformed(),
    }
}

// A line, with what the fields that every line has were read as.
fn put_form(line: &[u8], c: Cursor, s: &mut [u8], count: usize, page: &mut Page<'_>)
    ensures { PutsOn page.old (form_text line.now c s.old count) page.new }
{
    let call = call_of(line);
    if columns::marks(line, b' ') != spaces_of(call) {
        return page.put_malformed();
    }
    put_call(call, c, s, count, word(line, 4), page);
}

// The answer to a line, without its newline.
fn put_reply(line: &[u8], page: &mut Page<'_>)
    ensures { PutsOn page.old (answer_text line.now) page.new }
{
    let mut buffer = [0u8; 256];
    let Some(cursor) = number(line, 1) else {
        return page.put_malformed();
    };
    let Some(count) = number(line, 2) else {
        return page.put_malformed();
    };
    let Some(n) = columns::bytes(word(line, 3), &mut buffer) else {
        return page.put_malformed();
    };
    let c = cursor_of(cursor);
    put_form(line, c, &mut buffer[0..n], place(count), page);
}

// What answers the lines.
#[derive(Drop)]
pub(crate) struct Calls;

impl Answers for Calls {
    ghost answered = { answered };

    fn put_answer(&mut self, line: &[u8], page: &mut Page<'_>) {
        put_reply(line, page);
        page.put(b'\n');
    }
}
