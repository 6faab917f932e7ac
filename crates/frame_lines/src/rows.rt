// One line each, with its newline.
ghost use Rattle.text.specs.Sheet.{PutsOn};
ghost use Rattle.frame_lines.specs.Lines.{element_text, availability_text, place_text, value_text, raw_text, head_text, reading_line, frame_line, end_line, refusal_line, unknown_line};

use descriptor::{Availability, PgnBytes, PgnValue};
use fields::DecodeRefusal;
use reading::Reading;
use text::Page;

// How many digits a PGN has.
const PGN_DIGITS: usize = 6;

// The element that a field stands in, if it does.
fn put_element(page: &mut Page<'_>, e: Option<usize>)
    ensures { PutsOn page.old (element_text e) page.new }
{
    match e {
        None => page.put_text(b" -"),
        Some(k) => page.put_number(k),
    }
}

fn put_availability(page: &mut Page<'_>, a: Availability)
    ensures { PutsOn page.old (availability_text a) page.new }
{
    match a {
        Availability::Available => page.put_text(b" A "),
        Availability::NotAvailable => page.put_text(b" N "),
    }
}

// Where text or bytes stand: PLACE:LENGTH.
pub fn put_place(page: &mut Page<'_>, b: PgnBytes)
    ensures { PutsOn page.old (place_text b) page.new }
{
    let start = b.start.0 as u64;
    let len = b.len.0 as u64;
    page.put_decimal(start);
    page.put(b':');
    page.put_decimal(len);
}

// A value without a raw is always text or bytes (proofs/Texts.antt).
fn put_bytes_at(page: &mut Page<'_>, value: PgnValue)
    ensures { PutsOn page.old (value_text value) page.new }
{
    match value {
        PgnValue::Bytes(b) => put_place(page, b),
        _ => page.put(b'-'),
    }
}

// The raw in as few digits as it needs, or where the text or the bytes stand.
fn put_raw(page: &mut Page<'_>, raw: Option<u64>, value: PgnValue)
    ensures { PutsOn page.old (raw_text raw value) page.new }
{
    match raw {
        None => put_bytes_at(page, value),
        Some(n) => page.put_hex(n),
    }
}

// What the line of a reading begins with, up to the raw.
pub fn put_head(page: &mut Page<'_>, r: Reading)
    ensures { PutsOn page.old (head_text r) page.new }
{
    let element = r.element;
    let start = r.start.0;
    let bits = r.bits.0;
    let availability = r.availability;
    page.put(b'R');
    page.put_number(r.field);
    put_element(page, element);
    page.put_number(start);
    page.put_number(bits);
    put_availability(page, availability);
}

pub fn put_reading(page: &mut Page<'_>, r: Reading)
    ensures { PutsOn page.old (reading_line r) page.new }
{
    let raw = r.raw;
    let value = r.value;
    put_head(page, r);
    put_raw(page, raw, value);
    page.put(b'\n');
}

// The frame: its PGN and the bytes received.
pub fn put_frame(page: &mut Page<'_>, pgn: u32, received: usize)
    ensures { PutsOn page.old (frame_line pgn received) page.new }
{
    page.put_text(b"P ");
    page.put_fixed_hex(pgn as u64, PGN_DIGITS);
    page.put_number(received);
    page.put(b'\n');
}

// The end, in bits.
pub fn put_end(page: &mut Page<'_>, end: usize)
    ensures { PutsOn page.old (end_line end) page.new }
{
    page.put(b'E');
    page.put_number(end);
    page.put(b'\n');
}

// The refusal, in place of the end.
pub fn put_refusal(page: &mut Page<'_>, e: DecodeRefusal)
    ensures { PutsOn page.old (refusal_line e) page.new }
{
    let number = e.number() as usize;
    let count = e.carried_count();
    let first = e.carried(0);
    let second = e.carried(1);
    let third = e.carried(2);
    page.put_refused(number, count, first, second, third);
    page.put(b'\n');
}

// 15, with the PGN.
pub fn put_unknown(page: &mut Page<'_>, pgn: u32)
    ensures { PutsOn page.old (unknown_line pgn) page.new }
{
    page.put_text(b"F 15 ");
    page.put_fixed_hex(pgn as u64, PGN_DIGITS);
    page.put(b'\n');
}
