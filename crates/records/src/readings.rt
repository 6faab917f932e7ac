// Readings into bytes.
ghost use Rattle.std.specs.Prelude.{◌≡◌, [], ◌∷◌, ◌+◌, ◌≤◌, length};
ghost use Rattle.records.specs.Layout.{laid, element_word_lem, raw_word_lem, raw_mark_lem, encoding_mark_lem, bytes_in_lem, tag_by, value_word_lem, record_of_lem, number_reading, number_record};
ghost use Rattle.records.specs.Puts.{puts};

use crate::layout::put_word;
use bits::ByteCount;
use descriptor::{Availability, FieldDescriptor, PgnBytes, PgnValue};
use numbers::NumberWords;
use reading::Reading;

// Puts eight words at a place.
fn put_record(
    out: &mut [u8],
    at: usize,
    field: u64,
    element: u64,
    start: u64,
    bits: u64,
    tag: u64,
    raw: u64,
    value: u64,
    len: u64,
)
    requires { at + 64 ≤ length out.old }
    ensures { out.new ≡ puts out.old at (laid (field ∷ element ∷ start ∷ bits ∷ tag ∷ raw ∷ value ∷ len ∷ [])) }
{
    let at1 = at + 8;
    let at2 = at1 + 8;
    let at3 = at2 + 8;
    let at4 = at3 + 8;
    let at5 = at4 + 8;
    let at6 = at5 + 8;
    let at7 = at6 + 8;
    put_word(out, at, field);
    put_word(out, at1, element);
    put_word(out, at2, start);
    put_word(out, at3, bits);
    put_word(out, at4, tag);
    put_word(out, at5, raw);
    put_word(out, at6, value);
    put_word(out, at7, len);
}

// Which element, all ones in no set.
pub fn element_word(e: Option<usize>) -> u64
    ensures { result ≡ element_word_lem e }
{
    match e {
        None => 0xffff_ffff_ffff_ffff,
        Some(n) => n as u64,
    }
}

// The raw, 0 if there is none.
pub fn raw_word(raw: Option<u64>) -> u64
    ensures { result ≡ raw_word_lem raw }
{
    raw.unwrap_or(0)
}

// Whether there is a raw.
pub fn raw_mark(raw: Option<u64>) -> u64
    ensures { result ≡ raw_mark_lem raw }
{
    u64::from(raw.is_some())
}

fn encoding_mark(encoding: Option<u8>) -> u64
    ensures { (result ≡ encoding_mark_lem encoding) × (result ≤ 65281) }
{
    match encoding {
        None => 0,
        Some(b) => 1 + 256 * (b as u64),
    }
}

// The place, length and encoding of a text or bytes.
pub fn bytes_in(value: PgnValue) -> PgnBytes
    ensures { result ≡ bytes_in_lem value }
{
    let PgnValue::Bytes(b) = value else {
        return PgnBytes {
            start: ByteCount(0),
            len: ByteCount(0),
            encoding: None,
        };
    };
    b
}

// Puts a number of so many bits, by the words of its value.
pub(crate) fn put_words(
    out: &mut [u8],
    at: usize,
    i: usize,
    e: Option<usize>,
    start: usize,
    width: u32,
    raw: u64,
    n: NumberWords,
)
    requires { (at + 64 ≤ length out.old) × ((n.silence ≤ 255) × (n.code ≤ 11)) }
    ensures { out.new ≡ puts out.old at (laid (number_record i e start width raw n)) }
{
    let code = n.code;
    let silence = n.silence;
    let value = n.word;
    let bits = width as u64;
    let tag = silence + 0x100 * code + 0x1_0000;
    let element = element_word(e);
    put_record(
        out,
        at,
        i as u64,
        element,
        start as u64,
        bits,
        tag,
        raw,
        value,
        0,
    );
}

// Puts a number that was read at bit `start`.
pub(crate) fn put_number(
    out: &mut [u8],
    at: usize,
    i: usize,
    e: Option<usize>,
    start: usize,
    f: FieldDescriptor,
    raw: u64,
)
    requires { at + 64 ≤ length out.old }
    ensures { out.new ≡ puts out.old at (laid (record_of_lem (number_reading i e start f raw))) }
{
    let n = numbers::number_words(raw, f);
    put_words(out, at, i, e, start, f.width, raw, n);
}

// The value's bits, or the place of a text or bytes.
pub fn value_word(value: PgnValue) -> u64
    ensures { result ≡ value_word_lem value }
{
    let PgnValue::Bytes(b) = value else {
        return numbers::word_of(value);
    };
    let start = b.start;
    start.0 as u64
}

fn tag_of(availability: Availability, value: PgnValue, raw: Option<u64>) -> u64
    ensures { result ≡ tag_by availability value raw }
{
    let b = bytes_in(value);
    let encoding = b.encoding;
    let silence = numbers::silence_of(availability);
    let code = numbers::code_of(value) as u64;
    let given = raw_mark(raw);
    let mark = encoding_mark(encoding);
    silence + 0x100 * code + 0x1_0000 * given + 0x100_0000 * mark
}

// Puts a reading.
pub(crate) fn put_reading(out: &mut [u8], at: usize, r: Reading)
    requires { at + 64 ≤ length out.old }
    ensures { out.new ≡ puts out.old at (laid (record_of_lem r)) }
{
    let field = r.field;
    let e = r.element;
    let start = r.start;
    let bits = r.bits;
    let raw = r.raw;
    let value = r.value;
    let availability = r.availability;
    let element = element_word(e);
    let tag = tag_of(availability, value, raw);
    let number = raw_word(raw);
    let word = value_word(value);
    let b = bytes_in(value);
    let len = b.len;
    put_record(
        out,
        at,
        field as u64,
        element,
        start.0 as u64,
        bits.0 as u64,
        tag,
        number,
        word,
        len.0 as u64,
    );
}
