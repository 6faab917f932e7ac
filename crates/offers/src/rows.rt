// The records of a caller's values.
ghost use Rattle.std.specs.Prelude.{◌≡◌, ◌+◌, ◌≤◌, length};
ghost use Rattle.offers.specs.Records.{word_at, encoding_in_lem, text_at_lem, record_at_lem, count_of, values_in};

use crate::Offer;
use crate::kinds::offer_of;
use bits::{BitPos, ByteCount, Cursor};
use descriptor::{PgnBytes, PgnValue};

const RECORD_BYTES: usize = 24;

// The 8 bytes from byte q on, the lowest first.
fn word_at(s: &[u8], q: usize) -> u64
    requires { q + 8 ≤ length s.now }
    ensures { result ≡ word_at s.now q }
{
    let c = Cursor { at: BitPos(0) };
    c.read_u64(&s[q..q + 8], 64).unwrap().value
}

fn encoding_in(mark: u8, byte: u8) -> Option<u8>
    ensures { result ≡ encoding_in_lem mark byte }
{
    (mark != 0).then_some(byte)
}

// The text whose record starts at byte q.
fn text_at(s: &[u8], q: usize) -> PgnBytes
    requires { q + 24 ≤ length s.now }
    ensures { result ≡ text_at_lem s.now q }
{
    let start = word_at(s, q + 8);
    let len = word_at(s, q + 16);
    let encoding = encoding_in(s[q + 1], s[q + 2]);
    PgnBytes {
        start: ByteCount(start as usize),
        len: ByteCount(len as usize),
        encoding,
    }
}

// What the record that starts at byte q offers.
fn record_at(s: &[u8], q: usize) -> Offer
    requires { q + 24 ≤ length s.now }
    ensures { result ≡ record_at_lem s.now q }
{
    let code = s[q];
    if code == 11 {
        return Offer::Value(PgnValue::Bytes(text_at(s, q)));
    }
    offer_of(code as u32, word_at(s, q + 8))
}

// How many values there are: a last record that is cut short counts.
pub fn offer_count(values: &[u8]) -> usize
    ensures { result ≡ (values_in values.now).count }
{
    values.len().div_ceil(RECORD_BYTES)
}

// What stands at place j among the values.
pub fn offer_at(values: &[u8], j: usize) -> Offer
    ensures { result ≡ (values_in values.now).offered j }
{
    if j < values.len() / RECORD_BYTES {
        return record_at(values, j * RECORD_BYTES);
    }
    if j < offer_count(values) {
        return Offer::NoKind;
    }
    Offer::Nothing
}
