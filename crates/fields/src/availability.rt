// Whether a reading says something.
ghost use Rattle.std.specs.Prelude.{◌≡◌, ◌*◌};
ghost use Rattle.fields.specs.Payload.{payload_of};
ghost use Rattle.fields.specs.Content.{ends, unless, fixed_says_lem, text_says_lem, by_text, by_raw, availability_of};

use crate::{Shape, shapes};
use descriptor::{Availability, FieldDescriptor, PgnValue};

fn unless_it(absent: bool) -> Availability
    ensures { result ≡ unless absent }
{
    if absent {
        Availability::NotAvailable
    } else {
        Availability::Available
    }
}

// The bytes that end a StringFix.
fn is_end(byte: u8) -> bool
    ensures { result ≡ ends byte }
{
    matches!(byte, 0xff | 0x40 | 0)
}

// The byte at a place, which is 0 past the end.
fn byte_at(s: &[u8], place: usize) -> u8
    ensures { result ≡ (payload_of s.now).bits (8 * place) 8 }
{
    s.get(place).copied().unwrap_or(0)
}

// Of a StringFix: empty up to its first end.
fn fixed_says(s: &[u8], value: PgnValue) -> Availability
    ensures { result ≡ by_text value (fixed_says_lem (payload_of s.now)) }
{
    let PgnValue::Bytes(b) = value else {
        return Availability::Available;
    };
    unless_it(b.len.0 == 0 || is_end(byte_at(s, b.start.0)))
}

// Of a StringLau or a StringLz: without text.
fn text_says(value: PgnValue) -> Availability
    ensures { result ≡ by_text value text_says_lem }
{
    let PgnValue::Bytes(b) = value else {
        return Availability::Available;
    };
    unless_it(b.len.0 == 0)
}

fn raw_says(f: FieldDescriptor, raw: Option<u64>) -> Availability
    ensures { result ≡ by_raw f raw }
{
    match raw {
        Some(n) => numbers::number_availability(n, f),
        None => Availability::Available,
    }
}

// Of what was read of a field in the payload s.
pub fn field_availability(
    s: &[u8],
    f: FieldDescriptor,
    raw: Option<u64>,
    value: PgnValue,
) -> Availability
    ensures { result ≡ availability_of (payload_of s.now) f raw value }
{
    match shapes::shape_of(f) {
        Shape::Number { .. } => raw_says(f, raw),
        Shape::Fixed => fixed_says(s, value),
        Shape::Lau | Shape::Lz => text_says(value),
        Shape::Gap | Shape::Whole => Availability::Available,
    }
}
