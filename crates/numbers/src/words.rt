// Values as numbers: a code for the kind, 64 bits, and whether a raw says nothing.
ghost use Rattle.std.specs.Prelude.{◌≡◌};
ghost use Rattle.numbers.specs.Scaling.{unsigned_of, duration_of};
ghost use Rattle.numbers.specs.Words.{code_of, word_of_lem, silence_of_lem, words_of, number_words_of, simple_words_of};

use crate::NumberWords;
use crate::raws::FieldRaw;
use crate::scale::{Told, scaled};
use crate::sizes::Width;
use crate::special::availability;
use descriptor::{Availability, FieldDescriptor, PgnValue};

pub fn code_of(value: PgnValue) -> u32
    ensures { result ≡ code_of value }
{
    match value {
        PgnValue::U64(_) => 1,
        PgnValue::U32(_) => 2,
        PgnValue::U16(_) => 3,
        PgnValue::U8(_) => 4,
        PgnValue::I64(_) => 5,
        PgnValue::I32(_) => 6,
        PgnValue::I16(_) => 7,
        PgnValue::I8(_) => 8,
        PgnValue::F64(_) => 9,
        PgnValue::F32(_) => 10,
        PgnValue::Bytes(_) => 11,
    }
}

pub fn word_of(value: PgnValue) -> u64
    ensures { result ≡ word_of_lem value }
{
    match value {
        PgnValue::U64(n) => n,
        PgnValue::U32(n) => n as u64,
        PgnValue::U16(n) => n as u64,
        PgnValue::U8(n) => n as u64,
        PgnValue::I64(z) => z.cast_unsigned(),
        PgnValue::I32(z) => (z as i64).cast_unsigned(),
        PgnValue::I16(z) => (z as i64).cast_unsigned(),
        PgnValue::I8(z) => (z as i64).cast_unsigned(),
        PgnValue::F64(x) => rounding::bits_of_f64(x),
        PgnValue::F32(x) => rounding::bits_of_f32(x) as u64,
        PgnValue::Bytes(_) => 0,
    }
}

pub fn silence_of(a: Availability) -> u64
    ensures { result ≡ silence_of_lem a }
{
    match a {
        Availability::Available => 0,
        Availability::NotAvailable => 1,
    }
}

// The code of the unsigned kind that n bits fit.
fn size_code(n: u32) -> u64
    ensures { result ≡ code_of (unsigned_of n 0) }
{
    match n {
        0..=8 => 4,
        9..=16 => 3,
        17..=32 => 2,
        _ => 1,
    }
}

// A Duration starts at 16 bits.
fn duration_code(n: u32) -> u64
    ensures { result ≡ code_of (duration_of n 0) }
{
    match n {
        0..=16 => 3,
        17..=32 => 2,
        _ => 1,
    }
}

// The words of a value, with no value made in between: what says nothing is told after.
impl Told for NumberWords {
    ghost told = { λ v. words_of v 0 };

    fn unsigned(r: FieldRaw) -> NumberWords {
        unsigned_words(r.bits, r.raw)
    }

    fn signed(r: FieldRaw) -> NumberWords {
        NumberWords {
            code: size_code(r.bits) + 4,
            word: r.signed().cast_unsigned(),
            silence: 0,
        }
    }

    fn duration(r: FieldRaw) -> NumberWords {
        NumberWords {
            code: duration_code(r.bits),
            word: r.raw,
            silence: 0,
        }
    }

    fn double_word(n: u64) -> NumberWords {
        NumberWords {
            code: 1,
            word: n,
            silence: 0,
        }
    }

    fn single(x: f32) -> NumberWords {
        NumberWords {
            code: 10,
            word: rounding::bits_of_f32(x) as u64,
            silence: 0,
        }
    }

    fn double(x: f64) -> NumberWords {
        NumberWords {
            code: 9,
            word: rounding::bits_of_f64(x),
            silence: 0,
        }
    }
}

fn unsigned_words(n: u32, raw: u64) -> NumberWords
    ensures { result ≡ words_of (unsigned_of n raw) 0 }
{
    NumberWords {
        code: size_code(n),
        word: raw,
        silence: 0,
    }
}

// The value of a raw and whether it says nothing: as many of its low bits as the field is wide, at
// most 64.
pub fn number_words(raw: u64, f: FieldDescriptor) -> NumberWords
    ensures { result ≡ number_words_of f raw }
{
    let r = FieldRaw::new(raw, f.width);
    let words: NumberWords = scaled(f, r);
    NumberWords {
        silence: silence_of(availability(f.kind, f.signed, r)),
        ..words
    }
}

// The words of a raw of n bits in a field that is neither signed nor scaled.
pub fn simple_words(n: u32, raw: u64) -> NumberWords
    ensures { result ≡ simple_words_of n raw }
{
    NumberWords {
        silence: silence_of(Width::new(n, false).availability(raw)),
        ..unsigned_words(n, raw)
    }
}
