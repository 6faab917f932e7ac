// Numbers by a code for their kind and 64 bits.
ghost use Rattle.std.specs.Prelude.{◌≡◌, ◌^◌};
ghost use Rattle.std.specs.Float.{binary32};
ghost use Rattle.std.specs.Float.Ieee.{of_bits};
ghost use Rattle.std.specs.Int.Signed.{mag};
ghost use Rattle.descriptor.specs.declared.PgnValue.TheVariants.{U32, U16, U8, I32, I16, I8, F32};
ghost use Rattle.numbers.specs.Signs.{signed_of};
ghost use Rattle.offers.specs.Records.{within, offer_of_lem};

use crate::Offer;
use descriptor::PgnValue;

fn as_u32(word: u64) -> Offer
    ensures { result ≡ within word (2 ^ 32) (U32 word) }
{
    u32::try_from(word).map_or(Offer::NoKind, |n| Offer::Value(PgnValue::U32(n)))
}

fn as_u16(word: u64) -> Offer
    ensures { result ≡ within word (2 ^ 16) (U16 word) }
{
    u16::try_from(word).map_or(Offer::NoKind, |n| Offer::Value(PgnValue::U16(n)))
}

fn as_u8(word: u64) -> Offer
    ensures { result ≡ within word (2 ^ 8) (U8 word) }
{
    u8::try_from(word).map_or(Offer::NoKind, |n| Offer::Value(PgnValue::U8(n)))
}

fn as_i32(word: u64) -> Offer
    ensures { result ≡ within (mag (signed_of 64 word)) (2 ^ 31) (I32 (signed_of 64 word)) }
{
    let signed = numbers::sign_extend(word, 64);
    i32::try_from(signed).map_or(Offer::NoKind, |n| Offer::Value(PgnValue::I32(n)))
}

fn as_i16(word: u64) -> Offer
    ensures { result ≡ within (mag (signed_of 64 word)) (2 ^ 15) (I16 (signed_of 64 word)) }
{
    let signed = numbers::sign_extend(word, 64);
    i16::try_from(signed).map_or(Offer::NoKind, |n| Offer::Value(PgnValue::I16(n)))
}

fn as_i8(word: u64) -> Offer
    ensures { result ≡ within (mag (signed_of 64 word)) (2 ^ 7) (I8 (signed_of 64 word)) }
{
    let signed = numbers::sign_extend(word, 64);
    i8::try_from(signed).map_or(Offer::NoKind, |n| Offer::Value(PgnValue::I8(n)))
}

fn as_f32(word: u64) -> Offer
    ensures { result ≡ within word (2 ^ 32) (F32 (of_bits binary32 word)) }
{
    u32::try_from(word).map_or(
        Offer::NoKind,
        |bits| Offer::Value(PgnValue::F32(rounding::f32_of_bits(bits))),
    )
}

// The number with this code and these 64 bits. A code of no number is of no kind, and so are bits that
// are no value of the code's kind.
#[inline(always)]
pub fn offer_of(code: u32, word: u64) -> Offer
    ensures { result ≡ offer_of_lem code word }
{
    match code {
        1 => Offer::Value(PgnValue::U64(word)),
        2 => as_u32(word),
        3 => as_u16(word),
        4 => as_u8(word),
        5 => Offer::Value(PgnValue::I64(numbers::sign_extend(word, 64))),
        6 => as_i32(word),
        7 => as_i16(word),
        8 => as_i8(word),
        9 => Offer::Value(PgnValue::F64(rounding::f64_of_bits(word))),
        10 => as_f32(word),
        _ => Offer::NoKind,
    }
}
