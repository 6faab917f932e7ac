// The bytes of a struct's fifth number.
ghost use Rattle.std.specs.Prelude.{◌≡◌};
ghost use Rattle.numbers.specs.Words.{code_of, silence_of_lem};
ghost use Rattle.records.specs.Layout.{raw_mark_lem};
ghost use Rattle.structs.specs.Structs.{encoding_given, encoding_byte};

use descriptor::{Availability, PgnValue};

pub(crate) fn availability(a: Availability) -> u8
    ensures { result ≡ silence_of_lem a }
{
    numbers::silence_of(a) as u8
}

pub(crate) fn value_kind(value: PgnValue) -> u8
    ensures { result ≡ code_of value }
{
    numbers::code_of(value) as u8
}

pub(crate) fn has_raw(raw: Option<u64>) -> u8
    ensures { result ≡ raw_mark_lem raw }
{
    records::raw_mark(raw) as u8
}

pub(crate) fn has_encoding(encoding: Option<u8>) -> u8
    ensures { result ≡ encoding_given encoding }
{
    encoding.is_some() as u8
}

pub(crate) fn encoding(encoding: Option<u8>) -> u8
    ensures { result ≡ encoding_byte encoding }
{
    encoding.unwrap_or(0)
}
