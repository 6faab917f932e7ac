// Kinds and resolutions by number, for callers that have no enums.
ghost use Rattle.std.specs.Prelude.{◌≡◌};
ghost use Rattle.descriptor.specs.Kinds.{kind_of, broken, unmarked_of, resolution_of_lem};

use crate::{FieldKind, Resolution};

// The kind with this code: its place in the declaration.
pub fn kind_of(code: u32) -> FieldKind
    ensures { result ≡ kind_of code }
{
    match code {
        0 => FieldKind::Number,
        1 => FieldKind::Float,
        2 => FieldKind::Lookup,
        3 => FieldKind::IndirectLookup,
        4 => FieldKind::BitLookup,
        5 => FieldKind::Pgn,
        6 => FieldKind::Date,
        7 => FieldKind::Time,
        8 => FieldKind::Duration,
        9 => FieldKind::Mmsi,
        10 => FieldKind::Decimal,
        11 => FieldKind::StringFix,
        12 => FieldKind::StringLz,
        13 => FieldKind::StringLau,
        14 => FieldKind::Binary,
        15 => FieldKind::Reserved,
        16 => FieldKind::Spare,
        17 => FieldKind::IsoName,
        _ => FieldKind::Unimplemented,
    }
}

// A resolution whose factor is no number: the table check refuses it.
fn broken_resolution() -> Resolution
    ensures { result ≡ broken }
{
    Resolution::Single(rounding::f32_of_bits(0x7fc0_0000))
}

fn unmarked(bits: u32) -> Resolution
    ensures { result ≡ unmarked_of bits }
{
    if bits == 0 {
        return Resolution::Unscaled;
    }
    broken_resolution()
}

// The resolution with this mark and these bits: 1 is single, 2 double, 0 with no bits none. Bits
// without a mark, or with any other, were meant as a resolution, so they are not taken for none.
pub fn resolution_of(mark: u32, bits: u32) -> Resolution
    ensures { result ≡ resolution_of_lem mark bits }
{
    match mark {
        0 => unmarked(bits),
        1 => Resolution::Single(rounding::f32_of_bits(bits)),
        2 => Resolution::Double(rounding::f32_of_bits(bits)),
        _ => broken_resolution(),
    }
}
