// The rules b to e, of a field by itself.
ghost use Rattle.std.specs.Prelude.{◌≡◌, true, pos, negsuc};
ghost use Rattle.tables.specs.Rules.{class_of_lem, known, whole_bytes_lem, width_fits_lem, scales, in_scale_lem, resolution_fits_lem, scaled, sign_fits_lem, counts};

use crate::KindClass;
use descriptor::{FieldKind, Resolution};

pub(crate) fn class_of(kind: FieldKind) -> KindClass
    ensures { result ≡ class_of_lem kind }
{
    match kind {
        FieldKind::Number
        | FieldKind::Lookup
        | FieldKind::IndirectLookup
        | FieldKind::Pgn
        | FieldKind::IsoName => KindClass::Numeric,
        FieldKind::Date | FieldKind::Mmsi => KindClass::Counted,
        FieldKind::Duration => KindClass::Lasting,
        FieldKind::Time => KindClass::Clock,
        FieldKind::BitLookup => KindClass::Bits,
        FieldKind::Float => KindClass::Real,
        FieldKind::Reserved | FieldKind::Spare => KindClass::Gap,
        FieldKind::StringFix => KindClass::Fixed,
        FieldKind::StringLz => KindClass::Lz,
        FieldKind::StringLau => KindClass::Lau,
        FieldKind::Binary => KindClass::Raw,
        FieldKind::Decimal | FieldKind::Unimplemented => KindClass::Unknown,
    }
}

// Number, Lookup, IndirectLookup, Pgn and IsoName.
pub(crate) fn is_numeric(kind: FieldKind) -> bool
    ensures { result ≡ true → class_of_lem kind ≡ KindClass.Numeric }
{
    matches!(class_of(kind), KindClass::Numeric)
}

// b
pub(crate) fn is_known(c: KindClass) -> bool
    ensures { result ≡ known c }
{
    !matches!(c, KindClass::Unknown)
}

fn whole_bytes(w: u32) -> bool
    ensures { result ≡ whole_bytes_lem w }
{
    w % 8 == 0 && (8..=1784).contains(&w)
}

// c
pub(crate) fn width_fits(c: KindClass, w: u32) -> bool
    ensures { result ≡ width_fits_lem c w }
{
    match c {
        KindClass::Real => w == 32,
        KindClass::Fixed => whole_bytes(w),
        KindClass::Lz | KindClass::Lau => w == 0,
        KindClass::Raw => whole_bytes(w) || (w % 8 != 0 && w <= 63),
        _ => (1..=64).contains(&w),
    }
}

fn can_scale(c: KindClass) -> bool
    ensures { result ≡ scales c }
{
    matches!(
        c,
        KindClass::Numeric | KindClass::Counted | KindClass::Lasting | KindClass::Clock
    )
}

// From 2^-64 to 2^20. A NaN is in no range.
fn in_scale(r: f32) -> bool
    ensures { result ≡ in_scale_lem r }
{
    5.421010862427522e-20 <= r && r <= 1048576.0
}

// d
pub(crate) fn resolution_fits(c: KindClass, resolution: Resolution) -> bool
    ensures { result ≡ resolution_fits_lem c resolution }
{
    match resolution {
        Resolution::Unscaled => true,
        Resolution::Single(r) | Resolution::Double(r) => can_scale(c) && in_scale(r),
    }
}

pub(crate) fn is_scaled(resolution: Resolution) -> bool
    ensures { result ≡ scaled resolution }
{
    !matches!(resolution, Resolution::Unscaled)
}

// e
pub(crate) fn sign_fits(c: KindClass, w: u32, signed: bool, scaled: bool) -> bool
    ensures { result ≡ sign_fits_lem c w signed scaled }
{
    match c {
        KindClass::Numeric => true,
        KindClass::Counted => !signed && (scaled || w == 16 || w == 32),
        KindClass::Lasting => !signed || scaled,
        _ => !signed,
    }
}

// Number and Lookup can count.
pub(crate) fn can_count(kind: FieldKind) -> bool
    ensures { result ≡ counts kind }
{
    matches!(kind, FieldKind::Number | FieldKind::Lookup)
}
