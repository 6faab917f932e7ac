// What the kinds are on the wire.
ghost use Rattle.std.specs.Prelude.{◌≡◌};
ghost use Rattle.fields.specs.Shapes.{shape_of, binary_of, is_number, is_gap_lem};

use crate::Shape;
use descriptor::{FieldDescriptor, FieldKind};

// What a field is on the wire.
pub fn shape_of(f: FieldDescriptor) -> Shape
    ensures { result ≡ shape_of f }
{
    match f.kind {
        FieldKind::BitLookup
        | FieldKind::Number
        | FieldKind::Lookup
        | FieldKind::IndirectLookup
        | FieldKind::Pgn
        | FieldKind::IsoName => Shape::Number { strict: true },
        FieldKind::Float
        | FieldKind::Date
        | FieldKind::Time
        | FieldKind::Duration
        | FieldKind::Mmsi
        | FieldKind::Decimal
        | FieldKind::Unimplemented => Shape::Number { strict: false },
        FieldKind::StringFix => Shape::Fixed,
        FieldKind::StringLz => Shape::Lz,
        FieldKind::StringLau => Shape::Lau,
        FieldKind::Binary => binary(f.width),
        FieldKind::Reserved | FieldKind::Spare => Shape::Gap,
    }
}

fn binary(width: u32) -> Shape
    ensures { result ≡ binary_of width }
{
    if width % 8 == 0 {
        Shape::Whole
    } else {
        Shape::Number { strict: false }
    }
}

// Whether a field is a raw. By the kind alone where it can be, since a table of bits is then enough.
pub fn is_number(f: FieldDescriptor) -> bool
    ensures { result ≡ is_number (shape_of f) }
{
    match f.kind {
        FieldKind::Binary => f.width % 8 != 0,
        FieldKind::StringFix
        | FieldKind::StringLz
        | FieldKind::StringLau
        | FieldKind::Reserved
        | FieldKind::Spare => false,
        _ => true,
    }
}

// Whether a field is bits that are skipped.
pub fn is_gap(f: FieldDescriptor) -> bool
    ensures { result ≡ is_gap_lem (shape_of f) }
{
    matches!(f.kind, FieldKind::Reserved | FieldKind::Spare)
}
