// Which fields hold a number.
ghost use Rattle.std.specs.Prelude.{◌≡◌};
ghost use Rattle.numbers.specs.Holds.{is_width_lem, is_numeric_lem, holds_of};

use crate::NumberRefusal;
use descriptor::{FieldDescriptor, FieldKind};

// Whether a number can have so many bits.
pub(crate) fn is_width(n: u32) -> bool
    ensures { result ≡ is_width_lem n }
{
    1 <= n && n <= 64
}

// Whether a field of a kind and a width is a number on the wire.
fn is_numeric(kind: FieldKind, width: u32) -> bool
    ensures { result ≡ is_numeric_lem kind width }
{
    match kind {
        FieldKind::Binary => width % 8 != 0,
        FieldKind::Reserved
        | FieldKind::Spare
        | FieldKind::StringFix
        | FieldKind::StringLz
        | FieldKind::StringLau
        | FieldKind::Decimal
        | FieldKind::Unimplemented => false,
        _ => true,
    }
}

// Whether a field holds a number, of 1 to 64 bits: 11 where its kind is none, 1 where its width is.
pub fn holds_number(f: FieldDescriptor) -> Result<(), NumberRefusal>
    ensures { result ≡ holds_of f }
{
    if !is_numeric(f.kind, f.width) {
        return Err(NumberRefusal::WrongKind);
    }
    if !is_width(f.width) {
        return Err(NumberRefusal::BadWidth(f.width));
    }
    Ok(())
}
