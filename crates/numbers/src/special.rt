// Raws that say something other than a number, in one place.
ghost use Rattle.std.specs.Prelude.{◌≡◌, min};
ghost use Rattle.numbers.specs.Scaling.{rule_of_lem};
ghost use Rattle.numbers.specs.Special.{float_availability_of, by_rule, number_availability_of, elements_of};

use crate::raws::FieldRaw;
use crate::sizes::Width;
use descriptor::{Availability, FieldDescriptor, FieldKind};

fn float_availability(raw: u64) -> Availability
    ensures { result ≡ float_availability_of raw }
{
    if 0x7f80_0000 < raw % 0x8000_0000 {
        return Availability::NotAvailable;
    }
    Availability::Available
}

// Whether a raw says something: a Float has its own rule, and all other kinds one.
pub(crate) fn availability(kind: FieldKind, signed: bool, r: FieldRaw) -> Availability
    ensures { result ≡ by_rule (rule_of_lem kind) r.bits signed r.raw }
{
    match kind {
        FieldKind::Float => float_availability(r.raw),
        _ => Width::new(r.bits, signed).availability(r.raw),
    }
}

// Whether a number field's raw says something.
pub fn number_availability(raw: u64, f: FieldDescriptor) -> Availability
    ensures { result ≡ number_availability_of f raw }
{
    availability(f.kind, f.signed, FieldRaw::new(raw, f.width))
}

// How many elements the raw of a counter means.
pub fn counter_elements(raw: u64, width: u32) -> u64
    ensures { result ≡ elements_of (min width 64) raw }
{
    let r = FieldRaw::new(raw, width);
    if r.raw == Width::new(width, false).top() {
        return 0;
    }
    r.raw
}
