// From a raw to its value, or to the numbers that stand for the value: one walk over the rules.
ghost use Rattle.std.specs.Prelude.{◌≡◌, ◌<◌, true};
ghost use Rattle.descriptor.specs.declared.PgnValue.{PgnValue};
ghost use Rattle.descriptor.specs.declared.PgnValue.TheVariants.{U64, F64, F32};
ghost use Rattle.numbers.specs.Scaling.{unsigned_of, whole_of, duration_of, plain_of, counted_of, lasting_of, clock_of, rule_of_lem, scaled_of, scale_of};

use crate::ScaleRule;
use crate::floats::float_of;
use crate::raws::FieldRaw;
use descriptor::{FieldDescriptor, FieldKind, PgnValue, Resolution};

pub(crate) fn rule_of(kind: FieldKind) -> ScaleRule
    ensures { result ≡ rule_of_lem kind }
{
    match kind {
        FieldKind::Number
        | FieldKind::Lookup
        | FieldKind::IndirectLookup
        | FieldKind::Pgn
        | FieldKind::IsoName => ScaleRule::Plain,
        FieldKind::Date | FieldKind::Mmsi => ScaleRule::Counted,
        FieldKind::Duration => ScaleRule::Lasting,
        FieldKind::Time => ScaleRule::Clock,
        FieldKind::Float => ScaleRule::Real,
        _ => ScaleRule::Flags,
    }
}

// What a raw is told as: its value, or what stands for the value.
pub(crate) trait Told: Copy {
    ghost told: { PgnValue → Self };

    // By the unsigned kind that its bits fit.
    fn unsigned(r: FieldRaw) -> Self
        ensures { result ≡ told (unsigned_of r.bits r.raw) };

    // By the signed one.
    fn signed(r: FieldRaw) -> Self
        ensures { result ≡ told (whole_of r.bits true r.raw) };

    // A Duration starts at 16 bits.
    fn duration(r: FieldRaw) -> Self
        ensures { result ≡ told (duration_of r.bits r.raw) };

    fn double_word(n: u64) -> Self
        ensures { result ≡ told (U64 n) };

    fn single(x: f32) -> Self
        ensures { result ≡ told (F32 x) };

    fn double(x: f64) -> Self
        ensures { result ≡ told (F64 x) };
}

impl Told for PgnValue {
    ghost told = { λ v. v };

    fn unsigned(r: FieldRaw) -> PgnValue {
        match r.bits {
            0..=8 => PgnValue::U8(r.raw as u8),
            9..=16 => PgnValue::U16(r.raw as u16),
            17..=32 => PgnValue::U32(r.raw as u32),
            _ => PgnValue::U64(r.raw),
        }
    }

    fn signed(r: FieldRaw) -> PgnValue {
        let z = r.signed();
        match r.bits {
            0..=8 => PgnValue::I8(z as i8),
            9..=16 => PgnValue::I16(z as i16),
            17..=32 => PgnValue::I32(z as i32),
            _ => PgnValue::I64(z),
        }
    }

    fn duration(r: FieldRaw) -> PgnValue {
        match r.bits {
            0..=16 => PgnValue::U16(r.raw as u16),
            17..=32 => PgnValue::U32(r.raw as u32),
            _ => PgnValue::U64(r.raw),
        }
    }

    fn double_word(n: u64) -> PgnValue {
        PgnValue::U64(n)
    }

    fn single(x: f32) -> PgnValue {
        PgnValue::F32(x)
    }

    fn double(x: f64) -> PgnValue {
        PgnValue::F64(x)
    }
}

// Number, Lookup, IndirectLookup, Pgn and IsoName.
fn plain<T: Told>(resolution: Resolution, signed: bool, r: FieldRaw) -> T
    ensures { result ≡ T.told (plain_of resolution r.bits signed r.raw) }
{
    match resolution {
        Resolution::Unscaled => { if signed { T::signed(r) } else { T::unsigned(r) } }
        Resolution::Single(factor) => T::single(r.to_f32(signed) * factor),
        Resolution::Double(factor) => T::double(r.product(signed, factor)),
    }
}

// Date and Mmsi: unsigned, and narrowed after the product.
fn counted<T: Told>(resolution: Resolution, r: FieldRaw) -> T
    ensures { result ≡ T.told (counted_of resolution r.bits r.raw) }
{
    match resolution {
        Resolution::Unscaled => T::unsigned(r),
        Resolution::Single(factor) => T::single(rounding::narrow(r.product(false, factor))),
        Resolution::Double(factor) => T::double(r.product(false, factor)),
    }
}

// Duration: as Date, and signed where it is scaled.
fn lasting<T: Told>(resolution: Resolution, signed: bool, r: FieldRaw) -> T
    ensures { result ≡ T.told (lasting_of resolution r.bits signed r.raw) }
{
    match resolution {
        Resolution::Unscaled => T::duration(r),
        Resolution::Single(factor) => T::single(rounding::narrow(r.product(signed, factor))),
        Resolution::Double(factor) => T::double(r.product(signed, factor)),
    }
}

// Time: an f64 whatever the mark.
fn clock<T: Told>(resolution: Resolution, r: FieldRaw) -> T
    ensures { result ≡ T.told (clock_of resolution r.raw) }
{
    match resolution {
        Resolution::Unscaled => T::double_word(r.raw),
        Resolution::Single(factor) | Resolution::Double(factor) => {
            T::double(r.product(false, factor))
        }
    }
}

// What a field's raw is told as.
pub(crate) fn scaled<T: Told>(f: FieldDescriptor, r: FieldRaw) -> T
    ensures { result ≡ T.told (scaled_of (rule_of_lem f.kind) f.resolution r.bits f.signed r.raw) }
{
    match rule_of(f.kind) {
        ScaleRule::Plain => plain(f.resolution, f.signed, r),
        ScaleRule::Counted => counted(f.resolution, r),
        ScaleRule::Lasting => lasting(f.resolution, f.signed, r),
        ScaleRule::Clock => clock(f.resolution, r),
        ScaleRule::Real => T::single(float_of(r.raw)),
        ScaleRule::Flags => T::unsigned(r),
    }
}

// The value of a raw: as many of its low bits as the field is wide, at most 64.
pub fn scale_raw_field(raw: u64, f: FieldDescriptor) -> PgnValue
    ensures { result ≡ scale_of f raw }
{
    scaled(f, FieldRaw::new(raw, f.width))
}
