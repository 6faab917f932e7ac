// Which values a field takes, and the raw that it writes.
ghost use Rattle.std.specs.Prelude.{◌≡◌};
ghost use Rattle.numbers.specs.Conversions.{to_f64_of, to_i64_of, to_u64_of, scaled_raw_of, float_raw_of, whole_raw_of, resolved_of, held_raw_of, raw_of_lem};

use crate::floats::widen;
use crate::holding::holds_number;
use crate::scale::rule_of;
use crate::sizes::Width;
use crate::{NumberRefusal, ScaleRule};
use descriptor::{FieldDescriptor, PgnValue, Resolution};

// Floats as they are, signed integers rounded.
pub fn pgn_value_to_f64(value: PgnValue) -> Option<f64>
    ensures { result ≡ to_f64_of value }
{
    match value {
        PgnValue::F64(x) => Some(x),
        PgnValue::F32(x) => Some(widen(x)),
        _ => Some(rounding::nearest_i64_to_f64(pgn_value_to_i64(value)?)),
    }
}

// Signed integers.
pub fn pgn_value_to_i64(value: PgnValue) -> Option<i64>
    ensures { result ≡ to_i64_of value }
{
    match value {
        PgnValue::I64(z) => Some(z),
        PgnValue::I32(z) => Some(z as i64),
        PgnValue::I16(z) => Some(z as i64),
        PgnValue::I8(z) => Some(z as i64),
        _ => None,
    }
}

// Unsigned integers.
pub fn pgn_value_to_u64(value: PgnValue) -> Option<u64>
    ensures { result ≡ to_u64_of value }
{
    match value {
        PgnValue::U64(n) => Some(n),
        PgnValue::U32(n) => Some(n as u64),
        PgnValue::U16(n) => Some(n as u64),
        PgnValue::U8(n) => Some(n as u64),
        _ => None,
    }
}

impl Width {
    // The raw of a value in a scaled field.
    fn scaled(self, resolution: f32, value: PgnValue) -> Result<u64, NumberRefusal>
        ensures { result ≡ scaled_raw_of (to_f64_of value) resolution self.bits self.signed }
    {
        let Some(x) = pgn_value_to_f64(value) else {
            return Err(NumberRefusal::WrongKind);
        };
        self.quotient(x, resolution)
    }

    // The raw of a value in an unscaled field.
    #[inline(always)]
    fn whole(self, value: PgnValue) -> Result<u64, NumberRefusal>
        ensures { result ≡ whole_raw_of self.bits self.signed value }
    {
        if self.signed {
            let Some(z) = pgn_value_to_i64(value) else {
                return Err(NumberRefusal::WrongKind);
            };
            return self.exactly(z < 0, rounding::magnitude(z));
        }
        let Some(m) = pgn_value_to_u64(value) else {
            return Err(NumberRefusal::WrongKind);
        };
        self.exactly(false, m)
    }
}

fn float(value: PgnValue) -> Result<u64, NumberRefusal>
    ensures { result ≡ float_raw_of value }
{
    let PgnValue::F32(x) = value else {
        return Err(NumberRefusal::WrongKind);
    };
    Ok(rounding::bits_of_f32(x) as u64)
}

// A field that may be scaled: its width where it is, and where it is not. Called, it would be handed value
// and answer through memory, in pieces.
#[inline(always)]
fn resolved(
    resolution: Resolution,
    scaled: Width,
    whole: Width,
    value: PgnValue,
) -> Result<u64, NumberRefusal>
    ensures { result ≡ resolved_of resolution scaled.bits scaled.signed value (whole_raw_of whole.bits whole.signed value) }
{
    match resolution {
        Resolution::Unscaled => whole.whole(value),
        Resolution::Single(factor) | Resolution::Double(factor) => scaled.scaled(factor, value),
    }
}

// The raw of a value in a field that holds a number.
fn held_raw(f: FieldDescriptor, value: PgnValue) -> Result<u64, NumberRefusal>
    ensures { result ≡ held_raw_of f value }
{
    let told = Width::new(f.width, f.signed);
    let unsigned = Width::new(f.width, false);
    match rule_of(f.kind) {
        ScaleRule::Plain => resolved(f.resolution, told, told, value),
        ScaleRule::Lasting => resolved(f.resolution, told, unsigned, value),
        ScaleRule::Counted | ScaleRule::Clock => {
            resolved(f.resolution, unsigned, unsigned, value)
        }
        ScaleRule::Real => float(value),
        ScaleRule::Flags => unsigned.whole(value),
    }
}

// The raw of a value in a field: 11 where the field holds no number, 1 where its width is none; then
// 11 or 10 by the value.
pub fn number_to_raw(f: FieldDescriptor, value: PgnValue) -> Result<u64, NumberRefusal>
    ensures { result ≡ raw_of_lem f value }
{
    holds_number(f)?;
    held_raw(f, value)
}
