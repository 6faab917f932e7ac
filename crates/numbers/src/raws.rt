// A field's raw as a whole number: two's complement of any width.
ghost use Rattle.std.specs.Prelude.{◌≡◌, ◌%◌, ◌^◌, ◌≤◌, ◌<◌, min, negsuc};
ghost use Rattle.std.specs.Float.Ieee as Ieee;
ghost use Rattle.std.specs.Float.{binary32, binary64};
ghost use Rattle.numbers.specs.Signs.{signed_of, meaning_of, sign_extend_of};
ghost use Rattle.numbers.specs.Scaling.{product_of};

use crate::floats::widen;
use halves::{left, ones};

// The bits of a raw that count, as many as the field is wide and 64 at the most.
#[derive(Clone, Copy)]
pub(crate) struct FieldRaw {
    pub(crate) bits: u32,
    pub(crate) raw: u64,
    ghost within: { bits ≤ 64 },
    ghost fits: { raw < 2 ^ bits },
}

// The number -1 - d.
fn below_zero(d: u64) -> i64
    requires { d < 2 ^ 63 }
    ensures { result ≡ negsuc d }
{
    -1 - (d as i64)
}

impl FieldRaw {
    // The low bits of a raw, in a field that is so wide.
    pub(crate) fn new(raw: u64, width: u32) -> FieldRaw
        ensures bits { result.bits ≡ min width 64 }
        ensures raw { result.raw ≡ raw % 2 ^ min width 64 }
    {
        let bits = width.min(64);
        FieldRaw {
            bits,
            raw: raw & ones(bits as usize),
        }
    }

    // What it means in a signed field. 2^64 does not fit, so the distance to it is taken from its
    // half on.
    pub(crate) fn signed(self) -> i64
        ensures { result ≡ signed_of self.bits self.raw }
    {
        if self.bits == 0 {
            return 0;
        }
        let half = left(1, (self.bits - 1) as usize);
        if self.raw < half {
            return self.raw as i64;
        }
        let over = self.raw - half;
        below_zero(half - 1 - over)
    }

    // What it means, rounded to f32.
    pub(crate) fn to_f32(self, signed: bool) -> f32
        ensures { result ≡ Ieee.of_int binary32 (meaning_of self.bits signed self.raw) }
    {
        if signed {
            return rounding::nearest_i64_to_f32(self.signed());
        }
        rounding::nearest_u64_to_f32(self.raw)
    }

    // What it means, rounded to f64.
    fn to_f64(self, signed: bool) -> f64
        ensures { result ≡ Ieee.of_int binary64 (meaning_of self.bits signed self.raw) }
    {
        if signed {
            return rounding::nearest_i64_to_f64(self.signed());
        }
        rounding::nearest_u64_to_f64(self.raw)
    }

    // What it means times the resolution, in f64.
    pub(crate) fn product(self, signed: bool, resolution: f32) -> f64
        ensures { result ≡ product_of (meaning_of self.bits signed self.raw) resolution }
    {
        self.to_f64(signed) * widen(resolution)
    }
}

// The `bits` low bits of a number as a signed one, at most 64 of them.
pub fn sign_extend(value: u64, bits: u32) -> i64
    ensures { result ≡ sign_extend_of value bits }
{
    FieldRaw::new(value, bits).signed()
}
