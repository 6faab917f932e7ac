// A float to the narrower format: "single then narrows once".
ghost use Rattle.std.specs.Prelude.{◌≡◌, ◌^◌, ◌<◌};
ghost use Rattle.rounding.specs.Narrowing.{narrow_of, pattern_of};

use crate::half_even::closest_by;
use crate::layout::{EXPONENTS_F64, LEAD_F32, LEAD_F64, SIGN_F32, SIGN_F64};

// The exponent's field of an `f64` at half the least `f32`, 2^-150; at the least normal one, 2^-126;
// and past the largest, at 2^128.
const HALF_LEAST: u64 = 873;

const LEAST_NORMAL: u64 = 897;

const PAST_LARGEST: u64 = 1151;

const INFINITY: u64 = 0x7f80_0000;

// The bits, without the sign's, of the `f32` nearest to the `f64` of the exponent's field e and the
// digits t. 29 digits go, below the least normal one more for each step; there the bits are the kept
// number alone.
fn pattern(e: u64, t: u64) -> u64
    requires { t < 2 ^ 52 }
    ensures { result ≡ pattern_of e t }
{
    if e < HALF_LEAST {
        return 0;
    }
    let d = LEAD_F64 + t;
    if e < LEAST_NORMAL {
        return closest_by(d, 926 - e);
    }
    if e < PAST_LARGEST {
        return (e - LEAST_NORMAL) * LEAD_F32 + closest_by(d, 29);
    }
    INFINITY
}

// The `f32` nearest to x, ties to even.
pub fn narrow(x: f64) -> f32
    ensures { result ≡ narrow_of x }
{
    if x != x {
        return 0.0 / 0.0;
    }
    let b = f64::to_bits(x);
    let r = pattern(b / LEAD_F64 % EXPONENTS_F64, b % LEAD_F64);
    f32::from_bits((b / SIGN_F64 * SIGN_F32 + r) as u32)
}
