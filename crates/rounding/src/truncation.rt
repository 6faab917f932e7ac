// A float to a whole number, in the two steps of quantizing: half away from zero, then cut.
ghost use Rattle.std.specs.Prelude.{◌≡◌};
ghost use Rattle.rounding.specs.Truncation.{half_away_of, truncated_of};

use crate::Truncated;
use crate::layout::{EXPONENTS_F64, LEAD_F64, SIGN_F64};
use halves::{left, right};

// The exponent's field at 1, at 2^52, where the last digit is worth 1, and the last below 2^64.
const AT_ONE: u64 = 1023;

const AT_WHOLE: u64 = 1075;

const LAST_FITTING: u64 = 1086;

// q plus 0.5 if at least 0, else minus 0.5, in `f64`.
pub fn half_away(q: f64) -> f64
    ensures { result ≡ half_away_of q }
{
    if q >= 0.0 { q + 0.5 } else { q - 0.5 }
}

// y cut toward zero, worked out from its bits: the digits of the fraction are shifted out. None of a
// NaN, an infinity, or a magnitude of 2^64 or more.
pub fn truncated_bits(y: f64) -> Option<Truncated>
    ensures { result ≡ truncated_of y }
{
    if y != y {
        return None;
    }
    let b = f64::to_bits(y);
    let e = b / LEAD_F64 % EXPONENTS_F64;
    let negative = b >= SIGN_F64;
    if e < AT_ONE {
        return Some(Truncated {
            negative,
            magnitude: 0,
        });
    }
    let d = LEAD_F64 + b % LEAD_F64;
    if e <= AT_WHOLE {
        return Some(Truncated {
            negative,
            magnitude: right(d, (AT_WHOLE - e) as usize),
        });
    }
    if e <= LAST_FITTING {
        return Some(Truncated {
            negative,
            magnitude: left(d, (e - AT_WHOLE) as usize),
        });
    }
    None
}
