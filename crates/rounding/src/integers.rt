// Whole number to float, to nearest, ties to even. The leading zeros give the bit length: shifted
// left by them every number has 64 digits, of which the same count is rounded off, and the zeros
// alone set the exponent.
ghost use Rattle.std.specs.Prelude.{◌≡◌, pos, nat_abs};
ghost use Rattle.std.specs.Float.Ieee as Ieee;
ghost use Rattle.std.specs.Float.{binary32, binary64};

use crate::half_even::closest_by;
use crate::layout::{LEAD_F32, LEAD_F64};
use halves::left;

// The `f32` nearest to n: 24 of 64 digits stay. From 2^63 up the exponent's field is 190, of which
// the leading digit of q brings 1, and a carry out of q's digits one more.
pub fn nearest_u64_to_f32(n: u64) -> f32
    ensures { result ≡ Ieee.of_int binary32 (pos n) }
{
    if n == 0 {
        return 0.0;
    }
    let z = u64::leading_zeros(n);
    let q = closest_by(left(n, z as usize), 40);
    f32::from_bits((((189 - z) as u64) * LEAD_F32 + q) as u32)
}

// The `f64` nearest to n: 53 of 64 digits stay, and from 2^63 up the exponent's field is 1086.
pub fn nearest_u64_to_f64(n: u64) -> f64
    ensures { result ≡ Ieee.of_int binary64 (pos n) }
{
    if n == 0 {
        return 0.0;
    }
    let z = u64::leading_zeros(n);
    let q = closest_by(left(n, z as usize), 11);
    f64::from_bits(((1085 - z) as u64) * LEAD_F64 + q)
}

// n without its sign.
pub fn magnitude(n: i64) -> u64
    ensures { result ≡ nat_abs n }
{
    n.unsigned_abs()
}

// The `f32` nearest to n: +0.0 at 0.
pub fn nearest_i64_to_f32(n: i64) -> f32
    ensures { result ≡ Ieee.of_int binary32 n }
{
    let single = nearest_u64_to_f32(magnitude(n));
    if n >= 0 { single } else { -single }
}

// The `f64` nearest to n: +0.0 at 0.
pub fn nearest_i64_to_f64(n: i64) -> f64
    ensures { result ≡ Ieee.of_int binary64 n }
{
    let double = nearest_u64_to_f64(magnitude(n));
    if n >= 0 { double } else { -double }
}
