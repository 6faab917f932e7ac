// The one place that rounds: to nearest, ties to even.
ghost use Rattle.std.specs.Prelude.{◌≡◌, ◌^◌, ◌<◌};
ghost use Rattle.std.specs.Float.Ieee.Nearest.{closest};

use halves::{left, ones, right};

// m / 2^k to the nearest whole number, a tie to the even one. An odd quotient goes up at a tie, as
// its last bit lifts the remainder over the half. No division: a compiler may make of one by a power
// of two the 64-bit shift that must not be.
pub(crate) fn closest_by(m: u64, k: u64) -> u64
    requires { (0 < k) × (k < 64) }
    ensures { result ≡ closest m (2 ^ k) }
{
    let h = left(1, (k - 1) as usize);
    let q = right(m, k as usize);
    let rest = m & ones(k as usize);
    if rest + q % 2 > h { q + 1 } else { q }
}
