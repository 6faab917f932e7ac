// Signed and decimal numbers, as the 64 bits that their records hold.
ghost use Rattle.std.specs.Prelude.{◌≡◌, pos};
ghost use Rattle.std.specs.Float.{binary64};
ghost use Rattle.std.specs.Float.Ieee.{div, of_int};
ghost use Rattle.compose.specs.Decimals.{is_negative_lem, unsigned, head_of, tail_of, is_signed, complement, signed_in, pattern_of, double_of, double_in};

use columns::{decimal, part, part_end};
use rounding::nearest_u64_to_f64;

// A number has at most so many digits: as an integer it is then below 2^53.
const DIGITS: usize = 15;

// How far from 0 the least number of 64 bits is.
const LEAST: u64 = 0x8000_0000_0000_0000;

// What stands before the first mark.
pub(crate) fn head(s: &[u8], mark: u8) -> &[u8]
    ensures { result.now ≡ head_of mark s.now }
{
    let end = part_end(s, 0, mark);
    &s[0..end]
}

// .. and after it.
pub(crate) fn tail(s: &[u8], mark: u8) -> &[u8]
    ensures { result.now ≡ tail_of mark s.now }
{
    let end = part_end(s, 0, mark);
    if end < s.len() {
        let from = end + 1;
        return &s[from..];
    }
    &s[end..]
}

// Whether a sign comes first.
fn is_negative(s: &[u8]) -> bool
    ensures { result ≡ is_negative_lem s.now }
{
    if s.len() == 0 {
        return false;
    }
    s[0] == b'-'
}

// What comes after a sign.
fn unsigned(s: &[u8]) -> &[u8]
    ensures { result.now ≡ unsigned s.now }
{
    if is_negative(s) {
        return part(s, 1, s.len());
    }
    s
}

// Whether a number with its sign has 64 bits.
fn is_signed(negative: bool, n: u64) -> bool
    ensures { result ≡ is_signed negative n }
{
    if negative { n <= LEAST } else { n < LEAST }
}

// In two's complement.
fn complement(negative: bool, n: u64) -> u64
    ensures { result ≡ complement negative n }
{
    if negative & (0 < n) {
        return u64::MAX - (n - 1);
    }
    n
}

// A number of 64 bits with its sign, in two's complement.
pub(crate) fn signed(s: &[u8]) -> Option<u64>
    ensures { result ≡ signed_in s.now }
{
    let negative = is_negative(s);
    let n = decimal(unsigned(s))?;
    if is_signed(negative, n) {
        Some(complement(negative, n))
    } else {
        None
    }
}

// n over a power of ten: both are exact, and the division rounds once.
fn quotient(n: u64, ten: u64) -> f64
    ensures { result ≡ div binary64 (of_int binary64 (pos n)) (of_int binary64 (pos ten)) }
{
    nearest_u64_to_f64(n) / nearest_u64_to_f64(ten)
}

fn pattern(negative: bool, x: f64) -> u64
    ensures { result ≡ pattern_of negative x }
{
    let value = if negative { -x } else { x };
    rounding::bits_of_f64(value)
}

// A decimal number by its digits before the point and after it.
fn unsigned_double(s: &[u8], negative: bool) -> Option<u64>
    ensures { result ≡ double_of negative s.now }
{
    let whole = head(s, b'.');
    let rest = tail(s, b'.');
    let a = decimal(whole)?;
    let b = decimal(rest);
    if whole.len() < s.len() && b.is_none() {
        return None;
    }
    if DIGITS < whole.len() + rest.len() {
        return None;
    }
    let power = 10u64.pow(rest.len() as u32);
    let n = a * power + b.unwrap_or(0);
    Some(pattern(negative, quotient(n, power)))
}

// The f64 nearest to a decimal number with its sign.
pub(crate) fn double(s: &[u8]) -> Option<u64>
    ensures { result ≡ double_in s.now }
{
    unsigned_double(unsigned(s), is_negative(s))
}
