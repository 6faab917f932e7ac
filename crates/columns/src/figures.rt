// Numbers in digits.
ghost use Rattle.std.specs.Prelude.{◌<◌, ◌≡◌};
ghost use Rattle.columns.specs.Numbers.{number_in, decimal_in, hex_in};

use hexadecimal::value_of;

// No number of 64 bits has more digits, in decimal and in hexadecimal.
const DECIMAL_DIGITS: usize = 20;

const HEX_DIGITS: usize = 16;

// A number in a base, of 1 to `most` digits.
fn number_in(s: &[u8], base: u64, most: usize) -> Option<u64>
    requires { 0 < base }
    ensures { result ≡ number_in base most s.now }
{
    if s.len() == 0 {
        return None;
    }
    if most < s.len() {
        return None;
    }
    let mut v: u64 = 0;
    for &b in s {
        let d = u64::from(value_of(b));
        if base <= d {
            return None;
        }
        // One digit more would be past 64 bits.
        if (u64::MAX - d) / base < v {
            return None;
        }
        v = v * base + d;
    }
    Some(v)
}

// A number of 1 to 20 digits that fits 64 bits.
pub fn decimal(s: &[u8]) -> Option<u64>
    ensures { result ≡ decimal_in s.now }
{
    number_in(s, 10, DECIMAL_DIGITS)
}

// A number of 1 to 16 digits.
pub fn hex(s: &[u8]) -> Option<u64>
    ensures { result ≡ hex_in s.now }
{
    number_in(s, 16, HEX_DIGITS)
}
