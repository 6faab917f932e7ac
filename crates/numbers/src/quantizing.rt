// From a value to a raw: the f64 quotient, a half away from zero, the cut, the limits.
ghost use Rattle.std.specs.Prelude.{◌≡◌, ◌^◌, ◌≤◌, None};
ghost use Rattle.rounding.specs.Truncation.{truncated_of};
ghost use Rattle.numbers.specs.Quantizing.{complement_of, exactly_of, nearly_of, cut_of, quotient_of, quantize_of};

use crate::NumberRefusal;
use crate::floats::widen;
use crate::holding::is_width;
use crate::sizes::Width;
use halves::{left, ones};
use rounding::Truncated;

impl Width {
    // The raw of a number by its sign and magnitude.
    fn complement(self, negative: bool, magnitude: u64) -> u64
        requires { magnitude ≤ 2 ^ self.bits }
        ensures { result ≡ complement_of self.bits negative magnitude }
    {
        if negative && magnitude != 0 {
            return ones(self.bits as usize) - (magnitude - 1);
        }
        magnitude
    }

    // In range, or 10.
    #[inline(always)]
    pub(crate) fn exactly(self, negative: bool, magnitude: u64) -> Result<u64, NumberRefusal>
        ensures { result ≡ exactly_of self.bits self.signed negative magnitude }
    {
        if self.limit(negative) < magnitude {
            return Err(NumberRefusal::OutOfRange);
        }
        Ok(self.complement(negative, magnitude))
    }

    // In range, or above 53 bits as near beyond a limit as f64 can tell: then that limit; or 10.
    fn nearly(self, negative: bool, magnitude: u64) -> Result<u64, NumberRefusal>
        ensures { result ≡ nearly_of self.bits self.signed negative magnitude }
    {
        let limit = self.limit(negative);
        if 53 < self.bits
            && limit < magnitude
            && magnitude - limit <= left(1, (self.bits - 53) as usize)
        {
            return self.exactly(negative, limit);
        }
        self.exactly(negative, magnitude)
    }

    // A float whose magnitude is 2^64 or more, or that is none. Of the unsigned 64-bit raws the last is
    // still within 2,048 of 2^64, and of no other float so large.
    fn too_big(self, y: f64) -> Result<u64, NumberRefusal>
        requires { truncated_of y ≡ None }
        ensures { result ≡ cut_of self.bits self.signed y }
    {
        if y == 18446744073709551616.0 && !self.signed && self.bits == 64 {
            return Ok(0xffff_ffff_ffff_ffff);
        }
        Err(NumberRefusal::OutOfRange)
    }

    // Cut toward zero, then the limits.
    fn cut(self, y: f64) -> Result<u64, NumberRefusal>
        ensures { result ≡ cut_of self.bits self.signed y }
    {
        match rounding::truncated_bits(y) {
            Some(
                Truncated {
                    negative,
                    magnitude,
                },
            ) => self.nearly(negative, magnitude),
            None => self.too_big(y),
        }
    }

    // The raw of a value in a scaled field.
    pub(crate) fn quotient(self, value: f64, resolution: f32) -> Result<u64, NumberRefusal>
        ensures { result ≡ quotient_of value resolution self.bits self.signed }
    {
        let q = value / widen(resolution);
        if q.is_finite() {
            return self.cut(rounding::half_away(q));
        }
        Err(NumberRefusal::OutOfRange)
    }
}

// The raw of a value in a scaled field of so many bits: 1 to 64, else 1.
pub fn quantize(value: f64, resolution: f32, bits: u32, signed: bool) -> Result<u64, NumberRefusal>
    ensures { result ≡ quantize_of value resolution bits signed }
{
    if is_width(bits) {
        return Width::new(bits, signed).quotient(value, resolution);
    }
    Err(NumberRefusal::BadWidth(bits))
}
