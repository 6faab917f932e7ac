// A float by its bits. A NaN's can be neither read nor made into a float, so every NaN has those of
// the one NaN that the logic has.
ghost use Rattle.std.specs.Prelude.{◌≡◌};
ghost use Rattle.std.specs.Float.Ieee as Ieee;
ghost use Rattle.std.specs.Float.{binary32, binary64};

use std::num;

// The `f32` with these bits.
pub fn f32_of_bits(b: u32) -> f32
    ensures { result ≡ Ieee.of_bits binary32 b }
{
    num::f32_from_bits_with_nan(b)
}

// The `f64` with these bits.
pub fn f64_of_bits(b: u64) -> f64
    ensures { result ≡ Ieee.of_bits binary64 b }
{
    num::f64_from_bits_with_nan(b)
}

// The bits of an `f32`.
pub fn bits_of_f32(x: f32) -> u32
    ensures { result ≡ Ieee.to_bits binary32 x }
{
    num::f32_to_bits_with_nan(x)
}

// The bits of an `f64`.
pub fn bits_of_f64(x: f64) -> u64
    ensures { result ≡ Ieee.to_bits binary64 x }
{
    num::f64_to_bits_with_nan(x)
}
