// Floats as they are.
ghost use Rattle.std.specs.Prelude.{◌≡◌, ◌%◌, ◌^◌};
ghost use Rattle.std.specs.Float.Ieee as Ieee;
ghost use Rattle.std.specs.Float.{binary32};

// An f32 as an f64: the same number, and a NaN for a NaN.
pub(crate) fn widen(x: f32) -> f64
    ensures { result ≡ x }
{
    if x != x {
        return 0.0 / 0.0;
    }
    x as f64
}

// The f32 with these bits.
pub(crate) fn float_of(raw: u64) -> f32
    ensures { result ≡ Ieee.of_bits binary32 (raw % 2 ^ 32) }
{
    rounding::f32_of_bits((raw % 0x1_0000_0000) as u32)
}
