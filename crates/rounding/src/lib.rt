// Whole numbers and floats, rounded and cut: document 01, "Raw numbers and floats".
//
// Promise: every call takes any input and gives the one answer that its contract names, in the
// words of specs/ and of the logic's account of IEEE 754. Rounding is to nearest, ties to even, and
// done once. proofs/Laws.antt says how far a rounded whole number is off: not at all, or by the
// paper's bound. No call has a `requires`, and nothing is assumed.
// A NaN that is answered has no particular sign or payload; its bits, where they are asked for, are
// those of the one NaN that the logic has.
#![tactic(auto)]

mod formats;
mod half_even;
mod integers;
mod layout;
mod patterns;
mod truncation;

pub use crate::formats::narrow;
pub use crate::integers::{
    magnitude, nearest_i64_to_f32, nearest_i64_to_f64, nearest_u64_to_f32, nearest_u64_to_f64,
};
pub use crate::patterns::{bits_of_f32, bits_of_f64, f32_of_bits, f64_of_bits};
pub use crate::truncation::{half_away, truncated_bits};

// A float without its fraction. `negative` is the float's sign, also where the magnitude is 0, as of
// -0.0 and -0.4.
#[derive(Clone, Copy)]
pub struct Truncated {
    pub negative: bool,
    pub magnitude: u64,
}
