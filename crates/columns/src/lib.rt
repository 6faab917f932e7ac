// The fields of a line, which a mark sets apart: names, numbers in decimal, numbers and bytes in capital
// hexadecimal, as the crate `text` prints them.
//
// Promise: every call takes any bytes and any numbers, and answers as specs/ says. What is not of its
// form is None, and then a lent buffer stays as it was. What is printed is read back:
// proofs/Back.antt. No call has a `requires`, and nothing is assumed. Limit: numbers have 64 bits.
#![tactic(auto)]

mod figures;
mod names;
mod parts;
mod runs;

pub use crate::figures::{decimal, hex};
pub use crate::names::{place_in, same};
pub use crate::parts::{field_end, marks, part, part_end, word};
pub use crate::runs::{bytes, pairs, words};
