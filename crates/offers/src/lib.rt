// The values of an encode as its caller has them: records in bytes, of 24 each.
//
// Promise: each call takes whatever it is given and answers as specs/Records.antt says. Nothing is cut
// to low bits: a word that is no value of its kind is an offer of no kind, and so is a record of
// another code or one that is cut short. No public call has a `requires`.
#![tactic(auto)]

use descriptor::PgnValue;

mod kinds;
mod rows;

pub use crate::kinds::offer_of;
pub use crate::rows::{offer_at, offer_count};

// The next value, as a caller has it.
#[derive(Clone, Copy)]
pub enum Offer {
    // There is none.
    Nothing,
    // Something that is no value of any kind.
    NoKind,
    Value(PgnValue),
}
