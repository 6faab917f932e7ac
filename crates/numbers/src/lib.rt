// Raw numbers and the values that they stand for: document 01, "Raw numbers and floats".
//
// Promise: every call takes any raw, value and descriptor and gives the one answer that specs/ says;
// a value that does not fit gets refusal 10, one of another kind 11, and a width that no number has 1.
// No call has a `requires`. A float is a value of IEEE 754 as the logic has it, with one NaN; nothing
// else is assumed.
#![tactic(auto)]

mod conversions;
mod floats;
mod holding;
mod quantizing;
mod raws;
mod refusals;
mod scale;
mod sizes;
mod special;
mod words;

pub use crate::conversions::{number_to_raw, pgn_value_to_f64, pgn_value_to_i64, pgn_value_to_u64};
pub use crate::holding::holds_number;
pub use crate::quantizing::quantize;
pub use crate::raws::sign_extend;
pub use crate::refusals::{raw_carried, raw_carried_count, raw_number};
pub use crate::scale::scale_raw_field;
pub use crate::special::{counter_elements, number_availability};
pub use crate::words::{code_of, number_words, silence_of, simple_words, word_of};

// The rules by which a raw becomes a value and a value a raw.
#[derive(Clone, Copy)]
pub(crate) enum ScaleRule {
    // Number, Lookup, IndirectLookup, Pgn, IsoName.
    Plain,
    // Date, Mmsi.
    Counted,
    // Duration.
    Lasting,
    // Time.
    Clock,
    // Float.
    Real,
    // BitLookup, and a Binary that is no whole number of bytes.
    Flags,
}

// The answer of `number_words`: the code of the value's kind, its 64 bits, and 1 if it says nothing.
#[derive(Clone, Copy)]
pub struct NumberWords {
    pub code: u64,
    pub word: u64,
    pub silence: u64,
}

// Why a number is refused. `number` gives document 01's number, `carried` what it carries; `raw_number`
// and `raw_carried` those of an answer that may be a raw.
#[derive(Clone, Copy)]
pub enum NumberRefusal {
    // 1: this width, of 0 bits or over 64.
    BadWidth(u32),
    // 10
    OutOfRange,
    // 11: a value of another kind. A field of text, bytes, bits that are skipped, or a kind that
    // document 01 does not have takes no number.
    WrongKind,
}
