// One field of a payload: document 01, "Reading a payload", from what a kind is on the wire to the
// value, the raw and whether it says something.
//
// Promise: every call takes any payload, place and field, and answers exactly as specs/Content.antt
// says: the bits that the field takes, its raw and its value, or the refusal, with document 01's
// number and values. A payload is seen only through its length and the bits at a place
// (specs/Payload.antt). No public call has a `requires`.
#![tactic(auto)]

use bits::{BitPos, BitRefusal, ByteCount};
use descriptor::{FieldDescriptor, PgnValue};
use tables::TableRule;

mod availability;
mod read;
mod refusals;
mod shapes;
mod texts;

pub use crate::availability::field_availability;
pub use crate::read::read_field_raw_and_value;
pub use crate::refusals::touches_nothing;
pub use crate::shapes::{is_gap, is_number, shape_of};

// The refusals of a decode. `number` gives document 01's number, `carried` what it carries.
#[derive(Clone, Copy)]
pub enum DecodeRefusal {
    // 1, 2 and 3 (and 6 of a payload that no decode lets through): what the bit call refused, and at
    // which field.
    BitReaderError {
        field: usize,
        refusal: BitRefusal,
    },
    // 4: a number field cut short, or a string's length byte over 223.
    InvalidDataLength {
        field: usize,
    },
    // 5
    RepetitionsExceedCapacity {
        set: usize,
        count: usize,
        maximum: usize,
    },
    // 7: a payload over 223 bytes, or a padding run that is not of 223.
    WrongLength {
        length: ByteCount,
    },
    // 8
    TableRefused {
        rule: TableRule,
        index: usize,
    },
    // 9
    NoRoom {
        field: usize,
    },
}

// What a field is on the wire.
#[derive(Clone, Copy)]
pub enum Shape {
    // A raw; where it is cut short, 4 if `strict`, else what the bit call says.
    Number { strict: bool },
    // Bits that are skipped.
    Gap,
    // A StringFix.
    Fixed,
    // A Binary of whole bytes.
    Whole,
    // A StringLau.
    Lau,
    // A StringLz.
    Lz,
}

// What `read_field_raw_and_value` reads of a field. The raw is the number in its bits; a text or bytes
// have none.
#[derive(Clone, Copy)]
pub enum FieldRead {
    Got {
        bits: BitPos,
        raw: Option<u64>,
        value: PgnValue,
    },
    Skipped {
        bits: BitPos,
    },
}

// A field where it is met: field i of the table, `early` if it may stop early, and the bit that it
// starts at.
#[derive(Clone, Copy)]
pub(crate) struct FieldAt {
    f: FieldDescriptor,
    i: usize,
    early: bool,
    at: usize,
}
