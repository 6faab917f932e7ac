// What comes of a value in a field before a bit is written: document 01, "Writing a payload", and the
// refusals of an encode.
//
// Promise: `weigh_field` takes any field, value, place and sizes and answers exactly as
// specs/Weigh.antt says: the raw or the text with the bits that the field takes, or the refusal, with
// document 01's number and values. It sees no buffer and no text, only their lengths. No public call
// has a `requires`.
#![tactic(auto)]

use bits::{BitPos, BitRefusal, ByteCount};
use descriptor::PgnBytes;
use tables::TableRule;

mod refusals;
mod texts;
mod weigh;

pub use crate::weigh::{weigh_field, weigh_gap};

// The refusals of an encode. `number` gives document 01's number, `carried` what it carries.
#[derive(Clone, Copy)]
pub enum EncodeRefusal {
    // 1, 2 and 3 (and 6, of skipped bits in a buffer that no encode lets through): what the bit call
    // would refuse, and at which field.
    BitWriteError {
        field: usize,
        refusal: BitRefusal,
    },
    // 5
    RepetitionsExceedCapacity {
        set: usize,
        count: usize,
        maximum: usize,
    },
    // 7: a buffer over 223 bytes.
    WrongLength {
        length: ByteCount,
    },
    // 8
    TableRefused {
        rule: TableRule,
        index: usize,
    },
    // 10
    OutOfRange {
        field: usize,
    },
    // 11
    WrongKind {
        field: usize,
    },
    // 12: the field that lacks a value, or the number of fields where values are left over.
    ValueCount {
        field: usize,
    },
    // 13
    TextTooLong {
        field: usize,
    },
}

// What stands around a text.
#[derive(Clone, Copy)]
pub enum Lead {
    // Nothing: a StringFix or a Binary.
    Bare,
    // Its length before it and a zero after it: a StringLz.
    Counted,
    // Its length and this encoding byte before it: a StringLau.
    Encoded(u8),
    // The byte 1, and no text: a StringLau that is absent.
    Empty,
}

// What a field takes, if it is not refused.
#[derive(Clone, Copy)]
pub enum Weighed {
    Number {
        bits: BitPos,
        raw: u64,
    },
    // Bits that stay ones.
    Gap {
        bits: BitPos,
    },
    // `text` is its place in the lent text.
    Text {
        bits: BitPos,
        lead: Lead,
        text: PgnBytes,
    },
}
