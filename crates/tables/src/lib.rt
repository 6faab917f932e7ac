// Tables of fields and repeating sets, and the table check: document 01, "Table rules".
//
// Promise: `check` takes any words and answers exactly as specs/Check.antt says of the table that they
// are: accepted, or refusal 8 with the first rule that is broken, a to h, and the lowest index at
// which it is. Nothing is asked of the words: one that is missing counts as 0. What an accepted table
// keeps is stated once, as laws, in proofs/Accepted.antt.
#![tactic(auto)]

ghost use Rattle.std.specs.Prelude.{◌≡◌};
ghost use Rattle.tables.specs.Check.{letter_of};

mod checked;
mod checking;
mod classes;
mod kept;
mod rules;
mod sets;
mod words;

pub use crate::checked::CheckedTable;
pub use crate::checking::check;
pub use crate::sets::{group_bits, is_repetitive_field};
pub use crate::words::{
    field_at, field_count, length_of, minimum_of, set_at, set_count, simple_width,
};

// The limits of rule a, for all code: the fields of a table, its repeating sets, the bytes of a payload.
// specs/Check.antt has them for all definitions, and the proofs hold these to those.
pub const FIELD_MAX: usize = 64;

pub const SET_MAX: usize = 4;

pub const PAYLOAD_MAX: usize = 223;

// A run of fields that is repeated: `size` fields from `start` on, as often as the field `counter`
// says, at most `maximum` times.
#[derive(Clone, Copy)]
pub struct RepeatingFieldSet {
    pub start: usize,
    pub size: usize,
    pub counter: usize,
    pub maximum: usize,
}

// The rules, by document 01's letters.
#[derive(Clone, Copy)]
pub enum TableRule {
    A = 1,
    B,
    C,
    D,
    E,
    F,
    G,
    H,
}

// What `check` refuses: the rule that is broken, and the field or the set that breaks it, 0 for a.
#[derive(Clone, Copy)]
pub struct BrokenRule {
    pub rule: TableRule,
    pub index: usize,
}

// The kinds, grouped by what the rules say of them.
#[derive(Clone, Copy)]
pub(crate) enum KindClass {
    // Number, Lookup, IndirectLookup, Pgn, IsoName.
    Numeric,
    // Date, Mmsi.
    Counted,
    // Duration.
    Lasting,
    // Time.
    Clock,
    // BitLookup.
    Bits,
    // Float.
    Real,
    // Reserved, Spare.
    Gap,
    // StringFix.
    Fixed,
    // StringLz.
    Lz,
    // StringLau.
    Lau,
    // Binary.
    Raw,
    // Decimal, Unimplemented.
    Unknown,
}

impl TableRule {
    // The place of the rule's letter in the alphabet: 1 for a.
    pub fn letter(self) -> u32
        ensures { result ≡ letter_of self }
    {
        self as u32
    }
}
