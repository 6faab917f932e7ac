// Field descriptors, values and availability: the types of the Rust's core.rs that the numbers, the
// table check, reading and writing share. Document 01, "Shape changes": no strings; ids are field
// numbers; `PgnBytes` is a place in the payload or in the lent text.
//
// There is no rule here: what a descriptor may hold is the table check's to say, and every value of
// these types may be given to every call. Every number names a kind, and every mark a resolution: one
// that is broken names a resolution that the table check refuses.
#![tactic(auto)]

use bits::ByteCount;

mod kinds;

pub use crate::kinds::{kind_of, resolution_of};

// What a field means. `Decimal` and `Unimplemented` are the Rust's; the table check refuses them.
#[derive(Clone, Copy)]
pub enum FieldKind {
    Number,
    Float,
    Lookup,
    IndirectLookup,
    BitLookup,
    Pgn,
    Date,
    Time,
    Duration,
    Mmsi,
    Decimal,
    StringFix,
    StringLz,
    StringLau,
    Binary,
    Reserved,
    Spare,
    IsoName,
    Unimplemented,
}

// The factor of a scaled field, with its mark: whether the value is an f32 or an f64.
#[derive(Clone, Copy)]
pub enum Resolution {
    Unscaled,
    Single(f32),
    Double(f32),
}

// One field of a table. A width of 0 is none: nothing tells the two apart.
#[derive(Clone, Copy)]
pub struct FieldDescriptor {
    pub kind: FieldKind,
    pub width: u32,
    pub signed: bool,
    pub resolution: Resolution,
}

// Text or bytes by their place: `len` bytes after the first `start`. `encoding` is the encoding byte
// that a StringLau carries, where it was read or is to be written.
#[derive(Clone, Copy)]
pub struct PgnBytes {
    pub start: ByteCount,
    pub len: ByteCount,
    pub encoding: Option<u8>,
}

// A value that was read or is to be written.
#[derive(Clone, Copy)]
pub enum PgnValue {
    U64(u64),
    U32(u32),
    U16(u16),
    U8(u8),
    I64(i64),
    I32(i32),
    I16(i16),
    I8(i8),
    F64(f64),
    F32(f32),
    Bytes(PgnBytes),
}

// Whether a reading says something.
#[derive(Clone, Copy)]
pub enum Availability {
    Available,
    NotAvailable,
}
