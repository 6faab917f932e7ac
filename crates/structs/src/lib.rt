// A payload into a lent run of structs, laid out as C lays them out: what a caller in C or Rust reads in place.
//
// Promise: `decode_run` takes any words, payload, padding run and run of structs, and answers as `decode` of
// `lent_readings` does. Each struct is made of its reading, as specs/Structs.antt says; every later entry of the run
// is as it was. On a machine that puts the low byte first, a struct's 64 bytes are those of its record in
// `records`: proofs/Same.antt. No call has a `requires`.
#![tactic(auto)]

ghost use Rattle.std.specs.Prelude.{◌≡◌};
ghost use Rattle.structs.specs.Structs.{struct_of};
ghost use Rattle.structs.specs.Clauses.{DecodesRun};

use lent_readings::Entry;
use reading::{Decoded, Reading};

mod bytes;

// A reading. C's fields in C's order: eight numbers of 64 bits, the fifth of which is eight bytes.
#[repr(C)]
#[derive(Clone, Copy)]
pub struct Record {
    pub field: u64,
    pub element: u64,
    pub start: u64,
    pub bits: u64,
    pub availability: u8,
    pub value_kind: u8,
    pub has_raw: u8,
    pub has_encoding: u8,
    pub encoding: u8,
    pub reserved_0: u8,
    pub reserved_1: u8,
    pub reserved_2: u8,
    pub raw: u64,
    pub value: u64,
    pub length: u64,
}

// The struct of a reading.
pub fn record_of(r: Reading) -> Record
    ensures { result ≡ struct_of r }
{
    let b = records::bytes_in(r.value);
    Record {
        field: r.field as u64,
        element: records::element_word(r.element),
        start: r.start.0 as u64,
        bits: r.bits.0 as u64,
        availability: bytes::availability(r.availability),
        value_kind: bytes::value_kind(r.value),
        has_raw: bytes::has_raw(r.raw),
        has_encoding: bytes::has_encoding(b.encoding),
        encoding: bytes::encoding(b.encoding),
        reserved_0: 0,
        reserved_1: 0,
        reserved_2: 0,
        raw: records::raw_word(r.raw),
        value: records::value_word(r.value),
        length: b.len.0 as u64,
    }
}

impl Entry for Record {
    ghost one = { struct_of };

    fn of(reading: Reading) -> Record {
        record_of(reading)
    }
}

// Every field of a received payload, by a table, into a run of structs: the end and the number of readings, or the
// refusal. The padding run is of 223 bytes.
pub fn decode_run(words: &[u64], received: &[u8], padded: &mut [u8], out: &mut [Record]) -> Decoded
    ensures { DecodesRun result padded.new out.new words.now received.now padded.old out.old }
{
    lent_readings::decode_as(words, received, padded, out)
}
