// A payload into a lent run of readings: document 01, "readings go into a lent run of such records".
//
// Promise: `decode` takes any words, payload, padding run and run of readings, and answers as
// specs/Decode.antt of `reading` says, with as much room as the run has entries. The padding run holds at
// exit what specs/Filling.antt there says. The run of readings holds, from its first entry on, the
// readings that were made, a refused decode's too; every later entry is as it was. `decode_as` does the
// same into a slice of what an `Entry` makes of each reading. Turn by turn, a caller stores whatever it makes
// of each reading, wherever it will: `turn` says where. No call has a `requires`.
//
// That the turns of the loop come to a decode is proofs/Turns.antt; that those of a caller do, with the first
// one, which prepares, is proofs/Stepwise.antt.
//
//     decode          into a run of readings
//     decode_as       into a run of `Entry`, made of each reading
//     fresh, turn     turn by turn, for a run of something else that is made of each reading
#![tactic(auto)]

ghost use Rattle.std.specs.Prelude.{◌≡◌, length};
ghost use Rattle.reading.specs.declared.Reading.{Reading};
ghost use Rattle.lent_readings.specs.Run.{placed};
ghost use Rattle.lent_readings.specs.Clauses.{Seats, Walks, DecodesAs, Decodes};

use fields::DecodeRefusal;
use reading::{Answer, Decoded, Reading, Walk};
use tables::CheckedTable;

mod steps;

pub use crate::steps::{decoded_of, fresh, is_over, place_of, reading_of, stores, turn};

// A decode between two turns.
#[derive(Clone, Copy)]
pub struct Step {
    // The reading is to be stored at `place`.
    pub stores: bool,
    // The decode is over: it answers `decoded`.
    pub over: bool,
    // Nothing has been done yet.
    pub fresh: bool,
    pub place: usize,
    pub reading: Reading,
    pub walk: Walk,
    pub decoded: Decoded,
}

// What a run holds of a reading.
pub trait Entry: Copy {
    ghost one: { Reading → Self };

    fn of(reading: Reading) -> Self
        ensures { result ≡ one reading };
}

impl Entry for Reading {
    ghost one = { λ r. r };

    fn of(reading: Reading) -> Reading {
        reading
    }
}

// Puts what is made of the reading that a turn hands out, if it does, at its place.
fn store<E: Entry>(out: &mut [E], place: usize, answer: Result<Answer, DecodeRefusal>)
    requires { Seats answer place (length out.old) }
    ensures { out.new ≡ placed E.one out.old place answer }
{
    if let Ok(Answer::Met(reading)) = answer {
        out[place] = E::of(reading);
    }
}

// The walk through the working payload s, by an accepted table.
fn walked<E: Entry>(table: CheckedTable<'_>, s: &[u8], out: &mut [E]) -> Decoded
    ensures { Walks E.one result out.new table.entry.words.now s.now out.old }
{
    let room = out.len();
    let mut walk = reading::start();
    loop {
        let made = walk.progress.made;
        let next = reading::next_field(table.words, s, room, walk);
        store(out, made, next.answer);
        if let Some(decoded) = reading::came_to(next) {
            return decoded;
        }
        walk = next.walk;
    }
}

// Every field of a received payload, by a table, into a run: the end and the number of readings, or the
// refusal. The padding run is of 223 bytes.
pub fn decode_as<E: Entry>(
    words: &[u64],
    received: &[u8],
    padded: &mut [u8],
    out: &mut [E],
) -> Decoded
    ensures { DecodesAs E.one result padded.new out.new words.now received.now padded.old out.old }
{
    match reading::prepare(words, received, padded) {
        Ok(()) => {
            let s = reading::pad_to_min_length(words, received, padded);
            walked(CheckedTable { words }, s, out)
        }
        Err(refusal) => Decoded {
            end: Err(refusal),
            count: 0,
        },
    }
}

// The same into a run of readings.
pub fn decode(words: &[u64], received: &[u8], padded: &mut [u8], out: &mut [Reading]) -> Decoded
    ensures { Decodes result padded.new out.new words.now received.now padded.old out.old }
{
    decode_as(words, received, padded, out)
}
