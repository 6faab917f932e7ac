// One turn of a decode.
ghost use Rattle.std.specs.Prelude.{◌≡◌};
ghost use Rattle.bits.specs.Calls.{bits};
ghost use Rattle.reading.specs.Decode.{ended_at};
ghost use Rattle.lent_readings.specs.Steps.{blank, fresh_step, on_step, storing_step, over_step, begun_by, turned_by_lem};
ghost use Rattle.lent_readings.specs.Clauses.{Turns};

use crate::Step;
use bits::BitPos;
use descriptor::{Availability, PgnValue};
use fields::DecodeRefusal;
use reading::{Answer, Decoded, Next, Reading, Walk};

// What stands where there is no reading. It is never stored.
fn no_reading() -> Reading
    ensures { result ≡ blank }
{
    Reading {
        field: 0,
        element: None,
        start: BitPos(0),
        bits: BitPos(0),
        raw: None,
        value: PgnValue::U8(0),
        availability: Availability::Available,
    }
}

// What stands where there is no answer yet.
fn no_answer() -> Decoded
    ensures { result ≡ ended_at (bits 0) 0 }
{
    Decoded {
        end: Ok(BitPos(0)),
        count: 0,
    }
}

// Before the first turn.
pub fn fresh() -> Step
    ensures { result ≡ fresh_step }
{
    Step {
        stores: false,
        over: false,
        fresh: true,
        place: 0,
        reading: no_reading(),
        walk: reading::start(),
        decoded: no_answer(),
    }
}

// The walk goes on.
fn on(walk: Walk) -> Step
    ensures { result ≡ on_step walk }
{
    Step {
        stores: false,
        over: false,
        fresh: false,
        place: 0,
        reading: no_reading(),
        walk,
        decoded: no_answer(),
    }
}

// The walk goes on, once the reading is stored.
fn storing(place: usize, reading: Reading, walk: Walk) -> Step
    ensures { result ≡ storing_step place reading walk }
{
    Step {
        stores: true,
        over: false,
        fresh: false,
        place,
        reading,
        walk,
        decoded: no_answer(),
    }
}

fn over(decoded: Decoded) -> Step
    ensures { result ≡ over_step decoded }
{
    Step {
        stores: false,
        over: true,
        fresh: false,
        place: 0,
        reading: no_reading(),
        walk: reading::start(),
        decoded,
    }
}

fn begun(prepared: Result<(), DecodeRefusal>) -> Step
    ensures { result ≡ begun_by prepared }
{
    match prepared {
        Ok(()) => on(reading::start()),
        Err(refusal) => over(Decoded {
            end: Err(refusal),
            count: 0,
        }),
    }
}

// What a turn of a walk came to that had made so many readings.
fn turned(next: Next, made: usize) -> Step
    ensures { result ≡ turned_by_lem next made }
{
    let walk = next.walk;
    let progress = walk.progress;
    let count = progress.made;
    match next.answer {
        Ok(Answer::Met(reading)) => storing(made, reading, walk),
        Ok(Answer::Skipped(_)) => on(walk),
        Ok(Answer::Moved) => on(walk),
        Ok(Answer::Ended) => over(Decoded {
            end: Ok(progress.at),
            count,
        }),
        Err(refusal) => over(Decoded {
            end: Err(refusal),
            count,
        }),
    }
}

// A turn, with room for so many readings in all: the first one prepares, each other one takes a turn of the walk.
pub fn turn(words: &[u64], received: &[u8], padded: &mut [u8], c: Step, room: usize) -> Step
    ensures { Turns result padded.new words.now received.now padded.old c room }
{
    if c.fresh {
        return begun(reading::prepare(words, received, padded));
    }
    let walk = c.walk;
    let made = walk.progress.made;
    let s = reading::pad_to_min_length(words, received, padded);
    turned(reading::next_field(words, s, room, walk), made)
}

// The parts of a step.
pub fn stores(c: Step) -> bool
    ensures { result ≡ c.stores }
{
    c.stores
}

pub fn place_of(c: Step) -> usize
    ensures { result ≡ c.place }
{
    c.place
}

pub fn reading_of(c: Step) -> Reading
    ensures { result ≡ c.reading }
{
    c.reading
}

pub fn is_over(c: Step) -> bool
    ensures { result ≡ c.over }
{
    c.over
}

pub fn decoded_of(c: Step) -> Decoded
    ensures { result ≡ c.decoded }
{
    c.decoded
}
