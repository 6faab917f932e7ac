// The walk by single turns.
ghost use Rattle.std.specs.Prelude.{◌≡◌};
ghost use Rattle.tables.specs.Table.{table_of};
ghost use Rattle.walking.specs.declared.Look.TheVariants as look;
ghost use Rattle.fields.specs.Payload.{payload_of};
ghost use Rattle.reading.specs.Clauses.{ReadOf};
ghost use Rattle.reading.specs.Decode.{reading_of};
ghost use Rattle.reading.specs.Steps.{next_to, shown_at, next_of, start_of, came_to_lem};

use crate::{Answer, Decoded, Next, Progress, Reading, Span, Walk, groups};
use bits::{BitPos, Cursor};
use descriptor::PgnValue;
use fields::{DecodeRefusal, FieldRead, field_availability, read_field_raw_and_value};
use walking::{Look, Spot};

// A walk before its first field.
pub fn start() -> Walk
    ensures { result ≡ start_of }
{
    let progress = Progress {
        at: BitPos(0),
        made: 0,
        counters: [0; tables::SET_MAX],
    };
    Walk {
        spot: Spot::Field(0),
        progress,
    }
}

fn next(answer: Result<Answer, DecodeRefusal>, spot: Spot, progress: Progress) -> Next
    ensures { result ≡ next_to answer spot progress }
{
    let walk = Walk { spot, progress };
    Next { answer, walk }
}

// The reading of a field met.
fn reading_of(words: &[u64], s: &[u8], v: Span, raw: Option<u64>, value: PgnValue) -> Reading
    requires { ReadOf raw value words.now s.now v }
    ensures { result ≡ reading_of (table_of words.now) (payload_of s.now) v }
{
    let f = tables::field_at(words, v.field);
    Reading {
        field: v.field,
        element: v.element,
        start: v.start,
        bits: v.bits,
        raw,
        value,
        availability: field_availability(s, f, raw, value),
    }
}

// Field i, in element e; the walk then goes on at `to`.
fn see(
    words: &[u64],
    s: &[u8],
    room: usize,
    walk: Walk,
    i: usize,
    e: Option<usize>,
    last: bool,
    to: Spot,
) -> Next
    ensures { result ≡ shown_at (table_of words.now) (payload_of s.now) room walk.spot walk.progress (look.Meet i e last to) }
{
    let Progress { at, made, counters } = walk.progress;
    let f = tables::field_at(words, i);
    match read_field_raw_and_value(s, Cursor { at }, f, i, last) {
        Ok(FieldRead::Got { bits, raw, value }) => {
            if made < room {
                let span = Span {
                    field: i,
                    element: e,
                    start: at,
                    bits,
                };
                let reading = reading_of(words, s, span, raw, value);
                let counters = groups::noted_by(words, e, i, raw, counters);
                let to_at = at.0 + bits.0;
                let progress = Progress {
                    at: BitPos(to_at),
                    made: made + 1,
                    counters,
                };
                return next(Ok(Answer::Met(reading)), to, progress);
            }
            Next {
                answer: Err(DecodeRefusal::NoRoom { field: i }),
                walk,
            }
        }
        Ok(FieldRead::Skipped { bits }) => {
            let span = Span {
                field: i,
                element: e,
                start: at,
                bits,
            };
            let to_at = at.0 + bits.0;
            let progress = Progress {
                at: BitPos(to_at),
                ..walk.progress
            };
            next(Ok(Answer::Skipped(span)), to, progress)
        }
        Err(refusal) => Next {
            answer: Err(refusal),
            walk,
        },
    }
}

// Into set k, if it has not too many elements.
fn enter(words: &[u64], s: &[u8], k: usize, walk: Walk) -> Next
    ensures { result ≡ shown_at (table_of words.now) (payload_of s.now) 0 walk.spot walk.progress (look.Enter k) }
{
    let Progress { at, counters, .. } = walk.progress;
    let c = Cursor { at };
    let left = c.bits_remaining(s);
    let raw = groups::counter_at(counters, k);
    match groups::repeating_group_count(words, k, raw, left) {
        Ok(count) => {
            let to = Spot::Within {
                set: k,
                count,
                element: 0,
                offset: 0,
            };
            next(Ok(Answer::Moved), to, walk.progress)
        }
        Err(refusal) => Next {
            answer: Err(refusal),
            walk,
        },
    }
}

// One turn of a walk through the working payload s, with room for so many readings in all.
pub fn next_field(words: &[u64], s: &[u8], room: usize, walk: Walk) -> Next
    ensures { result ≡ next_of (table_of words.now) (payload_of s.now) room walk }
{
    match walking::look_at(words, walk.spot) {
        Look::End => Next {
            answer: Ok(Answer::Ended),
            walk,
        },
        Look::Pass(to) => next(Ok(Answer::Moved), to, walk.progress),
        Look::Enter(k) => enter(words, s, k, walk),
        Look::Meet {
            field,
            element,
            last,
            to,
        } => see(words, s, room, walk, field, element, last, to),
    }
}

// What the decode answers, where a turn was the walk's last; none where the walk goes on.
pub fn came_to(next: Next) -> Option<Decoded>
    ensures { result ≡ came_to_lem next }
{
    let progress = next.walk.progress;
    let count = progress.made;
    match next.answer {
        Ok(Answer::Ended) => Some(Decoded {
            end: Ok(progress.at),
            count,
        }),
        Ok(_) => None,
        Err(refusal) => Some(Decoded {
            end: Err(refusal),
            count,
        }),
    }
}
