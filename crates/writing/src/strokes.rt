// The walk by single turns.
ghost use Rattle.std.specs.Prelude.{◌≡◌, false, length};
ghost use Rattle.tables.specs.Table.{table_of};
ghost use Rattle.walking.specs.declared.Look.TheVariants as look;
ghost use Rattle.writing.specs.Encode.{content_of_lem, pen_after_lem};
ghost use Rattle.writing.specs.Strokes.{stroked_to, size_of, Reaches, stroke_by, end_by_lem, start_of, nothing, weighing_to, weighing_at, weighing_of};
ghost use Rattle.writing.specs.Clauses.{Enters, WritesNext};

use crate::ink::put_weighed;
use crate::{Draft, Pen, Stroke, Stroked, Weighing};
use bits::BitPos;
use descriptor::FieldDescriptor;
use offers::Offer;
use reading::Span;
use walking::{Look, Spot};
use weighing::{EncodeRefusal, Weighed};

// A walk before its first field.
pub fn start() -> Draft
    ensures { result ≡ start_of }
{
    let pen = Pen {
        at: BitPos(0),
        used: 0,
        counters: [0; tables::SET_MAX],
    };
    Draft {
        spot: Spot::Field(0),
        pen,
    }
}

fn stroked(stroke: Result<Stroke, EncodeRefusal>, spot: Spot, pen: Pen) -> Stroked
    ensures { result ≡ stroked_to stroke spot pen }
{
    let draft = Draft { spot, pen };
    Stroked { stroke, draft }
}

// The bits that what was weighed takes.
fn size_of(weighed: Weighed) -> BitPos
    ensures { result ≡ size_of (Ok weighed) }
{
    match weighed {
        Weighed::Number { bits, .. } | Weighed::Gap { bits } | Weighed::Text { bits, .. } => bits,
    }
}

// Bits that stay ones use no value; any other field is written.
fn stroke_of(weighed: Weighed, v: Span) -> Stroke
    ensures { Ok result ≡ stroke_by (Ok weighed) v }
{
    match weighed {
        Weighed::Gap { .. } => Stroke::Skipped(v),
        _ => Stroke::Wrote(v),
    }
}

// The pen once that is written.
fn pen_after(words: &[u64], i: usize, e: Option<usize>, pen: Pen, weighed: Weighed) -> Pen
    requires { Reaches pen.at.0 (Ok weighed) }
    ensures { result ≡ pen_after_lem (table_of words.now) i e pen (Ok weighed) }
{
    let at = BitPos(pen.at.0 + size_of(weighed).0);
    let used = pen.used.saturating_add(1);
    match weighed {
        Weighed::Number { raw, .. } => Pen {
            at,
            used,
            counters: reading::noted_by(words, e, i, Some(raw), pen.counters),
        },
        Weighed::Gap { .. } => Pen { at, ..pen },
        Weighed::Text { .. } => Pen { at, used, ..pen },
    }
}

// Field i at a bit: bits that stay ones, or the offer, weighed.
fn content_of(
    offer: Offer,
    f: FieldDescriptor,
    i: usize,
    lent: usize,
    size: usize,
    at: BitPos,
) -> Result<Weighed, EncodeRefusal>
    ensures { result ≡ content_of_lem offer f i lent size at.0 }
{
    if fields::is_gap(f) {
        return weighing::weigh_gap(f, i, size, at);
    }
    match offer {
        Offer::Nothing => Err(EncodeRefusal::ValueCount { field: i }),
        Offer::NoKind => Err(EncodeRefusal::WrongKind { field: i }),
        Offer::Value(value) => weighing::weigh_field(f, i, value, lent, size, at),
    }
}

// Field i, in element e; the walk then goes on at `to`.
fn meet(
    words: &[u64],
    lent: usize,
    size: usize,
    offer: Offer,
    draft: Draft,
    i: usize,
    e: Option<usize>,
    to: Spot,
) -> Weighing
    ensures { result ≡ weighing_at (table_of words.now) offer lent size draft.spot draft.pen (look.Meet i e false to) }
{
    let pen = draft.pen;
    let f = tables::field_at(words, i);
    match content_of(offer, f, i, lent, size, pen.at) {
        Ok(weighed) => {
            let bits = size_of(weighed);
            let v = Span {
                field: i,
                element: e,
                start: pen.at,
                bits,
            };
            let stroke = stroke_of(weighed, v);
            let after = pen_after(words, i, e, pen, weighed);
            Weighing {
                stroked: stroked(Ok(stroke), to, after),
                content: Ok(weighed),
            }
        }
        Err(refusal) => Weighing {
            stroked: stroked(Err(refusal), draft.spot, pen),
            content: Err(refusal),
        },
    }
}

// A turn that meets no field puts nothing.
fn unmet(stroked: Stroked) -> Weighing
    ensures { result ≡ weighing_to stroked nothing }
{
    let bits = BitPos(0);
    Weighing {
        stroked,
        content: Ok(Weighed::Gap { bits }),
    }
}

// Into set k, if it has not too many elements.
fn enter(words: &[u64], offer: Offer, k: usize, draft: Draft) -> Stroked
    ensures { Enters result words.now offer k draft.pen draft.spot }
{
    let pen = draft.pen;
    let raw = reading::counter_at(pen.counters, k);
    let set = tables::set_at(words, k);
    let maximum = set.maximum;
    let f = tables::field_at(words, set.counter);
    let n = numbers::counter_elements(raw, f.width) as usize;
    if n <= maximum {
        let to = Spot::Within {
            set: k,
            count: n,
            element: 0,
            offset: 0,
        };
        return stroked(Ok(Stroke::Moved), to, pen);
    }
    let too_many = EncodeRefusal::RepetitionsExceedCapacity {
        set: k,
        count: n,
        maximum,
    };
    stroked(Err(too_many), draft.spot, pen)
}

// At the end: left-over values are 12, with the field count.
fn end_of(words: &[u64], offer: Offer) -> Result<Stroke, EncodeRefusal>
    ensures { result ≡ end_by_lem (table_of words.now) offer }
{
    let field = tables::field_count(words);
    match offer {
        Offer::Nothing => Ok(Stroke::Ended),
        Offer::NoKind | Offer::Value(_) => Err(EncodeRefusal::ValueCount { field }),
    }
}

// One turn of a walk, with the next value, by the lengths of the lent text and the buffer alone: what it
// comes to, and what it would put.
pub fn weigh_next(words: &[u64], lent: usize, size: usize, draft: Draft, offer: Offer) -> Weighing
    ensures { result ≡ weighing_of (table_of words.now) offer lent size draft }
{
    match walking::look_at(words, draft.spot) {
        Look::End => unmet(stroked(end_of(words, offer), draft.spot, draft.pen)),
        Look::Pass(to) => unmet(stroked(Ok(Stroke::Moved), to, draft.pen)),
        Look::Enter(k) => unmet(enter(words, offer, k, draft)),
        Look::Meet {
            field,
            element,
            last: _,
            to,
        } => meet(words, lent, size, offer, draft, field, element, to),
    }
}

// One turn of a walk, with the next value: what it came to, and the buffer with the field that was
// written. The offer is used if the answer is `Wrote`.
pub fn write_next(
    words: &[u64],
    buffer: &mut [u8],
    lent: &[u8],
    draft: Draft,
    offer: Offer,
) -> Stroked
    ensures { WritesNext result buffer.new words.now buffer.old lent.now draft offer }
{
    let next = weigh_next(words, lent.len(), buffer.len(), draft, offer);
    if let Ok(weighed) = next.content {
        put_weighed(buffer, draft.pen.at.0, weighed, lent);
    }
    next.stroked
}
