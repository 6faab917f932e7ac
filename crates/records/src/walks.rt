// The walk through a payload with its readings stored: quickly as far as it goes, else turn by turn.
ghost use Rattle.std.specs.Prelude.{◌≡◌, ◌≤◌};
ghost use Rattle.tables.specs.Table.{table_of};
ghost use Rattle.walking.specs.declared.Spot.TheVariants as spot;
ghost use Rattle.fields.specs.Payload.{payload_of};
ghost use Rattle.reading.specs.Decode.{progress_at};
ghost use Rattle.reading.specs.Steps.{walk_at_lem};
ghost use Rattle.records.specs.Stretches.{Plains, Roomy, Leads, LeadsIn};
ghost use Rattle.records.specs.Clauses.{Turns, Stores};

use crate::{Stretch, readings, runs, stretches};
use bits::BitPos;
use reading::{Answer, Decoded, Next, Progress, Walk};
use tables::CheckedTable;
use walking::Spot;

// Element e of set k from offset j on, as far as it is quick. The stretch's field is an offset.
fn element(
    words: &[u64],
    s: &[u8],
    room: usize,
    k: usize,
    e: usize,
    j: usize,
    at: usize,
    made: usize,
    out: &mut [u8],
) -> Stretch
    requires { Roomy room out.old }
    ensures { LeadsIn (table_of words.now) (payload_of s.now) room k e j at made out.old result out.new }
{
    let set = tables::set_at(words, k);
    let start = set.start;
    let size = set.size;
    if j < size {
        let ran = runs::run(
            words,
            s,
            room,
            start + j,
            start + size,
            Some(e),
            at,
            made,
            out,
        );
        let field = ran.field;
        return runs::stretch(field - start, ran.at, ran.made, None);
    }
    runs::stretch(j, at, made, None)
}

// The rest of set k, from element e and offset j on, as far as it is quick.
fn elements(
    words: &[u64],
    s: &[u8],
    room: usize,
    k: usize,
    n: usize,
    first: usize,
    offset: usize,
    p: Progress,
    out: &mut [u8],
) -> Walk
    requires { Roomy room out.old }
    ensures { Leads (table_of words.now) (payload_of s.now) room (walk_at_lem (spot.Within k n first offset) p) out.old result out.new }
{
    let set = tables::set_at(words, k);
    let start = set.start;
    let size = set.size;
    let mut e = first;
    let mut j = offset;
    let bit = p.at;
    let mut at = bit.0;
    let mut made = p.made;
    let counters = p.counters;
    while e < n {
        let ran = element(words, s, room, k, e, j, at, made, out);
        let field = ran.field;
        at = ran.at;
        made = ran.made;
        if field < size {
            return within_at(k, n, e, field, at, made, counters);
        }
        e += 1;
        j = 0;
    }
    let past = start + 1;
    walk_at(Spot::Field(past), at, made, counters)
}

fn within_at(
    k: usize,
    n: usize,
    e: usize,
    j: usize,
    at: usize,
    made: usize,
    counters: [u64; tables::SET_MAX],
) -> Walk
    ensures { result ≡ walk_at_lem (spot.Within k n e j) (progress_at at made counters) }
{
    let spot = Spot::Within {
        set: k,
        count: n,
        element: e,
        offset: j,
    };
    walk_at(spot, at, made, counters)
}

fn walk_at(spot: Spot, at: usize, made: usize, counters: [u64; tables::SET_MAX]) -> Walk
    ensures { result ≡ walk_at_lem spot (progress_at at made counters) }
{
    let progress = Progress {
        at: BitPos(at),
        made,
        counters,
    };
    Walk { spot, progress }
}

// From field `from` up to `end`, all in no set, as far as it is quick.
fn plain(
    words: &[u64],
    s: &[u8],
    room: usize,
    from: usize,
    end: usize,
    p: Progress,
    out: &mut [u8],
) -> Walk
    requires { (from ≤ end) × (Plains (table_of words.now) from end × Roomy room out.old) }
    ensures { Leads (table_of words.now) (payload_of s.now) room (walk_at_lem (spot.Field from) p) out.old result out.new }
{
    let bit = p.at;
    let mut i = from;
    let mut at = bit.0;
    let mut made = p.made;
    let mut counters = p.counters;
    while i < end {
        let to = stretches::quiet_until(words, i, end);
        let ran = runs::run(words, s, room, i, to, None, at, made, out);
        i = ran.field;
        at = ran.at;
        made = ran.made;
        let last = ran.last;
        let noted = reading::noted_by(words, None, to - 1, last, counters);
        counters = noted;
        if i < to {
            return walk_at(Spot::Field(i), at, made, counters);
        }
    }
    walk_at(Spot::Field(i), at, made, counters)
}

// From field i on, as far as it is quick.
fn along(words: &[u64], s: &[u8], room: usize, i: usize, p: Progress, out: &mut [u8]) -> Walk
    requires { Roomy room out.old }
    ensures { Leads (table_of words.now) (payload_of s.now) room (walk_at_lem (spot.Field i) p) out.old result out.new }
{
    let from = stretches::past_inside(words, i);
    let end = stretches::plain_until(words, from);
    if from < end {
        return plain(words, s, room, from, end, p, out);
    }
    let spot = Spot::Field(from);
    Walk { spot, progress: p }
}

// As far as it is quick.
fn quickly(words: &[u64], s: &[u8], room: usize, walk: Walk, out: &mut [u8]) -> Walk
    requires { Roomy room out.old }
    ensures { Leads (table_of words.now) (payload_of s.now) room walk out.old result out.new }
{
    let here = walk.spot;
    let p = walk.progress;
    match here {
        Spot::Field(i) => along(words, s, room, i, p, out),
        Spot::Within {
            set,
            count,
            element,
            offset,
        } => elements(words, s, room, set, count, element, offset, p, out),
    }
}

// One turn, with its reading stored.
#[tactic(auto, unfolding(crate::specs::Puts::puts, crate::specs::Layout::records))]
fn turn(words: &[u64], s: &[u8], room: usize, walk: Walk, out: &mut [u8]) -> Next
    requires { Roomy room out.old }
    ensures { Turns result out.new words.now s.now room walk out.old }
{
    let made = walk.progress.made;
    let next = reading::next_field(words, s, room, walk);
    match next.answer {
        Ok(Answer::Met(r)) => readings::put_reading(out, 8 + 64 * made, r),
        Ok(Answer::Skipped(_) | Answer::Moved | Answer::Ended) | Err(_) => {}
    }
    next
}

// The walk through the working payload s, by an accepted table.
pub(crate) fn store(table: CheckedTable<'_>, s: &[u8], room: usize, out: &mut [u8]) -> Decoded
    requires { Roomy room out.old }
    ensures { Stores result out.new table.entry.words.now s.now room out.old }
{
    let mut walk = reading::start();
    loop {
        walk = quickly(table.words, s, room, walk, out);
        let next = turn(table.words, s, room, walk, out);
        if let Some(decoded) = reading::came_to(next) {
            return decoded;
        }
        walk = next.walk;
    }
}
