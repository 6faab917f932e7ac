// Which fields can be gone through in one stretch.
ghost use Rattle.std.specs.Prelude.{◌≡◌, ◌≤◌, ◌<◌, None};
ghost use Rattle.tables.specs.Table.{table_of};
ghost use Rattle.walking.specs.Walk.{place_of};
ghost use Rattle.records.specs.Stretches.{Insides, Plains, Clear, UpTo, Quiet, is_inside_lem};

use walking::Place;

fn is_inside(words: &[u64], i: usize) -> bool
    ensures { result ≡ is_inside_lem (place_of (table_of words.now) i) }
{
    matches!(walking::place_at(words, i), Place::Inside)
}

// The first field from `from` on that is not a later field of a set.
pub(crate) fn past_inside(words: &[u64], from: usize) -> usize
    ensures { Insides (table_of words.now) from result }
{
    let n = tables::field_count(words);
    for i in from..n {
        if !is_inside(words, i) {
            return i;
        }
    }
    from.max(n)
}

// A field up to which, from field i on, all are in no set.
pub(crate) fn plain_until(words: &[u64], i: usize) -> usize
    ensures { Plains (table_of words.now) i result }
{
    let mut end = tables::field_count(words);
    for k in 0..tables::set_count(words) {
        end = clear_of(words, k, i, end);
    }
    end
}

// The same, of set k alone, and no further than `end`.
fn clear_of(words: &[u64], k: usize, i: usize, end: usize) -> usize
    ensures { Clear (table_of words.now) k i end result }
{
    let set = tables::set_at(words, k);
    let start = set.start;
    let size = set.size;
    if i <= start {
        return start.min(end);
    }
    if i < start + size {
        return i.min(end);
    }
    end
}

// A field up to which, from field i on and no further than `end`, none but the last is a counter.
pub(crate) fn quiet_until(words: &[u64], i: usize, end: usize) -> usize
    requires { i < end }
    ensures { (i < result) × ((result ≤ end) × Quiet (table_of words.now) None i result) }
{
    let mut to = end;
    for k in 0..tables::set_count(words) {
        let set = tables::set_at(words, k);
        to = up_to(set.counter, i, to);
    }
    to
}

// The same, of counter c alone.
fn up_to(c: usize, i: usize, end: usize) -> usize
    requires { i < end }
    ensures { UpTo c i end result }
{
    if i <= c {
        if c < end {
            return c + 1;
        }
    }
    end
}
