// Counters and the elements of a set.
ghost use Rattle.std.specs.Prelude.{◌≡◌, get_or};
ghost use Rattle.tables.specs.Table.{table_of};
ghost use Rattle.reading.specs.Groups.{noted as noted_of, noted_by_lem, fitting as fittingOf, element_count_lem, group_count_of};

use bits::BitPos;
use fields::DecodeRefusal;

// The counters once field i has been read as r.
fn noted(words: &[u64], i: usize, r: u64, cs: [u64; tables::SET_MAX]) -> [u64; tables::SET_MAX]
    ensures { result ≡ noted_of (table_of words.now) i r cs }
{
    let mut counters = cs;
    for k in 0..tables::set_count(words).min(tables::SET_MAX) {
        if tables::set_at(words, k).counter == i {
            counters[k] = r;
        }
    }
    counters
}

// The counters once a field has been read: one in a set counts nothing, nor does one without a raw.
pub fn noted_by(
    words: &[u64],
    e: Option<usize>,
    i: usize,
    raw: Option<u64>,
    cs: [u64; tables::SET_MAX],
) -> [u64; tables::SET_MAX]
    ensures { result ≡ noted_by_lem (table_of words.now) e i raw cs }
{
    match (e, raw) {
        (None, Some(r)) => noted(words, i, r, cs),
        _ => cs,
    }
}

// The counter of set k: there are none past the last.
pub fn counter_at(cs: [u64; tables::SET_MAX], k: usize) -> u64
    ensures { result ≡ get_or cs k 0 }
{
    cs.get(k).copied().unwrap_or(0)
}

// How many elements of set k fit into so many bits.
fn fitting(words: &[u64], k: usize, left: usize) -> usize
    ensures { result ≡ fittingOf (table_of words.now) k left }
{
    left.checked_div(tables::group_bits(words, k)).unwrap_or(0)
}

// How many elements set k has, with a counter of this raw and so many bits left.
fn element_count(words: &[u64], k: usize, raw: u64, left: usize) -> usize
    ensures { result ≡ element_count_lem (table_of words.now) k raw left }
{
    let set = tables::set_at(words, k);
    let f = tables::field_at(words, set.counter);
    let said = numbers::counter_elements(raw, f.width) as usize;
    let fits = fitting(words, k, left);
    said.min(fits)
}

// The count of set k, by its counter's raw and the bits left: what fits, then the maximum.
pub fn repeating_group_count(
    words: &[u64],
    k: usize,
    counter_raw: u64,
    bits_remaining: BitPos,
) -> Result<usize, DecodeRefusal>
    ensures { result ≡ group_count_of (table_of words.now) k counter_raw bits_remaining.0 }
{
    let n = element_count(words, k, counter_raw, bits_remaining.0);
    let maximum = tables::set_at(words, k).maximum;
    if n <= maximum {
        return Ok(n);
    }
    Err(DecodeRefusal::RepetitionsExceedCapacity {
        set: k,
        count: n,
        maximum,
    })
}
