// Whether a field or a set keeps a rule.
ghost use Rattle.std.specs.Prelude.{◌≡◌, ◌&&◌, ◌||◌, leb, eqb};
ghost use Rattle.tables.specs.Table.{table_of};
ghost use Rattle.tables.specs.Rules.{place_fits_lem, set_fits_lem, counter_fits_lem, counter_field_fits_lem, last_only};
ghost use Rattle.tables.specs.Check.{keeps, reach, sizes_fit_lem, length_fits, field_max, set_max};

use crate::words::{field_at, field_count, length_of, minimum_of, set_at, set_count};
use crate::{FIELD_MAX, KindClass, PAYLOAD_MAX, SET_MAX, TableRule, classes, sets};

// a: a length and a minimum, 0 where they are not given.
fn lengths_fit(length: usize, minimum: usize) -> bool
    ensures { result ≡ length_fits length && (length_fits minimum && (eqb length 0 || leb minimum length)) }
{
    length <= PAYLOAD_MAX && minimum <= PAYLOAD_MAX && (length == 0 || minimum <= length)
}

// a
pub(crate) fn sizes_fit(words: &[u64]) -> bool
    ensures { result ≡ sizes_fit_lem (table_of words.now) }
{
    (1..=FIELD_MAX).contains(&field_count(words))
        && set_count(words) <= SET_MAX
        && lengths_fit(length_of(words), minimum_of(words))
}

fn is_last_only(c: KindClass) -> bool
    ensures { result ≡ last_only c }
{
    matches!(c, KindClass::Lz)
}

// f. What is no field has no next one.
pub(crate) fn place_fits(words: &[u64], i: usize) -> bool
    ensures { result ≡ place_fits_lem (table_of words.now) i }
{
    let f = field_at(words, i);
    !is_last_only(classes::class_of(f.kind))
        || (i < field_count(words)
            && i + 1 == field_count(words)
            && !sets::in_sets(words, i, set_count(words)))
}

// g
pub(crate) fn set_fits(words: &[u64], k: usize) -> bool
    ensures { result ≡ set_fits_lem (table_of words.now) k }
{
    let s = set_at(words, k);
    sets::end_before(words, k) <= s.start
        && s.start + s.size <= field_count(words)
        && 1 <= sets::declared_bits(words, s.start, s.size)
        && 1 <= s.size
        && (1..=255).contains(&s.maximum)
}

// h, of the counter's own field
fn counter_field_fits(words: &[u64], i: usize) -> bool
    ensures { result ≡ counter_field_fits_lem ((table_of words.now).field i) }
{
    let f = field_at(words, i);
    classes::can_count(f.kind)
        && !f.signed
        && !classes::is_scaled(f.resolution)
        && (1..=32).contains(&f.width)
}

// h
pub(crate) fn counter_fits(words: &[u64], k: usize) -> bool
    ensures { result ≡ counter_fits_lem (table_of words.now) k }
{
    let s = set_at(words, k);
    s.counter < s.start
        && !sets::in_sets(words, s.counter, set_count(words))
        && counter_field_fits(words, s.counter)
}

// Whether field or set i keeps a rule.
pub(crate) fn is_kept(words: &[u64], rule: TableRule, i: usize) -> bool
    ensures { result ≡ keeps rule (table_of words.now) i }
{
    let f = field_at(words, i);
    let c = classes::class_of(f.kind);
    match rule {
        TableRule::A => sizes_fit(words),
        TableRule::B => classes::is_known(c),
        TableRule::C => classes::width_fits(c, f.width),
        TableRule::D => classes::resolution_fits(c, f.resolution),
        TableRule::E => classes::sign_fits(c, f.width, f.signed, classes::is_scaled(f.resolution)),
        TableRule::F => place_fits(words, i),
        TableRule::G => set_fits(words, i),
        TableRule::H => counter_fits(words, i),
    }
}

// How many fields or sets a rule speaks of.
pub(crate) fn reach_of(words: &[u64], rule: TableRule) -> usize
    ensures { result ≡ reach rule (table_of words.now) }
{
    match rule {
        TableRule::A => 1,
        TableRule::G | TableRule::H => set_count(words),
        _ => field_count(words),
    }
}
