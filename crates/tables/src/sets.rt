// What the rules f, g and h ask of the sets.
ghost use Rattle.std.specs.Prelude.{◌≡◌, ◌≤◌, ◌*◌};
ghost use Rattle.tables.specs.Table.{table_of};
ghost use Rattle.tables.specs.Rules.{in_set, in_sets_lem, declared_bits_lem, group_bits_lem, end_before_lem};

use crate::words::{field_at, set_at, set_count};

// Whether field i is in set k.
fn in_set(words: &[u64], i: usize, k: usize) -> bool
    ensures { result ≡ in_set (table_of words.now) i k }
{
    let s = set_at(words, k);
    s.start <= i && i - s.start < s.size
}

// Whether field i is in one of the first m sets.
pub(crate) fn in_sets(words: &[u64], i: usize, m: usize) -> bool
    ensures { result ≡ in_sets_lem (table_of words.now) i m }
{
    (0..m).any(|k| in_set(words, i, k))
}

// Whether field i is in a set.
pub fn is_repetitive_field(words: &[u64], i: usize) -> bool
    ensures { result ≡ in_sets_lem (table_of words.now) i (table_of words.now).sets }
{
    in_sets(words, i, set_count(words))
}

// The widths of n fields from field i on, added up.
pub(crate) fn declared_bits(words: &[u64], i: usize, n: usize) -> usize
    requires { (i ≤ 65536) × (n ≤ 65536) }
    ensures { result ≡ declared_bits_lem (table_of words.now) i n }
{
    let mut sum = 0;
    for j in 0..n {
        sum += field_at(words, i + j).width as usize;
    }
    sum
}

// The bits that set k declares for one element.
pub fn group_bits(words: &[u64], k: usize) -> usize
    ensures { result ≡ group_bits_lem (table_of words.now) k }
{
    let s = set_at(words, k);
    declared_bits(words, s.start, s.size)
}

// Where the set before set k ends.
pub(crate) fn end_before(words: &[u64], k: usize) -> usize
    ensures { result ≡ end_before_lem (table_of words.now) k }
{
    if k == 0 {
        return 0;
    }
    let s = set_at(words, k - 1);
    s.start + s.size
}
