// The quick way through a table that breaks no rule: one pass over the fields, one over the sets.
ghost use Rattle.std.specs.Prelude.{◌≡◌, true, ℕ, ◌<◌};
ghost use Rattle.tables.specs.Table.{table_of};
ghost use Rattle.tables.specs.Rules.{width_fits_lem, resolution_fits_lem};
ghost use Rattle.tables.specs.Check.{KeptField, KeptSet};

use crate::words::{field_at, simple_width};
use crate::{KindClass, classes, rules};
use descriptor::Resolution;

// Whether a field of a numeric kind keeps the rules c and d. It keeps b, e and f whatever it is.
fn numeric_is_kept(width: u32, resolution: Resolution) -> bool
    ensures { result ≡ true → (width_fits_lem KindClass.Numeric width ≡ true) × (resolution_fits_lem KindClass.Numeric resolution ≡ true) }
{
    (1..=64).contains(&width) && classes::resolution_fits(KindClass::Numeric, resolution)
}

// Whether field i keeps the rules b to f: a simple number does.
fn field_is_kept(words: &[u64], i: usize) -> bool
    ensures { result ≡ true → KeptField (table_of words.now) i }
{
    if simple_width(words, i) > 0 {
        return true;
    }
    let f = field_at(words, i);
    let kind = f.kind;
    let resolution = f.resolution;
    let width = f.width;
    let signed = f.signed;
    if classes::is_numeric(kind) {
        return numeric_is_kept(width, resolution);
    }
    let c = classes::class_of(kind);
    classes::is_known(c)
        && classes::width_fits(c, width)
        && classes::resolution_fits(c, resolution)
        && classes::sign_fits(c, width, signed, classes::is_scaled(resolution))
        && rules::place_fits(words, i)
}

// Whether each of the first n fields keeps the rules b to f.
pub(crate) fn fields_are_kept(words: &[u64], n: usize) -> bool
    ensures { result ≡ true → (i : ℕ) → i < n → KeptField (table_of words.now) i }
{
    (0..n).all(|i| field_is_kept(words, i))
}

// Whether set k keeps the rules g and h.
fn set_is_kept(words: &[u64], k: usize) -> bool
    ensures { result ≡ true → KeptSet (table_of words.now) k }
{
    rules::set_fits(words, k) && rules::counter_fits(words, k)
}

// Whether each of the first m sets keeps the rules g and h.
pub(crate) fn sets_are_kept(words: &[u64], m: usize) -> bool
    ensures { result ≡ true → (k : ℕ) → k < m → KeptSet (table_of words.now) k }
{
    (0..m).all(|k| set_is_kept(words, k))
}
