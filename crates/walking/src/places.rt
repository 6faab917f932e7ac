// What the walk asks of a table.
ghost use Rattle.std.specs.Prelude.{◌≡◌};
ghost use Rattle.tables.specs.Table.{table_of};
ghost use Rattle.walking.specs.Walk.{place_of};

use crate::Place;

// Where field i stands.
pub fn place_at(words: &[u64], i: usize) -> Place
    ensures { result ≡ place_of (table_of words.now) i }
{
    let starting = (0..tables::set_count(words)).find(|&k| tables::set_at(words, k).start == i);
    if let Some(k) = starting {
        Place::Starts(k)
    } else if tables::is_repetitive_field(words, i) {
        Place::Inside
    } else {
        Place::Plain
    }
}
