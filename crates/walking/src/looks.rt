// What a walk does next. It goes by the table and the spot alone, whatever is done at a field.
ghost use Rattle.std.specs.Prelude.{◌≡◌, ◌<◌};
ghost use Rattle.tables.specs.Table.{table_of};
ghost use Rattle.walking.specs.Walk.{place_of};
ghost use Rattle.walking.specs.Looks.{look_by_lem, look_within_lem, look_of};

use crate::places::place_at;
use crate::{Look, Place, Spot};

// At field i, wherever it stands.
fn look_by(words: &[u64], i: usize) -> Look
    requires { i < 65536 }
    ensures { result ≡ look_by_lem (table_of words.now) i (place_of (table_of words.now) i) }
{
    let to = Spot::Field(i + 1);
    match place_at(words, i) {
        Place::Starts(k) => Look::Enter(k),
        Place::Inside => Look::Pass(to),
        Place::Plain => Look::Meet {
            field: i,
            element: None,
            last: i + 1 == tables::field_count(words),
            to,
        },
    }
}

// In element e of the n of set k, at offset j.
fn look_within(words: &[u64], k: usize, n: usize, e: usize, j: usize) -> Look
    ensures { result ≡ look_within_lem (table_of words.now) k n e j }
{
    let set = tables::set_at(words, k);
    if n <= e {
        Look::Pass(Spot::Field(set.start + 1))
    } else if set.size <= j {
        Look::Pass(Spot::Within {
            set: k,
            count: n,
            element: e + 1,
            offset: 0,
        })
    } else {
        Look::Meet {
            field: set.start + j,
            element: Some(e),
            last: false,
            to: Spot::Within {
                set: k,
                count: n,
                element: e,
                offset: j + 1,
            },
        }
    }
}

pub fn look_at(words: &[u64], spot: Spot) -> Look
    ensures { result ≡ look_of (table_of words.now) spot }
{
    match spot {
        Spot::Field(i) => {
            if i < tables::field_count(words) {
                look_by(words, i)
            } else {
                Look::End
            }
        }
        Spot::Within {
            set,
            count,
            element,
            offset,
        } => look_within(words, set, count, element, offset),
    }
}
