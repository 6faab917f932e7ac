// A payload from its first field to the end.
ghost use Rattle.std.specs.Prelude.{◌≡◌};
ghost use Rattle.reading.specs.Demand3.{room_enough_lem};
ghost use Rattle.reading.specs.Clauses.{Decodes, walked_by};

use crate::{Decoded, ROOM_ENOUGH, filling, turns};
use tables::CheckedTable;

// The walk through the working payload s, by an accepted table.
fn walked(table: CheckedTable<'_>, s: &[u8], room: usize) -> Decoded
    ensures { result ≡ walked_by table.entry.words.now s.now room }
{
    let mut walk = turns::start();
    loop {
        let next = turns::next_field(table.words, s, room, walk);
        if let Some(decoded) = turns::came_to(next) {
            return decoded;
        }
        walk = next.walk;
    }
}

// Every field of a received payload, by a table: the end and the number of readings, with room for so
// many, or the refusal. The padding run is of 223 bytes.
pub fn for_each_field(words: &[u64], received: &[u8], padded: &mut [u8], room: usize) -> Decoded
    ensures { Decodes result padded.new words.now received.now padded.old room }
{
    if let Err(refusal) = filling::prepare(words, received, padded) {
        return Decoded {
            end: Err(refusal),
            count: 0,
        };
    }
    let s = filling::pad_to_min_length(words, received, padded);
    walked(CheckedTable { words }, s, room)
}

// With room for so many readings no decode gives 9.
pub fn room_enough() -> usize
    ensures { result ≡ room_enough_lem }
{
    ROOM_ENOUGH
}
