// The decode turn by turn, with a line for each reading.
ghost use Rattle.std.specs.Prelude.{◌≡◌};
ghost use mathlib.Core.List.{flat_map};
ghost use Rattle.text.specs.Sheet.{PutsOn};
ghost use Rattle.reading.specs.Steps.{handed};
ghost use Rattle.readcalls.specs.Lines.{reading_line};
ghost use Rattle.readcalls.specs.Clauses.{Walks, Turns};

use crate::answers::put_reading;
use fields::DecodeRefusal;
use reading::{Answer, Decoded};
use tables::CheckedTable;
use text::Page;

// The line of the reading that a turn hands out, if it does.
#[tactic(auto, using(crate::proofs::Quiet::quiet))]
fn put_turn(page: &mut Page<'_>, answer: Result<Answer, DecodeRefusal>)
    ensures { PutsOn page.old (flat_map reading_line (handed answer)) page.new }
{
    match answer {
        Ok(Answer::Met(reading)) => put_reading(page, reading),
        Ok(Answer::Skipped(_) | Answer::Moved | Answer::Ended) | Err(_) => {}
    }
}

// The walk through the working payload s, by an accepted table.
fn put_walk(table: CheckedTable<'_>, s: &[u8], room: usize, page: &mut Page<'_>) -> Decoded
    ensures { Walks result page.new table.entry.words.now s.now room page.old }
{
    let mut walk = reading::start();
    loop {
        let next = reading::next_field(table.words, s, room, walk);
        put_turn(page, next.answer);
        if let Some(decoded) = reading::came_to(next) {
            return decoded;
        }
        walk = next.walk;
    }
}

// A received payload by any words.
pub(crate) fn put_turns(
    words: &[u64],
    received: &[u8],
    padded: &mut [u8],
    room: usize,
    page: &mut Page<'_>,
) -> Decoded
    ensures { Turns result padded.new page.new words.now received.now padded.old room page.old }
{
    match reading::prepare(words, received, padded) {
        Ok(()) => {
            let s = reading::pad_to_min_length(words, received, padded);
            put_walk(CheckedTable { words }, s, room, page)
        }
        Err(refusal) => Decoded {
            end: Err(refusal),
            count: 0,
        },
    }
}
