// A payload's lines, by a built-in message.
ghost use Rattle.std.specs.Prelude.{◌≡◌};
ghost use Rattle.text.specs.Sheet.{PutsOn};
ghost use Rattle.tables.specs.Table.{table_of};
ghost use Rattle.messages.specs.Messages.{words_of};
ghost use Rattle.fields.specs.Payload.{payload_of};
ghost use Rattle.reading.specs.Demand3.{room_enough_lem};
ghost use Rattle.frame_lines.specs.Decode.{turn_text, walk_text};

use crate::rows::{put_end, put_reading, put_refusal};
use fields::DecodeRefusal;
use messages::Message;
use reading::{Answer, came_to, next_field, room_enough};
use tables::CheckedTable;
use text::Page;

// The line of a turn of the walk, if it has one: a reading, the end or the refusal.
#[tactic(auto, using(text::proofs::Putting::nothing))]
fn put_turn(page: &mut Page<'_>, answer: Result<Answer, DecodeRefusal>, end: usize)
    ensures { PutsOn page.old (turn_text answer end) page.new }
{
    match answer {
        Ok(Answer::Met(reading)) => put_reading(page, reading),
        Ok(Answer::Skipped(_) | Answer::Moved) => {}
        Ok(Answer::Ended) => put_end(page, end),
        Err(e) => put_refusal(page, e),
    }
}

// All lines of the walk through a payload, by an accepted table.
fn put_walk(table: CheckedTable<'_>, payload: &[u8], room: usize, page: &mut Page<'_>)
    ensures { PutsOn page.old (walk_text (table_of table.entry.words.now) (payload_of payload.now) room) page.new }
{
    let mut walk = reading::start();
    loop {
        let next = next_field(table.words, payload, room, walk);
        let progress = next.walk.progress;
        put_turn(page, next.answer, progress.at.0);
        if came_to(next).is_some() {
            return;
        }
        walk = next.walk;
    }
}

// The readings of a payload by a message's table, and what the decode came to. The built-in tables are
// accepted, and none has a length to fill a payload to: so what `prepare` would do is done, where the
// payload is not too long.
pub fn put_decode(message: Message, payload: &[u8], page: &mut Page<'_>)
    ensures { PutsOn page.old (walk_text (table_of (words_of message)) (payload_of payload.now) room_enough_lem) page.new }
{
    put_walk(message.table(), payload, room_enough(), page);
}
