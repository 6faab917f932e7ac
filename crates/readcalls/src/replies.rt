// The cases, line by line: the decode turn by turn, then in one call, and what both came to.
ghost use Rattle.std.specs.Prelude.{◌≤◌, ◌≡◌, [], ◌++◌, get_or, replicate};
ghost use Rattle.text.specs.Sheet.{PutsOn};
ghost use Rattle.columns.specs.Parts.{space, parts_of};
ghost use Rattle.columns.specs.Numbers.{decimal_in};
ghost use Rattle.tables.specs.Table.{table_of};
ghost use Rattle.readcalls.specs.Lines.{untouched, last_line_lem, run_line, decode_text};
ghost use Rattle.readcalls.specs.Answers.{padding_max, answered};

use crate::alike::{is_same, put_difference};
use crate::answers::{UNTOUCHED, put_decoded, put_run};
use crate::turning::put_turns;
use columns::word;
use lines::Answers;
use reading::Decoded;
use text::Page;

const PADDING_MAX: u64 = 300;

// What both ways came to, with their padding runs.
fn put_outcome(decoded: Decoded, whole: Decoded, first: &[u8], second: &[u8], page: &mut Page<'_>)
    requires { (decoded ≡ whole) × (first.now ≡ second.now) }
    ensures { PutsOn page.old (last_line_lem decoded ++ run_line first.now) page.new }
{
    put_decoded(page, decoded);
    put_run(page, first);
    let same = is_same(decoded, whole) & check::same(first, second);
    put_difference(page, same);
}

// Both ways through a payload, each with a padding run of its own, which hold the same.
fn put_both(
    words: &[u64],
    received: &[u8],
    first: &mut [u8],
    second: &mut [u8],
    room: usize,
    page: &mut Page<'_>,
)
    requires { first.old ≡ second.old }
    ensures { PutsOn page.old (decode_text (table_of words.now) received.now first.old room) page.new }
{
    let decoded = put_turns(words, received, first, room, page);
    let whole = reading::for_each_field(words, received, second, room);
    put_outcome(decoded, whole, first, second, page);
}

// The text of a case: both padding runs have so many bytes.
fn put_replay(words: &[u64], received: &[u8], padding: usize, room: usize, page: &mut Page<'_>)
    requires { padding ≤ padding_max }
    ensures { PutsOn page.old (decode_text (table_of words.now) received.now (replicate padding untouched) room) page.new }
{
    let mut first = [UNTOUCHED; 300];
    let mut second = [UNTOUCHED; 300];
    put_both(
        words,
        received,
        &mut first[0..padding],
        &mut second[0..padding],
        room,
        page,
    );
}

fn place(n: u64) -> usize
    ensures { result ≡ n }
{
    n as usize
}

// The field at place i, in decimal.
fn number(line: &[u8], i: usize) -> Option<u64>
    ensures { result ≡ decimal_in (get_or (parts_of space line.now) i []) }
{
    columns::decimal(word(line, i))
}

// What answers the lines.
#[derive(Drop)]
pub(crate) struct Cases;

impl Answers for Cases {
    ghost answered = { answered };

    fn put_answer(&mut self, line: &[u8], page: &mut Page<'_>) {
        let mut words = [0u64; 200];
        let mut payload = [0u8; 300];
        let (Some(room), Some(padding), Some(n), Some(m)) = (
            number(line, 0),
            number(line, 1),
            columns::words(word(line, 2), b',', &mut words),
            columns::bytes(word(line, 3), &mut payload),
        ) else {
            return page.put_text(b"F 14\n");
        };
        if columns::marks(line, b' ') != 3 || PADDING_MAX < padding {
            return page.put_text(b"F 14\n");
        }
        put_replay(
            &words[0..n],
            &payload[0..m],
            place(padding),
            place(room),
            page,
        );
    }
}
