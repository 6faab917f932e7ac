// The orders, line by line: the fields of a line, and which encode they go to.
ghost use Rattle.std.specs.Prelude.{◌≡◌, drop};
ghost use Rattle.text.specs.Sheet.{PutsOn};
ghost use Rattle.columns.specs.Parts.{space, parts_of};
ghost use Rattle.compose.specs.Answers.{is_t_lem, leading, order_text, answered};
ghost use Rattle.compose.specs.Clauses.{fields_after};

use crate::answers::put_malformed;
use crate::encodes::{put_by_pgn, put_by_table};
use crate::entries::list_values;
use columns::{field_end, part, word};
use lines::Answers;
use text::Page;

// The records of 2,000 values.
pub(crate) const RECORDS_MAX: usize = 48000;

// Two digits of a line are a byte of text, so there is always room: proofs/Room.antt.
pub(crate) const TEXTS_MAX: usize = 4096;

// Whether a field names a table.
fn is_t(s: &[u8]) -> bool
    ensures { result ≡ is_t_lem s.now }
{
    if s.len() != 1 {
        return false;
    }
    s[0] == b'T'
}

fn put_order(line: &[u8], values: &[u8], lent: &[u8], page: &mut Page<'_>)
    ensures { PutsOn page.old (order_text line.now values.now lent.now) page.new }
{
    let first = word(line, 0);
    if is_t(first) {
        return put_by_table(word(line, 1), word(line, 2), values, lent, page);
    }
    put_by_pgn(first, values, lent, page);
}

// Where the field after one that ends at `end` ends.
fn next_end(line: &[u8], end: usize) -> usize
    ensures { fields_after result line.now ≡ drop 1 (fields_after end line.now) }
{
    if end < line.len() {
        return field_end(line, end + 1);
    }
    end
}

// Where the fields before the values end: they come after one field, or after three.
fn values_from(line: &[u8]) -> usize
    ensures { fields_after result line.now ≡ drop (leading line.now) (parts_of space line.now) }
{
    let first = field_end(line, 0);
    if is_t(word(line, 0)) {
        let second = next_end(line, first);
        return next_end(line, second);
    }
    first
}

// What answers the lines. What its buffers hold of the last line is left open: they need not be cleared
// for the next.
#[derive(Drop)]
pub(crate) struct Orders {
    values: [u8; RECORDS_MAX],
    lent: [u8; TEXTS_MAX],
}

impl Orders {
    pub(crate) fn new() -> Orders {
        Orders {
            values: [0; RECORDS_MAX],
            lent: [0; TEXTS_MAX],
        }
    }
}

impl Answers for Orders {
    ghost answered = { answered };

    fn put_answer(&mut self, line: &[u8], page: &mut Page<'_>) {
        let Some(listed) = list_values(line, values_from(line), &mut self.values, &mut self.lent)
        else {
            return put_malformed(page);
        };
        put_order(
            line,
            part(&self.values, 0, listed.bytes),
            part(&self.lent, 0, listed.text),
            page,
        );
    }
}
