// A line, and which call it is; and a chunk of input, line by line.
ghost use Rattle.std.specs.Prelude.{◌≡◌};
ghost use Rattle.text.specs.Sheet.{PutsOn};
ghost use Rattle.numbercalls.specs.Answers.{is_call, call_text, answer_text, answered};

use crate::calls::{put_raw, put_scale};
use crate::line_fields::{Field, field_of};
use columns::{same, word};
use lines::Answers;
use text::Page;

// Whether a line is a call of this name, with so many spaces between its words.
fn is_call(line: &[u8], name: &[u8], spaces: usize) -> bool
    ensures { result ≡ is_call name.now spaces line.now }
{
    same(word(line, 0), name) & (columns::marks(line, b' ') == spaces)
}

fn put_call(f: Field, line: &[u8], page: &mut Page<'_>)
    ensures { PutsOn page.old (call_text f line.now) page.new }
{
    if is_call(line, b"scale", 6) {
        return put_scale(f, word(line, 6), page);
    }
    if is_call(line, b"raw", 7) {
        return put_raw(f, word(line, 6), word(line, 7), page);
    }
    page.put_malformed();
}

// The answer to a line, without its newline.
fn put_reply(line: &[u8], page: &mut Page<'_>)
    ensures { PutsOn page.old (answer_text line.now) page.new }
{
    let Some(f) = field_of(line) else {
        return page.put_malformed();
    };
    put_call(f, line, page);
}

// What answers the lines.
#[derive(Drop)]
pub(crate) struct Calls;

impl Answers for Calls {
    ghost answered = { answered };

    fn put_answer(&mut self, line: &[u8], page: &mut Page<'_>) {
        put_reply(line, page);
        page.put(b'\n');
    }
}
