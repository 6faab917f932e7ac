// The answers of the table check, and a chunk of input, line by line.
ghost use Rattle.std.specs.Prelude.{◌≡◌};
ghost use Rattle.text.specs.Sheet.{PutsOn};
ghost use Rattle.tablecalls.specs.Answers.{checked_text, answered};

use lines::Answers;
use tables::BrokenRule;
use text::Page;

// The number of the refusal of a table, which carries the rule and the index.
const TABLE_REFUSED: usize = 8;

fn put_checked(page: &mut Page<'_>, checked: Result<(), BrokenRule>)
    ensures { PutsOn page.old (checked_text checked) page.new }
{
    match checked {
        Ok(()) => page.put_text(b"ok"),
        Err(broken) => {
            let letter = broken.rule.letter() as usize;
            page.put_refused(TABLE_REFUSED, 2, letter, broken.index, 0);
        }
    }
}

// What answers the lines.
#[derive(Drop)]
pub(crate) struct Tables;

impl Answers for Tables {
    ghost answered = { answered };

    fn put_answer(&mut self, line: &[u8], page: &mut Page<'_>) {
        let mut words = [0u64; 200];
        let Some(n) = columns::words(line, b' ', &mut words) else {
            return page.put_text(b"F 14\n");
        };
        put_checked(page, tables::check(&words[0..n]));
        page.put(b'\n');
    }
}
