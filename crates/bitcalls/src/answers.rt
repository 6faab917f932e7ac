// The parts that answers are made of.
ghost use Rattle.text.specs.Sheet.{PutsOn};
ghost use Rattle.bitcalls.specs.Text.{ok_text, part_text, refusal_text, moved_text, written_text};

use bits::{BitRefusal, Cursor};
use text::Page;

// A call was accepted: the cursor after it.
pub(crate) fn put_ok(page: &mut Page<'_>, cursor: usize)
    ensures { PutsOn page.old (ok_text cursor) page.new }
{
    page.put_text(b"ok");
    page.put_number(cursor);
}

// A space and the bytes of a part.
pub(crate) fn put_part(page: &mut Page<'_>, s: &[u8])
    ensures { PutsOn page.old (part_text s.now) page.new }
{
    page.put_text(b" ");
    page.put_bytes(s);
}

// A call was refused. No refusal of a bit call carries more than two values.
pub(crate) fn put_refusal(page: &mut Page<'_>, e: BitRefusal)
    ensures { PutsOn page.old (refusal_text e) page.new }
{
    let number = e.number();
    let first = e.carried(0);
    let second = e.carried(1);
    page.put_refused(number as usize, e.carried_count(), first, second, 0);
}

pub(crate) fn put_moved(m: Result<Cursor, BitRefusal>, page: &mut Page<'_>)
    ensures { PutsOn page.old (moved_text m) page.new }
{
    match m {
        Ok(next) => put_ok(page, next.at.0),
        Err(e) => put_refusal(page, e),
    }
}

// A call that writes: its answer, and the buffer after it, set off by a bar.
pub(crate) fn put_written(m: Result<Cursor, BitRefusal>, s: &[u8], page: &mut Page<'_>)
    ensures { PutsOn page.old (written_text m s.now) page.new }
{
    put_moved(m, page);
    page.put_text(b" |");
    put_part(page, s);
}
