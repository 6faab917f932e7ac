// The calls that read, and their answers.
ghost use Rattle.std.specs.Prelude.{◌≡◌, length};
ghost use Rattle.text.specs.Sheet.{PutsOn};
ghost use Rattle.bits.specs.Calls.{read_of, advance_of, read_slice_of};
ghost use Rattle.bitcalls.specs.Names.{widest};
ghost use Rattle.bitcalls.specs.Text.{read_text, moved_text, slice_text, remaining_text};

use crate::answers::{put_moved, put_ok, put_part, put_refusal};
use crate::names::Width;
use bits::{BitRefusal, ByteCount, Cursor, Read};
use text::Page;

// The answers of the four widths in one type.
fn read_width(w: Width, c: Cursor, s: &[u8], n: u32) -> Result<Read<u64>, BitRefusal>
    ensures { result ≡ read_of s.now c n (widest w) }
{
    match w {
        Width::W64 => c.read_u64(s, n),
        Width::W32 => {
            let Read { value, next } = c.read_u32(s, n)?;
            Ok(Read {
                value: u64::from(value),
                next,
            })
        }
        Width::W16 => {
            let Read { value, next } = c.read_u16(s, n)?;
            Ok(Read {
                value: u64::from(value),
                next,
            })
        }
        Width::W8 => {
            let Read { value, next } = c.read_u8(s, n)?;
            Ok(Read {
                value: u64::from(value),
                next,
            })
        }
    }
}

pub(crate) fn put_read(w: Width, c: Cursor, s: &[u8], n: u32, page: &mut Page<'_>)
    ensures { PutsOn page.old (read_text (read_of s.now c n (widest w))) page.new }
{
    match read_width(w, c, s, n) {
        Ok(read) => {
            put_ok(page, read.next.at.0);
            page.put_value(read.value);
        }
        Err(e) => put_refusal(page, e),
    }
}

pub(crate) fn put_advance(c: Cursor, s: &[u8], n: u32, page: &mut Page<'_>)
    ensures { PutsOn page.old (moved_text (advance_of (length s.now) c n 64)) page.new }
{
    put_moved(c.advance(s, n), page);
}

pub(crate) fn put_slice(c: Cursor, s: &[u8], n: usize, page: &mut Page<'_>)
    ensures { PutsOn page.old (slice_text s.now (read_slice_of (length s.now) c n)) page.new }
{
    match c.read_slice(s, ByteCount(n)) {
        Ok(read) => {
            put_ok(page, read.next.at.0);
            put_part(page, read.value.bytes(s));
        }
        Err(e) => put_refusal(page, e),
    }
}

// `count` says nothing in this call, and has to be 0.
pub(crate) fn put_remaining(c: Cursor, s: &[u8], count: usize, page: &mut Page<'_>)
    ensures { PutsOn page.old (remaining_text c s.now count) page.new }
{
    if count != 0 {
        return page.put_malformed();
    }
    let left = c.bits_remaining(s);
    put_ok(page, c.at.0);
    page.put_number(left.0);
}
