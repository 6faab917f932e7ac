// The calls that write, and their answers, which end with the buffer as the call left it.
ghost use Rattle.std.specs.Prelude.{◌≡◌, ◌≤◌, length};
ghost use Rattle.text.specs.Sheet.{PutsOn};
ghost use Rattle.bits.specs.Calls.{advance_of, written_of};
ghost use Rattle.bitcalls.specs.Names.{widest, largest};
ghost use Rattle.bitcalls.specs.Text.{written_text, write_text, write_slice_text};

use crate::answers::put_written;
use crate::names::{Width, most};
use bits::{BitRefusal, Cursor};
use text::Page;

// The low bits of v: v itself where `most` allows it.
fn low32(v: u64) -> u32
    ensures { v ≤ 0xffffffff → result ≡ v }
{
    (v % 0x1_0000_0000) as u32
}

fn low16(v: u64) -> u16
    ensures { v ≤ 0xffff → result ≡ v }
{
    (v % 0x1_0000) as u16
}

fn low8(v: u64) -> u8
    ensures { v ≤ 0xff → result ≡ v }
{
    (v % 0x100) as u8
}

fn write_width(w: Width, c: Cursor, s: &mut [u8], v: u64, n: u32) -> Result<Cursor, BitRefusal>
    ensures value { result ≡ advance_of (length s.old) c n (widest w) }
    ensures s_after { v ≤ largest w → s.new ≡ written_of s.old c n (widest w) v }
{
    match w {
        Width::W64 => c.write_u64(s, v, n),
        Width::W32 => c.write_u32(s, low32(v), n),
        Width::W16 => c.write_u16(s, low16(v), n),
        Width::W8 => c.write_u8(s, low8(v), n),
    }
}

// `text` is the VALUE field: a number that fits the call's width.
pub(crate) fn put_write(w: Width, c: Cursor, s: &mut [u8], n: u32, text: &[u8], page: &mut Page<'_>)
    ensures { PutsOn page.old (write_text w c s.old n text.now) page.new }
{
    let Some(v) = columns::hex(text) else {
        return page.put_malformed();
    };
    if most(w) < v {
        return page.put_malformed();
    }
    let m = write_width(w, c, s, v, n);
    put_written(m, s, page);
}

pub(crate) fn put_write_advance(c: Cursor, s: &mut [u8], n: u32, page: &mut Page<'_>)
    ensures { PutsOn page.old (written_text (advance_of (length s.old) c n 64) s.old) page.new }
{
    let m = c.write_advance(s, n);
    put_written(m, s, page);
}

// `text` is the VALUE field: the source's bytes, `count` of them.
pub(crate) fn put_write_slice(
    c: Cursor,
    s: &mut [u8],
    count: usize,
    text: &[u8],
    page: &mut Page<'_>,
)
    ensures { PutsOn page.old (write_slice_text c s.old count text.now) page.new }
{
    let mut source = [0u8; 256];
    let Some(n) = columns::bytes(text, &mut source) else {
        return page.put_malformed();
    };
    if n != count {
        return page.put_malformed();
    }
    let m = c.write_slice(s, &source[0..n]);
    put_written(m, s, page);
}
