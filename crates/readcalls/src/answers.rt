// The lines of an answer.
ghost use Rattle.std.specs.Prelude.{◌≡◌, length};
ghost use Rattle.text.specs.Sheet.{PutsOn};
ghost use Rattle.descriptor.specs.declared.PgnValue.TheVariants.{Bytes};
ghost use Rattle.readcalls.specs.Lines.{raw_text, kind_text, encoding_text, content_text, reading_line, last_line_lem, touched as touchedOf, run_line};

use columns::{part, word};
use descriptor::{PgnBytes, PgnValue};
use frame_lines::put_head;
use reading::{Decoded, Reading};
use text::Page;

// What the padding run holds where no call has written.
pub(crate) const UNTOUCHED: u8 = 0xa5;

fn put_raw(page: &mut Page<'_>, raw: Option<u64>)
    ensures { PutsOn page.old (raw_text raw) page.new }
{
    match raw {
        Some(n) => page.put_hex(n),
        None => page.put(b'-'),
    }
}

// The kinds of values stand at their codes, from 1 on; no value has the first.
fn put_kind(page: &mut Page<'_>, value: PgnValue)
    ensures { PutsOn page.old (kind_text value) page.new }
{
    let code = numbers::code_of(value) as usize;
    page.put(b' ');
    page.put_text(word(b"? U64 U32 U16 U8 I64 I32 I16 I8 F64 F32 Bytes", code));
}

fn put_encoding(page: &mut Page<'_>, encoding: Option<u8>)
    ensures { PutsOn page.old (encoding_text encoding) page.new }
{
    match encoding {
        Some(b) => {
            page.put(b' ');
            page.put_pairs(&[b]);
        }
        None => page.put_text(b" -"),
    }
}

// Text and bytes by their place.
fn put_place(page: &mut Page<'_>, b: PgnBytes)
    ensures { PutsOn page.old (content_text (Bytes b)) page.new }
{
    let encoding = b.encoding;
    page.put(b' ');
    frame_lines::put_place(page, b);
    put_encoding(page, encoding);
}

// A number by its 64 bits.
fn put_content(page: &mut Page<'_>, value: PgnValue)
    ensures { PutsOn page.old (content_text value) page.new }
{
    match value {
        PgnValue::Bytes(b) => put_place(page, b),
        _ => page.put_value(numbers::word_of(value)),
    }
}

pub(crate) fn put_reading(page: &mut Page<'_>, r: Reading)
    ensures { PutsOn page.old (reading_line r) page.new }
{
    let raw = r.raw;
    let value = r.value;
    put_head(page, r);
    put_raw(page, raw);
    put_kind(page, value);
    put_content(page, value);
    page.put(b'\n');
}

// The end and the count, or the refusal.
pub(crate) fn put_decoded(page: &mut Page<'_>, d: Decoded)
    ensures { PutsOn page.old (last_line_lem d) page.new }
{
    match d.end {
        Ok(end) => {
            page.put(b'E');
            page.put_number(end.0);
            page.put_number(d.count);
            page.put(b'\n');
        }
        Err(refusal) => frame_lines::put_refusal(page, refusal),
    }
}

// How many bytes there are up to the last that is not A5.
fn touched(run: &[u8]) -> usize
    ensures { result ≡ length (touchedOf run.now) }
{
    let mut n = run.len();
    while 0 < n {
        if run[n - 1] != UNTOUCHED {
            return n;
        }
        n -= 1;
    }
    0
}

// The padding run.
pub(crate) fn put_run(page: &mut Page<'_>, run: &[u8])
    ensures { PutsOn page.old (run_line run.now) page.new }
{
    page.put_text(b"D ");
    page.put_bytes(part(run, 0, touched(run)));
    page.put(b'\n');
}
