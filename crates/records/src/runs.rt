// Numbers and skipped bits, read quickly and stored at once. Whatever is not read so is left to the
// walk of `reading`.
ghost use Rattle.std.specs.Prelude.{◌≡◌, true, ◌<◌, length};
ghost use Rattle.tables.specs.Table.{table_of, Simple};
ghost use Rattle.fields.specs.Payload.{payload_of};
ghost use Rattle.fields.specs.Shapes.{shape_of, is_number, is_gap_lem};
ghost use Rattle.records.specs.Stretches.{Roomy, QuickSays, Quiet, Runs, stretch_at};

use crate::{Quick, Stretch, readings};
use bits::{BitPos, Cursor};
use descriptor::FieldDescriptor;

// Field i, a number at bit `at`.
fn number(
    words: &[u64],
    s: &[u8],
    room: usize,
    i: usize,
    e: Option<usize>,
    f: FieldDescriptor,
    at: usize,
    made: usize,
    out: &mut [u8],
) -> Option<Quick>
    requires { (f ≡ (table_of words.now).field i) × ((is_number (shape_of f) ≡ true) × Roomy room out.old) }
    ensures { QuickSays (table_of words.now) (payload_of s.now) room i e at made out.old result out.new }
{
    let width = f.width;
    if made < room {
        let c = Cursor { at: BitPos(at) };
        return match c.read_u64(s, width) {
            Ok(read) => {
                readings::put_number(out, 8 + 64 * made, i, e, at, f, read.value);
                Some(Quick::Took {
                    bits: width as usize,
                    raw: read.value,
                })
            }
            Err(_) => None,
        };
    }
    None
}

// Field i, a simple number at bit `at`.
fn simple(
    words: &[u64],
    s: &[u8],
    room: usize,
    i: usize,
    e: Option<usize>,
    width: u32,
    at: usize,
    made: usize,
    out: &mut [u8],
) -> Option<Quick>
    requires { Simple ((table_of words.now).field i) width × Roomy room out.old }
    ensures { QuickSays (table_of words.now) (payload_of s.now) room i e at made out.old result out.new }
{
    if made < room {
        let c = Cursor { at: BitPos(at) };
        return match c.read_u64(s, width) {
            Ok(read) => {
                let n = numbers::simple_words(width, read.value);
                readings::put_words(out, 8 + 64 * made, i, e, at, width, read.value, n);
                Some(Quick::Took {
                    bits: width as usize,
                    raw: read.value,
                })
            }
            Err(_) => None,
        };
    }
    None
}

// Field i, bits that are skipped.
fn gap(
    words: &[u64],
    s: &[u8],
    room: usize,
    i: usize,
    e: Option<usize>,
    f: FieldDescriptor,
    at: usize,
    made: usize,
    out: &[u8],
) -> Option<Quick>
    requires { (f ≡ (table_of words.now).field i) × (is_gap_lem (shape_of f) ≡ true) }
    ensures { QuickSays (table_of words.now) (payload_of s.now) room i e at made out.now result out.now }
{
    let width = f.width;
    let c = Cursor { at: BitPos(at) };
    match c.advance(s, width) {
        Ok(_) => Some(Quick::Skipped {
            bits: width as usize,
        }),
        Err(_) => None,
    }
}

// Field i, at bit `at`, with so many readings made.
fn quick(
    words: &[u64],
    s: &[u8],
    room: usize,
    i: usize,
    e: Option<usize>,
    at: usize,
    made: usize,
    out: &mut [u8],
) -> Option<Quick>
    requires { Roomy room out.old }
    ensures { QuickSays (table_of words.now) (payload_of s.now) room i e at made out.old result out.new }
{
    let n = tables::simple_width(words, i);
    if n > 0 {
        return simple(words, s, room, i, e, n, at, made, out);
    }
    let f = tables::field_at(words, i);
    if fields::is_number(f) {
        return number(words, s, room, i, e, f, at, made, out);
    }
    if fields::is_gap(f) {
        return gap(words, s, room, i, e, f, at, made, out);
    }
    None
}

// The fields from `from` up to `end`, as far as they are quick. Only the last of them may be a counter:
// it is left to the caller to note it.
pub(crate) fn run(
    words: &[u64],
    s: &[u8],
    room: usize,
    from: usize,
    end: usize,
    e: Option<usize>,
    bit: usize,
    count: usize,
    out: &mut [u8],
) -> Stretch
    requires { (from < end) × (Quiet (table_of words.now) e from end × Roomy room out.old) }
    ensures { Runs (table_of words.now) (payload_of s.now) room e from end bit count out.old result out.new }
{
    let mut i = from;
    let mut at = bit;
    let mut made = count;
    let mut last = None;
    while i < end {
        match quick(words, s, room, i, e, at, made, out) {
            Some(Quick::Took { bits, raw }) => {
                last = Some(raw);
                i += 1;
                at += bits;
                made += 1;
            }
            Some(Quick::Skipped { bits }) => {
                last = None;
                i += 1;
                at += bits;
            }
            None => {
                return stretch(i, at, made, None);
            }
        }
    }
    stretch(i, at, made, last)
}

pub(crate) fn stretch(field: usize, at: usize, made: usize, last: Option<u64>) -> Stretch
    ensures { result ≡ stretch_at field at made last }
{
    Stretch {
        field,
        at,
        made,
        last,
    }
}
