// The two calls, and the text of their answers.
ghost use Rattle.std.specs.Prelude.{◌≡◌};
ghost use Rattle.text.specs.Sheet.{PutsOn};
ghost use Rattle.numbercalls.specs.Answers.{refusal_text, silence_text, value_text, scale_answer, scale_text, ok_text, raw_answer, raw_text};

use crate::line_fields::{Field, place_of};
use columns::word;
use text::Page;

// The kinds of values at their codes, from 1 on; no value has the first.
const VALUE_KINDS: [u8; 45] = *b"? U64 U32 U16 U8 I64 I32 I16 I8 F64 F32 Bytes";

// The refusal of a width carries two numbers; 10 and 11 carry nothing here.
const BAD_WIDTH: u32 = 1;

fn put_refusal(page: &mut Page<'_>, status: u32, first: u64, second: u64)
    ensures { PutsOn page.old (refusal_text status first second) page.new }
{
    let count: usize = if status == BAD_WIDTH { 2 } else { 0 };
    page.put_refused(status as usize, count, first as usize, second as usize, 0);
}

// Whether a value says something.
fn put_silence(page: &mut Page<'_>, silence: u64)
    ensures { PutsOn page.old (silence_text silence) page.new }
{
    if silence == 0 {
        return page.put_text(b" A");
    }
    page.put_text(b" N");
}

fn put_said(page: &mut Page<'_>, kind: u64, value: u64, silence: u64)
    ensures { PutsOn page.old (value_text kind value silence) page.new }
{
    page.put_text(word(&VALUE_KINDS, kind as usize));
    page.put_value(value);
    put_silence(page, silence);
}

fn put_scale_answer(page: &mut Page<'_>, status: u32, answer: &[u64; 4])
    ensures { PutsOn page.old (scale_answer status answer.now) page.new }
{
    if status != 0 {
        return put_refusal(page, status, answer[0], answer[1]);
    }
    put_said(page, answer[0], answer[1], answer[2]);
}

pub(crate) fn put_scale(f: Field, digits: &[u8], page: &mut Page<'_>)
    ensures { PutsOn page.old (scale_text f digits.now) page.new }
{
    let Some(raw) = columns::hex(digits) else {
        return page.put_malformed();
    };
    let mut answer = [0u64; 4];
    let status = samopute_c::samopute_scale(
        f.kind,
        f.width,
        f.sign,
        f.mark,
        f.resolution,
        raw,
        &mut answer,
    );
    put_scale_answer(page, status, &answer);
}

fn put_ok(page: &mut Page<'_>, raw: u64)
    ensures { PutsOn page.old (ok_text raw) page.new }
{
    page.put_text(b"ok");
    page.put_value(raw);
}

fn put_raw_answer(page: &mut Page<'_>, status: u32, answer: &[u64; 3])
    ensures { PutsOn page.old (raw_answer status answer.now) page.new }
{
    if status != 0 {
        return put_refusal(page, status, answer[0], answer[1]);
    }
    put_ok(page, answer[0]);
}

pub(crate) fn put_raw(f: Field, kind: &[u8], digits: &[u8], page: &mut Page<'_>)
    ensures { PutsOn page.old (raw_text f kind.now digits.now) page.new }
{
    let (Some(code), Some(value)) = (place_of(kind, &VALUE_KINDS), columns::hex(digits)) else {
        return page.put_malformed();
    };
    if code == 0 {
        return page.put_malformed();
    }
    let mut answer = [0u64; 3];
    let status = samopute_c::samopute_raw_of(
        f.kind,
        f.width,
        f.sign,
        f.mark,
        f.resolution,
        code,
        value,
        &mut answer,
    );
    put_raw_answer(page, status, &answer);
}
