// What is put of a field that was weighed.
ghost use Rattle.std.specs.Prelude.{◌≡◌, true, ◌+◌, ◌*◌, ◌≤◌, ◌<◌, length, take, drop, replicate};
ghost use Rattle.bits.specs.Bits.{written};
ghost use Rattle.weighing.specs.declared.Lead.TheVariants as lead;
ghost use Rattle.tables.specs.Check.{payload_max};
ghost use Rattle.writing.specs.Ink.{poured, bytes_by, text_in_lem, around, inked, Puttable};
ghost use Rattle.writing.specs.Ones.{inks};
ghost use Rattle.weighing.specs.Weigh.{weighed_of};
ghost use Rattle.writing.specs.Clauses.{Puts};

use bits::{BitPos, Cursor};
use descriptor::{FieldDescriptor, PgnValue};
use weighing::{EncodeRefusal, Lead, Weighed};

// Puts a byte at a bit.
fn put_byte(buffer: &mut [u8], at: usize, x: u8)
    requires { (length buffer.old ≤ payload_max) × (at + 8 ≤ length buffer.old * 8) }
    ensures { buffer.new ≡ written buffer.old at 8 x }
{
    let c = Cursor { at: BitPos(at) };
    let _ = c.write_u8(buffer, x, 8);
}

// Puts bytes one after another from a bit on.
fn pour(buffer: &mut [u8], at: usize, text: &[u8])
    requires { (length buffer.old ≤ payload_max) × (at + 8 * length text.now ≤ length buffer.old * 8) }
    ensures { buffer.new ≡ poured buffer.old at text.now }
{
    let mut to = at;
    for x in text {
        put_byte(buffer, to, *x);
        to += 8;
    }
}

// Puts n bytes of 0xFF from a bit on.
fn fill(buffer: &mut [u8], at: usize, n: usize)
    requires { (length buffer.old ≤ payload_max) × (at + 8 * n ≤ length buffer.old * 8) }
    ensures { buffer.new ≡ poured buffer.old at (replicate n 0xff) }
{
    for j in 0..n {
        put_byte(buffer, at + 8 * j, 0xff);
    }
}

// A text, and 0xFF up to `size` bytes.
fn put_bare(buffer: &mut [u8], at: usize, text: &[u8], size: usize)
    requires { (length buffer.old ≤ payload_max) × ((at + 8 * size ≤ length buffer.old * 8) × (length text.now ≤ size)) }
    ensures { buffer.new ≡ poured buffer.old at (bytes_by lead.Bare (8 * size) text.now) }
{
    let n = text.len();
    pour(buffer, at, text);
    fill(buffer, at + 8 * n, size - n);
}

// Length, text, zero.
fn put_counted(buffer: &mut [u8], at: usize, text: &[u8])
    requires { (length buffer.old ≤ payload_max) × (at + 8 * (length text.now + 2) ≤ length buffer.old * 8) }
    ensures { buffer.new ≡ poured buffer.old at (bytes_by lead.Counted 0 text.now) }
{
    let n = text.len();
    put_byte(buffer, at, n as u8);
    pour(buffer, at + 8, text);
    put_byte(buffer, at + 8 + 8 * n, 0);
}

// Length, encoding, text.
fn put_encoded(buffer: &mut [u8], at: usize, x: u8, text: &[u8])
    requires { (length buffer.old ≤ payload_max) × (at + 8 * (length text.now + 2) ≤ length buffer.old * 8) }
    ensures { buffer.new ≡ poured buffer.old at (bytes_by (lead.Encoded x) 0 text.now) }
{
    let n = text.len();
    put_byte(buffer, at, (n + 2) as u8);
    put_byte(buffer, at + 8, x);
    pour(buffer, at + 16, text);
}

// A text in a field of `size` bytes, with what stands around it.
fn put_text(buffer: &mut [u8], at: usize, size: usize, lead: Lead, text: &[u8])
    requires { (length buffer.old ≤ payload_max) × ((at + 8 * size ≤ length buffer.old * 8) × (around lead (length text.now) ≤ size)) }
    ensures { buffer.new ≡ poured buffer.old at (bytes_by lead (8 * size) text.now) }
{
    match lead {
        Lead::Bare => put_bare(buffer, at, text, size),
        Lead::Counted => put_counted(buffer, at, text),
        Lead::Encoded(x) => put_encoded(buffer, at, x, text),
        Lead::Empty => put_byte(buffer, at, 1),
    }
}

// Puts what was weighed at a bit: what inks has room.
pub(crate) fn put_weighed(buffer: &mut [u8], at: usize, weighed: Weighed, lent: &[u8])
    requires { inks (Ok weighed) ≡ true → Puttable (length buffer.old) at (Ok weighed) (length lent.now) }
    ensures { buffer.new ≡ inked buffer.old at (Ok weighed) lent.now }
{
    match weighed {
        Weighed::Number { bits, raw } => put_number(buffer, at, bits.0, raw),
        Weighed::Gap { bits: _ } => {}
        Weighed::Text { bits, lead, text } => {
            let start = text.start.0;
            let text = &lent[start..start + text.len.0];
            put_text(buffer, at, bits.0 / 8, lead, text);
        }
    }
}

// Puts a number of n bits.
fn put_number(buffer: &mut [u8], at: usize, n: usize, raw: u64)
    requires { (length buffer.old ≤ payload_max) × ((0 < n) × ((n ≤ 64) × (at + n ≤ length buffer.old * 8))) }
    ensures { buffer.new ≡ written buffer.old at n raw }
{
    let c = Cursor { at: BitPos(at) };
    let _ = c.write_u64(buffer, raw, n as u32);
}

// A value in field i, at a bit of the buffer: what was weighed is answered, and put. A refused one
// leaves the buffer as it was.
pub fn write_field(
    buffer: &mut [u8],
    at: BitPos,
    f: FieldDescriptor,
    i: usize,
    value: PgnValue,
    lent: &[u8],
) -> Result<Weighed, EncodeRefusal>
    ensures { Puts result buffer.new (weighed_of f i value (length lent.now) (length buffer.old) at.0) lent.now buffer.old at.0 }
{
    let weighed = weighing::weigh_field(f, i, value, lent.len(), buffer.len(), at)?;
    put_weighed(buffer, at.0, weighed, lent);
    Ok(weighed)
}
