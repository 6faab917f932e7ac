// A table in words: the head, a word for each field, a word for each set. A word that is missing is 0.
ghost use Rattle.std.specs.Prelude.{◌≡◌, ◌+◌, ◌%◌, ◌^◌, leb, get_or};
ghost use Rattle.bits.specs.Bits.{pick};
ghost use Rattle.tables.specs.Table.{table_of, field_of, simple_width_lem, set_of_lem};

use crate::RepeatingFieldSet;
use descriptor::FieldDescriptor;

fn word(words: &[u64], i: usize) -> u64
    ensures { result ≡ get_or words.now i 0 }
{
    words.get(i).copied().unwrap_or(0)
}

// 16 bits of a word.
fn low16(w: u64) -> usize
    ensures { result ≡ w % 2 ^ 16 }
{
    (w % 0x1_0000) as usize
}

pub fn field_count(words: &[u64]) -> usize
    ensures { result ≡ (table_of words.now).count }
{
    low16(word(words, 0))
}

pub fn set_count(words: &[u64]) -> usize
    ensures { result ≡ (table_of words.now).sets }
{
    low16(word(words, 0) >> 16)
}

// The payload's length, 0 where the table gives none.
pub fn length_of(words: &[u64]) -> usize
    ensures { result ≡ (table_of words.now).length }
{
    low16(word(words, 0) >> 32)
}

// The shortest payload that is filled to the length, 0 where the table gives none.
pub fn minimum_of(words: &[u64]) -> usize
    ensures { result ≡ (table_of words.now).minimum }
{
    low16(word(words, 0) >> 48)
}

// The field that a word is.
fn field_of(w: u64) -> FieldDescriptor
    ensures { result ≡ field_of w }
{
    let code = (w % 0x100) as u32;
    let width = ((w >> 8) % 0x1_0000) as u32;
    let mark = ((w >> 25) % 4) as u32;
    let bits = ((w >> 32) % 0x1_0000_0000) as u32;
    let signed = (w >> 24) % 2 == 1;
    FieldDescriptor {
        kind: descriptor::kind_of(code),
        width,
        signed,
        resolution: descriptor::resolution_of(mark, bits),
    }
}

// The word of field i.
fn field_word(words: &[u64], i: usize) -> u64
    ensures { result ≡ get_or words.now (1 + i) 0 }
{
    if i < words.len() {
        word(words, 1 + i)
    } else {
        0
    }
}

pub fn field_at(words: &[u64], i: usize) -> FieldDescriptor
    ensures { result ≡ (table_of words.now).field i }
{
    field_of(field_word(words, i))
}

// The width of the field that a word is, if it is a simple number, else 0.
fn simple_in(w: u64) -> u32
    ensures { result ≡ simple_width_lem w }
{
    let code = w % 0x100;
    let width = ((w >> 8) % 0x1_0000) as u32;
    if w >> 24 == 0 && (code == 0 || code == 2) && width <= 64 {
        width
    } else {
        0
    }
}

// The width of field i if it is a Number or Lookup of 1 to 64 bits, without a sign, a mark or a
// resolution: many are, and one look at their word is enough. Else 0.
pub fn simple_width(words: &[u64], i: usize) -> u32
    ensures { result ≡ simple_width_lem (get_or words.now (1 + i) 0) }
{
    simple_in(field_word(words, i))
}

// The set that a word is.
fn set_of(w: u64) -> RepeatingFieldSet
    ensures { result ≡ set_of_lem w }
{
    RepeatingFieldSet {
        start: low16(w),
        size: low16(w >> 16),
        counter: low16(w >> 32),
        maximum: low16(w >> 48),
    }
}

pub fn set_at(words: &[u64], k: usize) -> RepeatingFieldSet
    ensures { result ≡ (table_of words.now).set k }
{
    let base = 1 + field_count(words);
    if k < words.len() {
        return set_of(word(words, base + k));
    }
    set_of(0)
}
