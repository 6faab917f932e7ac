// The parts of a text, which a mark sets apart.
ghost use Rattle.std.specs.Prelude.{◌-◌, ◌≤◌, ◌≡◌, length, take, drop};
ghost use Rattle.columns.specs.Parts.{space, part_end_lem, field, marks_in};

use bits::{ByteCount, Part};

// The bytes from `from` up to `end`, as far as there are any.
pub fn part(s: &[u8], from: usize, end: usize) -> &[u8]
    ensures { result.now ≡ take (end - from) (drop from s.now) }
{
    let len = if from < end { end - from } else { 0 };
    let bytes = Part {
        start: ByteCount(from),
        len: ByteCount(len),
    };
    bytes.bytes(s)
}

// Where the part that starts at `from` ends: at the next mark, or at the end of s.
pub fn part_end(s: &[u8], from: usize, mark: u8) -> usize
    ensures value { result ≡ part_end_lem mark from s.now }
    ensures upper_bound { result ≤ length s.now }
{
    for i in from.min(s.len())..s.len() {
        if s[i] == mark {
            return i;
        }
    }
    s.len()
}

// The same of the field that starts at `from`: the mark is a space.
pub fn field_end(s: &[u8], from: usize) -> usize
    ensures value { result ≡ part_end_lem space from s.now }
    ensures upper_bound { result ≤ length s.now }
{
    part_end(s, from, b' ')
}

// The field at place i, counted from 0; empty where there are not so many.
pub fn word(s: &[u8], i: usize) -> &[u8]
    ensures { result.now ≡ field s.now i }
{
    let mut from = 0;
    for _k in 0..i {
        let end = field_end(s, from);
        if end == s.len() {
            return &s[end..];
        }
        from = end + 1;
    }
    let end = field_end(s, from);
    part(s, from, end)
}

// How many marks there are.
pub fn marks(s: &[u8], mark: u8) -> usize
    ensures { result ≡ marks_in mark s.now }
{
    let mut n: usize = 0;
    for &b in s {
        if b == mark {
            n += 1;
        }
    }
    n
}
