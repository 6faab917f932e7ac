// Numbers and bytes that a text has, at the start of a lent buffer: all of them, or the buffer stays as
// it was. So each text is looked through before anything is stored.
ghost use Rattle.std.specs.Prelude.{◌+◌, ◌*◌, ◌≤◌, ◌≡◌, true, length};
ghost use Rattle.hexadecimal.specs.Digits.{all_digits_lem, pairs_of};
ghost use Rattle.columns.specs.Parts.{parts_of};
ghost use Rattle.columns.specs.Runs.{run_if, filled, over, all_numbers, values_of, pairs_in, bytes_in_lem, words_in};

use crate::figures::hex;
use crate::parts::{part, part_end};
use hexadecimal::value_of;

// How many parts there are, if each is a number.
fn count_numbers(s: &[u8], mark: u8) -> Option<usize>
    ensures { result ≡ run_if (all_numbers (parts_of mark s.now)) (length (parts_of mark s.now)) }
{
    let mut n: usize = 0;
    let mut from: usize = 0;
    loop {
        let end = part_end(s, from, mark);
        hex(part(s, from, end))?;
        n += 1;
        if end == s.len() {
            return Some(n);
        }
        from = end + 1;
    }
}

// The numbers that the parts are.
fn store_numbers(s: &[u8], mark: u8, words: &mut [u64])
    requires { length (parts_of mark s.now) ≤ length words.old }
    ensures { «words».new ≡ over (values_of (parts_of mark s.now)) «words».old }
{
    let mut n: usize = 0;
    let mut from: usize = 0;
    loop {
        let end = part_end(s, from, mark);
        words[n] = hex(part(s, from, end)).unwrap_or(0);
        n += 1;
        if end == s.len() {
            return;
        }
        from = end + 1;
    }
}

// Numbers as `hex` has them, set apart by a mark.
pub fn words(s: &[u8], mark: u8, words: &mut [u64]) -> Option<usize>
    ensures { filled result «words».new ≡ words_in mark s.now «words».old }
{
    let count = count_numbers(s, mark)?;
    if words.len() < count {
        return None;
    }
    store_numbers(s, mark, words);
    Some(count)
}

fn all_digits(s: &[u8]) -> bool
    ensures { result ≡ all_digits_lem s.now }
{
    for &b in s {
        if 15 < value_of(b) {
            return false;
        }
    }
    true
}

// The bytes that digits spell.
fn store_pairs(s: &[u8], buffer: &mut [u8])
    requires { (all_digits_lem s.now ≡ true) × (length (pairs_of s.now) ≤ length buffer.old) }
    ensures { buffer.new ≡ over (pairs_of s.now) buffer.old }
{
    for k in 0..s.len() / 2 {
        let high = value_of(s[2 * k]);
        let low = value_of(s[2 * k + 1]);
        buffer[k] = (high * 16 + low) as u8;
    }
}

// Bytes of two digits each.
pub fn pairs(s: &[u8], buffer: &mut [u8]) -> Option<usize>
    ensures { filled result buffer.new ≡ pairs_in s.now buffer.old }
{
    if s.len() % 2 != 0 {
        return None;
    }
    let n = s.len() / 2;
    if buffer.len() < n {
        return None;
    }
    if !all_digits(s) {
        return None;
    }
    store_pairs(s, buffer);
    Some(n)
}

// The same of at least one byte, or '-' for none.
pub fn bytes(s: &[u8], buffer: &mut [u8]) -> Option<usize>
    ensures { filled result buffer.new ≡ bytes_in_lem s.now buffer.old }
{
    match s {
        [] => None,
        [b'-'] => Some(0),
        [_] => None,
        _ => pairs(s, buffer),
    }
}
