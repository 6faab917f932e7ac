// The working payload: filled to the table's length where the table asks for it.
ghost use Rattle.std.specs.Prelude.{◌≡◌, ◌++◌, ◌-◌, ◌≤◌, length, take, drop, replicate, get_or};
ghost use Rattle.tables.specs.Table.{table_of};
ghost use Rattle.reading.specs.Filling.{fills, picked_of, prepared_of};
ghost use Rattle.reading.specs.Clauses.{Prepares};

use bits::ByteCount;
use fields::DecodeRefusal;

// Whether a payload of so many bytes is filled.
pub fn is_filled(words: &[u64], received: usize) -> bool
    ensures { result ≡ fills (table_of words.now) received }
{
    let minimum = tables::minimum_of(words);
    1 <= minimum && minimum <= received && received < tables::length_of(words)
}

// The byte at a place, 0xFF past the end.
fn filled_at(received: &[u8], i: usize) -> u8
    ensures { result ≡ get_or received.now i 0xff }
{
    received.get(i).copied().unwrap_or(0xff)
}

// Puts the received bytes, and 0xFF after them up to n, at the front of the run. Not by copy_from_slice: that is memmove,
// which the library would then want linked, with a stack of its own.
fn fill(received: &[u8], padded: &mut [u8], n: usize)
    requires { (length received.now ≤ n) × (n ≤ length padded.old) }
    ensures { padded.new ≡ (received.now ++ replicate (n - length received.now) 0xff) ++ drop n padded.old }
{
    for i in 0..n {
        padded[i] = filled_at(received, i);
    }
}

// 7, 8, or nothing.
fn prepared(words: &[u64], received: usize, padded: usize) -> Result<(), DecodeRefusal>
    ensures { result ≡ prepared_of (table_of words.now) received padded }
{
    if tables::PAYLOAD_MAX < received {
        return Err(DecodeRefusal::WrongLength {
            length: ByteCount(received),
        });
    }
    if padded != tables::PAYLOAD_MAX {
        return Err(DecodeRefusal::WrongLength {
            length: ByteCount(padded),
        });
    }
    tables::check(words)?;
    Ok(())
}

// Refusal 7 or 8, or nothing; then the padding run is filled if the table asks for it.
pub fn prepare(words: &[u64], received: &[u8], padded: &mut [u8]) -> Result<(), DecodeRefusal>
    ensures { Prepares result padded.new words.now received.now padded.old }
{
    prepared(words, received.len(), padded.len())?;
    if is_filled(words, received.len()) {
        fill(received, padded, tables::length_of(words));
    }
    Ok(())
}

// The first n bytes, as far as there are so many.
fn front(s: &[u8], n: usize) -> &[u8]
    ensures { result.now ≡ take n s.now }
{
    &s[..n.min(s.len())]
}

// The working payload, after `prepare`: the received slice, or the front of the padding run.
pub fn pad_to_min_length<'a>(words: &[u64], received: &'a [u8], padded: &'a [u8]) -> &'a [u8]
    ensures { result.now ≡ picked_of (table_of words.now) received.now padded.now }
{
    if is_filled(words, received.len()) {
        return front(padded, tables::length_of(words));
    }
    received
}
