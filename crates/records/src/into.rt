// A payload into records, by a table.
ghost use Rattle.std.specs.Prelude.{◌≡◌};
ghost use Rattle.records.specs.Layout.{room_in_lem};
ghost use Rattle.records.specs.Stretches.{counted};
ghost use Rattle.records.specs.Clauses.{Walks, DecodesInto};

use crate::layout::put_word;
use crate::walks;
use reading::Decoded;
use tables::CheckedTable;

// How many records a buffer of so many bytes has room for, beside the count.
pub fn room_in(len: usize) -> usize
    ensures { result ≡ room_in_lem len }
{
    if len < 8 {
        return 0;
    }
    (len - 8) / 64
}

// Puts the count, where it has room.
fn put_count(out: &mut [u8], n: usize)
    ensures { out.new ≡ counted out.old n }
{
    if out.len() < 8 {
        return;
    }
    put_word(out, 0, n as u64);
}

// The walk through the working payload s, by an accepted table, with its count.
pub(crate) fn walked(table: CheckedTable<'_>, s: &[u8], out: &mut [u8]) -> Decoded
    ensures { Walks result out.new table.entry.words.now s.now out.old }
{
    let room = room_in(out.len());
    let decoded = walks::store(table, s, room, out);
    put_count(out, decoded.count);
    decoded
}

// Every field of a received payload, by a table, into records. The padding run is of 223 bytes.
pub fn decode_into(words: &[u64], received: &[u8], padded: &mut [u8], out: &mut [u8]) -> Decoded
    ensures { DecodesInto result padded.new out.new words.now received.now padded.old out.old }
{
    match reading::prepare(words, received, padded) {
        Ok(()) => {
            let s = reading::pad_to_min_length(words, received, padded);
            walked(CheckedTable { words }, s, out)
        }
        Err(refusal) => Decoded {
            end: Err(refusal),
            count: 0,
        },
    }
}
