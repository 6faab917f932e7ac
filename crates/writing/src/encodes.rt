// A payload from its first field to the end, its values in records.
ghost use Rattle.std.specs.Prelude.{◌≡◌, ◌+◌, ◌/◌, length, replicate};
ghost use Rattle.bits.specs.Calls.{bytes};
ghost use Rattle.writing.specs.Clauses.{Writes, Encodes};

use crate::{Stroke, begins, strokes};
use bits::{BitPos, ByteCount};
use tables::CheckedTable;
use weighing::EncodeRefusal;

// The bytes that so many bits take, rounded up.
pub fn bytes_used(at: BitPos) -> ByteCount
    ensures { result ≡ bytes ((at.0 + 7) / 8) }
{
    ByteCount(at.0.div_ceil(8))
}

// The walk, by an accepted table, through a buffer of ones.
fn written(
    table: CheckedTable<'_>,
    values: &[u8],
    lent: &[u8],
    buffer: &mut [u8],
) -> Result<ByteCount, EncodeRefusal>
    requires { buffer.old ≡ replicate (length buffer.old) 0xff }
    ensures { Writes result buffer.new table.entry.words.now values.now lent.now buffer.old }
{
    let mut draft = strokes::start();
    loop {
        let offer = offers::offer_at(values, draft.pen.used);
        let next = strokes::write_next(table.words, buffer, lent, draft, offer);
        draft = next.draft;
        if let Stroke::Ended = next.stroke? {
            return Ok(bytes_used(draft.pen.at));
        }
    }
}

// Values by a table into a buffer: the bytes used, or the refusal. The values are records of 24 bytes,
// as specs/Records.antt of `offers` says; their texts stand in the lent text.
pub fn encode(
    words: &[u64],
    values: &[u8],
    lent: &[u8],
    buffer: &mut [u8],
) -> Result<ByteCount, EncodeRefusal>
    ensures { Encodes result buffer.new words.now values.now lent.now buffer.old }
{
    begins::begin(words, buffer)?;
    written(CheckedTable { words }, values, lent, buffer)
}
