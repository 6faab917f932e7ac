// Writing a payload whose values are lent as values: document 01, "Writing a payload".
//
// Promise: `encode` takes whatever it is given and answers as `encode` of the crate `writing` does,
// whose values are records in bytes: specs/Run.antt says what a lent run of values offers, and the rest
// is specs/Encode.antt there. The buffer at exit is that of specs/Encode.antt too. It has no `requires`.
#![tactic(auto)]

ghost use Rattle.std.specs.Prelude.{◌≡◌, length, replicate};
ghost use Rattle.lent_values.specs.Run.{offered_at};
ghost use Rattle.lent_values.specs.Clauses.{Writes, Encodes};

use bits::ByteCount;
use descriptor::PgnValue;
use offers::Offer;
use tables::CheckedTable;
use weighing::EncodeRefusal;
use writing::Stroke;

// What stands at place j among the values: nothing past the last one.
fn offer_at(values: &[PgnValue], j: usize) -> Offer
    ensures { result ≡ offered_at values.now j }
{
    match values.get(j) {
        Some(value) => Offer::Value(*value),
        None => Offer::Nothing,
    }
}

// The walk, by an accepted table, through a buffer of ones.
fn written(
    table: CheckedTable<'_>,
    values: &[PgnValue],
    lent: &[u8],
    buffer: &mut [u8],
) -> Result<ByteCount, EncodeRefusal>
    requires { buffer.old ≡ replicate (length buffer.old) 0xff }
    ensures { Writes result buffer.new table.entry.words.now values.now lent.now buffer.old }
{
    let mut draft = writing::start();
    loop {
        let offer = offer_at(values, draft.pen.used);
        let next = writing::write_next(table.words, buffer, lent, draft, offer);
        draft = next.draft;
        if let Stroke::Ended = next.stroke? {
            return Ok(writing::bytes_used(draft.pen.at));
        }
    }
}

// Values by a table into a buffer: the bytes used, or the refusal. The texts of the values stand in the
// lent text.
pub fn encode(
    words: &[u64],
    values: &[PgnValue],
    lent: &[u8],
    buffer: &mut [u8],
) -> Result<ByteCount, EncodeRefusal>
    ensures { Encodes result buffer.new words.now values.now lent.now buffer.old }
{
    writing::begin(words, buffer)?;
    written(CheckedTable { words }, values, lent, buffer)
}
