// A payload into records, by a table that is built in. Its check is not run: that the check accepts
// each of them is a theorem, proofs/Accepted.antt of `messages`.
ghost use Rattle.std.specs.Prelude.{◌≡◌, length};
ghost use Rattle.tables.specs.Table.{table_of};
ghost use Rattle.bits.specs.Calls.{bytes};
ghost use Rattle.fields.specs.declared.DecodeRefusal.TheVariants.{WrongLength};
ghost use Rattle.reading.specs.Decode.{refused_with};
ghost use Rattle.records.specs.Clauses.{Reads, DecodesByPgn};

use crate::into;
use bits::ByteCount;
use fields::DecodeRefusal;
use reading::Decoded;
use tables::CheckedTable;

// Refusal 7, before any reading.
fn wrong_length(len: usize) -> Decoded
    ensures { result ≡ refused_with (WrongLength (bytes len)) 0 }
{
    Decoded {
        end: Err(DecodeRefusal::WrongLength {
            length: ByteCount(len),
        }),
        count: 0,
    }
}

// By an accepted table that fills nothing.
fn known(table: CheckedTable<'_>, received: &[u8], padded: &[u8], out: &mut [u8]) -> Decoded
    requires { (table_of table.words.now).minimum ≡ 0 }
    ensures { Reads result out.new table.entry.words.now received.now (length padded.now) out.old }
{
    if tables::PAYLOAD_MAX < received.len() {
        return wrong_length(received.len());
    }
    if padded.len() == tables::PAYLOAD_MAX {
        return into::walked(table, received, out);
    }
    wrong_length(padded.len())
}

// Every field of a received payload, by the table of its PGN, into records. The padding run is of 223
// bytes; no table that is built in fills it.
pub fn decode_pgn_into(pgn: u32, received: &[u8], padded: &[u8], out: &mut [u8]) -> Option<Decoded>
    ensures { DecodesByPgn result out.new pgn received.now (length padded.now) out.old }
{
    let message = messages::message_of(pgn)?;
    Some(known(message.table(), received, padded, out))
}
