// Encoding: the values come in lent bytes as records, laid out as specs/Records.antt of `offers` says.
ghost use Rattle.std.specs.Prelude.{◌≡◌};
ghost use Rattle.samopute_c.specs.Encodes.{encoded_status, encoded_cells};
ghost use Rattle.samopute_c.specs.Clauses.{Encodes, EncodesPgn};

use bits::ByteCount;
use weighing::EncodeRefusal;

// Lays out an encode's answer: its status is 0, or the refusal's number.
fn tell_encoded(answer: &mut [u64; 4], encoded: Result<ByteCount, EncodeRefusal>) -> u32
    ensures { (result ≡ encoded_status encoded) × (answer.new ≡ encoded_cells encoded) }
{
    match encoded {
        Ok(used) => {
            let count = used.0;
            *answer = [count as u64, 0, 0, 0];
            0
        }
        Err(refusal) => {
            let first = refusal.carried(0);
            let second = refusal.carried(1);
            let third = refusal.carried(2);
            *answer = [0, first as u64, second as u64, third as u64];
            refusal.number()
        }
    }
}

// Encodes values by a table in words into the whole of `payload`; `text` is lent to the values that are
// texts or bytes. The answer is 0, or the refusal's number; the four numbers are the bytes used, 0 if
// refused, and what the refusal carries.
pub fn samopute_encode(
    words: &[u64],
    values: &[u8],
    text: &[u8],
    payload: &mut [u8],
    answer: &mut [u64; 4],
) -> u32
    ensures { Encodes result payload.new answer.new words.now values.now text.now payload.old }
{
    let encoded = writing::encode(words, values, text, payload);
    tell_encoded(answer, encoded)
}

// The same by the table that is built in for a PGN; 15 if there is none.
pub fn samopute_encode_pgn(
    pgn: u32,
    values: &[u8],
    text: &[u8],
    payload: &mut [u8],
    answer: &mut [u64; 4],
) -> u32
    ensures { EncodesPgn result payload.new answer.new pgn values.now text.now payload.old }
{
    match messages::message_of(pgn) {
        Some(message) => samopute_encode(message.table().words, values, text, payload, answer),
        None => {
            *answer = [0, pgn as u64, 0, 0];
            15
        }
    }
}
