// Decoding: the readings go into a lent buffer as records, laid out as specs/Layout.antt of `records`
// says.
ghost use Rattle.std.specs.Prelude.{◌≡◌};
ghost use Rattle.samopute_c.specs.Decodes.{decoded_status, decoded_cells, filled_by_lem, version_of};
ghost use Rattle.samopute_c.specs.Clauses.{Tells, Decodes, DecodesPgn};

use reading::Decoded;

// 0, or the refusal's number.
fn status_of(decoded: Decoded) -> u32
    ensures { result ≡ decoded_status decoded }
{
    match decoded.end {
        Ok(_) => 0,
        Err(refusal) => refusal.number(),
    }
}

// To how many bytes the padding run was filled, 0 if it was not.
fn filled_by(status: u32, filled: bool, to: usize) -> u64
    ensures { result ≡ filled_by_lem status filled to }
{
    if fields::touches_nothing(status) {
        return 0;
    }
    if filled { to as u64 } else { 0 }
}

// Lays out a decode's answer.
fn tell_decoded(answer: &mut [u64; 6], filled: u64, decoded: Decoded)
    ensures { answer.new ≡ decoded_cells filled decoded }
{
    let count = decoded.count as u64;
    match decoded.end {
        Ok(end) => {
            *answer = [count, filled, end.0 as u64, 0, 0, 0];
        }
        Err(refusal) => {
            let first = refusal.carried(0);
            let second = refusal.carried(1);
            let third = refusal.carried(2);
            let unit = refusal.unit();
            *answer = [
                count,
                filled,
                first as u64,
                second as u64,
                third as u64,
                unit as u64,
            ];
        }
    }
}

// The status of a decode of so many bytes, and its answer laid out.
pub fn told(words: &[u64], received: usize, decoded: Decoded, answer: &mut [u64; 6]) -> u32
    ensures { Tells result answer.new words.now received decoded }
{
    let status = status_of(decoded);
    let is_filled = reading::is_filled(words, received);
    let filled = filled_by(status, is_filled, tables::length_of(words));
    tell_decoded(answer, filled, decoded);
    status
}

// Decodes a payload by a table in words. `padding` is of 223 bytes. The answer is 0, or the refusal's
// number; the six numbers are the count of readings, the length of the working payload if it is the
// front of the padding run, else 0, the end in bits, or what the refusal carries, and how many bits are
// one of what refusal 2 counts.
pub fn samopute_decode(
    words: &[u64],
    payload: &[u8],
    padding: &mut [u8],
    readings: &mut [u8],
    answer: &mut [u64; 6],
) -> u32
    ensures { Decodes result padding.new readings.new answer.new words.now payload.now padding.old readings.old }
{
    let decoded = records::decode_into(words, payload, padding, readings);
    told(words, payload.len(), decoded, answer)
}

// The same by the table that is built in for a PGN; 15 if there is none. None of them fills the
// padding run.
pub fn samopute_decode_pgn(
    pgn: u32,
    payload: &[u8],
    padding: &mut [u8],
    readings: &mut [u8],
    answer: &mut [u64; 6],
) -> u32
    ensures { DecodesPgn result padding.new readings.new answer.new pgn payload.now padding.old readings.old }
{
    match records::decode_pgn_into(pgn, payload, padding, readings) {
        Some(decoded) => {
            tell_decoded(answer, 0, decoded);
            status_of(decoded)
        }
        None => {
            *answer = [0, 0, pgn as u64, 0, 0, 0];
            15
        }
    }
}

// The version of these calls and layouts.
pub fn samopute_version() -> u32
    ensures { result ≡ version_of }
{
    0x3_0000
}
