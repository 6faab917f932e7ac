// The boundary to C and Rust: a payload into an array of structs. `samopute_run_c` exports it.
//
// Promise: `samopute_decode_run` takes whatever it is given. Its status, the six numbers of `answer` and the padding run are
// those of `samopute_decode`, with as much room as the array has entries; the array holds the structs of `structs`, and every
// later entry is as it was. It has no `requires`.
//
// It is a library of its own, so that what it shares with `samopute_decode` is compiled into each by itself: in one library the other
// call took a fifth longer.
#![tactic(auto)]

ghost use Rattle.samopute_run.specs.Clauses.{DecodesRun};

use structs::Record;

// Decodes a payload by a table in words into an array of C structs, with room for as many readings as it has entries. The answer is
// laid out as that of `samopute_decode`.
pub fn samopute_decode_run(
    words: &[u64],
    payload: &[u8],
    padding: &mut [u8],
    readings: &mut [Record],
    answer: &mut [u64; 6],
) -> u32
    ensures { DecodesRun result padding.new readings.new answer.new words.now payload.now padding.old readings.old }
{
    let decoded = structs::decode_run(words, payload, padding, readings);
    samopute_c::told(words, payload.len(), decoded, answer)
}
