// The call of `samopute_run` as a static library, for include/samopute.h.
//
// Promise: the export answers and leaves what the call of `samopute_run` does, by the same clause. It has no `requires`.
#![tactic(auto)]

ghost use Rattle.samopute_run.specs.Clauses.{DecodesRun};

use structs::Record;

#[unsafe(no_mangle)]
pub extern "C" fn samopute_decode_run(
    words: &[u64],
    payload: &[u8],
    padding: &mut [u8],
    readings: &mut [Record],
    answer: &mut [u64; 6],
) -> u32
    ensures { DecodesRun result padding.new readings.new answer.new words.now payload.now padding.old readings.old }
{
    samopute_run::samopute_decode_run(words, payload, padding, readings, answer)
}
