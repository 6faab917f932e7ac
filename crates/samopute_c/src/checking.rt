// The table check.
ghost use Rattle.std.specs.Prelude.{◌≡◌, [], ◌∷◌};
ghost use Rattle.tables.specs.Table.{table_of};
ghost use Rattle.tables.specs.Check.{check_of};
ghost use Rattle.samopute_c.specs.Checks.{check_status, check_cells};

use tables::BrokenRule;

// Checks a table in words: the answer is 0, or 8 with the place of the rule's letter in the alphabet
// and the index of the field or the set.
pub fn samopute_check(words: &[u64], answer: &mut [u64; 3]) -> u32
    ensures { (result ≡ check_status (check_of (table_of words.now))) × (answer.new ≡ check_cells (check_of (table_of words.now))) }
{
    match tables::check(words) {
        Ok(()) => {
            *answer = [0, 0, 0];
            0
        }
        Err(BrokenRule { rule, index }) => {
            let letter = rule.letter();
            *answer = [letter as u64, index as u64, 0];
            8
        }
    }
}
