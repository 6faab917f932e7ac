// The table check.
ghost use Rattle.std.specs.Prelude.{◌≡◌, true, Ok};
ghost use Rattle.tables.specs.Table.{table_of};
ghost use Rattle.tables.specs.Check.{found_from, first, from_b, check_of};

use crate::words::{field_count, set_count};
use crate::{BrokenRule, TableRule, kept, rules};

// The lowest of the first n that breaks the rule.
fn first_broken(words: &[u64], rule: TableRule, n: usize) -> Option<usize>
    ensures { result ≡ found_from rule (table_of words.now) 0 n }
{
    (0..n).find(|&i| !rules::is_kept(words, rule, i))
}

// One rule by itself, wherever it speaks.
fn check_rule(words: &[u64], rule: TableRule) -> Result<(), BrokenRule>
    ensures { result ≡ first rule (table_of words.now) (Ok tt) }
{
    let n = rules::reach_of(words, rule);
    match first_broken(words, rule, n) {
        Some(index) => Err(BrokenRule { rule, index }),
        None => Ok(()),
    }
}

// Which of the rules b to h is broken first, if any.
fn explain(words: &[u64]) -> Result<(), BrokenRule>
    ensures { result ≡ from_b (table_of words.now) }
{
    check_rule(words, TableRule::B)?;
    check_rule(words, TableRule::C)?;
    check_rule(words, TableRule::D)?;
    check_rule(words, TableRule::E)?;
    check_rule(words, TableRule::F)?;
    check_rule(words, TableRule::G)?;
    check_rule(words, TableRule::H)
}

// Whether no rule of b to h is broken, in two quick passes. A false says nothing.
fn is_clean(words: &[u64]) -> bool
    ensures { result ≡ true → from_b (table_of words.now) ≡ Ok tt }
{
    kept::fields_are_kept(words, field_count(words)) && kept::sets_are_kept(words, set_count(words))
}

// Refusal 8, or nothing: a first, since it bounds the work; then the quick way; then why not.
pub fn check(words: &[u64]) -> Result<(), BrokenRule>
    ensures { result ≡ check_of (table_of words.now) }
{
    if !rules::sizes_fit(words) {
        return Err(BrokenRule {
            rule: TableRule::A,
            index: 0,
        });
    }
    if is_clean(words) {
        return Ok(());
    }
    explain(words)
}
