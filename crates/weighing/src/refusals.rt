// Document 01's number for a refusal, and the values that it carries, in the paper's order.
ghost use Rattle.std.specs.Prelude.{◌≡◌, length, get_or};
ghost use Rattle.weighing.specs.declared.EncodeRefusal.TheVariants.{TableRefused};
ghost use Rattle.weighing.specs.Refusals.{number_of, carried_of};

use crate::EncodeRefusal;
use tables::BrokenRule;

impl EncodeRefusal {
    pub fn number(self) -> u32
        ensures { result ≡ number_of self }
    {
        match self {
            EncodeRefusal::BitWriteError { refusal, .. } => refusal.number(),
            EncodeRefusal::RepetitionsExceedCapacity { .. } => 5,
            EncodeRefusal::WrongLength { .. } => 7,
            EncodeRefusal::TableRefused { .. } => 8,
            EncodeRefusal::OutOfRange { .. } => 10,
            EncodeRefusal::WrongKind { .. } => 11,
            EncodeRefusal::ValueCount { .. } => 12,
            EncodeRefusal::TextTooLong { .. } => 13,
        }
    }

    // How many values it carries.
    pub fn carried_count(self) -> usize
        ensures { result ≡ length (carried_of self) }
    {
        match self {
            EncodeRefusal::BitWriteError { refusal, .. } => 1 + refusal.carried_count(),
            EncodeRefusal::RepetitionsExceedCapacity { .. } => 3,
            EncodeRefusal::TableRefused { .. } => 2,
            _ => 1,
        }
    }

    // The value at place i of what it carries, 0 past the last.
    pub fn carried(self, i: usize) -> usize
        ensures { result ≡ get_or (carried_of self) i 0 }
    {
        let values = match self {
            EncodeRefusal::BitWriteError { field, .. } if i == 0 => return field,
            EncodeRefusal::BitWriteError { refusal, .. } => return refusal.carried(i - 1),
            EncodeRefusal::RepetitionsExceedCapacity {
                set,
                count,
                maximum,
            } => [set, count, maximum],
            EncodeRefusal::WrongLength { length } => [length.0, 0, 0],
            EncodeRefusal::TableRefused { rule, index } => [rule.letter() as usize, index, 0],
            EncodeRefusal::OutOfRange { field }
            | EncodeRefusal::WrongKind { field }
            | EncodeRefusal::ValueCount { field }
            | EncodeRefusal::TextTooLong { field } => [field, 0, 0],
        };
        values.get(i).copied().unwrap_or(0)
    }
}

// What the table check refuses is refusal 8.
impl From<BrokenRule> for EncodeRefusal {
    ghost from_gives = { λ b e. e ≡ TableRefused b.rule b.index };

    fn from(broken: BrokenRule) -> EncodeRefusal {
        EncodeRefusal::TableRefused {
            rule: broken.rule,
            index: broken.index,
        }
    }
}
