// Document 01's number for a refusal, the values that it carries, in the paper's order, and what they
// count; and which of the numbers touch no buffer.
ghost use Rattle.std.specs.Prelude.{◌≡◌, length, get_or};
ghost use Rattle.fields.specs.declared.DecodeRefusal.TheVariants.{TableRefused};
ghost use Rattle.fields.specs.Refusals.{number_of, touches_nothing_lem, carried_of, unit_of};

use crate::DecodeRefusal;
use tables::BrokenRule;

impl DecodeRefusal {
    pub fn number(self) -> u32
        ensures { result ≡ number_of self }
    {
        match self {
            DecodeRefusal::BitReaderError { refusal, .. } => refusal.number(),
            DecodeRefusal::InvalidDataLength { .. } => 4,
            DecodeRefusal::RepetitionsExceedCapacity { .. } => 5,
            DecodeRefusal::WrongLength { .. } => 7,
            DecodeRefusal::TableRefused { .. } => 8,
            DecodeRefusal::NoRoom { .. } => 9,
        }
    }

    // How many values it carries.
    pub fn carried_count(self) -> usize
        ensures { result ≡ length (carried_of self) }
    {
        match self {
            DecodeRefusal::BitReaderError { refusal, .. } => 1 + refusal.carried_count(),
            DecodeRefusal::RepetitionsExceedCapacity { .. } => 3,
            DecodeRefusal::TableRefused { .. } => 2,
            DecodeRefusal::InvalidDataLength { .. }
            | DecodeRefusal::WrongLength { .. }
            | DecodeRefusal::NoRoom { .. } => 1,
        }
    }

    // The value at place i of what it carries, 0 past the last.
    pub fn carried(self, i: usize) -> usize
        ensures { result ≡ get_or (carried_of self) i 0 }
    {
        let values = match self {
            DecodeRefusal::BitReaderError { field, .. } if i == 0 => return field,
            DecodeRefusal::BitReaderError { refusal, .. } => return refusal.carried(i - 1),
            DecodeRefusal::RepetitionsExceedCapacity {
                set,
                count,
                maximum,
            } => [set, count, maximum],
            DecodeRefusal::TableRefused { rule, index } => [rule.letter() as usize, index, 0],
            DecodeRefusal::WrongLength { length } => [length.0, 0, 0],
            DecodeRefusal::InvalidDataLength { field } | DecodeRefusal::NoRoom { field } => {
                [field, 0, 0]
            }
        };
        values.get(i).copied().unwrap_or(0)
    }

    // How many bits are one of what refusal 2 counts: 1 for bits, 8 for bytes. 0 of any other refusal.
    pub fn unit(self) -> u32
        ensures { result ≡ unit_of self }
    {
        match self {
            DecodeRefusal::BitReaderError { refusal, .. } => refusal.unit(),
            _ => 0,
        }
    }
}

// What the table check refuses is refusal 8.
impl From<BrokenRule> for DecodeRefusal {
    ghost from_gives = { λ b e. e ≡ TableRefused b.rule b.index };

    fn from(broken: BrokenRule) -> DecodeRefusal {
        DecodeRefusal::TableRefused {
            rule: broken.rule,
            index: broken.index,
        }
    }
}

// Whether a decode that is refused with this number leaves the padding run and the readings as they
// were. It goes by the number, since that is what is kept of a refusal where it has been told.
pub fn touches_nothing(number: u32) -> bool
    ensures { result ≡ touches_nothing_lem number }
{
    number == 7 || number == 8
}
