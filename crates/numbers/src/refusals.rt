// Document 01's number for a number that is refused, and the values that it carries, in the paper's
// order.
ghost use Rattle.std.specs.Prelude.{◌≡◌, length, get_or, Err};
ghost use Rattle.numbers.specs.Refusals.{number_of, carried_of};

use crate::NumberRefusal;

impl NumberRefusal {
    pub fn number(self) -> u32
        ensures { result ≡ number_of (Err self) }
    {
        match self {
            NumberRefusal::BadWidth(_) => 1,
            NumberRefusal::OutOfRange => 10,
            NumberRefusal::WrongKind => 11,
        }
    }

    // How many values it carries.
    pub fn carried_count(self) -> usize
        ensures { result ≡ length (carried_of (Err self)) }
    {
        match self {
            NumberRefusal::BadWidth(_) => 2,
            NumberRefusal::OutOfRange | NumberRefusal::WrongKind => 0,
        }
    }

    // The value at place i of what it carries, 0 past the last: of a width, the maximum and the width.
    pub fn carried(self, i: usize) -> usize
        ensures { result ≡ get_or (carried_of (Err self)) i 0 }
    {
        match (self, i) {
            (NumberRefusal::BadWidth(_), 0) => 64,
            (NumberRefusal::BadWidth(width), 1) => width as usize,
            _ => 0,
        }
    }
}

// The same of a whole answer: 0 of a raw, which carries nothing.
pub fn raw_number(answer: Result<u64, NumberRefusal>) -> u32
    ensures { result ≡ number_of answer }
{
    answer.err().map_or(0, |refusal| refusal.number())
}

pub fn raw_carried_count(answer: Result<u64, NumberRefusal>) -> usize
    ensures { result ≡ length (carried_of answer) }
{
    answer.err().map_or(0, |refusal| refusal.carried_count())
}

pub fn raw_carried(answer: Result<u64, NumberRefusal>, i: usize) -> usize
    ensures { result ≡ get_or (carried_of answer) i 0 }
{
    answer.err().map_or(0, |refusal| refusal.carried(i))
}
