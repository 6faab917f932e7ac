// How many bits a number has, and what they hold.
ghost use Rattle.std.specs.Prelude.{◌≡◌, ◌≤◌, min};
ghost use Rattle.numbers.specs.Special.{top_of, raw_availability_of};
ghost use Rattle.numbers.specs.Quantizing.{limit_of_lem};

use descriptor::Availability;
use halves::{left, ones};

// The bits of a number, 64 at the most, and whether one of them is its sign.
#[derive(Clone, Copy)]
pub(crate) struct Width {
    pub(crate) bits: u32,
    pub(crate) signed: bool,
    ghost within: { bits ≤ 64 },
}

impl Width {
    // Of a field that is so wide: of more bits than 64 the others do not count.
    pub(crate) fn new(width: u32, signed: bool) -> Width
        ensures bits { result.bits ≡ min width 64 }
        ensures sign { result.signed ≡ signed }
    {
        Width {
            bits: width.min(64),
            signed,
        }
    }

    // The largest number.
    pub(crate) fn top(self) -> u64
        ensures { result ≡ top_of self.bits self.signed }
    {
        if self.signed {
            return ones(self.bits.saturating_sub(1) as usize);
        }
        ones(self.bits as usize)
    }

    // The largest magnitude on one side of zero.
    pub(crate) fn limit(self, negative: bool) -> u64
        ensures { result ≡ limit_of_lem self.bits self.signed negative }
    {
        if !negative {
            return self.top();
        }
        if self.signed {
            return left(1, self.bits.saturating_sub(1) as usize);
        }
        0
    }

    // Whether a raw says something, in a field that is no Float.
    pub(crate) fn availability(self, raw: u64) -> Availability
        ensures { result ≡ raw_availability_of self.bits self.signed raw }
    {
        if 2 <= self.bits && raw == self.top() {
            return Availability::NotAvailable;
        }
        Availability::Available
    }
}
