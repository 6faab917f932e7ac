// Texts and bytes. Sums are not made where they could pass the largest number: a difference is asked
// instead.
ghost use Rattle.std.specs.Prelude.{◌≡◌, ◌+◌, ◌-◌, ◌*◌, ◌≤◌, not, eqb, ltb};
ghost use Rattle.tables.specs.Check.{payload_max};
ghost use Rattle.weighing.specs.Weigh.{text_by, fixed_of, whole_of, lz_of, lau_by, by_bytes};

use crate::{EncodeRefusal, Lead, Weighed};
use bits::{BitPos, BitRefusal};
use descriptor::{PgnBytes, PgnValue};

const TEXT_MAX: usize = 221;

// Where a text would stand: a field, a bit of a buffer of `size` bytes, and how long the lent text is.
#[derive(Clone, Copy)]
pub(crate) struct Site {
    pub(crate) field: usize,
    pub(crate) lent: usize,
    pub(crate) size: usize,
    pub(crate) at: usize,
    ghost small: { size ≤ payload_max },
}

// Whether a text reaches past the lent one.
fn is_past(b: PgnBytes, lent: usize) -> bool
    ensures { result ≡ ltb lent (b.start.0 + b.len.0) }
{
    lent < b.len.0 || lent - b.len.0 < b.start.0
}

// Whether n bytes are not w bits.
fn is_unlike(n: usize, w: usize) -> bool
    ensures { result ≡ not (eqb (8 * n) w) }
{
    w % 8 != 0 || n != w / 8
}

impl Site {
    // The bits from `at` on.
    fn left(self) -> usize
        ensures { result ≡ self.size * 8 - self.at }
    {
        (self.size * 8).saturating_sub(self.at)
    }

    // Whether n bits from `at` on lie in the buffer.
    fn fits(self, n: usize) -> bool
        ensures { result ≡ not (ltb (self.size * 8) (self.at + n)) }
    {
        self.at.saturating_add(n) <= self.size * 8
    }

    // What a bit call would refuse.
    fn bits_refused(self, refusal: BitRefusal) -> EncodeRefusal
        ensures { result ≡ EncodeRefusal.BitWriteError self.field refusal }
    {
        EncodeRefusal::BitWriteError {
            field: self.field,
            refusal,
        }
    }

    // A text of a field that takes n bits: 13; 3 where it is asked, with the bit at which the text would
    // stand; 2, which counts the bits of the whole field.
    fn text(
        self,
        b: PgnBytes,
        over: bool,
        aligned: bool,
        put: usize,
        n: usize,
        lead: Lead,
    ) -> Result<Weighed, EncodeRefusal>
        ensures { result ≡ text_by b self.field self.lent self.size self.at over aligned put n lead }
    {
        if over || is_past(b, self.lent) {
            return Err(EncodeRefusal::TextTooLong { field: self.field });
        }
        if aligned && self.at % 8 != 0 {
            let cursor = BitPos(self.at.saturating_add(put));
            return Err(self.bits_refused(BitRefusal::NonAlignedBit { cursor }));
        }
        if !self.fits(n) {
            let asked = BitPos(n);
            let available = BitPos(self.left());
            return Err(self.bits_refused(BitRefusal::OutOfBits { asked, available }));
        }
        Ok(Weighed::Text {
            bits: BitPos(n),
            lead,
            text: b,
        })
    }

    // 11: a value of another kind, or text with an encoding byte where none is taken.
    fn wrong_kind(self) -> EncodeRefusal
        ensures { result ≡ EncodeRefusal.WrongKind self.field }
    {
        EncodeRefusal::WrongKind { field: self.field }
    }

    pub(crate) fn fixed(self, value: PgnValue, width: u32) -> Result<Weighed, EncodeRefusal>
        ensures { result ≡ by_bytes value self.field (λ b. fixed_of b self.field self.lent self.size self.at width) }
    {
        let PgnValue::Bytes(b) = value else {
            return Err(self.wrong_kind());
        };
        let None = b.encoding else {
            return Err(self.wrong_kind());
        };
        let whole = (width as usize) / 8;
        self.text(b, whole < b.len.0, true, 0, 8 * whole, Lead::Bare)
    }

    pub(crate) fn whole(self, value: PgnValue, width: u32) -> Result<Weighed, EncodeRefusal>
        ensures { result ≡ by_bytes value self.field (λ b. whole_of b self.field self.lent self.size self.at width) }
    {
        let PgnValue::Bytes(b) = value else {
            return Err(self.wrong_kind());
        };
        let None = b.encoding else {
            return Err(self.wrong_kind());
        };
        let w = width as usize;
        self.text(b, is_unlike(b.len.0, w), true, 0, w, Lead::Bare)
    }

    pub(crate) fn lz(self, value: PgnValue) -> Result<Weighed, EncodeRefusal>
        ensures { result ≡ by_bytes value self.field (λ b. lz_of b self.field self.lent self.size self.at) }
    {
        let PgnValue::Bytes(b) = value else {
            return Err(self.wrong_kind());
        };
        let None = b.encoding else {
            return Err(self.wrong_kind());
        };
        let len = b.len.0;
        let n = 16 + 8 * len.min(TEXT_MAX);
        self.text(b, TEXT_MAX < len, len != 0, 8, n, Lead::Counted)
    }

    pub(crate) fn lau(self, value: PgnValue) -> Result<Weighed, EncodeRefusal>
        ensures { result ≡ by_bytes value self.field (λ b. lau_by b.encoding b self.field self.lent self.size self.at) }
    {
        let PgnValue::Bytes(b) = value else {
            return Err(self.wrong_kind());
        };
        let len = b.len.0;
        match b.encoding {
            None if len == 0 => self.text(b, false, false, 0, 8, Lead::Empty),
            None => Err(self.wrong_kind()),
            Some(x) => {
                let n = 16 + 8 * len.min(TEXT_MAX);
                self.text(b, TEXT_MAX < len, len != 0, 16, n, Lead::Encoded(x))
            }
        }
    }
}
