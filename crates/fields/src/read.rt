// One field at a place: `read_field_raw_and_value`.
ghost use Rattle.std.specs.Prelude.{◌≡◌, length};
ghost use Rattle.bits.specs.Calls.{cursor_at};
ghost use Rattle.fields.specs.Payload.{payload_of};
ghost use Rattle.fields.specs.declared.DecodeRefusal.TheVariants.{BitReaderError};
ghost use Rattle.fields.specs.declared.Shape.TheVariants as shape;
ghost use Rattle.fields.specs.Taken.{taken_by};
ghost use Rattle.fields.specs.Content.{read_over, field_read_of};

use crate::{DecodeRefusal, FieldAt, FieldRead, Shape, shapes};
use bits::{BitPos, BitRefusal, Cursor};
use descriptor::FieldDescriptor;

impl FieldAt {
    pub(crate) fn cursor(self) -> Cursor
        ensures { result ≡ cursor_at self.at }
    {
        Cursor {
            at: BitPos(self.at),
        }
    }

    // What a bit call refused.
    pub(crate) fn refused(self, refusal: BitRefusal) -> DecodeRefusal
        ensures { result ≡ BitReaderError self.i refusal }
    {
        DecodeRefusal::BitReaderError {
            field: self.i,
            refusal,
        }
    }

    // A number; 4 where it is strict and cut short.
    fn number(self, s: &[u8], strict: bool) -> Result<FieldRead, DecodeRefusal>
        ensures { result ≡ read_over (taken_by (shape.Number strict) (payload_of s.now) self.i self.early self.f.width self.at) (shape.Number strict) self.f (payload_of s.now) self.at }
    {
        let width = self.f.width;
        let read = self.cursor().read_u64(s, width).map_err(|refusal| {
            if strict {
                DecodeRefusal::InvalidDataLength { field: self.i }
            } else {
                self.refused(refusal)
            }
        })?;
        Ok(FieldRead::Got {
            bits: BitPos(width as usize),
            raw: Some(read.value),
            value: numbers::scale_raw_field(read.value, self.f),
        })
    }

    // Bits that are skipped.
    fn gap(self, s: &[u8]) -> Result<FieldRead, DecodeRefusal>
        ensures { result ≡ read_over (taken_by shape.Gap (payload_of s.now) self.i self.early self.f.width self.at) shape.Gap self.f (payload_of s.now) self.at }
    {
        let width = self.f.width;
        self.cursor()
            .advance(s, width)
            .map_err(|refusal| self.refused(refusal))?;
        Ok(FieldRead::Skipped {
            bits: BitPos(width as usize),
        })
    }
}

// Field i at a cursor: the bits that it takes, its raw and its value. A wide StringFix that may stop
// early takes what is left where that is less.
pub fn read_field_raw_and_value(
    s: &[u8],
    c: Cursor,
    f: FieldDescriptor,
    i: usize,
    may_stop_early: bool,
) -> Result<FieldRead, DecodeRefusal>
    ensures { result ≡ field_read_of (payload_of s.now) f i may_stop_early c.at.0 }
{
    let field = FieldAt {
        f,
        i,
        early: may_stop_early,
        at: c.at.0,
    };
    match shapes::shape_of(f) {
        Shape::Number { strict } => field.number(s, strict),
        Shape::Gap => field.gap(s),
        Shape::Fixed => field.fixed(s),
        Shape::Whole => field.whole(s),
        Shape::Lau => field.lau(s),
        Shape::Lz => field.lz(s),
    }
}
