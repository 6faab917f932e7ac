// A field and its value.
ghost use Rattle.std.specs.Prelude.{◌≡◌};
ghost use Rattle.numbers.specs.Conversions.{raw_of_lem};
ghost use Rattle.weighing.specs.Weigh.{number_by, gap_of, weighed_of};

use crate::texts::Site;
use crate::{EncodeRefusal, Weighed};
use bits::{BitPos, BitRefusal, ByteCount};
use descriptor::{FieldDescriptor, PgnValue};
use fields::Shape;
use numbers::NumberRefusal;

// A number.
fn number(
    f: FieldDescriptor,
    i: usize,
    value: PgnValue,
    size: usize,
    at: usize,
) -> Result<Weighed, EncodeRefusal>
    ensures { result ≡ number_by (raw_of_lem f value) i size at f.width }
{
    match numbers::number_to_raw(f, value) {
        Ok(raw) => {
            let bits = BitPos(f.width as usize);
            bits::room_for(size, at, f.width, 64).map_err(|refusal| EncodeRefusal::BitWriteError {
                field: i,
                refusal,
            })?;
            Ok(Weighed::Number { bits, raw })
        }
        Err(NumberRefusal::BadWidth(asked)) => Err(EncodeRefusal::BitWriteError {
            field: i,
            refusal: BitRefusal::TooLongForType { max: 64, asked },
        }),
        Err(NumberRefusal::OutOfRange) => Err(EncodeRefusal::OutOfRange { field: i }),
        Err(NumberRefusal::WrongKind) => Err(EncodeRefusal::WrongKind { field: i }),
    }
}

// Bits that stay ones, in field i: they take no value.
pub fn weigh_gap(
    f: FieldDescriptor,
    i: usize,
    size: usize,
    at: BitPos,
) -> Result<Weighed, EncodeRefusal>
    ensures { result ≡ gap_of f i size at.0 }
{
    let bits = BitPos(f.width as usize);
    bits::room_for(size, at.0, f.width, 64).map_err(|refusal| EncodeRefusal::BitWriteError {
        field: i,
        refusal,
    })?;
    Ok(Weighed::Gap { bits })
}

// A value in field i, at a bit of a buffer of `size` bytes, with a lent text of `lent` bytes.
pub fn weigh_field(
    f: FieldDescriptor,
    i: usize,
    value: PgnValue,
    lent: usize,
    size: usize,
    at: BitPos,
) -> Result<Weighed, EncodeRefusal>
    ensures { result ≡ weighed_of f i value lent size at.0 }
{
    if tables::PAYLOAD_MAX < size {
        return Err(EncodeRefusal::WrongLength {
            length: ByteCount(size),
        });
    }
    let site = Site {
        field: i,
        lent,
        size,
        at: at.0,
    };
    match fields::shape_of(f) {
        Shape::Number { strict: _ } => number(f, i, value, size, at.0),
        Shape::Gap => weigh_gap(f, i, size, at),
        Shape::Fixed => site.fixed(value, f.width),
        Shape::Whole => site.whole(value, f.width),
        Shape::Lau => site.lau(value),
        Shape::Lz => site.lz(value),
    }
}
