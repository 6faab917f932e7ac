// Fields and values as numbers.
ghost use Rattle.std.specs.Prelude.{◌≡◌};
ghost use Rattle.samopute_c.specs.Values.{field_of, raw_offered};

use descriptor::FieldDescriptor;
use numbers::NumberRefusal;
use offers::Offer;

pub(crate) fn field_of(kind: u32, width: u32, sign: u32, mark: u32, bits: u32) -> FieldDescriptor
    ensures { result ≡ field_of kind width sign mark bits }
{
    let meaning = descriptor::kind_of(kind);
    let factor = descriptor::resolution_of(mark, bits);
    FieldDescriptor {
        kind: meaning,
        width,
        signed: sign != 0,
        resolution: factor,
    }
}

// The raw of what is offered: what is no value of any kind is one of another kind.
pub(crate) fn raw_of(f: FieldDescriptor, offer: Offer) -> Result<u64, NumberRefusal>
    ensures { result ≡ raw_offered f offer }
{
    let Offer::Value(value) = offer else {
        return Err(NumberRefusal::WrongKind);
    };
    numbers::number_to_raw(f, value)
}
