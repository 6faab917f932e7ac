// The calls on numbers: from a raw to its value, and back.
ghost use Rattle.std.specs.Prelude.{◌≡◌, [], ◌∷◌};
ghost use Rattle.offers.specs.Records.{offer_of_lem};
ghost use Rattle.samopute_c.specs.Clauses.{GivesRaw};
ghost use Rattle.samopute_c.specs.Values.{field_of, scale_status, scaled_cells, scale_cells};

use crate::worded::{field_of, raw_of};
use descriptor::FieldDescriptor;

// Lays out the value of a raw in a field that holds a number.
fn tell_scaled(answer: &mut [u64; 4], f: FieldDescriptor, raw: u64) -> u32
    ensures { (result ≡ 0) × (answer.new ≡ scaled_cells f raw) }
{
    let width = f.width;
    let value = numbers::scale_raw_field(raw, f);
    let code = numbers::code_of(value);
    let word = numbers::word_of(value);
    let silence = numbers::silence_of(numbers::number_availability(raw, f));
    let elements = numbers::counter_elements(raw, width);
    *answer = [code as u64, word, silence, elements];
    0
}

// The value of a raw, by its field. The answer is 0, or the refusal's number; the four numbers are the
// value's kind and bits, whether it says nothing and the elements that it means as a counter, or what
// the refusal carries.
pub fn samopute_scale(
    kind: u32,
    width: u32,
    is_signed: u32,
    mark: u32,
    resolution: u32,
    raw: u64,
    answer: &mut [u64; 4],
) -> u32
    ensures { (result ≡ scale_status (field_of kind width is_signed mark resolution)) × (answer.new ≡ scale_cells (field_of kind width is_signed mark resolution) raw) }
{
    let f = field_of(kind, width, is_signed, mark, resolution);
    match numbers::holds_number(f) {
        Ok(()) => tell_scaled(answer, f, raw),
        Err(refusal) => {
            *answer = [refusal.carried(0) as u64, refusal.carried(1) as u64, 0, 0];
            refusal.number()
        }
    }
}

fn tell_raw(answer: &mut [u64; 3], first: u64, second: u64, status: u32) -> u32
    ensures { (result ≡ status) × (answer.new ≡ first ∷ second ∷ 0 ∷ []) }
{
    *answer = [first, second, 0];
    status
}

// The raw of a value in a field. The answer is 0, or the refusal's number; the three numbers are the
// raw, or what the refusal carries.
pub fn samopute_raw_of(
    kind: u32,
    width: u32,
    is_signed: u32,
    mark: u32,
    resolution: u32,
    value_kind: u32,
    value: u64,
    answer: &mut [u64; 3],
) -> u32
    ensures { GivesRaw result answer.new (field_of kind width is_signed mark resolution) (offer_of_lem value_kind value) }
{
    let f = field_of(kind, width, is_signed, mark, resolution);
    match raw_of(f, offers::offer_of(value_kind, value)) {
        Ok(raw) => tell_raw(answer, raw, 0, 0),
        Err(refusal) => tell_raw(
            answer,
            refusal.carried(0) as u64,
            refusal.carried(1) as u64,
            refusal.number(),
        ),
    }
}
