// A field as the boundary takes it, by the words of a line.
ghost use Rattle.std.specs.Prelude.{◌≡◌, true};
ghost use Rattle.columns.specs.Parts.{space, parts_of};
ghost use Rattle.numbercalls.specs.Fields.{code_if_lem, placed, numbered, named, bits_by, kind_in, width_in, sign_in, mark_in, field_in};

use columns::word;

#[derive(Clone, Copy)]
pub(crate) struct Field {
    pub(crate) kind: u32,
    pub(crate) width: u32,
    pub(crate) sign: u32,
    pub(crate) mark: u32,
    pub(crate) resolution: u32,
}

// A number that is to fit 32 bits.
fn code(value: u64) -> Option<u32>
    ensures { result ≡ code_if_lem true value }
{
    u32::try_from(value).ok()
}

// The place of a name among words.
pub(crate) fn place_of(name: &[u8], words: &[u8]) -> Option<u32>
    ensures { result ≡ placed name.now (parts_of space words.now) }
{
    let place = columns::place_in(name, words);
    if columns::marks(words, b' ') < place {
        return None;
    }
    code(place as u64)
}

// The number that a text is in decimal.
#[tactic(auto, unfolding(crate::specs::Fields::numbered))]
fn number_of(s: &[u8]) -> Option<u32>
    ensures { result ≡ numbered s.now }
{
    code(columns::decimal(s)?)
}

// The place of a name among words, or the number that it is.
#[tactic(auto, unfolding(crate::specs::Fields::named))]
fn place_or_number(name: &[u8], words: &[u8]) -> Option<u32>
    ensures { result ≡ named name.now (parts_of space words.now) }
{
    place_of(name, words).or_else(|| number_of(name))
}

// A float's bits in eight digits; without a mark, '-' says that there are none.
#[tactic(auto, unfolding(crate::specs::Fields::bits_by))]
fn bits_of(s: &[u8], mark: u32) -> Option<u32>
    ensures { result ≡ bits_by mark s.now }
{
    if columns::same(s, b"-") {
        return if mark == 0 { Some(0) } else { None };
    }
    let bits = columns::hex(s)?;
    if s.len() == 8 { code(bits) } else { None }
}

fn kind_of(line: &[u8]) -> Option<u32>
    ensures { result ≡ kind_in line.now }
{
    place_or_number(
        word(line, 1),
        b"Number Float Lookup IndirectLookup BitLookup Pgn Date Time Duration Mmsi Decimal StringFix StringLz StringLau Binary Reserved Spare IsoName Unimplemented",
    )
}

fn width_of(line: &[u8]) -> Option<u32>
    ensures { result ≡ width_in line.now }
{
    number_of(word(line, 2))
}

fn sign_of(line: &[u8]) -> Option<u32>
    ensures { result ≡ sign_in line.now }
{
    place_of(word(line, 3), b"u s")
}

fn mark_of(line: &[u8]) -> Option<u32>
    ensures { result ≡ mark_in line.now }
{
    place_or_number(word(line, 4), b"- S D")
}

// The words from place 1 to 5.
#[tactic(auto, unfolding(crate::specs::Fields::field_in, crate::specs::Fields::resolution_in))]
pub(crate) fn field_of(line: &[u8]) -> Option<Field>
    ensures { result ≡ field_in line.now }
{
    let mark = mark_of(line)?;
    Some(Field {
        kind: kind_of(line)?,
        width: width_of(line)?,
        sign: sign_of(line)?,
        mark,
        resolution: bits_of(word(line, 5), mark)?,
    })
}
