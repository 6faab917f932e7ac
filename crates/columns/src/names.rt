// Names: which of several a text is.
ghost use Rattle.std.specs.Prelude.{◌≡◌};
ghost use Rattle.columns.specs.Parts.{space, parts_of};
ghost use Rattle.columns.specs.Names.{same, place_in};

use crate::parts::{field_end, part};

// Whether two texts are the same.
pub fn same(a: &[u8], b: &[u8]) -> bool
    ensures { result ≡ same a.now b.now }
{
    check::same(a, b)
}

// The place of a name among the words of a text; past them where it is none.
pub fn place_in(name: &[u8], text: &[u8]) -> usize
    ensures { result ≡ place_in name.now (parts_of space text.now) }
{
    let mut from: usize = 0;
    let mut i: usize = 0;
    loop {
        let end = field_end(text, from);
        if same(name, part(text, from, end)) {
            return i;
        }
        i += 1;
        if end == text.len() {
            return i;
        }
        from = end + 1;
    }
}
