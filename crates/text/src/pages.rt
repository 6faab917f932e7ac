// A page and the bytes on it.
ghost use Rattle.std.specs.Prelude.{◌≡◌, ◌+◌, ◌≤◌, [], ◌∷◌, length};
ghost use Rattle.text.specs.Sheet.{Puts, PutsOn};

// The place after a text that found no room. It is past every page.
pub const LOST: usize = 0xffff_ffff_ffff_ffff;

// A lent page, and the place where its next byte goes.
#[derive(Drop)]
pub struct Page<'a> {
    pub bytes: &'a mut [u8],
    pub at: usize,
}

impl<'a> Page<'a> {
    // From a place on.
    pub fn new(bytes: &'a mut [u8], at: usize) -> Page<'a>
        ensures { (result.bytes ≡ bytes.entry) × (result.at ≡ at) }
    {
        Page { bytes, at }
    }

    pub fn put(&mut self, b: u8)
        ensures { PutsOn self.old (b ∷ []) self.new }
    {
        self.at = put_at(self.bytes, self.at, b);
    }

    // All of text.
    pub fn put_text(&mut self, text: &[u8])
        ensures { PutsOn self.old text.now self.new }
    {
        self.at = put_text_at(self.bytes, self.at, text);
    }
}

// A byte at a place of a page, and the place after it. Within a text the place goes from byte to byte by
// value: read and written in the lent page at each, it took `readcalls` a twelfth more instructions.
pub(crate) fn put_at(page: &mut [u8], at: usize, b: u8) -> usize
    ensures { Puts page.old at (b ∷ []) page.new result }
{
    if at < page.len() {
        page[at] = b;
        return at + 1;
    }
    LOST
}

// All of text, from a place where there is room for it.
fn copy_at(page: &mut [u8], at: usize, text: &[u8])
    requires { at + length text.now ≤ length page.old }
    ensures { Puts page.old at text.now page.new (at + length text.now) }
{
    for i in 0..text.len() {
        page[at + i] = text[i];
    }
}

// All of text, from a place on: at once, where there is room for it, since byte by byte the records of a
// line of 2,000 values took `compose` twice the instructions.
fn put_text_at(page: &mut [u8], at: usize, text: &[u8]) -> usize
    ensures { Puts page.old at text.now page.new result }
{
    if at <= page.len() && text.len() <= page.len() - at {
        copy_at(page, at, text);
        return at + text.len();
    }
    let mut to = at;
    for b in text {
        to = put_at(page, to, *b);
    }
    to
}
