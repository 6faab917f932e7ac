// The values of a line: each a record of 24 bytes, as `offers` reads them, its text in the lent text.
ghost use Rattle.std.specs.Prelude.{◌≤◌, ◌≡◌, length, IfSome};
ghost use Rattle.text.specs.Sheet.{Puts, PutsOn};
ghost use Rattle.compose.specs.Values.{numbered, text_value, encoded_value, coded_value, value_of};
ghost use Rattle.compose.specs.Records.{low_bytes, record_by};
ghost use Rattle.compose.specs.Clauses.{entry, entry_of, told, told_by, Adds, Collects};

use crate::decimals;
use crate::decimals::{head, tail};
use columns::{decimal, field_end, part};
use text::Page;

// The codes of the kinds that have a letter.
const U64: u64 = 1;

const I64: u64 = 5;

const F64: u64 = 9;

const BYTES: u64 = 11;

// A text that has an encoding byte: the byte stands one place higher.
const ENCODED: u64 = 0x010b;

// The largest code of a kind.
const KIND_MAX: u64 = 255;

// A value as its record has it, in three words: the kind, whether there is an encoding byte, and that
// byte, in the lowest bytes of the first; a number's bits or the place of a text in the lent text; and
// a text's length.
#[derive(Clone, Copy)]
pub(crate) struct Entry {
    pub(crate) head: u64,
    pub(crate) word: u64,
    pub(crate) len: usize,
}

// How many bytes the records of a line take, and its texts.
#[derive(Clone, Copy)]
pub(crate) struct Listed {
    pub(crate) bytes: usize,
    pub(crate) text: usize,
}

fn number(kind: u64, word: u64) -> Entry
    ensures { result ≡ entry kind word 0 }
{
    Entry {
        head: kind,
        word,
        len: 0,
    }
}

fn of_kind(kind: u64, n: Option<u64>) -> Option<Entry>
    ensures { result ≡ entry_of 0 (numbered kind n) }
{
    Some(number(kind, n?))
}

// BYTES, at the end of the lent text.
fn text(s: &[u8], head: u64, lent: &mut [u8], used: usize) -> Option<Entry>
    requires { used ≤ length «lent».old }
    ensures { told result «lent».new ≡ told_by used «lent».old (text_value head s.now) }
{
    let len = columns::pairs(s, &mut lent[used..])?;
    Some(Entry {
        head,
        word: used as u64,
        len,
    })
}

// XX:BYTES
fn encoded(s: &[u8], lent: &mut [u8], used: usize) -> Option<Entry>
    requires { used ≤ length «lent».old }
    ensures { told result «lent».new ≡ told_by used «lent».old (encoded_value s.now) }
{
    let x = head(s, b':');
    if x.len() == s.len() || x.len() != 2 {
        return None;
    }
    let e = columns::hex(x)?;
    text(tail(s, b':'), ENCODED + e * 65536, lent, used)
}

// KIND:BITS
fn coded(s: &[u8]) -> Option<Entry>
    ensures { result ≡ entry_of 0 (coded_value s.now) }
{
    let kind = decimal(head(s, b':'))?;
    let word = columns::hex(tail(s, b':'))?;
    if KIND_MAX < kind {
        return None;
    }
    Some(number(kind, word))
}

// A value by its letter. So many bytes of the lent text are used before it.
fn entry_of(s: &[u8], lent: &mut [u8], used: usize) -> Option<Entry>
    requires { used ≤ length «lent».old }
    ensures { told result «lent».new ≡ told_by used «lent».old (value_of s.now) }
{
    if s.len() == 0 {
        return None;
    }
    let rest = &s[1..];
    match s[0] {
        b'u' => of_kind(U64, decimal(rest)),
        b'i' => of_kind(I64, decimals::signed(rest)),
        b'f' => of_kind(F64, decimals::double(rest)),
        b't' => text(rest, BYTES, lent, used),
        b'e' => encoded(rest, lent, used),
        b'v' => coded(rest),
        _ => None,
    }
}

// Puts a word, the lowest byte first.
fn put_word(page: &mut Page<'_>, w: u64)
    ensures { PutsOn page.old (low_bytes 8 w) page.new }
{
    page.put_text(&w.to_le_bytes());
}

fn put_record(page: &mut Page<'_>, e: Entry)
    ensures { PutsOn page.old (record_by e.head e.word e.len) page.new }
{
    put_word(page, e.head);
    put_word(page, e.word);
    put_word(page, e.len as u64);
}

// A record on the lent values, with the place after it.
fn put_entry(values: &mut [u8], at: usize, e: Entry) -> usize
    ensures { Puts values.old at (record_by e.head e.word e.len) values.new result }
{
    let mut page = Page::new(values, at);
    put_record(&mut page, e);
    page.at
}

// One value more.
fn list_value(s: &[u8], values: &mut [u8], lent: &mut [u8], listed: Listed) -> Option<Listed>
    requires { (listed.bytes ≤ length values.old) × (listed.text ≤ length «lent».old) }
    ensures adds { Adds result values.new «lent».new listed values.old «lent».old s.now }
    ensures in_bounds { IfSome result (λ l. (l.bytes ≤ length values.old) × (l.text ≤ length «lent».old)) }
{
    let used = listed.text;
    let e = entry_of(s, lent, used)?;
    let to = put_entry(values, listed.bytes, e);
    if values.len() < to {
        return None;
    }
    Some(Listed {
        bytes: to,
        text: used + e.len,
    })
}

// The values that the fields are which come after a place where one ends.
pub(crate) fn list_values(
    line: &[u8],
    from: usize,
    values: &mut [u8],
    lent: &mut [u8],
) -> Option<Listed>
    ensures { Collects result values.new «lent».new line.now from values.old «lent».old }
{
    let mut end = from;
    let mut listed = Listed { bytes: 0, text: 0 };
    while end < line.len() {
        let start = end + 1;
        end = field_end(line, start);
        listed = list_value(part(line, start, end), values, lent, listed)?;
    }
    Some(listed)
}
