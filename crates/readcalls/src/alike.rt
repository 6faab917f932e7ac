// Whether the turns and the one call came to the same. It is proved that they do, so no answer shows it:
// the line X would say that the compiled code is not what was proved.
ghost use Rattle.std.specs.Prelude.{◌≡◌};
ghost use Rattle.text.specs.Sheet.{PutsOn};
ghost use Rattle.readcalls.specs.Alike.{alike_at, alike, is_one_end_lem, is_same_lem, difference_text};

use bits::BitPos;
use fields::DecodeRefusal;
use reading::Decoded;
use text::Page;

fn is_alike_at(a: DecodeRefusal, b: DecodeRefusal, i: usize) -> bool
    ensures { result ≡ alike_at a b i }
{
    a.carried(i) == b.carried(i)
}

// Two refusals are alike by their numbers and by what they carry, at most three values.
fn is_alike(a: DecodeRefusal, b: DecodeRefusal) -> bool
    ensures { result ≡ alike a b }
{
    let number = a.number() == b.number();
    let count = a.carried_count() == b.carried_count();
    let first = is_alike_at(a, b, 0);
    let second = is_alike_at(a, b, 1);
    let third = is_alike_at(a, b, 2);
    number & count & first & second & third
}

fn is_one_end(a: Result<BitPos, DecodeRefusal>, b: Result<BitPos, DecodeRefusal>) -> bool
    ensures { result ≡ is_one_end_lem a b }
{
    match (a, b) {
        (Ok(x), Ok(y)) => x.0 == y.0,
        (Err(e), Err(f)) => is_alike(e, f),
        _ => false,
    }
}

pub(crate) fn is_same(a: Decoded, b: Decoded) -> bool
    ensures { result ≡ is_same_lem a b }
{
    (a.count == b.count) & is_one_end(a.end, b.end)
}

// The line that never comes.
pub(crate) fn put_difference(page: &mut Page<'_>, same: bool)
    ensures { PutsOn page.old (difference_text same) page.new }
{
    if same {
        return;
    }
    page.put_text(b"X\n")
}
