// Words into bytes.
ghost use Rattle.std.specs.Prelude.{◌≡◌, ◌+◌, ◌≤◌, ◌%◌, ◌^◌, length};
ghost use Rattle.records.specs.Layout.{bytes_of};
ghost use Rattle.records.specs.Puts.{puts};

// The lowest byte of a word.
fn low(w: u64) -> u8
    ensures { result ≡ w % 256 }
{
    (w % 256) as u8
}

// Puts a word at a place, the lowest byte first. The compiler makes one store of it.
pub(crate) fn put_word(out: &mut [u8], at: usize, w: u64)
    requires { at + 8 ≤ length out.old }
    ensures { out.new ≡ puts out.old at (bytes_of 8 w) }
{
    let at1 = at + 1;
    let at2 = at1 + 1;
    let at3 = at2 + 1;
    let at4 = at3 + 1;
    let at5 = at4 + 1;
    let at6 = at5 + 1;
    let at7 = at6 + 1;
    let w1 = w / 256;
    let w2 = w1 / 256;
    let w3 = w2 / 256;
    let w4 = w3 / 256;
    let w5 = w4 / 256;
    let w6 = w5 / 256;
    let w7 = w6 / 256;
    out[at] = low(w);
    out[at1] = low(w1);
    out[at2] = low(w2);
    out[at3] = low(w3);
    out[at4] = low(w4);
    out[at5] = low(w5);
    out[at6] = low(w6);
    out[at7] = low(w7);
}
