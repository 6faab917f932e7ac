// The inside of the number read and the number write. 64-bit numbers are shifted by a variable count
// nowhere else in this crate, and here by `halves` alone: document 02, §4.
ghost use Rattle.std.specs.Prelude.{◌≡◌, ◌+◌, ◌*◌, ◌%◌, ◌^◌, ◌≤◌, ◌<◌, length};
ghost use Rattle.std.proofs.Math.Seq.{paste};
ghost use Rattle.bits.specs.Bits.{bits_at, written};
ghost use Rattle.bits.specs.Patch.{patch};

use halves::{left, ones, right};

// The 8 bytes from byte q on, as a number. The compiler makes one load of them.
fn word(s: &[u8], q: usize) -> u64
    requires { q + 8 ≤ length s.now }
    ensures { result ≡ bits_at s.now (q * 8) 64 }
{
    u64::from_le_bytes([
        s[q],
        s[q + 1],
        s[q + 2],
        s[q + 3],
        s[q + 4],
        s[q + 5],
        s[q + 6],
        s[q + 7],
    ])
}

// n bits from bit `at` on: out of one word where they lie in one. Near the buffer's end that is its
// last word.
pub(crate) fn gather(s: &[u8], at: usize, n: usize) -> u64
    requires { ((0 < n) × (n ≤ 64)) × ((length s.now ≤ 65536) × (at + n ≤ length s.now * 8)) }
    ensures { result ≡ bits_at s.now at n }
{
    if 8 <= s.len() {
        let q = (at / 8).min(s.len() - 8);
        let o = at - q * 8;
        if o + n <= 64 {
            let w = word(s, q);
            return right(w, o) & ones(n);
        }
    }
    gather_slow(s, at, n)
}

// n bits from bit `at` on, up to 8 a turn.
fn gather_slow(s: &[u8], at: usize, n: usize) -> u64
    requires { (n ≤ 64) × ((length s.now ≤ 65536) × (at + n ≤ length s.now * 8)) }
    ensures { result ≡ bits_at s.now at n }
{
    let mut r: u64 = 0;
    let mut k: usize = 0;
    while k < n {
        let p = at + k;
        let o = p % 8;
        let q = p / 8;
        let t = (8 - o).min(n - k);
        let b = u64::from(s[q]);
        let m = ones(t);
        r = r | left(right(b, o) & m, k);
        k = k + t;
    }
    r
}

// The byte b with the t low bits of x in the place of its t bits from bit o on.
fn patched(b: u8, o: usize, t: usize, x: u64) -> u8
    requires { o + t ≤ 8 }
    ensures { result ≡ patch b o t x }
{
    let w = u64::from(b);
    let m = ones(t);
    ((w & !left(m, o)) | left(x & m, o)) as u8
}

// Puts the word w at byte q. The compiler makes one store of it.
fn put_word(s: &mut [u8], q: usize, w: u64)
    requires { q + 8 ≤ length s.old }
    ensures { s.new ≡ written s.old (q * 8) 64 w }
{
    s[q..q + 8].copy_from_slice(&w.to_le_bytes());
}

// Puts the n low bits of v from bit `at` on: into one word where they lie in one, as `gather` does.
pub(crate) fn scatter(s: &mut [u8], at: usize, n: usize, v: u64)
    requires { ((0 < n) × (n ≤ 64)) × ((length s.old ≤ 65536) × (at + n ≤ length s.old * 8)) }
    ensures { s.new ≡ written s.old at n v }
{
    if 8 <= s.len() {
        let q = (at / 8).min(s.len() - 8);
        let o = at - q * 8;
        if o + n <= 64 {
            let w = word(s, q);
            let m = ones(n);
            put_word(s, q, (w & !left(m, o)) | left(v & m, o));
            return;
        }
    }
    scatter_slow(s, at, n, v)
}

// Puts the n low bits of v from bit `at` on, up to 8 a turn.
fn scatter_slow(s: &mut [u8], at: usize, n: usize, v: u64)
    requires { (n ≤ 64) × ((length s.old ≤ 65536) × (at + n ≤ length s.old * 8)) }
    ensures { s.new ≡ written s.old at n v }
{
    let mut k: usize = 0;
    while k < n {
        let p = at + k;
        let o = p % 8;
        let q = p / 8;
        let t = (8 - o).min(n - k);
        s[q] = patched(s[q], o, t, right(v, k));
        k = k + t;
    }
}

// Copies src into s from byte a on. Not by copy_from_slice: that is memmove, which the library would then want linked,
// with a stack of its own.
pub(crate) fn store(s: &mut [u8], a: usize, src: &[u8])
    requires { a + length src.now ≤ length s.old }
    ensures { s.new ≡ paste s.old a src.now (length src.now) }
{
    for i in 0..src.len() {
        s[a + i] = src[i];
    }
}
