// The shift of a 64-bit number by a variable count, made of its 32-bit halves: document 02, §4.
//
// Promise: `right` answers what `>>` does and `left` what `<<` does, for every number and every count,
// those of 64 and more included: nothing is left then. `ones` answers so many ones, 64 at the most. No
// call has a `requires`. A half is shifted by less than 32, and a whole number by 32 alone, which is a
// move of halves: tests/shifts.sh holds the compiler's own form to that. Why by cases: decision 86.
#![tactic(auto)]

ghost use Rattle.std.specs.Prelude.{◌≡◌, ◌+◌, ◌-◌, ◌*◌, ◌/◌, ◌%◌, ◌^◌, min};

// The upper half of a number.
fn upper(v: u64) -> u32
    ensures { result ≡ v / 2 ^ 32 }
{
    (v >> 32) as u32
}

// The lower half of a number.
fn lower(v: u64) -> u32
    ensures { result ≡ v % 2 ^ 32 }
{
    (v % 0x1_0000_0000) as u32
}

// The number of two halves.
fn joined(high: u32, low: u32) -> u64
    ensures { result ≡ high * 2 ^ 32 + low }
{
    ((high as u64) << 32) | (low as u64)
}

// v shifted right by k bits. What the upper half loses comes into the lower one by 32 - k bits: by one
// and then by the others, as at k = 0 it would be all 32 at once.
pub fn right(v: u64, k: usize) -> u64
    ensures { result ≡ v / 2 ^ k }
{
    let high = upper(v);
    if k < 32 {
        let low = lower(v);
        return joined(high >> k, (low >> k) | ((high << 1) << (31 - k)));
    }
    if k < 64 {
        return joined(0, high >> (k - 32));
    }
    0
}

// v shifted left by k bits: what goes over the 64th is lost. The lower half gives to the upper one as
// the upper one gives in `right`.
pub fn left(v: u64, k: usize) -> u64
    ensures { result ≡ v * 2 ^ k % 2 ^ 64 }
{
    let low = lower(v);
    if k < 32 {
        let high = upper(v);
        return joined((high << k) | ((low >> 1) >> (31 - k)), low << k);
    }
    if k < 64 {
        return joined(low << (k - 32), 0);
    }
    0
}

// n ones, 64 at the most: one half of the number is full or empty, and the other all ones, shifted.
pub fn ones(n: usize) -> u64
    ensures { result ≡ 2 ^ min n 64 - 1 }
{
    if n == 0 {
        return 0;
    }
    if 64 < n {
        return 0xffff_ffff_ffff_ffff;
    }
    let part = 0xffff_ffffu32 >> (31 - (n - 1) % 32);
    if n <= 32 {
        joined(0, part)
    } else {
        joined(part, 0xffff_ffff)
    }
}
