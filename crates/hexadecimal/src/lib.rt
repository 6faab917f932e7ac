// Hexadecimal digits, capitals only: document 01, the end of "Cases", "digits 0 to 9, A to F".
//
// Promise: `value_of` takes any byte and `digit_of` any number, and each answers as specs/Digits.antt
// says. The two undo each other, and so do bytes and their digits: proofs/Inverse.antt. No call has a
// `requires`.
#![tactic(auto)]

ghost use Rattle.std.specs.Prelude.{◌≡◌};
ghost use Rattle.hexadecimal.specs.Digits.{value_of, digit_of_lem};

// What a digit's value is never: the mark of a byte that is none.
pub const NO_DIGIT: u32 = 16;

// The value of a digit, or NO_DIGIT: small letters are none.
pub fn value_of(b: u8) -> u32
    ensures { result ≡ value_of b }
{
    if b < 48 {
        return NO_DIGIT;
    }
    let k = (b - 48) as u32;
    if 22 < k {
        return NO_DIGIT;
    }
    if 9 < k && k < 17 {
        return NO_DIGIT;
    }
    // Between 9 and A stand seven other bytes.
    k - k / 16 * 7
}

// The digit of a value: of a number over 15, that of its last four bits.
pub fn digit_of(n: u64) -> u8
    ensures { result ≡ digit_of_lem n }
{
    let v = (n % 16) as u8;
    if v < 10 { 48 + v } else { 55 + v }
}
