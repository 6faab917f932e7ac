// Numbers in digits.
ghost use Rattle.std.specs.Prelude.{◌<◌, ◌≤◌, min};
ghost use Rattle.text.specs.Sheet.{Puts, PutsOn};
ghost use Rattle.hexadecimal.specs.Digits.{digits_of};
ghost use Rattle.text.specs.Digits.{digits_max, shortest, decimal_of, hex_of, fixed, spaced, spaced_hex, bytes_text};

use crate::Page;
use crate::pages::put_at;
use hexadecimal::digit_of;

// No number of 64 bits has more digits.
const DIGITS_MAX: usize = 20;

impl Page<'_> {
    // n in as few digits as it needs, made from the last to the first.
    fn put_shortest(&mut self, n: u64, base: u64)
        requires { (0 < base) × (base ≤ 16) }
        ensures { PutsOn self.old (shortest base 19 n) self.new }
    {
        let mut digits = [0u8; 20];
        digits[19] = digit_of(n % base);
        let mut i: usize = 19;
        let mut rest = n / base;
        while 0 < i && 0 < rest {
            i -= 1;
            digits[i] = digit_of(rest % base);
            rest /= base;
        }
        self.put_text(&digits[i..]);
    }

    // n in decimal. Most numbers have a digit or two.
    pub fn put_decimal(&mut self, n: u64)
        ensures { PutsOn self.old (decimal_of n) self.new }
    {
        if n < 10 {
            self.put(digit_of(n));
        } else if n < 100 {
            self.put(digit_of(n / 10));
            self.put(digit_of(n % 10));
        } else {
            self.put_shortest(n, 10);
        }
    }

    // n in hexadecimal.
    pub fn put_hex(&mut self, n: u64)
        ensures { PutsOn self.old (hex_of n) self.new }
    {
        if n < 16 {
            self.put(digit_of(n));
        } else {
            self.put_shortest(n, 16);
        }
    }

    // The last digits of n, at most 20.
    fn put_fixed(&mut self, n: u64, base: u64, width: usize)
        requires { (0 < base) × (base ≤ 16) }
        ensures { PutsOn self.old (fixed base (min width digits_max) n) self.new }
    {
        let mut digits = [0u8; 20];
        let stop = DIGITS_MAX - width.min(DIGITS_MAX);
        let mut rest = n;
        for i in (stop..DIGITS_MAX).rev() {
            digits[i] = digit_of(rest % base);
            rest /= base;
        }
        self.put_text(&digits[stop..]);
    }

    // The last `width` digits of n in decimal, zeros too.
    pub fn put_fixed_decimal(&mut self, n: u64, width: usize)
        ensures { PutsOn self.old (fixed 10 (min width digits_max) n) self.new }
    {
        self.put_fixed(n, 10, width);
    }

    // The last `width` digits of n in hexadecimal, zeros too.
    pub fn put_fixed_hex(&mut self, n: u64, width: usize)
        ensures { PutsOn self.old (fixed 16 (min width digits_max) n) self.new }
    {
        self.put_fixed(n, 16, width);
    }

    // The bytes of s, two digits each.
    pub fn put_pairs(&mut self, s: &[u8])
        ensures { PutsOn self.old (digits_of s.now) self.new }
    {
        self.at = put_pairs_at(self.bytes, self.at, s);
    }

    // The bytes of s, or '-' where there are none.
    pub fn put_bytes(&mut self, s: &[u8])
        ensures { PutsOn self.old (bytes_text s.now) self.new }
    {
        if s.is_empty() {
            self.put(b'-');
        } else {
            self.put_pairs(s);
        }
    }

    // A space and n in decimal.
    pub fn put_number(&mut self, n: usize)
        ensures { PutsOn self.old (spaced n) self.new }
    {
        self.put(b' ');
        self.put_decimal(n as u64);
    }

    // A space and n in hexadecimal.
    pub fn put_value(&mut self, n: u64)
        ensures { PutsOn self.old (spaced_hex n) self.new }
    {
        self.put(b' ');
        self.put_hex(n);
    }
}

// Bytes from a place on, two digits each.
fn put_pairs_at(page: &mut [u8], at: usize, s: &[u8]) -> usize
    ensures { Puts page.old at (digits_of s.now) page.new result }
{
    let mut to = at;
    for b in s {
        let x = u64::from(*b);
        let half = put_at(page, to, digit_of(x / 16));
        to = put_at(page, half, digit_of(x));
    }
    to
}
