// Where the parts of a float's bits stand: the sign's bit, the exponent's field, then the digits.

// The weight of the exponent's field, and of the leading digit, which is not written.
pub(crate) const LEAD_F32: u64 = 0x80_0000;

pub(crate) const LEAD_F64: u64 = 0x10_0000_0000_0000;

// The sign's bit.
pub(crate) const SIGN_F32: u64 = 0x8000_0000;

pub(crate) const SIGN_F64: u64 = 0x8000_0000_0000_0000;

// How many exponents an `f64` has.
pub(crate) const EXPONENTS_F64: u64 = 0x800;
