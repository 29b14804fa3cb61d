//! The whole numbers, one block a type.

ghost use Rattle.std.specs.Prelude.{pos, true, false};

use crate::integral::{Integral, signed_digits, signed_number};

impl Integral for u8 {
    ghost use Rattle.std.proofs.Common.{lit≤};

    ghost BITS = { 8 };

    const BITS: u8 = 8;

    ghost signed = { false };

    ghost whole = { λ x. pos x };

    fn digits(self) -> u128 {
        self as u128
    }

    fn from_digits(digits: u128, _len: u8) -> u8 {
        digits as u8
    }

    ghost least_bits = { lit≤ tt };

    ghost most_bits = { lit≤ tt };
}

impl Integral for u16 {
    ghost use Rattle.std.proofs.Common.{lit≤};

    ghost BITS = { 16 };

    const BITS: u8 = 16;

    ghost signed = { false };

    ghost whole = { λ x. pos x };

    fn digits(self) -> u128 {
        self as u128
    }

    fn from_digits(digits: u128, _len: u8) -> u16 {
        digits as u16
    }

    ghost least_bits = { lit≤ tt };

    ghost most_bits = { lit≤ tt };
}

impl Integral for u32 {
    ghost use Rattle.std.proofs.Common.{lit≤};

    ghost BITS = { 32 };

    const BITS: u8 = 32;

    ghost signed = { false };

    ghost whole = { λ x. pos x };

    fn digits(self) -> u128 {
        self as u128
    }

    fn from_digits(digits: u128, _len: u8) -> u32 {
        digits as u32
    }

    ghost least_bits = { lit≤ tt };

    ghost most_bits = { lit≤ tt };
}

impl Integral for u64 {
    ghost use Rattle.std.proofs.Common.{lit≤};

    ghost BITS = { 64 };

    const BITS: u8 = 64;

    ghost signed = { false };

    ghost whole = { λ x. pos x };

    fn digits(self) -> u128 {
        self as u128
    }

    fn from_digits(digits: u128, _len: u8) -> u64 {
        digits as u64
    }

    ghost least_bits = { lit≤ tt };

    ghost most_bits = { lit≤ tt };
}

impl Integral for u128 {
    ghost use Rattle.std.proofs.Common.{lit≤};

    ghost BITS = { 128 };

    const BITS: u8 = 128;

    ghost signed = { false };

    ghost whole = { λ x. pos x };

    fn digits(self) -> u128 {
        self
    }

    fn from_digits(digits: u128, _len: u8) -> u128 {
        digits
    }

    ghost least_bits = { lit≤ tt };

    ghost most_bits = { lit≤ tt };
}

impl Integral for usize {
    ghost use Rattle.std.proofs.Common.{lit≤};

    ghost BITS = { 64 };

    const BITS: u8 = 64;

    ghost signed = { false };

    ghost whole = { λ x. pos x };

    fn digits(self) -> u128 {
        self as u128
    }

    fn from_digits(digits: u128, _len: u8) -> usize {
        digits as usize
    }

    ghost least_bits = { lit≤ tt };

    ghost most_bits = { lit≤ tt };
}

impl Integral for i8 {
    ghost use Rattle.std.proofs.Common.{lit≤};

    ghost BITS = { 8 };

    const BITS: u8 = 8;

    ghost signed = { true };

    ghost whole = { λ x. x };

    fn digits(self) -> u128 {
        signed_digits(self as i128)
    }

    fn from_digits(digits: u128, len: u8) -> i8 {
        signed_number(digits, len, 8) as i8
    }

    ghost least_bits = { lit≤ tt };

    ghost most_bits = { lit≤ tt };
}

impl Integral for i16 {
    ghost use Rattle.std.proofs.Common.{lit≤};

    ghost BITS = { 16 };

    const BITS: u8 = 16;

    ghost signed = { true };

    ghost whole = { λ x. x };

    fn digits(self) -> u128 {
        signed_digits(self as i128)
    }

    fn from_digits(digits: u128, len: u8) -> i16 {
        signed_number(digits, len, 16) as i16
    }

    ghost least_bits = { lit≤ tt };

    ghost most_bits = { lit≤ tt };
}

impl Integral for i32 {
    ghost use Rattle.std.proofs.Common.{lit≤};

    ghost BITS = { 32 };

    const BITS: u8 = 32;

    ghost signed = { true };

    ghost whole = { λ x. x };

    fn digits(self) -> u128 {
        signed_digits(self as i128)
    }

    fn from_digits(digits: u128, len: u8) -> i32 {
        signed_number(digits, len, 32) as i32
    }

    ghost least_bits = { lit≤ tt };

    ghost most_bits = { lit≤ tt };
}

impl Integral for i64 {
    ghost use Rattle.std.proofs.Common.{lit≤};

    ghost BITS = { 64 };

    const BITS: u8 = 64;

    ghost signed = { true };

    ghost whole = { λ x. x };

    fn digits(self) -> u128 {
        signed_digits(self as i128)
    }

    fn from_digits(digits: u128, len: u8) -> i64 {
        signed_number(digits, len, 64) as i64
    }

    ghost least_bits = { lit≤ tt };

    ghost most_bits = { lit≤ tt };
}

impl Integral for i128 {
    ghost use Rattle.std.proofs.Common.{lit≤};

    ghost BITS = { 128 };

    const BITS: u8 = 128;

    ghost signed = { true };

    ghost whole = { λ x. x };

    fn digits(self) -> u128 {
        signed_digits(self)
    }

    fn from_digits(digits: u128, len: u8) -> i128 {
        signed_number(digits, len, 128)
    }

    ghost least_bits = { lit≤ tt };

    ghost most_bits = { lit≤ tt };
}

impl Integral for isize {
    ghost use Rattle.std.proofs.Common.{lit≤};

    ghost BITS = { 64 };

    const BITS: u8 = 64;

    ghost signed = { true };

    ghost whole = { λ x. x };

    fn digits(self) -> u128 {
        signed_digits(self as i128)
    }

    fn from_digits(digits: u128, len: u8) -> isize {
        signed_number(digits, len, 64) as isize
    }

    ghost least_bits = { lit≤ tt };

    ghost most_bits = { lit≤ tt };
}
