//! The registers, one block a width: a further one is a further block.

use crate::register::BitRegister;

impl BitRegister for u8 {
    ghost use Rattle.std.specs.Prelude.{◌%◌, ◌^◌, codes};
    ghost use Rattle.std.proofs.Common.{refl, lit≤};
    ghost use Rattle.bit_addressing_order.specs.RegisterLaws.{below_power, size_of_8};

    ghost BITS = { 8 };

    const BITS: u8 = 8;

    ghost INDX = { 3 };

    const INDX: u8 = 3;

    ghost MASK = { 7 };

    const MASK: u8 = 7;

    ghost ZERO = { 0 };

    const ZERO: u8 = 0;

    ghost ONE = { 1 };

    const ONE: u8 = 1;

    ghost ALL = { 255 };

    const ALL: u8 = u8::MAX;

    const NAME: &'static str = "u8";

    ghost number = { λ word. word % 2 ^ 8 };

    ghost name = { codes "u8" };

    ghost number_fits = { λ word. below_power 8 word };

    ghost size = { size_of_8 };

    ghost least_bits = { lit≤ tt };

    ghost most_bits = { lit≤ tt };

    ghost bits_of_indx = { refl };

    ghost most_indx = { lit≤ tt };

    ghost mask_is = { refl };

    ghost zero_is = { refl };

    ghost one_is = { refl };

    ghost all_is = { refl };

    fn type_name() -> &'static str {
        Self::NAME
    }

    fn value(self) -> u128 {
        u128::from(self)
    }

    fn from_value(value: u128) -> u8 {
        (value % (1 << 8)) as u8
    }

    fn and(self, other: u8) -> u8 {
        self & other
    }

    fn or(self, other: u8) -> u8 {
        self | other
    }

    fn xor(self, other: u8) -> u8 {
        self ^ other
    }

    fn not(self) -> u8 {
        !self
    }

    fn shl(self, by: u8) -> u8 {
        self << by
    }

    fn shr(self, by: u8) -> u8 {
        self >> by
    }
}

impl BitRegister for u16 {
    ghost use Rattle.std.specs.Prelude.{◌%◌, ◌^◌, codes};
    ghost use Rattle.std.proofs.Common.{refl, lit≤};
    ghost use Rattle.bit_addressing_order.specs.RegisterLaws.{below_power, size_of_16};

    ghost BITS = { 16 };

    const BITS: u8 = 16;

    ghost INDX = { 4 };

    const INDX: u8 = 4;

    ghost MASK = { 15 };

    const MASK: u8 = 15;

    ghost ZERO = { 0 };

    const ZERO: u16 = 0;

    ghost ONE = { 1 };

    const ONE: u16 = 1;

    ghost ALL = { 65535 };

    const ALL: u16 = u16::MAX;

    const NAME: &'static str = "u16";

    ghost number = { λ word. word % 2 ^ 16 };

    ghost name = { codes "u16" };

    ghost number_fits = { λ word. below_power 16 word };

    ghost size = { size_of_16 };

    ghost least_bits = { lit≤ tt };

    ghost most_bits = { lit≤ tt };

    ghost bits_of_indx = { refl };

    ghost most_indx = { lit≤ tt };

    ghost mask_is = { refl };

    ghost zero_is = { refl };

    ghost one_is = { refl };

    ghost all_is = { refl };

    fn type_name() -> &'static str {
        Self::NAME
    }

    fn value(self) -> u128 {
        u128::from(self)
    }

    fn from_value(value: u128) -> u16 {
        (value % (1 << 16)) as u16
    }

    fn and(self, other: u16) -> u16 {
        self & other
    }

    fn or(self, other: u16) -> u16 {
        self | other
    }

    fn xor(self, other: u16) -> u16 {
        self ^ other
    }

    fn not(self) -> u16 {
        !self
    }

    fn shl(self, by: u8) -> u16 {
        self << by
    }

    fn shr(self, by: u8) -> u16 {
        self >> by
    }
}

impl BitRegister for u32 {
    ghost use Rattle.std.specs.Prelude.{◌%◌, ◌^◌, codes};
    ghost use Rattle.std.proofs.Common.{refl, lit≤};
    ghost use Rattle.bit_addressing_order.specs.RegisterLaws.{below_power, size_of_32};

    ghost BITS = { 32 };

    const BITS: u8 = 32;

    ghost INDX = { 5 };

    const INDX: u8 = 5;

    ghost MASK = { 31 };

    const MASK: u8 = 31;

    ghost ZERO = { 0 };

    const ZERO: u32 = 0;

    ghost ONE = { 1 };

    const ONE: u32 = 1;

    ghost ALL = { 4294967295 };

    const ALL: u32 = u32::MAX;

    const NAME: &'static str = "u32";

    ghost number = { λ word. word % 2 ^ 32 };

    ghost name = { codes "u32" };

    ghost number_fits = { λ word. below_power 32 word };

    ghost size = { size_of_32 };

    ghost least_bits = { lit≤ tt };

    ghost most_bits = { lit≤ tt };

    ghost bits_of_indx = { refl };

    ghost most_indx = { lit≤ tt };

    ghost mask_is = { refl };

    ghost zero_is = { refl };

    ghost one_is = { refl };

    ghost all_is = { refl };

    fn type_name() -> &'static str {
        Self::NAME
    }

    fn value(self) -> u128 {
        u128::from(self)
    }

    fn from_value(value: u128) -> u32 {
        (value % (1 << 32)) as u32
    }

    fn and(self, other: u32) -> u32 {
        self & other
    }

    fn or(self, other: u32) -> u32 {
        self | other
    }

    fn xor(self, other: u32) -> u32 {
        self ^ other
    }

    fn not(self) -> u32 {
        !self
    }

    fn shl(self, by: u8) -> u32 {
        self << by
    }

    fn shr(self, by: u8) -> u32 {
        self >> by
    }
}

#[tactic(auto, using(crate::proofs::WidthLemmas::wide))]
impl BitRegister for u64 {
    ghost use Rattle.std.specs.Prelude.{◌%◌, ◌^◌, codes};
    ghost use Rattle.std.proofs.Common.{refl, lit≤};
    ghost use Rattle.bit_addressing_order.specs.RegisterLaws.{below_power, size_of_64};

    ghost BITS = { 64 };

    const BITS: u8 = 64;

    ghost INDX = { 6 };

    const INDX: u8 = 6;

    ghost MASK = { 63 };

    const MASK: u8 = 63;

    ghost ZERO = { 0 };

    const ZERO: u64 = 0;

    ghost ONE = { 1 };

    const ONE: u64 = 1;

    ghost ALL = { 18446744073709551615 };

    const ALL: u64 = u64::MAX;

    const NAME: &'static str = "u64";

    ghost number = { λ word. word % 2 ^ 64 };

    ghost name = { codes "u64" };

    ghost number_fits = { λ word. below_power 64 word };

    ghost size = { size_of_64 };

    ghost least_bits = { lit≤ tt };

    ghost most_bits = { lit≤ tt };

    ghost bits_of_indx = { refl };

    ghost most_indx = { lit≤ tt };

    ghost mask_is = { refl };

    ghost zero_is = { refl };

    ghost one_is = { refl };

    ghost all_is = { refl };

    fn type_name() -> &'static str {
        Self::NAME
    }

    fn value(self) -> u128 {
        u128::from(self)
    }

    fn from_value(value: u128) -> u64 {
        (value % (1 << 64)) as u64
    }

    fn and(self, other: u64) -> u64 {
        self & other
    }

    fn or(self, other: u64) -> u64 {
        self | other
    }

    fn xor(self, other: u64) -> u64 {
        self ^ other
    }

    fn not(self) -> u64 {
        !self
    }

    fn shl(self, by: u8) -> u64 {
        self << by
    }

    fn shr(self, by: u8) -> u64 {
        self >> by
    }
}

#[tactic(auto, using(crate::proofs::WidthLemmas::wide))]
impl BitRegister for usize {
    ghost use Rattle.std.specs.Prelude.{◌%◌, ◌^◌, codes};
    ghost use Rattle.std.proofs.Common.{refl, lit≤};
    ghost use Rattle.bit_addressing_order.specs.RegisterLaws.{below_power, size_of_64};

    ghost BITS = { 64 };

    const BITS: u8 = 64;

    ghost INDX = { 6 };

    const INDX: u8 = 6;

    ghost MASK = { 63 };

    const MASK: u8 = 63;

    ghost ZERO = { 0 };

    const ZERO: usize = 0;

    ghost ONE = { 1 };

    const ONE: usize = 1;

    ghost ALL = { 18446744073709551615 };

    const ALL: usize = usize::MAX;

    const NAME: &'static str = "usize";

    ghost number = { λ word. word % 2 ^ 64 };

    ghost name = { codes "usize" };

    ghost number_fits = { λ word. below_power 64 word };

    ghost size = { size_of_64 };

    ghost least_bits = { lit≤ tt };

    ghost most_bits = { lit≤ tt };

    ghost bits_of_indx = { refl };

    ghost most_indx = { lit≤ tt };

    ghost mask_is = { refl };

    ghost zero_is = { refl };

    ghost one_is = { refl };

    ghost all_is = { refl };

    fn type_name() -> &'static str {
        Self::NAME
    }

    fn value(self) -> u128 {
        self as u128
    }

    fn from_value(value: u128) -> usize {
        (value % (1 << 64)) as usize
    }

    fn and(self, other: usize) -> usize {
        self & other
    }

    fn or(self, other: usize) -> usize {
        self | other
    }

    fn xor(self, other: usize) -> usize {
        self ^ other
    }

    fn not(self) -> usize {
        !self
    }

    fn shl(self, by: u8) -> usize {
        self << by
    }

    fn shr(self, by: u8) -> usize {
        self >> by
    }
}

#[tactic(auto, using(crate::proofs::WidthLemmas::wide))]
impl BitRegister for u128 {
    ghost use Rattle.std.specs.Prelude.{◌%◌, ◌^◌, codes};
    ghost use Rattle.std.proofs.Common.{refl, lit≤};
    ghost use Rattle.bit_addressing_order.specs.RegisterLaws.{below_power, size_of_128};

    ghost BITS = { 128 };

    const BITS: u8 = 128;

    ghost INDX = { 7 };

    const INDX: u8 = 7;

    ghost MASK = { 127 };

    const MASK: u8 = 127;

    ghost ZERO = { 0 };

    const ZERO: u128 = 0;

    ghost ONE = { 1 };

    const ONE: u128 = 1;

    ghost ALL = { 340282366920938463463374607431768211455 };

    const ALL: u128 = u128::MAX;

    const NAME: &'static str = "u128";

    ghost number = { λ word. word % 2 ^ 128 };

    ghost name = { codes "u128" };

    ghost number_fits = { λ word. below_power 128 word };

    ghost size = { size_of_128 };

    ghost least_bits = { lit≤ tt };

    ghost most_bits = { lit≤ tt };

    ghost bits_of_indx = { refl };

    ghost most_indx = { lit≤ tt };

    ghost mask_is = { refl };

    ghost zero_is = { refl };

    ghost one_is = { refl };

    ghost all_is = { refl };

    fn type_name() -> &'static str {
        Self::NAME
    }

    fn value(self) -> u128 {
        self
    }

    fn from_value(value: u128) -> u128 {
        value
    }

    fn and(self, other: u128) -> u128 {
        self & other
    }

    fn or(self, other: u128) -> u128 {
        self | other
    }

    fn xor(self, other: u128) -> u128 {
        self ^ other
    }

    fn not(self) -> u128 {
        !self
    }

    fn shl(self, by: u8) -> u128 {
        self << by
    }

    fn shr(self, by: u8) -> u128 {
        self >> by
    }
}
