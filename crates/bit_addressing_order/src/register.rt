//! The unsigned integers whose bits are addressed.

ghost use Rattle.std.specs.Prelude.{◌≡◌, ℕ, List, ◌-◌, ◌*◌, ◌/◌, ◌%◌, ◌^◌, ◌<◌, ◌≤◌, ◌↔◌};
ghost use Rattle.std.specs.Prelude.{bit_and, bit_or, bit_xor, IsTrue};
ghost use Rattle.std.specs.Ordering.{nat_cmp};
ghost use Rattle.bit_addressing_order.specs.BitRegister.{IsRegisterSize};

use std::cmp::Ordering;

/// An unsigned integer that is used as a storage word.
///
/// A contract sees a word as `number`, a number below `2 ^ BITS`. The trait is implemented by `u8`,
/// `u16`, `u32`, `u64`, `usize` and `u128`; names and values are those of the crate bitvec, but for `ZERO`,
/// `ONE`, `NAME` and the functions, which that crate takes from the integers themselves.
pub trait BitRegister: Copy {
    ghost BITS: { ℕ };

    /// How many bits a word has: 8, 16, 32, 64 or 128.
    const BITS: u8;

    ghost INDX: { ℕ };

    /// How many bits it takes to count the bits of a word: `BITS` is two to this power.
    const INDX: u8;

    ghost MASK: { ℕ };

    /// `BITS - 1`, the greatest index.
    const MASK: u8;

    ghost ZERO: { Self };

    /// The word with no bit set.
    const ZERO: Self;

    ghost ONE: { Self };

    /// The word with the least significant bit set alone.
    const ONE: Self;

    ghost ALL: { Self };

    /// The word with every bit set.
    const ALL: Self;

    /// The word's Rust name, as `u8`. Where a contract speaks of it, `type_name` is called.
    const NAME: &'static str;

    ghost number: { Self → ℕ };

    ghost name: { List ℕ };

    /// `NAME`, with a contract.
    fn type_name() -> &'static str
        ensures { result.now ≡ name };

    /// The number that the word holds, in the widest type.
    fn value(self) -> u128
        ensures { result ≡ number self };

    /// The word of the lowest `BITS` digits of a number: the higher digits are dropped.
    fn from_value(value: u128) -> Self
        ensures { number result ≡ value % 2 ^ BITS };

    /// The digits that are 1 in both words.
    fn and(self, other: Self) -> Self
        ensures { number result ≡ bit_and (number self) (number other) };

    /// The digits that are 1 in either word.
    fn or(self, other: Self) -> Self
        ensures { number result ≡ bit_or (number self) (number other) };

    /// The digits that differ.
    fn xor(self, other: Self) -> Self
        ensures { number result ≡ bit_xor (number self) (number other) };

    /// Each digit flipped.
    fn not(self) -> Self
        ensures { number result ≡ 2 ^ BITS - 1 - number self };

    /// The digits moved up by `by`, those that leave the word dropped. `by` is below `BITS`.
    fn shl(self, by: u8) -> Self
        requires { by < BITS }
        ensures { number result ≡ number self * 2 ^ by % 2 ^ BITS };

    /// The digits moved down by `by`, the lowest dropped. `by` is below `BITS`.
    fn shr(self, by: u8) -> Self
        requires { by < BITS }
        ensures { number result ≡ number self / 2 ^ by };

    /// Whether two words hold the same number.
    final fn equals(self, other: Self) -> bool
        ensures { IsTrue result ↔ (number self ≡ number other) }
    {
        self.value() == other.value()
    }

    /// How two words compare as numbers.
    final fn compare(self, other: Self) -> Ordering
        ensures { result ≡ nat_cmp (number self) (number other) }
    {
        self.value().cmp(&other.value())
    }

    ghost number_fits: { (word : Self) → number word < 2 ^ BITS };

    ghost size: { IsRegisterSize BITS };

    ghost least_bits: { 8 ≤ BITS };

    ghost most_bits: { BITS ≤ 128 };

    ghost bits_of_indx: { BITS ≡ 2 ^ INDX };

    ghost most_indx: { INDX ≤ 7 };

    ghost mask_is: { MASK ≡ BITS - 1 };

    ghost zero_is: { number ZERO ≡ 0 };

    ghost one_is: { number ONE ≡ 1 };

    ghost all_is: { number ALL ≡ 2 ^ BITS - 1 };
}
