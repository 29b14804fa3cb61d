//! Whole numbers of 8 to 128 bits, by their digits.

ghost use Rattle.std.specs.Prelude.{◌≡◌, ℕ, ℤ, pos, neg_ℤ, Bool, true, ◌-◌, ◌*◌, ◌^◌, ◌<◌, ◌≤◌, ◌<ℤ◌, ◌≤ℤ◌};
ghost use Rattle.bit_slice_fields.specs.Whole.{low_digits, FitsIn};

/// A whole number that a window can hold: `u8` to `u128`, `i8` to `i128`, `usize` and `isize`.
///
/// A contract sees it as `whole`. A window is at most as long as the type has bits.
pub trait Integral: Copy {
    ghost BITS: { ℕ };

    /// How many bits the type has: 8, 16, 32, 64 or 128.
    const BITS: u8;

    ghost signed: { Bool };

    ghost whole: { Self → ℤ };

    /// The 128 lowest digits, in two's complement.
    fn digits(self) -> u128
        ensures { result ≡ low_digits 128 (whole self) };

    /// The number of `len` digits that has these, the highest of them the sign's where the type has one. `len` is 1 up
    /// to the bits of the type, and the digits are below `2^len`.
    fn from_digits(digits: u128, len: u8) -> Self
        requires some { 0 < len }
        requires room { len ≤ BITS }
        requires few { digits < 2 ^ len }
        ensures digits { low_digits len (whole result) ≡ digits }
        ensures within { FitsIn signed len (whole result) };

    ghost least_bits: { 8 ≤ BITS };

    ghost most_bits: { BITS ≤ 128 };
}

// The digits of a signed number.
#[tactic(auto, using(crate::proofs::WholeLemmas::halves))]
pub(crate) fn signed_digits(value: i128) -> u128
    ensures { result ≡ low_digits 128 value }
{
    value.cast_unsigned()
}

// Half the numbers of `len` bits.
#[tactic(auto, using(crate::proofs::WholeLemmas::halves))]
fn half_of(len: u8, most: u8) -> u128
    requires some { 0 < len }
    requires room { len ≤ most }
    requires most { most ≤ 128 }
    ensures value { result ≡ 2 ^ (len - 1) }
    ensures twice { 2 ^ len ≡ 2 * result }
    ensures some { 0 < result }
    ensures room { result ≤ 2 ^ (most - 1) }
    ensures most { result ≤ 2 ^ 127 }
{
    1 << (len - 1)
}

// The signed number of `len` bits with these digits, which a type of `most` bits holds.
#[tactic(auto, using(crate::proofs::WholeLemmas::halves))]
pub(crate) fn signed_number(digits: u128, len: u8, most: u8) -> i128
    requires some { 0 < len }
    requires room { len ≤ most }
    requires most { most ≤ 128 }
    requires few { digits < 2 ^ len }
    ensures digits { low_digits len result ≡ digits }
    ensures within { FitsIn true len result }
    ensures low { neg_ℤ (pos (2 ^ (most - 1))) ≤ℤ result }
    ensures high { result <ℤ pos (2 ^ (most - 1)) }
{
    let half = half_of(len, most);
    if digits < half {
        return digits as i128;
    }
    let below = half - 1 - (digits - half);
    -1 - below as i128
}
