//! Numbers that windows of bits hold.

ghost use Rattle.std.specs.Prelude.{◌≡◌, ℕ, ◌<◌, ◌≤◌, Bool, true, false, length};
ghost use Rattle.bit_slice_fields.specs.Number.{field_bits, CountsFrom};
ghost use Rattle.bit_slice_fields.specs.Whole.{FitsIn};

use crate::digits::{Cut, load_window};
use crate::integral::Integral;
use bit_slice_views::Bits;

/// A window of bits that holds a whole number.
///
/// The window is cut where its words end. What lies in one word is a segment: its first bit counts lowest under
/// `Lsb0` and highest under `Msb0`. The `le` calls take the first segment as lowest, the `be` calls as highest. A
/// window has 1 bit up to as many as the type has (`Integral::BITS`); into a type with a sign it is extended by its
/// highest bit.
///
/// What shows bits writes two short methods.
pub trait BitField: Bits {
    ghost low_first: { Bool };

    /// Whether the first bit of a word counts lowest, as under `Lsb0`, else highest.
    fn low_first() -> bool
        ensures { result ≡ low_first };

    // The index of the first bit in its word.
    ghost head: { Self → ℕ };

    /// The index of the first bit in the word where it lies.
    fn head_index(&self) -> u8
        ensures value { result ≡ head self.now }
        ensures within { result < Self.Store.BITS };

    // It is where the list begins.
    ghost begins: { (v : Self) → Self.start v ≡ head v };

    ghost counts: { CountsFrom low_first Self.Store.BITS Self.Order.position };

    /// The number that the bits hold, the first segment lowest: what `load_le` does. They are 1 up to `M::BITS` bits.
    final fn load<M: Integral>(&self) -> M
        requires some { 0 < length (Self.bits self.now) }
        requires room { length (Self.bits self.now) ≤ M.BITS }
        ensures bits { Self.bits self.now ≡ field_bits low_first true Self.Store.BITS (head self.now)
            (length (Self.bits self.now)) (M.whole result) }
        ensures within { FitsIn M.signed (length (Self.bits self.now)) (M.whole result) }
    {
        self.load_le()
    }

    /// The number that the bits hold, the first segment lowest. They are 1 up to `M::BITS` bits.
    final fn load_le<M: Integral>(&self) -> M
        requires some { 0 < length (Self.bits self.now) }
        requires room { length (Self.bits self.now) ≤ M.BITS }
        ensures bits { Self.bits self.now ≡ field_bits low_first true Self.Store.BITS (head self.now)
            (length (Self.bits self.now)) (M.whole result) }
        ensures within { FitsIn M.signed (length (Self.bits self.now)) (M.whole result) }
    {
        let cut = Cut {
            low: Self::low_first(),
            le: true,
            head: self.head_index() as usize,
        };
        load_window(self.as_bitslice(), cut)
    }

    /// The number that the bits hold, the first segment highest. They are 1 up to `M::BITS` bits.
    final fn load_be<M: Integral>(&self) -> M
        requires some { 0 < length (Self.bits self.now) }
        requires room { length (Self.bits self.now) ≤ M.BITS }
        ensures bits { Self.bits self.now ≡ field_bits low_first false Self.Store.BITS (head self.now)
            (length (Self.bits self.now)) (M.whole result) }
        ensures within { FitsIn M.signed (length (Self.bits self.now)) (M.whole result) }
    {
        let cut = Cut {
            low: Self::low_first(),
            le: false,
            head: self.head_index() as usize,
        };
        load_window(self.as_bitslice(), cut)
    }
}
