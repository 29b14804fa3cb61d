//! The splits of whatever shows bits.

ghost use Rattle.std.specs.Prelude.{◌≡◌, ◌↔◌, false, length, IsTrue};

use crate::splits::{RSplit, Split, SplitInclusive};
use crate::splits_n::{RSplitN, SplitN};
use bit_slice_views::Bits;

/// The splits of a list of bits by a predicate: of every `Bits`.
///
/// The predicate is handed the index, counted from the front of the part that is not yet split, and the bit. It may have
/// a state.
pub trait BitsSplits: Bits {
    /// The parts between the bits where the predicate answers true; these bits are in none.
    final fn split<F: FnMut(usize, &bool) -> bool>(
        &self,
        f: F,
    ) -> Split<'_, Self::Store, Self::Order, F>
        ensures bits { result.bits ≡ Self.bits self.now }
        ensures head { result.head ≡ Self.start self.now }
        ensures callee { result.callee ≡ f }
        ensures done { result.done ≡ false }
    {
        Split::new(self.as_bitslice(), f, false)
    }

    /// The parts that end with the bit where the predicate answers true, or at the end. No bits have none.
    final fn split_inclusive<F: FnMut(usize, &bool) -> bool>(
        &self,
        f: F,
    ) -> SplitInclusive<'_, Self::Store, Self::Order, F>
        ensures bits { result.bits ≡ Self.bits self.now }
        ensures head { result.head ≡ Self.start self.now }
        ensures callee { result.callee ≡ f }
        ensures done { IsTrue result.done ↔ (length (Self.bits self.now) ≡ 0) }
    {
        SplitInclusive::new(self.as_bitslice(), f, self.is_empty())
    }

    /// The parts between the bits where the predicate answers true, from the back on.
    final fn rsplit<F: FnMut(usize, &bool) -> bool>(
        &self,
        f: F,
    ) -> RSplit<'_, Self::Store, Self::Order, F>
        ensures bits { result.bits ≡ Self.bits self.now }
        ensures head { result.head ≡ Self.start self.now }
        ensures callee { result.callee ≡ f }
        ensures done { result.done ≡ false }
    {
        RSplit::new(self.as_bitslice(), f, false)
    }

    /// At most `count` parts as of `split`; the last of them has all that is left.
    final fn splitn<F: FnMut(usize, &bool) -> bool>(
        &self,
        count: usize,
        f: F,
    ) -> SplitN<'_, Self::Store, Self::Order, F>
        ensures bits { result.parts.bits ≡ Self.bits self.now }
        ensures head { result.parts.head ≡ Self.start self.now }
        ensures callee { result.parts.callee ≡ f }
        ensures done { result.parts.done ≡ false }
        ensures count { result.count ≡ count }
    {
        SplitN::new(self.as_bitslice(), count, f)
    }

    /// At most `count` parts as of `rsplit`; the last of them has all that is left.
    final fn rsplitn<F: FnMut(usize, &bool) -> bool>(
        &self,
        count: usize,
        f: F,
    ) -> RSplitN<'_, Self::Store, Self::Order, F>
        ensures bits { result.parts.bits ≡ Self.bits self.now }
        ensures head { result.parts.head ≡ Self.start self.now }
        ensures callee { result.parts.callee ≡ f }
        ensures done { result.parts.done ≡ false }
        ensures count { result.count ≡ count }
    {
        RSplitN::new(self.as_bitslice(), count, f)
    }
}

impl<V: Bits> BitsSplits for V {}
