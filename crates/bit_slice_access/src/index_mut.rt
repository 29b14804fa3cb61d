//! What an index lends of a window: one bit, or a part.

ghost use Rattle.std.specs.Prelude.{◌≡◌, ℕ, ◌-◌, ◌<◌, ◌≤◌, ◌↔◌, IsTrue, length};
ghost use Rattle.std.specs.Borrow.{GName};
ghost use Rattle.bit_addressing_memory.specs.Memory.{read_by};
ghost use Rattle.bit_slice_access.specs.BitMut.{bit_view, bit_loan, bit_index};
ghost use Rattle.bit_slice_access.specs.Part.{part_loan};
ghost use Rattle.bit_slice_access.specs.Shows.{IsPartOf};

use crate::bit_mut::BitMut;
use crate::copies::place_in;
use crate::part::Part;
use bit_slice_views_mut::{BitRange, Bits, BitsMut, BitsWindow};
use std::ops::{Range, RangeFrom, RangeFull, RangeInclusive, RangeTo, RangeToInclusive};

/// What `get_mut` and `index_mut` take: an index, or one of the six kinds of ranges.
pub trait BitSliceIndexMut<'s, V: BitsMut>: Sized + Drop {
    type Mut;

    // Whether it lies in a list of so many bits.
    ghost within: { Self → ℕ → Type 0 };

    // What it lends of a window.
    ghost shows: { Self → V → Self.Mut → Type 0 };

    // The loan of the window.
    ghost loan: { Self.Mut → GName };

    /// Whether it lies in a list of so many bits.
    fn is_within(&self, len: usize) -> bool
        ensures { IsTrue result ↔ within self.now len };

    /// What it lends of a window in which it lies.
    fn lend(self, view: &'s mut V) -> Self::Mut
        requires { within self (length (V.bits view.old)) }
        ensures same_reference { loan result ≡ view.entry.ghost_name }
        ensures shows { shows self view.old result };
}

impl<'s, V: BitsMut + 's> BitSliceIndexMut<'s, V> for usize {
    type Mut = BitMut<'s, V>;

    ghost within = { λ i n. i < n };

    ghost shows = { λ i v bit. (bit_view bit ≡ v) × (bit_index bit ≡ i) };

    ghost loan = { bit_loan };

    fn is_within(&self, len: usize) -> bool {
        *self < len
    }

    fn lend(self, view: &'s mut V) -> BitMut<'s, V> {
        BitMut::new(view, self)
    }
}

/// The six kinds of ranges, to write.
pub trait BitRangeMut: BitRange {}

impl BitRangeMut for Range<usize> {}

impl BitRangeMut for RangeFrom<usize> {}

impl BitRangeMut for RangeTo<usize> {}

impl BitRangeMut for RangeFull {}

impl BitRangeMut for RangeInclusive<usize> {}

impl BitRangeMut for RangeToInclusive<usize> {}

impl<'s, V: BitsWindow + 's, I: BitRangeMut + Drop> BitSliceIndexMut<'s, V> for I {
    type Mut = Part<'s, V>;

    ghost within = { λ range n. (I.start range ≤ I.end range n) × (I.end range n ≤ n) };

    ghost shows = { λ range v part. IsPartOf (read_by V.Store.BitRegister V.Order.position) V.lender V.words V.place
        V.bits V.frame v (I.start range) (I.end range (length (V.bits v)) - I.start range) part };

    ghost loan = { part_loan };

    fn is_within(&self, len: usize) -> bool {
        self.ends_in(len).is_some()
    }

    fn lend(self, view: &'s mut V) -> Part<'s, V> {
        let len = view.len();
        let (from, count) = place_in(&self, len);
        Part::new(view, from, count)
    }
}
