//! What an index shows of a window: one bit, or a part.

ghost use Rattle.std.specs.Prelude.{◌≡◌, ℕ, ◌+◌, ◌-◌, ◌*◌, ◌%◌, ◌<◌, ◌≤◌, Bool, List, false, length, slice_index_or};
ghost use Rattle.std.specs.Prelude.{IfSome, IsSome, ◌↔◌, IsTrue};
ghost use Rattle.bit_addressing_memory.specs.Memory.{memory, piece, read_by};
ghost use Rattle.bit_addressing_span.specs.declared.span.TheConstants.{MAX_BITS};
ghost use Rattle.bit_slice_views.specs.BitRef.{bit_value};
ghost use Rattle.bit_slice_views.specs.View.{view_bits, view_head};

use crate::bits::Bits;
use crate::range::BitRange;
use crate::view::BitSlice;
use bit_addressing_memory::{BitOrder, BitRegister};
use std::ops::Deref;

/// One bit that was read: `*` gives it.
///
/// In bitvec it is a proxy of the bit in its memory; a shared window's bits do not change while it is lent.
#[derive(Clone, Copy)]
pub struct BitRef {
    value: bool,
}

impl BitRef {
    pub(crate) fn new(value: bool) -> BitRef
        ensures { bit_value result ≡ value }
    {
        BitRef { value }
    }
}

impl Deref for BitRef {
    type Target = bool;

    ghost deref_gives = { λ bit value. value ≡ bit_value bit };

    fn deref(&self) -> &bool {
        &self.value
    }
}

/// What `get` and `index` take: an index, or one of the six kinds of ranges.
pub trait BitSliceIndex<'a, T: BitRegister, O: BitOrder<T>>: Sized + Drop {
    type Immut;

    // Whether it lies in a list of so many bits.
    ghost within: { Self → ℕ → Type 0 };

    // What it shows of a list whose first bit lies at an index of its word.
    ghost shows: { Self → ℕ → List Bool → Self.Immut → Type 0 };

    /// Whether it lies in a list of so many bits.
    fn is_within(&self, len: usize) -> bool
        ensures { IsTrue result ↔ within self.now len };

    /// What it shows of the `len` bits of these words from an index of the first word on.
    fn show(self, words: &'a [T], head: u8, len: usize) -> Self::Immut
        requires index { head < T.BITS }
        requires short { len ≤ MAX_BITS }
        requires fits { head + len ≤ length words.now * T.BITS }
        requires inside { within self len }
        ensures { shows self head (piece (memory (read_by T.BitRegister O.position) words.now) head len) result };

    /// What it shows of a window, or `None` where it does not lie in it.
    final fn get_in(self, view: BitSlice<'a, T, O>) -> Option<Self::Immut>
        ensures variant { IsSome result
            ↔ within self (length (view_bits (read_by T.BitRegister O.position) view.entry)) }
        ensures value { IfSome result
            (shows self (view_head view.entry) (view_bits (read_by T.BitRegister O.position) view.entry)) }
    {
        if self.is_within(view.len()) {
            Some(self.index_in(view))
        } else {
            None
        }
    }

    /// What it shows of a window in which it lies.
    final fn index_in(self, view: BitSlice<'a, T, O>) -> Self::Immut
        requires { within self (length (view_bits (read_by T.BitRegister O.position) view)) }
        ensures { shows self (view_head view.entry) (view_bits (read_by T.BitRegister O.position) view.entry) result }
    {
        let (words, head, len) = view.parts();
        self.show(words, head, len)
    }
}

#[tactic(auto, using(crate::proofs::ViewLemmas::views))]
impl<'a, T: BitRegister, O: BitOrder<T>> BitSliceIndex<'a, T, O> for usize {
    type Immut = BitRef;

    ghost within = { λ i n. i < n };

    ghost shows = { λ i _ bits bit. bit_value bit ≡ slice_index_or bits i false };

    fn is_within(&self, len: usize) -> bool {
        *self < len
    }

    fn show(self, words: &'a [T], head: u8, len: usize) -> BitRef {
        let view = BitSlice::<T, O>::from_parts(words, head, len);
        BitRef::new(view.bit(self))
    }
}

impl<'a, T: BitRegister + 'a, O: BitOrder<T>, I: BitRange + Drop> BitSliceIndex<'a, T, O> for I {
    type Immut = BitSlice<'a, T, O>;

    ghost within = { λ range n. (I.start range ≤ I.end range n) × (I.end range n ≤ n) };

    ghost shows = { λ range head bits part. (view_bits (read_by T.BitRegister O.position) part
        ≡ piece bits (I.start range) (I.end range (length bits) - I.start range))
        × (view_head part ≡ (head + I.start range) % T.BITS) };

    fn is_within(&self, len: usize) -> bool {
        self.ends_in(len).is_some()
    }

    fn show(self, words: &'a [T], head: u8, len: usize) -> BitSlice<'a, T, O> {
        let view = BitSlice::<T, O>::from_parts(words, head, len);
        match self.ends_in(len) {
            Some((from, upto)) => view.part(from, upto - from),
            None => view,
        }
    }
}
