//! One bit or a part of a window, by its index or at an end.

ghost use Rattle.std.specs.Prelude.{◌≡◌, ◌+◌, ◌-◌, ◌%◌, ◌<◌, ◌≤◌, ◌↔◌, false, length, take, drop, slice_index_or, IfSome, IsSome};
ghost use Rattle.bit_addressing_memory.specs.Memory.{read_by};
ghost use Rattle.bit_slice_views.specs.BitRef.{bit_value};
ghost use Rattle.bit_slice_views.specs.View.{view_bits, view_head};

use crate::bits::Bits;
use crate::index::{BitRef, BitSliceIndex};
use crate::view::BitSlice;
use bit_addressing_memory::{BitOrder, BitRegister};
use std::ops::Index;

// By an index.
impl<'a, T: BitRegister, O: BitOrder<T>> BitSlice<'a, T, O> {
    /// The bit at an index or the part of a range, or `None` where it does not lie in the window.
    pub fn get<I: BitSliceIndex<'a, T, O>>(self, index: I) -> Option<I::Immut>
        ensures variant { IsSome result
            ↔ I.within index (length (view_bits (read_by T.BitRegister O.position) self.entry)) }
        ensures value { IfSome result
            (I.shows index (view_head self.entry) (view_bits (read_by T.BitRegister O.position) self.entry)) }
    {
        index.get_in(self)
    }

    /// The bit at an index or the part of a range, which lies in the window.
    pub fn index<I: BitSliceIndex<'a, T, O>>(self, index: I) -> I::Immut
        requires { I.within index (length (view_bits (read_by T.BitRegister O.position) self)) }
        ensures { I.shows index (view_head self.entry) (view_bits (read_by T.BitRegister O.position) self.entry)
            result }
    {
        index.index_in(self)
    }

    /// What `index` does.
    pub fn get_unchecked<I: BitSliceIndex<'a, T, O>>(self, index: I) -> I::Immut
        requires { I.within index (length (view_bits (read_by T.BitRegister O.position) self)) }
        ensures { I.shows index (view_head self.entry) (view_bits (read_by T.BitRegister O.position) self.entry)
            result }
    {
        self.index(index)
    }
}

impl<T: BitRegister, O: BitOrder<T>> Index<usize> for BitSlice<'_, T, O> {
    type Output = bool;

    ghost can_index = { λ view i. i < length (view_bits (read_by T.BitRegister O.position) view) };

    ghost index_gives = { λ view i bit.
        bit ≡ slice_index_or (view_bits (read_by T.BitRegister O.position) view) i false };

    fn index(&self, i: usize) -> &bool {
        if self.bit(i) { &true } else { &false }
    }
}

// At an end.
impl<'a, T: BitRegister, O: BitOrder<T>> BitSlice<'a, T, O> {
    /// The first bit and those behind it, or `None` of no bits.
    pub fn split_first(self) -> Option<(BitRef, BitSlice<'a, T, O>)>
        ensures variant { IsSome result ↔ (0 < length (view_bits (read_by T.BitRegister O.position) self.entry)) }
        ensures bit { IfSome result (λ parts. bit_value parts.0
            ≡ slice_index_or (view_bits (read_by T.BitRegister O.position) self.entry) 0 false) }
        ensures rest { IfSome result (λ parts. view_bits (read_by T.BitRegister O.position) parts.1
            ≡ drop 1 (view_bits (read_by T.BitRegister O.position) self.entry)) }
        ensures head { IfSome result (λ parts. view_head parts.1 ≡ (view_head self.entry + 1) % T.BITS) }
    {
        if self.is_empty() {
            return None;
        }
        let (_, rest) = self.split_at(1);
        Some((BitRef::new(self.bit(0)), rest))
    }

    /// The last bit and those before it, or `None` of no bits.
    pub fn split_last(self) -> Option<(BitRef, BitSlice<'a, T, O>)>
        ensures variant { IsSome result ↔ (0 < length (view_bits (read_by T.BitRegister O.position) self.entry)) }
        ensures bit { IfSome result (λ parts. bit_value parts.0
            ≡ slice_index_or (view_bits (read_by T.BitRegister O.position) self.entry)
            (length (view_bits (read_by T.BitRegister O.position) self.entry) - 1) false) }
        ensures rest { IfSome result (λ parts. view_bits (read_by T.BitRegister O.position) parts.1
            ≡ take (length (view_bits (read_by T.BitRegister O.position) self.entry) - 1)
            (view_bits (read_by T.BitRegister O.position) self.entry)) }
        ensures head { IfSome result (λ parts. view_head parts.1 ≡ view_head self.entry) }
    {
        if self.is_empty() {
            return None;
        }
        let last = self.len() - 1;
        let (rest, _) = self.split_at(last);
        Some((BitRef::new(self.bit(last)), rest))
    }

    /// What `split_at` does.
    pub fn split_at_unchecked(self, i: usize) -> (BitSlice<'a, T, O>, BitSlice<'a, T, O>)
        requires { i ≤ length (view_bits (read_by T.BitRegister O.position) self) }
        ensures left { view_bits (read_by T.BitRegister O.position) result.0
            ≡ take i (view_bits (read_by T.BitRegister O.position) self.entry) }
        ensures right { view_bits (read_by T.BitRegister O.position) result.1
            ≡ drop i (view_bits (read_by T.BitRegister O.position) self.entry) }
        ensures left_head { view_head result.0 ≡ view_head self.entry }
        ensures right_head { view_head result.1 ≡ (view_head self.entry + i) % T.BITS }
    {
        self.split_at(i)
    }
}
