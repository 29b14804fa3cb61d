//! The bits of a window, one after another, from both ends.

ghost use Rattle.std.specs.Prelude.{◌≡◌, ◌+◌, ◌-◌, ◌<◌, ◌≤◌, ⊤, length, IfSome, Some};
ghost use Rattle.std.specs.Iterator.{item_count, UpTo};
ghost use Rattle.std.specs.Iterator.SizeHint.{IsWithinCount};
ghost use Rattle.bit_addressing_memory.specs.Memory.{read_by};
ghost use Rattle.bit_slice_views.specs.BitRef.{bit_value};
ghost use Rattle.bit_slice_views.specs.View.{view_bits, view_head};
ghost use Rattle.bit_slice_iterators.specs.BitsLeft.{GivesFirstBit, GivesLastBit};

use crate::values::{BitRefIter, BitValIter};
use bit_addressing_memory::{BitOrder, BitRegister};
use bit_slice_views::{BitRef, BitSlice, Bits};
use std::alloc::AllocError;
use std::iter::FusedIterator;
use std::marker::Model;

/// The bits of a window that are left, as `BitRef`s; a contract sees their list, and the index of the first of them in
/// its word.
///
/// It is exact in length, gives each bit once from either end, and then `None` for good.
#[derive(Drop)]
pub struct Iter<'a, T: BitRegister, O: BitOrder<T>> {
    view: BitSlice<'a, T, O>,
}

impl<'a, T: BitRegister, O: BitOrder<T>> Model for Iter<'a, T, O> {
    ghost use Rattle.bit_addressing_memory.specs.Memory.{read_by};
    ghost use Rattle.bit_slice_views.specs.View.{view_bits, view_head};
    ghost use Rattle.bit_slice_iterators.specs.BitsLeft.{BitsLeft};

    ghost Value = { BitsLeft };

    ghost view = { λ iter. record {
      bits = view_bits (read_by T.BitRegister O.position) iter.view;
      head = view_head iter.view;
    } };
}

impl<'a, T: BitRegister, O: BitOrder<T>> Iter<'a, T, O> {
    /// The bits of a window.
    pub fn new(view: BitSlice<'a, T, O>) -> Iter<'a, T, O>
        ensures bits { result.bits ≡ view_bits (read_by T.BitRegister O.position) view.entry }
        ensures head { result.head ≡ view_head view.entry }
    {
        Iter { view }
    }

    /// The bits that are left, as a window.
    pub fn as_bitslice(&self) -> BitSlice<'a, T, O>
        ensures bits { view_bits (read_by T.BitRegister O.position) result ≡ self.now.bits }
        ensures head { view_head result ≡ self.now.head }
    {
        let Iter { view } = self;
        *view
    }

    /// What `as_bitslice` does.
    pub fn as_slice(&self) -> BitSlice<'a, T, O>
        ensures bits { view_bits (read_by T.BitRegister O.position) result ≡ self.now.bits }
        ensures head { view_head result ≡ self.now.head }
    {
        self.as_bitslice()
    }

    /// The bits that are left, as references to truth values.
    pub fn by_refs(self) -> BitRefIter<'a, T, O>
        ensures { result ≡ self.entry.bits }
    {
        BitRefIter::new(self.view)
    }

    /// The bits that are left, as truth values.
    pub fn by_vals(self) -> BitValIter<'a, T, O>
        ensures { result ≡ self.entry.bits }
    {
        BitValIter::new(self.view)
    }

    /// What `by_vals` does.
    pub fn copied(self) -> BitValIter<'a, T, O>
        ensures { result ≡ self.entry.bits }
    {
        self.by_vals()
    }
}

impl<'a, T: BitRegister, O: BitOrder<T>> Clone for Iter<'a, T, O> {
    ghost is_clone = { λ iter copy. copy ≡ iter };

    ghost is_infallible = { λ _. ⊤ };

    fn clone(&self) -> Result<Self, AllocError> {
        Ok(Iter { view: self.view })
    }
}

#[tactic(auto, using(crate::proofs::BitLemmas::ends_of_bits))]
impl<'a, T: BitRegister + 'a, O: BitOrder<T>> Iterator for Iter<'a, T, O> {
    type Item = BitRef;

    ghost next_gives = { GivesFirstBit bit_value T.BITS };

    ghost remaining = { item_count (λ left. left.bits) };

    fn next(&mut self) -> Option<BitRef> {
        let first = self.view.first();
        if first.is_some() {
            self.view = self.view.part(1, self.view.len() - 1);
        }
        first
    }

    fn size_hint(&self) -> (usize, Option<usize>)
        ensures lower { IsWithinCount result.0 (item_count (λ left. left.bits) self.now) }
        ensures upper { IfSome result.1 (UpTo (item_count (λ left. left.bits) self.now)) }
        ensures exact { result ≡ (length self.now.bits, Some (length self.now.bits)) }
    {
        let left = self.len();
        (left, Some(left))
    }
}

#[tactic(auto, using(crate::proofs::BitLemmas::ends_of_bits))]
impl<'a, T: BitRegister + 'a, O: BitOrder<T>> DoubleEndedIterator for Iter<'a, T, O> {
    ghost next_back_gives = { GivesLastBit bit_value };

    fn next_back(&mut self) -> Option<BitRef> {
        let last = self.view.last();
        if last.is_some() {
            self.view = self.view.part(0, self.view.len() - 1);
        }
        last
    }
}

impl<'a, T: BitRegister + 'a, O: BitOrder<T>> ExactSizeIterator for Iter<'a, T, O> {
    fn len(&self) -> usize {
        self.view.len()
    }
}

impl<'a, T: BitRegister + 'a, O: BitOrder<T>> FusedIterator for Iter<'a, T, O> {}
