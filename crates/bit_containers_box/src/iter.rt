//! The bits of a box, one after another, from both ends.

ghost use Rattle.std.specs.Prelude.{◌≡◌, ◌+◌, ◌*◌, ◌%◌, ◌^◌, ◌<◌, ◌≤◌, length, IfOk, IfSome, Some};
ghost use Rattle.std.specs.Borrow.{Array, follows, sem};
ghost use Rattle.std.specs.Iterator.{item_count, UpTo};
ghost use Rattle.std.specs.Iterator.SizeHint.{IsWithinCount};
ghost use Rattle.bit_addressing_memory.specs.Memory.{read_by};
ghost use Rattle.bit_slice_views.specs.SpanLimits.{MAX_BITS};
ghost use Rattle.bit_containers_box.specs.Box.{box_bits, box_head, box_words};
ghost use Rattle.bit_slice_views.specs.View.{view_bits, view_head};
ghost use Rattle.bit_slice_views_mut.specs.ViewMut.{lent_bits, lent_lender, lent_place, lent_words};

use crate::boxed::BitBox;
use bit_addressing_memory::{BitOrder, BitRegister};
use bit_slice_views::{BitSlice, BitStore, Bits};
use bit_slice_views_mut::BitSliceMut;
use std::alloc::AllocError;
use std::iter::FusedIterator;
use std::marker::PhantomData;

/// The bits of a box that are left, as truth values; a contract sees their list as `left_bits`.
///
/// It is exact in length, gives each bit once from either end, and then `None` for good.
#[derive(Drop)]
pub struct IntoIter<T: BitStore, O> {
    pub(crate) words: Vec<T>,
    pub(crate) place: usize,
    pub(crate) len: usize,
    pub(crate) order: PhantomData<O>,

    ghost short: { len ≤ MAX_BITS },
    ghost small: { place + len < 2 ^ 63 },
    ghost fits: { place + len ≤ length words.items * T.BITS },
}

impl<T: BitStore, O: BitOrder<T>> IntoIter<T, O> {
    ghost use Rattle.bit_containers_box.specs.Left.{left_bits, left_place, left_words};
    ghost use Rattle.bit_containers_box.specs.Lending.{left_with};
    ghost use Rattle.bit_containers_box.specs.contracts.iter.IntoIter.{the_row};

    /// The bits that are left, to read.
    pub fn as_bitslice(&self) -> BitSlice<'_, T, O>
        ensures bits { view_bits (read_by T.BitRegister O.position) result
            ≡ left_bits (read_by T.BitRegister O.position) self.now }
        ensures head { view_head result ≡ left_place self.now % T.BITS }
    {
        BitSlice::<T, O>::from_place(self.words.as_slice(), self.place, self.len)
    }

    /// The bits that are left, to write.
    ///
    /// Of these bits nothing is known to the body that has made the window, once it is gone.
    pub fn as_mut_bitslice(&mut self) -> BitSliceMut<'_, T, O>
        ensures bits { lent_bits (read_by T.BitRegister O.position) result
            ≡ left_bits (read_by T.BitRegister O.position) self.old }
        ensures words { lent_words result ≡ left_words self.old }
        ensures place { lent_place result ≡ left_place self.old }
        ensures* lends { sem 𝓛 (follows (the_row T.row O.row T.BitRegister) (Array T.row 0) self.entry.ghost_name
            (lent_lender result) (left_with self.old)) }
    {
        let place = self.place;
        let len = self.len;
        let count = self.words.len();
        BitSliceMut::from_place_mut(self.words.slice_mut(0..count), place, len)
    }

    /// Another name of `as_bitslice`.
    pub fn as_slice(&self) -> BitSlice<'_, T, O>
        ensures bits { view_bits (read_by T.BitRegister O.position) result
            ≡ left_bits (read_by T.BitRegister O.position) self.now }
        ensures head { view_head result ≡ left_place self.now % T.BITS }
    {
        self.as_bitslice()
    }

    /// Another name of `as_mut_bitslice`.
    pub fn as_mut_slice(&mut self) -> BitSliceMut<'_, T, O>
        ensures bits { lent_bits (read_by T.BitRegister O.position) result
            ≡ left_bits (read_by T.BitRegister O.position) self.old }
        ensures words { lent_words result ≡ left_words self.old }
        ensures place { lent_place result ≡ left_place self.old }
        ensures* lends { sem 𝓛 (follows (the_row T.row O.row T.BitRegister) (Array T.row 0) self.entry.ghost_name
            (lent_lender result) (left_with self.old)) }
    {
        self.as_mut_bitslice()
    }

    /// The same bits that are left, in words of its own.
    pub fn clone(&self) -> Result<IntoIter<T, O>, AllocError>
        ensures bits { IfOk result (λ made. left_bits (read_by T.BitRegister O.position) made
            ≡ left_bits (read_by T.BitRegister O.position) self.now) }
        ensures words { IfOk result (λ made. left_words made ≡ left_words self.now) }
        ensures place { IfOk result (λ made. left_place made ≡ left_place self.now) }
    {
        let words = Vec::from_slice(*self.words.allocator(), self.words.as_slice())?;
        Ok(IntoIter {
            words,
            place: self.place,
            len: self.len,
            order: PhantomData,
        })
    }
}

#[tactic(auto, using(crate::proofs::LeftLemmas::left))]
impl<T: BitStore, O: BitOrder<T>> Iterator for IntoIter<T, O> {
    ghost use Rattle.bit_containers_box.specs.Left.{left_bits, GivesFirstLeft};

    type Item = bool;

    ghost next_gives = { GivesFirstLeft (read_by T.BitRegister O.position) };

    ghost remaining = { item_count (left_bits (read_by T.BitRegister O.position)) };

    fn next(&mut self) -> Option<bool> {
        if self.len == 0 {
            return None;
        }
        let first = self.as_bitslice().bit(0);
        self.place += 1;
        self.len -= 1;
        Some(first)
    }

    fn size_hint(&self) -> (usize, Option<usize>)
        ensures lower { IsWithinCount result.0
            (item_count (left_bits (read_by T.BitRegister O.position)) self.now) }
        ensures upper { IfSome result.1
            (UpTo (item_count (left_bits (read_by T.BitRegister O.position)) self.now)) }
        ensures exact { result ≡ (
          length (left_bits (read_by T.BitRegister O.position) self.now),
          Some (length (left_bits (read_by T.BitRegister O.position) self.now)),
        ) }
    {
        let left = self.len();
        (left, Some(left))
    }
}

#[tactic(auto, using(crate::proofs::LeftLemmas::left))]
impl<T: BitStore, O: BitOrder<T>> DoubleEndedIterator for IntoIter<T, O> {
    ghost use Rattle.bit_containers_box.specs.Left.{GivesLastLeft};

    ghost next_back_gives = { GivesLastLeft (read_by T.BitRegister O.position) };

    fn next_back(&mut self) -> Option<bool> {
        if self.len == 0 {
            return None;
        }
        let rest = self.len - 1;
        let last = self.as_bitslice().bit(rest);
        self.len = rest;
        Some(last)
    }
}

#[tactic(auto, using(crate::proofs::LeftLemmas::left))]
impl<T: BitStore, O: BitOrder<T>> ExactSizeIterator for IntoIter<T, O> {
    fn len(&self) -> usize {
        let left = self.as_bitslice();
        left.len()
    }
}

impl<T: BitStore, O: BitOrder<T>> FusedIterator for IntoIter<T, O> {}

/// The bits of the box, as truth values.
impl<T: BitStore, O: BitOrder<T>> IntoIterator for BitBox<T, O> {
    ghost use Rattle.bit_containers_box.specs.Left.{left_bits, left_place, left_words};

    type Item = bool;

    type IntoIter = IntoIter<T, O>;

    ghost into_iter_gives = { λ bits iter.
        (left_bits (read_by T.BitRegister O.position) iter ≡ box_bits (read_by T.BitRegister O.position) bits)
        × (left_words iter ≡ box_words bits) × (left_place iter ≡ box_head bits) };

    fn into_iter(self) -> IntoIter<T, O> {
        IntoIter {
            words: self.words,
            place: self.head,
            len: self.len,
            order: PhantomData,
        }
    }
}
