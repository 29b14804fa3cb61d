//! The bits of an array, one after another, from both ends.

ghost use Rattle.std.specs.Prelude.{◌≡◌, ◌+◌, ◌%◌, ⊤, length, min, IfSome, Some};
ghost use Rattle.std.specs.Borrow.{Array, follows, sem};
ghost use Rattle.std.specs.Iterator.{item_count, UpTo};
ghost use Rattle.std.specs.Iterator.SizeHint.{IsWithinCount};
ghost use Rattle.bit_addressing_memory.specs.Memory.{piece, read_by};
ghost use Rattle.bit_slice_views.specs.View.{view_bits, view_head};
ghost use Rattle.bit_slice_views_mut.specs.ViewMut.{lent_bits, lent_lender, lent_place, lent_words};

use crate::array::BitArray;
use crate::owned::BitsOwned;
use bit_addressing_memory::{BitOrder, BitRegister};
use bit_slice_iterators::{BitsIter, Iter};
use bit_slice_views::{BitRef, BitSlice, BitViewSized, Bits};
use bit_slice_views_mut::BitSliceMut;
use std::alloc::AllocError;
use std::iter::FusedIterator;

/// The bits of an array that are left, as truth values; a contract sees their list as `left_bits`.
///
/// It is exact in length, gives each bit once from either end, and then `None` for good.
#[derive(Drop)]
pub struct IntoIter<A: BitViewSized, O: BitOrder<A::Store>> {
    array: BitArray<A, O>,
    from: usize,
    count: usize,
}

#[tactic(auto, using(crate::proofs::LeftLemmas::left))]
impl<A: BitViewSized, O: BitOrder<A::Store>> IntoIter<A, O> {
    ghost use Rattle.bit_containers_array.specs.Array.{array_bits, array_words};
    ghost use Rattle.bit_containers_array.specs.Left.{left_bits, left_place, left_words, left_with};
    ghost use Rattle.bit_containers_array.specs.contracts.iter.IntoIter.{the_row};

    /// The bits of an array.
    pub fn new(array: BitArray<A, O>) -> IntoIter<A, O>
        ensures bits { left_bits (read_by A.Store.BitRegister O.position) A.words result
            ≡ array_bits (read_by A.Store.BitRegister O.position) A.words array }
        ensures words { left_words A.words result ≡ array_words A.words array }
        ensures place { left_place (read_by A.Store.BitRegister O.position) A.words result ≡ 0 }
    {
        let count = array.len();
        IntoIter {
            array,
            from: 0,
            count,
        }
    }

    /// The bits that are left, to read.
    pub fn as_bitslice(&self) -> BitSlice<'_, A::Store, O>
        ensures bits { view_bits (read_by A.Store.BitRegister O.position) result
            ≡ left_bits (read_by A.Store.BitRegister O.position) A.words self.now }
        ensures head { view_head result
            ≡ left_place (read_by A.Store.BitRegister O.position) A.words self.now % A.Store.BITS }
    {
        rest_of(self.array.as_bitslice(), self.from, self.count)
    }

    /// The bits that are left, to write.
    ///
    /// Of these bits nothing is known to the body that has made the window, once it is gone.
    pub fn as_mut_bitslice(&mut self) -> BitSliceMut<'_, A::Store, O>
        ensures bits { lent_bits (read_by A.Store.BitRegister O.position) result
            ≡ left_bits (read_by A.Store.BitRegister O.position) A.words self.old }
        ensures words { lent_words result ≡ left_words A.words self.old }
        ensures place { lent_place result ≡ left_place (read_by A.Store.BitRegister O.position) A.words self.old }
        ensures* lends { sem 𝓛 (follows (the_row A.row O.row A.Store.row A.Access.row) (Array A.Store.row 0)
            self.entry.ghost_name (lent_lender result) (left_with A.with_words self.old)) }
    {
        let all = self.array.len();
        let from = self.from.min(all);
        let len = self.count.min(all - from);
        let words = self.array.as_raw_mut_slice();
        BitSliceMut::from_place_mut(words, from, len)
    }

    /// Another name of `as_bitslice`.
    pub fn as_slice(&self) -> BitSlice<'_, A::Store, O>
        ensures bits { view_bits (read_by A.Store.BitRegister O.position) result
            ≡ left_bits (read_by A.Store.BitRegister O.position) A.words self.now }
        ensures head { view_head result
            ≡ left_place (read_by A.Store.BitRegister O.position) A.words self.now % A.Store.BITS }
    {
        self.as_bitslice()
    }

    /// Another name of `as_mut_bitslice`.
    pub fn as_mut_slice(&mut self) -> BitSliceMut<'_, A::Store, O>
        ensures bits { lent_bits (read_by A.Store.BitRegister O.position) result
            ≡ left_bits (read_by A.Store.BitRegister O.position) A.words self.old }
        ensures words { lent_words result ≡ left_words A.words self.old }
        ensures place { lent_place result ≡ left_place (read_by A.Store.BitRegister O.position) A.words self.old }
        ensures* lends { sem 𝓛 (follows (the_row A.row O.row A.Store.row A.Access.row) (Array A.Store.row 0)
            self.entry.ghost_name (lent_lender result) (left_with A.with_words self.old)) }
    {
        self.as_mut_bitslice()
    }
}

// So many bits of a window from one on, as far as there are.
#[tactic(auto, using(crate::proofs::LeftLemmas::left_part))]
fn rest_of<T: BitRegister, O: BitOrder<T>>(
    view: BitSlice<'_, T, O>,
    from: usize,
    count: usize,
) -> BitSlice<'_, T, O>
    ensures bits { view_bits (read_by T.BitRegister O.position) result
        ≡ piece (view_bits (read_by T.BitRegister O.position) view.entry) from count }
    ensures head { view_head result ≡ (view_head view.entry
        + min from (length (view_bits (read_by T.BitRegister O.position) view.entry))) % T.BITS }
{
    let start = from.min(view.len());
    let len = count.min(view.len() - start);
    view.part(start, len)
}

impl<A: BitViewSized, O: BitOrder<A::Store>> Clone for IntoIter<A, O> {
    ghost is_clone = { λ iter copy. copy ≡ iter };

    ghost is_infallible = { λ _. ⊤ };

    fn clone(&self) -> Result<Self, AllocError> {
        Ok(IntoIter {
            array: self.array,
            from: self.from,
            count: self.count,
        })
    }
}

#[tactic(auto, using(crate::proofs::LeftLemmas::left))]
impl<A: BitViewSized, O: BitOrder<A::Store>> Iterator for IntoIter<A, O> {
    ghost use Rattle.bit_containers_array.specs.Left.{left_bits, GivesFirstLeft};

    type Item = bool;

    ghost next_gives = { GivesFirstLeft (read_by A.Store.BitRegister O.position) A.words };

    ghost remaining = { item_count (left_bits (read_by A.Store.BitRegister O.position) A.words) };

    fn next(&mut self) -> Option<bool> {
        let left = self.as_bitslice();
        if left.is_empty() {
            return None;
        }
        let first = left.bit(0);
        self.count = left.len() - 1;
        self.from += 1;
        Some(first)
    }

    fn size_hint(&self) -> (usize, Option<usize>)
        ensures lower { IsWithinCount result.0
            (item_count (left_bits (read_by A.Store.BitRegister O.position) A.words) self.now) }
        ensures upper { IfSome result.1
            (UpTo (item_count (left_bits (read_by A.Store.BitRegister O.position) A.words) self.now)) }
        ensures exact { result
            ≡ (
              length (left_bits (read_by A.Store.BitRegister O.position) A.words self.now),
              Some (length (left_bits (read_by A.Store.BitRegister O.position) A.words self.now)),
            ) }
    {
        let left = self.len();
        (left, Some(left))
    }
}

#[tactic(auto, using(crate::proofs::LeftLemmas::left))]
impl<A: BitViewSized, O: BitOrder<A::Store>> DoubleEndedIterator for IntoIter<A, O> {
    ghost use Rattle.bit_containers_array.specs.Left.{GivesLastLeft};

    ghost next_back_gives = { GivesLastLeft (read_by A.Store.BitRegister O.position) A.words };

    fn next_back(&mut self) -> Option<bool> {
        let left = self.as_bitslice();
        if left.is_empty() {
            return None;
        }
        let rest = left.len() - 1;
        let last = left.bit(rest);
        self.count = rest;
        Some(last)
    }
}

#[tactic(auto, using(crate::proofs::LeftLemmas::left))]
impl<A: BitViewSized, O: BitOrder<A::Store>> ExactSizeIterator for IntoIter<A, O> {
    fn len(&self) -> usize {
        let rest = self.as_bitslice();
        rest.len()
    }
}

impl<A: BitViewSized, O: BitOrder<A::Store>> FusedIterator for IntoIter<A, O> {}

impl<A: BitViewSized, O: BitOrder<A::Store>> IntoIterator for BitArray<A, O> {
    ghost use Rattle.bit_containers_array.specs.Array.{array_bits, array_words};
    ghost use Rattle.bit_containers_array.specs.Left.{left_bits, left_place, left_words};

    type Item = bool;

    type IntoIter = IntoIter<A, O>;

    ghost into_iter_gives = { λ array iter. (left_bits (read_by A.Store.BitRegister O.position) A.words iter
        ≡ array_bits (read_by A.Store.BitRegister O.position) A.words array)
        × (left_words A.words iter ≡ array_words A.words array)
        × (left_place (read_by A.Store.BitRegister O.position) A.words iter ≡ 0) };

    fn into_iter(self) -> IntoIter<A, O> {
        IntoIter::new(self)
    }
}

/// The bits of the array as `iter` gives them.
impl<'a, A: BitViewSized + 'a, O: BitOrder<A::Store>> IntoIterator for &'a BitArray<A, O>
where
    A::Store: 'a,
{
    ghost use Rattle.bit_containers_array.specs.Array.{array_bits};

    type Item = BitRef;

    type IntoIter = Iter<'a, A::Store, O>;

    ghost into_iter_gives = { λ array iter. (iter.bits
        ≡ array_bits (read_by A.Store.BitRegister O.position) A.words array.now) × (iter.head ≡ 0) };

    fn into_iter(self) -> Iter<'a, A::Store, O>
        ensures into_iter_gives { (result.bits
            ≡ array_bits (read_by A.Store.BitRegister O.position) A.words self.now) × (result.head ≡ 0) }
    {
        self.iter()
    }
}
