//! Bits that were taken out of the middle of a vector.

ghost use Rattle.std.specs.Prelude.{◌≡◌, ◌+◌, ◌-◌, ◌*◌, ◌%◌, ◌^◌, ◌<◌, ◌≤◌, ⊤, length, IfSome, Some};
ghost use Rattle.std.specs.Iterator.{item_count, UpTo};
ghost use Rattle.std.specs.Iterator.SizeHint.{IsWithinCount};
ghost use Rattle.std.specs.Borrow.{sem};
ghost use mathlib.Core.Option.{none};
ghost use denote.Follow.{follows_so};
ghost use Rattle.bit_addressing_memory.specs.Memory.{piece, read_by};
ghost use Rattle.bit_addressing_span.specs.declared.span.TheConstants.{MAX_BITS};
ghost use Rattle.bit_slice_views.specs.View.{view_bits, view_head};
ghost use Rattle.bit_containers_vector.specs.Vector.{vec_bits, vec_head, vec_words};

use crate::vector::BitVec;
use crate::words::turn;
use bit_addressing_memory::{BitOrder, BitRegister, read_entry};
use bit_slice_views::{BitRange, BitSlice, BitStore, Bits};
use std::iter::FusedIterator;
use std::marker::PhantomData;

/// The bits of a range that a vector no longer has: read from both ends, each once, and then `None` for good.
///
/// The vector has its final list from the beginning.
#[derive(Drop)]
pub struct Drain<'a, T: BitStore, O> {
    pub(crate) words: &'a [T],
    pub(crate) place: usize,
    pub(crate) len: usize,
    pub(crate) order: PhantomData<O>,

    ghost short: { len ≤ MAX_BITS },
    ghost small: { place + len < 2 ^ 63 },
    ghost fits: { place + len ≤ length words.now * T.BITS },
}

impl<'a, T: BitStore, O: BitOrder<T>> Drain<'a, T, O> {
    ghost use Rattle.bit_containers_vector.specs.Drained.{drain_bits, drain_head};

    /// The bits that are left, as a window.
    pub fn as_bitslice(&self) -> BitSlice<'a, T, O>
        ensures bits { view_bits (read_by T.BitRegister O.position) result
            ≡ drain_bits (read_by T.BitRegister O.position) self.now }
        ensures head { view_head result ≡ drain_head self.now }
    {
        BitSlice::from_place(self.words, self.place, self.len)
    }

    /// Another name of `as_bitslice`.
    pub fn as_slice(&self) -> BitSlice<'a, T, O>
        ensures bits { view_bits (read_by T.BitRegister O.position) result
            ≡ drain_bits (read_by T.BitRegister O.position) self.now }
        ensures head { view_head result ≡ drain_head self.now }
    {
        self.as_bitslice()
    }
}

#[tactic(auto, using(crate::proofs::DrainLemmas::none_left))]
impl<'a, T: BitStore + 'a, O: BitOrder<T>> Iterator for Drain<'a, T, O> {
    ghost use Rattle.bit_containers_vector.specs.Drained.{drain_bits, GivesFirstGone};

    type Item = bool;

    ghost next_gives = { GivesFirstGone (read_by T.BitRegister O.position) };

    ghost remaining = { item_count (drain_bits (read_by T.BitRegister O.position)) };

    fn next(&mut self) -> Option<bool> {
        if self.len == 0 {
            return None;
        }
        let first = read_entry::<T, O>(self.words, self.place);
        self.place += 1;
        self.len -= 1;
        Some(first)
    }

    fn size_hint(&self) -> (usize, Option<usize>)
        ensures lower { IsWithinCount result.0
            (item_count (drain_bits (read_by T.BitRegister O.position)) self.now) }
        ensures upper { IfSome result.1
            (UpTo (item_count (drain_bits (read_by T.BitRegister O.position)) self.now)) }
        ensures exact { result ≡ (
          length (drain_bits (read_by T.BitRegister O.position) self.now),
          Some (length (drain_bits (read_by T.BitRegister O.position) self.now)),
        ) }
    {
        let left = self.len();
        (left, Some(left))
    }
}

#[tactic(auto, using(crate::proofs::DrainLemmas::none_left))]
impl<'a, T: BitStore + 'a, O: BitOrder<T>> DoubleEndedIterator for Drain<'a, T, O> {
    ghost use Rattle.bit_containers_vector.specs.Drained.{GivesLastGone};

    ghost next_back_gives = { GivesLastGone (read_by T.BitRegister O.position) };

    fn next_back(&mut self) -> Option<bool> {
        if self.len == 0 {
            return None;
        }
        let rest = self.len - 1;
        let last = read_entry::<T, O>(self.words, self.place + rest);
        self.len = rest;
        Some(last)
    }
}

impl<'a, T: BitStore + 'a, O: BitOrder<T>> ExactSizeIterator for Drain<'a, T, O> {
    fn len(&self) -> usize {
        let left = self.as_bitslice();
        left.len()
    }
}

impl<'a, T: BitStore + 'a, O: BitOrder<T>> FusedIterator for Drain<'a, T, O> {}

impl<T: BitStore, O: BitOrder<T>> BitVec<T, O> {
    ghost use Rattle.bit_containers_vector.specs.Drained.{drain_bits, drain_head, drain_place, Cut, IsCut};
    ghost use Rattle.bit_containers_vector.specs.contracts.vector.BitVec.{the_row};

    /// Takes the bits of a range out, and answers them. The range has to lie in the list, which is the final one at
    /// once; the vector is lent until the answer is gone. It takes no memory.
    pub fn drain<I: BitRange + Drop>(&mut self, range: I) -> Drain<'_, T, O>
        requires ordered { I.start range ≤ I.end range (length (vec_bits (read_by T.BitRegister O.position) self.old)) }
        requires within { I.end range (length (vec_bits (read_by T.BitRegister O.position) self.old))
            ≤ length (vec_bits (read_by T.BitRegister O.position) self.old) }
        ensures bits { drain_bits (read_by T.BitRegister O.position) result
            ≡ piece (vec_bits (read_by T.BitRegister O.position) self.old) (I.start range)
            (I.end range (length (vec_bits (read_by T.BitRegister O.position) self.old)) - I.start range) }

        // They are shown behind the last bit of what stays.
        ensures head { drain_head result ≡ (vec_head self.old
            + (length (vec_bits (read_by T.BitRegister O.position) self.old)
            - (I.end range (length (vec_bits (read_by T.BitRegister O.position) self.old)) - I.start range)))
            % T.BITS }
        ensures place { drain_place result ≡ vec_head self.old
            + (length (vec_bits (read_by T.BitRegister O.position) self.old)
            - (I.end range (length (vec_bits (read_by T.BitRegister O.position) self.old)) - I.start range)) }
        ensures* after { sem 𝓛 (follows_so
            (the_row T.row O.row T.BitRegister)
            (the_row T.row O.row T.BitRegister)
            self.entry.ghost_name none (λ _ _. ⊤)
            (λ v. IsCut (read_by T.BitRegister O.position) (I.start range)
            (I.end range (length (vec_bits (read_by T.BitRegister O.position) self.old))) self.old v)) }
    {
        let (from, upto) = range.ends_in(self.len()).unwrap_or((0, 0));
        self.cut(from, upto);
        let place = self.head + self.len;
        Drain {
            words: self.words.as_slice(),
            place,
            len: upto - from,
            order: PhantomData,
        }
    }

    // Moves the bits of a range behind the others, and cuts them off.
    pub(crate) fn cut(&mut self, from: usize, upto: usize)
        requires ordered { from ≤ upto }
        requires within { upto ≤ length (vec_bits (read_by T.BitRegister O.position) self.old) }
        ensures cut { Cut (read_by T.BitRegister O.position) from upto self.old self.new }
        ensures short { upto ≤ MAX_BITS }
    {
        let removed = upto - from;
        turn::<T, O>(&mut self.words, self.head + from, self.len - from, removed);
        self.len -= removed;
    }
}
