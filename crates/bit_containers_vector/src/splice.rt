//! Bits of a vector that others take the place of.

ghost use Rattle.std.specs.Prelude.{◌≡◌, ℕ, ◌+◌, ◌-◌, ◌*◌, ◌<◌, ◌≤◌, ◌++◌, List, Bool, length, take, drop, IfSome, Some, IsOk, OnErr, OnOk};
ghost use Rattle.std.specs.Iterator.{Drains, Yields, IsFinite, UpTo, at_most, size};
ghost use Rattle.std.specs.Iterator.SizeHint.{IsWithinCount};
ghost use Rattle.bit_addressing_memory.specs.Memory.{entry, piece, read_by};
ghost use Rattle.bit_addressing_span.specs.declared.span.TheConstants.{MAX_BITS};
ghost use Rattle.bit_containers_vector.specs.Drained.{IsCut};
ghost use Rattle.bit_containers_vector.specs.Spliced.{gone_bits, CanStep, Steps, StepsBack};
ghost use Rattle.bit_containers_vector.specs.Spliced.{splice_items, splice_left, splice_place, splice_vector, splice_loan};
ghost use Rattle.bit_containers_vector.specs.Vector.{vec_bits, vec_head, vec_words, room, HasRoomFor};

use crate::vector::BitVec;
use bit_addressing_memory::{BitOrder, BitRegister, read_entry};
use bit_slice_views::{BitRange, BitStore, Bits};
use std::alloc::AllocError;
use std::iter::FusedIterator;

/// The bits of a range that a vector no longer has: read from both ends, each once, and then `None` for good. `finish`
/// puts others in their place.
///
/// The vector has the bits before the range and those behind it from the beginning, and keeps these where `finish` is not
/// called.
#[derive(Drop)]
pub struct Splice<'a, T: BitStore, O: BitOrder<T>, I: Iterator<Item = bool>> {
    pub(crate) vector: &'a mut BitVec<T, O>,
    pub(crate) start: usize,
    pub(crate) front: usize,
    pub(crate) back: usize,
    pub(crate) items: I,
}

impl<'a, T: BitStore, O: BitOrder<T>, I: Iterator<Item = bool>> Splice<'a, T, O, I> {
    /// Puts the bits that the iterator gives in the place of those that are gone.
    ///
    /// At a refusal the first of them stand there.
    pub fn finish(self) -> Result<(), AllocError>
        requires can { I.can_next (splice_items self) }
        requires finite { IsFinite (I.remaining (splice_items self)) }
        requires inside { splice_place self
            ≤ length (vec_bits (read_by T.BitRegister O.position) (splice_vector self)) }
        requires most { length (vec_bits (read_by T.BitRegister O.position) (splice_vector self))
            + size (I.remaining (splice_items self)) ≤ MAX_BITS }
        ensures ok { OnOk result ((xs : List Bool) × Drains I.next_gives (splice_items self.entry) xs
            × (vec_bits (read_by T.BitRegister O.position) self.exit.0.now
            ≡ take (splice_place self.entry) (vec_bits (read_by T.BitRegister O.position) (splice_vector self.entry))
            ++ xs
            ++ drop (splice_place self.entry)
            (vec_bits (read_by T.BitRegister O.position) (splice_vector self.entry)))) }
        ensures err { OnErr result ((xs : List Bool) × (rest : I) × Yields I.next_gives (splice_items self.entry) xs rest
            × (vec_bits (read_by T.BitRegister O.position) self.exit.0.now
            ≡ take (splice_place self.entry) (vec_bits (read_by T.BitRegister O.position) (splice_vector self.entry))
            ++ xs
            ++ drop (splice_place self.entry)
            (vec_bits (read_by T.BitRegister O.position) (splice_vector self.entry)))) }

        // Items that are as few as there is room for bits are not refused.
        ensures succeeds { HasRoomFor (read_by T.BitRegister O.position) (splice_vector self.entry)
            (size (I.remaining (splice_items self.entry))) → IsOk result }
        ensures head { vec_head self.exit.0.now ≡ vec_head (splice_vector self.entry) }
        ensures room { room (read_by T.BitRegister O.position) (splice_vector self.entry)
            ≤ room (read_by T.BitRegister O.position) self.exit.0.now }
    {
        let Splice {
            vector,
            start,
            front: _,
            back: _,
            items,
        } = self;
        vector.insert_all(start, items)
    }
}

impl<'a, T: BitStore + 'a, O: BitOrder<T>, I: Iterator<Item = bool>> Iterator
    for Splice<'a, T, O, I> {
    type Item = bool;

    ghost can_next = { CanStep (read_by T.BitRegister O.position) };

    ghost next_gives = { Steps (read_by T.BitRegister O.position) };

    ghost remaining = { λ splice. at_most (splice_left splice) };

    fn next(&mut self) -> Option<bool> {
        if self.front < self.back {
            let bit = self.vector.held_bit(self.front);
            self.front += 1;
            Some(bit)
        } else {
            None
        }
    }

    fn size_hint(&self) -> (usize, Option<usize>)
        ensures lower { IsWithinCount result.0 (at_most (splice_left self.now)) }
        ensures upper { IfSome result.1 (UpTo (at_most (splice_left self.now))) }
        ensures exact { CanStep (read_by T.BitRegister O.position) self.now → result ≡ (
          length (gone_bits (read_by T.BitRegister O.position) self.now),
          Some (length (gone_bits (read_by T.BitRegister O.position) self.now)),
        ) }
    {
        let left = self.len();
        (left, Some(left))
    }
}

impl<'a, T: BitStore + 'a, O: BitOrder<T>, I: Iterator<Item = bool>> DoubleEndedIterator
    for Splice<'a, T, O, I> {
    ghost can_next_back = { CanStep (read_by T.BitRegister O.position) };

    ghost next_back_gives = { StepsBack (read_by T.BitRegister O.position) };

    fn next_back(&mut self) -> Option<bool> {
        if self.front < self.back {
            self.back -= 1;
            Some(self.vector.held_bit(self.back))
        } else {
            None
        }
    }
}

impl<'a, T: BitStore + 'a, O: BitOrder<T>, I: Iterator<Item = bool>> ExactSizeIterator
    for Splice<'a, T, O, I> {
    fn len(&self) -> usize
        ensures finite { IsFinite (at_most (splice_left self.now)) }
        ensures value { result ≡ splice_left self.now }
        ensures exact { CanStep (read_by T.BitRegister O.position) self.now
            → result ≡ length (gone_bits (read_by T.BitRegister O.position) self.now) }
    {
        self.back.saturating_sub(self.front)
    }
}

impl<'a, T: BitStore + 'a, O: BitOrder<T>, I: Iterator<Item = bool>> FusedIterator
    for Splice<'a, T, O, I> {}

impl<T: BitStore, O: BitOrder<T>> BitVec<T, O> {
    /// Takes the bits of a range out, and answers them; `finish` of the answer puts the bits that an iterator gives in
    /// their place. The range has to lie in the list.
    pub fn splice<R: BitRange + Drop, I: Iterator<Item = bool>>(
        &mut self,
        range: R,
        items: I,
    ) -> Splice<'_, T, O, I>
        requires ordered { R.start range ≤ R.end range (length (vec_bits (read_by T.BitRegister O.position) self.old)) }
        requires within { R.end range (length (vec_bits (read_by T.BitRegister O.position) self.old))
            ≤ length (vec_bits (read_by T.BitRegister O.position) self.old) }
        ensures same_reference { splice_loan result ≡ self.entry.ghost_name }
        ensures cut { IsCut (read_by T.BitRegister O.position) (R.start range)
            (R.end range (length (vec_bits (read_by T.BitRegister O.position) self.old))) self.old
            (splice_vector result) }
        ensures bits { gone_bits (read_by T.BitRegister O.position) result
            ≡ piece (vec_bits (read_by T.BitRegister O.position) self.old) (R.start range)
            (R.end range (length (vec_bits (read_by T.BitRegister O.position) self.old)) - R.start range) }
        ensures ready { CanStep (read_by T.BitRegister O.position) result }
        ensures place { splice_place result ≡ R.start range }
        ensures items { splice_items result ≡ items }
    {
        let (from, upto) = range.ends_in(self.len()).unwrap_or((0, 0));
        self.cut(from, upto);
        let front = self.head + self.len;
        Splice {
            vector: self,
            start: from,
            front,
            back: front + (upto - from),
            items,
        }
    }

    // The bit at a place of the words, visible or not.
    fn held_bit(&self, place: usize) -> bool
        requires { place < length (vec_words self.now) * T.BITS }
        ensures { result ≡ entry (read_by T.BitRegister O.position) (vec_words self.now) place }
    {
        read_entry::<T, O>(self.words.as_slice(), place)
    }
}
