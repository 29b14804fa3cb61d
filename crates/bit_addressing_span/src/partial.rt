//! A part of one word, read.

ghost use Rattle.std.specs.Prelude.{◌≡◌, ◌∷◌, [], ◌-◌, ◌<◌, ◌≤◌, length};
ghost use Rattle.bit_addressing_memory.specs.Memory.{read_by};
ghost use Rattle.bit_addressing_memory.specs.Partial.{part_mask, IsMasked};

use bit_addressing_memory::{BitEnd, BitIdx, BitMask, BitOrder, BitRegister, masked};
use std::alloc::AllocError;
use std::marker::PhantomData;

/// The bits of one word from an index up to before an end, in the order `O`.
#[derive_where(Copy)]
pub struct PartialElement<'a, R: BitRegister, O> {
    words: &'a [R],
    head: u8,
    tail: u8,
    order: PhantomData<O>,

    ghost single: { length words.now ≡ 1 },
    ghost index: { head < R.BITS },
    ghost ordered: { head ≤ tail },
    ghost within: { tail ≤ R.BITS },
}

impl<'a, R: BitRegister, O> Clone for PartialElement<'a, R, O> {
    ghost use Rattle.std.specs.Prelude.{◌≡◌, ⊤};

    ghost is_clone = { λ part copy. copy ≡ part };

    ghost is_infallible = { λ _. ⊤ };

    fn clone(&self) -> Result<Self, AllocError> {
        Ok(*self)
    }
}

impl<'a, R: BitRegister, O: BitOrder<R>> PartialElement<'a, R, O> {
    ghost use Rattle.bit_addressing_span.specs.PartialElement.{partial_words, partial_numbers};
    ghost use Rattle.bit_addressing_span.specs.PartialElement.{partial_head, partial_tail};

    pub(crate) fn new(words: &'a [R], head: BitIdx<R>, tail: BitEnd<R>) -> PartialElement<'a, R, O>
        requires single { length words.now ≡ 1 }
        requires ordered { head ≤ tail }
        ensures words { partial_words result ≡ words.now }
        ensures head { partial_head result ≡ head }
        ensures tail { partial_tail result ≡ tail }
    {
        PartialElement {
            words,
            head: head.into_inner(),
            tail: tail.into_inner(),
            order: PhantomData,
        }
    }

    /// The word with each digit outside the part read as zero.
    pub fn load_value(self) -> R
        ensures number { partial_numbers R.number O.masked self.entry ≡ R.number result ∷ [] }
        ensures digits { (word : R) → partial_words self.entry ≡ word ∷ []
            → IsMasked (read_by R.BitRegister O.position) word result
            (partial_head self.entry) (partial_tail self.entry) }
    {
        let (head, tail) = self.bounds();
        masked::<R, O>(self.words[0], head, tail)
    }

    /// The index of the first bit.
    pub fn head(self) -> BitIdx<R>
        ensures { result ≡ partial_head self.entry }
    {
        BitIdx::new_unchecked(self.head)
    }

    /// The end of the bits.
    pub fn tail(self) -> BitEnd<R>
        ensures { result ≡ partial_tail self.entry }
    {
        BitEnd::new_unchecked(self.tail)
    }

    /// The head and the tail.
    pub fn bounds(self) -> (BitIdx<R>, BitEnd<R>)
        ensures head { result.0 ≡ partial_head self.entry }
        ensures tail { result.1 ≡ partial_tail self.entry }
        ensures order { result.0 ≤ result.1 }
    {
        (self.head(), self.tail())
    }

    /// The mask of the part, in the order `O`.
    pub fn mask(self) -> BitMask<R>
        ensures { R.number result ≡ part_mask O.masked (partial_head self.entry) (partial_tail self.entry) }
    {
        O::mask(Some(self.head()), Some(self.tail()))
    }

    /// The part as bits of a memory of one word: that memory, the index of the first bit, and how many
    /// bits there are.
    pub fn into_bitslice(self) -> (&'a [R], BitIdx<R>, usize)
        ensures words { result.0.now ≡ partial_words self.entry }
        ensures single { length result.0.now ≡ 1 }
        ensures head { result.1 ≡ partial_head self.entry }
        ensures len { result.2 ≡ partial_tail self.entry - partial_head self.entry }
    {
        let len = (self.tail - self.head) as usize;
        (self.words, self.head(), len)
    }
}
