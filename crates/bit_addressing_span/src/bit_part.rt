//! Bits of some words: the words, with a head and a length.

ghost use Rattle.std.specs.Prelude.{◌≡◌, ◌+◌, ◌-◌, ◌*◌, ◌<◌, ◌≤◌, length};
ghost use Rattle.bit_addressing_memory.specs.Memory.{read_by};

use crate::partial::PartialElement;
use bit_addressing_memory::{BitIdx, BitOrder, BitRegister};
use std::alloc::AllocError;
use std::marker::PhantomData;

/// So many bits of some words, from an index of the first of them on.
#[derive_where(Copy)]
pub struct BitPart<'a, R: BitRegister, O> {
    words: &'a [R],
    head: u8,
    len: usize,
    order: PhantomData<O>,

    ghost index: { head < R.BITS },
    ghost fits: { head + len ≤ length words.now * R.BITS },
}

impl<'a, R: BitRegister, O> Clone for BitPart<'a, R, O> {
    ghost use Rattle.std.specs.Prelude.{◌≡◌, ⊤};

    ghost is_clone = { λ part copy. copy ≡ part };

    ghost is_infallible = { λ _. ⊤ };

    fn clone(&self) -> Result<Self, AllocError> {
        Ok(*self)
    }
}

impl<'a, R: BitRegister, O: BitOrder<R>> BitPart<'a, R, O> {
    ghost use Rattle.bit_addressing_span.specs.BitPart.{bit_part_bits, bit_part_head, bit_part_len, bit_part_words};
    ghost use Rattle.bit_addressing_span.specs.PartialElement.{partial_bits, partial_head, partial_tail, partial_words};

    // A part of one word.
    pub(crate) fn of(part: PartialElement<'a, R, O>) -> BitPart<'a, R, O>
        ensures words { bit_part_words result ≡ partial_words part.entry }
        ensures head { bit_part_head result ≡ partial_head part.entry }
        ensures len { bit_part_len result ≡ partial_tail part.entry - partial_head part.entry }
        ensures bits { bit_part_bits (read_by R.BitRegister O.position) result
            ≡ partial_bits (read_by R.BitRegister O.position) part.entry }
    {
        let (words, head, len) = part.into_bitslice();
        BitPart {
            words,
            head: head.into_inner(),
            len,
            order: PhantomData,
        }
    }

    /// The words, the index of the first bit in the first of them, and how many bits there are.
    pub fn raw_parts(self) -> (&'a [R], BitIdx<R>, usize)
        ensures words { result.0.now ≡ bit_part_words self.entry }
        ensures head { result.1 ≡ bit_part_head self.entry }
        ensures len { result.2 ≡ bit_part_len self.entry }

        // What the type says.
        ensures fits { result.1 + result.2 ≤ length result.0.now * R.BITS }
    {
        (self.words, BitIdx::new_unchecked(self.head), self.len)
    }

    /// How many bits there are.
    pub fn len(self) -> usize
        ensures { result ≡ bit_part_len self.entry }
    {
        self.len
    }
}
