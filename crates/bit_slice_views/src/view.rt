//! A window of words, to read.

ghost use Rattle.std.specs.Prelude.{◌≡◌, ◌+◌, ◌-◌, ◌*◌, ◌/◌, ◌%◌, ◌<◌, ◌≤◌, length, take, drop};
ghost use Rattle.bit_addressing_memory.specs.Memory.{memory, piece, read_by};
ghost use Rattle.bit_addressing_span.specs.declared.span.TheConstants.{MAX_BITS};

use crate::bits::Bits;
use bit_addressing_memory::{BitIdx, BitOrder, BitRegister, mem};
use std::alloc::AllocError;
use std::marker::PhantomData;

/// So many bits of a slice of words, from an index of its first word on.
#[derive_where(Copy)]
pub struct BitSlice<'a, T: BitRegister, O> {
    words: &'a [T],
    head: u8,
    len: usize,
    order: PhantomData<O>,

    ghost index: { head < T.BITS },
    ghost short: { len ≤ MAX_BITS },
    ghost fits: { head + len ≤ length words.now * T.BITS },
}

impl<'a, T: BitRegister, O> Clone for BitSlice<'a, T, O> {
    ghost use Rattle.std.specs.Prelude.{◌≡◌, ⊤};

    ghost is_clone = { λ view copy. copy ≡ view };

    ghost is_infallible = { λ _. ⊤ };

    fn clone(&self) -> Result<Self, AllocError> {
        Ok(*self)
    }
}

impl<T: BitRegister, O: BitOrder<T>> Bits for BitSlice<'_, T, O> {
    ghost use Rattle.bit_slice_views.specs.View.{view_bits, view_head};

    type Store = T;

    type Order = O;

    ghost bits = { view_bits (read_by T.BitRegister O.position) };

    ghost start = { view_head };

    fn as_bitslice(&self) -> BitSlice<'_, T, O> {
        *self
    }
}

#[tactic(auto, using(crate::proofs::ViewLemmas::views))]
impl<'a, T: BitRegister, O: BitOrder<T>> BitSlice<'a, T, O> {
    ghost use Rattle.bit_slice_views.specs.View.{view_bits, view_words, view_head};

    // ---- make

    /// All bits of these words.
    pub fn from_slice(words: &'a [T]) -> BitSlice<'a, T, O>
        requires { length words.now * T.BITS ≤ MAX_BITS }
        ensures bits { view_bits (read_by T.BitRegister O.position) result
            ≡ memory (read_by T.BitRegister O.position) words.now }
        ensures len { length (view_bits (read_by T.BitRegister O.position) result) ≡ length words.now * T.BITS }
        ensures words { view_words result ≡ words.now }
        ensures head { view_head result ≡ 0 }
    {
        BitSlice {
            words,
            head: 0,
            len: words.len() * T::BITS as usize,
            order: PhantomData,
        }
    }

    /// `len` bits of these words, from index `head` of the first word on.
    pub fn from_parts(words: &'a [T], head: u8, len: usize) -> BitSlice<'a, T, O>
        requires index { head < T.BITS }
        requires short { len ≤ MAX_BITS }
        requires fits { head + len ≤ length words.now * T.BITS }
        ensures bits { view_bits (read_by T.BitRegister O.position) result
            ≡ piece (memory (read_by T.BitRegister O.position) words.now) head len }
        ensures len { length (view_bits (read_by T.BitRegister O.position) result) ≡ len }
        ensures words { view_words result ≡ words.now }
        ensures head { view_head result ≡ head }
    {
        BitSlice {
            words,
            head,
            len,
            order: PhantomData,
        }
    }

    /// `len` bits of these words, from a place on, which may lie in any of them.
    pub fn from_place(words: &'a [T], place: usize, len: usize) -> BitSlice<'a, T, O>
        requires short { len ≤ MAX_BITS }
        requires fits { place + len ≤ length words.now * T.BITS }
        ensures bits { view_bits (read_by T.BitRegister O.position) result
            ≡ piece (memory (read_by T.BitRegister O.position) words.now) place len }
        ensures len { length (view_bits (read_by T.BitRegister O.position) result) ≡ len }
        ensures head { view_head result ≡ place % T.BITS }
    {
        let bits = mem::bits_of::<T>();
        BitSlice {
            words: words_from(words, place / bits),
            head: (place % bits) as u8,
            len,
            order: PhantomData,
        }
    }

    // ---- size

    /// The words, the index of the first bit in the first of them, and how many bits there are.
    pub fn parts(self) -> (&'a [T], u8, usize)
        ensures bits { view_bits (read_by T.BitRegister O.position) self.entry
            ≡ piece (memory (read_by T.BitRegister O.position) result.0.now) result.1 result.2 }
        ensures words { result.0.now ≡ view_words self.entry }
        ensures head { result.1 ≡ view_head self.entry }
        ensures len { result.2 ≡ length (view_bits (read_by T.BitRegister O.position) self.entry) }
        ensures index { result.1 < T.BITS }
        ensures short { result.2 ≤ MAX_BITS }
        ensures fits { result.1 + result.2 ≤ length result.0.now * T.BITS }
    {
        (self.words, self.head, self.len)
    }

    /// The index of the first bit in that bit's word.
    pub fn head(self) -> BitIdx<T>
        ensures { result ≡ view_head self.entry }
    {
        BitIdx::new_unchecked(self.head)
    }

    // ---- cut

    /// `count` bits, from bit `from` on.
    pub fn part(self, from: usize, count: usize) -> BitSlice<'a, T, O>
        requires { from + count ≤ length (view_bits (read_by T.BitRegister O.position) self) }
        ensures bits { view_bits (read_by T.BitRegister O.position) result
            ≡ piece (view_bits (read_by T.BitRegister O.position) self.entry) from count }
        ensures len { length (view_bits (read_by T.BitRegister O.position) result) ≡ count }
        ensures head { view_head result ≡ (view_head self.entry + from) % T.BITS }
    {
        BitSlice::from_place(self.words, self.head as usize + from, count)
    }

    /// The first `i` bits, and the others.
    pub fn split_at(self, i: usize) -> (BitSlice<'a, T, O>, BitSlice<'a, T, O>)
        requires { i ≤ length (view_bits (read_by T.BitRegister O.position) self) }
        ensures left { view_bits (read_by T.BitRegister O.position) result.0
            ≡ take i (view_bits (read_by T.BitRegister O.position) self.entry) }
        ensures right { view_bits (read_by T.BitRegister O.position) result.1
            ≡ drop i (view_bits (read_by T.BitRegister O.position) self.entry) }
        ensures left_head { view_head result.0 ≡ view_head self.entry }
        ensures right_head { view_head result.1 ≡ (view_head self.entry + i) % T.BITS }
    {
        (self.part(0, i), self.part(i, self.len - i))
    }
}

// The words from one number on.
fn words_from<R>(words: &[R], from: usize) -> &[R]
    requires { from ≤ length words.now }
    ensures { result.now ≡ drop from words.now }
{
    &words[from..]
}
