//! A fixed number of bits.

ghost use Rattle.std.specs.Prelude.{◌≡◌, ◌*◌, ◌<◌, ◌≤◌, false, length, min, slice_index_or};
ghost use Rattle.std.specs.Fn.{FnOnceReturnsAtMut};
ghost use Rattle.bit_addressing_memory.specs.Memory.{memory, piece, read_by, reading_in};
ghost use Rattle.bit_slice_views.specs.SpanLimits.{MAX_BITS};

use crate::owned::BitsOwned;
use bit_addressing_memory::{BitOrder, BitRegister, mem};
use bit_slice_views::{BitSlice, BitViewSized, Bits, MAX_BITS};
use bit_slice_views_mut::{BitsMut, MayWriteBeside, apply};
use std::marker::PhantomData;
use std::ops::Index;

/// The bits of a word or of an array of words, owned: all of them, or the first `MAX_BITS` where it has more.
#[derive_where(Clone, Copy)]
pub struct BitArray<A: BitViewSized, O: BitOrder<A::Store>> {
    pub words: A,
    pub(crate) order: PhantomData<O>,
}

#[tactic(auto, using(bit_slice_views_mut::proofs::FrameLemmas::frames))]
impl<A: BitViewSized, O: BitOrder<A::Store>> BitArray<A, O> {
    ghost use Rattle.bit_containers_array.specs.Array.{array_bits};

    /// The bits of these words.
    pub fn new(words: A) -> BitArray<A, O>
        ensures { result.words ≡ words }
    {
        BitArray {
            words,
            order: PhantomData,
        }
    }

    /// The words.
    pub fn into_inner(self) -> A
        ensures { result ≡ self.words }
    {
        let BitArray { words, .. } = self;
        words
    }

    /// How many bits there are.
    pub fn len(&self) -> usize
        ensures value { result ≡ length (array_bits (read_by A.Store.BitRegister O.position) A.words self.now) }
        ensures count { result ≡ min (A.COUNT * A.Store.BITS) MAX_BITS }
    {
        let words = self.words.as_raw_slice();
        words
            .len()
            .saturating_mul(mem::bits_of::<A::Store>())
            .min(MAX_BITS)
    }
}

impl<A: BitViewSized, O: BitOrder<A::Store>> Index<usize> for BitArray<A, O> {
    ghost use Rattle.bit_containers_array.specs.Array.{array_bits};

    type Output = bool;

    ghost can_index = { λ array i. i < length (array_bits (read_by A.Store.BitRegister O.position) A.words array) };

    ghost index_gives = { λ array i bit. bit
        ≡ slice_index_or (array_bits (read_by A.Store.BitRegister O.position) A.words array) i false };

    fn index(&self, i: usize) -> &bool {
        if self.bit(i) { &true } else { &false }
    }
}

impl<A: BitViewSized, O: BitOrder<A::Store>> Bits for BitArray<A, O> {
    ghost use Rattle.bit_containers_array.specs.Array.{array_bits};

    type Store = A::Store;

    type Order = O;

    ghost bits = { array_bits (read_by A.Store.BitRegister O.position) A.words };

    ghost start = { λ _. 0 };

    fn as_bitslice(&self) -> BitSlice<'_, A::Store, O> {
        let len = BitArray::len(self);
        BitSlice::from_parts(self.words.as_raw_slice(), 0, len)
    }
}

#[tactic(auto, using(bit_slice_views_mut::proofs::FrameLemmas::frames))]
impl<A: BitViewSized, O: BitOrder<A::Store>> BitsMut for BitArray<A, O> {
    ghost use Rattle.std.specs.Prelude.{refl};
    ghost use Rattle.bit_slice_views_mut.specs.FrameLaws.{front_start};
    ghost use Rattle.bit_containers_array.specs.Array.{array_bits, array_frame, array_words};
    ghost use Rattle.bit_containers_array.specs.ArrayLaws.{first_window, first_within};

    ghost Lender = { Unit {0} };

    ghost lender = { λ _. tt };

    ghost words = { array_words A.words };

    ghost place = { λ _. 0 };

    ghost frame = { array_frame (read_by A.Store.BitRegister O.position) A.words };

    fn first_place(&self) -> usize {
        0
    }

    fn with_words<W, F: FnOnce(&mut [A::Store]) -> W>(&mut self, _key: MayWriteBeside, f: F) -> W {
        apply::<A::Store, W, F>(self.words.as_raw_mut_slice(), f)
    }

    ghost window = { λ array. first_window (reading_in A.Store.BITS A.Store.number O.position)
        (array_words A.words array) };

    ghost fits = { λ array. first_within (reading_in A.Store.BITS A.Store.number O.position)
        (array_words A.words array) };

    ghost framed = { λ _. refl };

    ghost starts = { λ _. front_start A.Store.BITS A.Store.least_bits };
}

impl<A: BitViewSized, O: BitOrder<A::Store>> BitsOwned for BitArray<A, O> {
    ghost use Rattle.std.specs.Prelude.{refl};
    ghost use Rattle.bit_containers_array.specs.Array.{array_with};
    ghost use Rattle.bit_containers_array.specs.ArrayLaws.{first_len};

    ghost count = { λ _. A.COUNT };

    ghost with_words = { λ array words. array_with array (A.with_words array.words words) };

    fn as_raw_slice(&self) -> &[A::Store] {
        self.words.as_raw_slice()
    }

    fn as_raw_mut_slice(&mut self) -> &mut [A::Store] {
        self.words.as_raw_mut_slice()
    }

    ghost words_of = { λ array words size. A.words_of array.words words size };

    ghost lender_of = { λ _ _ _. refl };

    ghost place_of = { λ _ _ _. refl };

    ghost len_of = { λ array words was size. first_len (reading_in A.Store.BITS A.Store.number O.position)
        (A.words (A.with_words array.words words)) words (A.words array.words) A.COUNT
        (A.words_of array.words words size) was size };
}
