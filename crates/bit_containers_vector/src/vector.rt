//! Bits in a vector of words.

ghost use Rattle.std.specs.Prelude.{◌≡◌, ◌+◌, ◌*◌, ◌<◌, ◌≤◌, [], length};
ghost use Rattle.std.specs.Fn.{FnOnceReturnsAtMut};
ghost use Rattle.bit_addressing_memory.specs.Memory.{read_by, reading_in};
ghost use Rattle.bit_addressing_span.specs.declared.span.TheConstants.{MAX_BITS};

use bit_addressing_memory::{BitOrder, BitRegister};
use bit_slice_views::{BitSlice, BitStore, Bits};
use bit_slice_views_mut::{BitsMut, MayWriteBeside, apply};
use std::alloc::Global;
use std::marker::PhantomData;

/// Bits in a vector of words: a list that grows at its end.
///
/// The first bit may lie inside the first word, at the index `head`. The visible words are those up to the last bit;
/// their bits beside the list are dead bits.
#[derive(Drop)]
pub struct BitVec<T: BitStore, O> {
    pub(crate) words: Vec<T>,
    pub(crate) head: usize,
    pub(crate) len: usize,
    pub(crate) order: PhantomData<O>,

    ghost inside: { head < T.BITS },
    ghost short: { len ≤ MAX_BITS },
    ghost fits: { head + len ≤ length words.items * T.BITS },
}

#[tactic(auto, using(crate::proofs::CountLemmas::none_taken))]
impl<T: BitStore, O: BitOrder<T>> BitVec<T, O> {
    ghost use Rattle.bit_containers_vector.specs.Vector.{vec_bits, vec_head, vec_words, words_held};

    /// No bits. It takes no memory.
    pub fn new(alloc: Global) -> BitVec<T, O>
        ensures bits { vec_bits (read_by T.BitRegister O.position) result ≡ [] }
        ensures head { vec_head result ≡ 0 }
        ensures words { vec_words result ≡ [] }
        ensures capacity { words_held result ≡ 0 }
    {
        BitVec {
            words: Vec::new(alloc),
            head: 0,
            len: 0,
            order: PhantomData,
        }
    }
}

#[tactic(auto, using(bit_slice_views::proofs::ViewLemmas::views))]
impl<T: BitStore, O: BitOrder<T>> Bits for BitVec<T, O> {
    ghost use Rattle.bit_containers_vector.specs.Vector.{vec_bits, vec_head};

    type Store = T;

    type Order = O;

    ghost bits = { vec_bits (read_by T.BitRegister O.position) };

    ghost start = { vec_head };

    fn as_bitslice(&self) -> BitSlice<'_, T, O> {
        BitSlice::<T, O>::from_place(self.words.as_slice(), self.head, self.len)
    }
}

#[tactic(auto, using(bit_slice_views_mut::proofs::FrameLemmas::frames))]
impl<T: BitStore, O: BitOrder<T>> BitsMut for BitVec<T, O> {
    ghost use Rattle.std.specs.Prelude.{ℕ, refl};
    ghost use Rattle.bit_slice_views_mut.specs.Frame.{frame_of};
    ghost use Rattle.bit_slice_views_mut.specs.FrameLaws.{shown_window, shown_fits, first_start};
    ghost use Rattle.bit_containers_vector.specs.Vector.{vec_bits, vec_words, words_held};

    ghost Lender = { ℕ };

    ghost lender = { words_held };

    ghost words = { vec_words };

    ghost place = { λ v. v.head };

    ghost frame = { λ v. frame_of (read_by T.BitRegister O.position) (words_held v) (vec_words v) v.head
        (length (vec_bits (read_by T.BitRegister O.position) v)) };

    fn first_place(&self) -> usize {
        self.head
    }

    fn with_words<A, F: FnOnce(&mut [T]) -> A>(&mut self, _key: MayWriteBeside, f: F) -> A {
        apply::<T, A, F>(self.words.as_mut_slice(), f)
    }

    ghost window = { λ v. shown_window (reading_in T.BITS T.number O.position) v.words.items v.head v.len v.fits };

    ghost fits = { λ v. shown_fits (reading_in T.BITS T.number O.position) v.words.items v.head v.len v.fits };

    ghost framed = { λ v. refl };

    ghost starts = { λ v. first_start T.BITS v.head v.inside };
}
