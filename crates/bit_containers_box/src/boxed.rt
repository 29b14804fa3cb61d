//! Bits in words of their own.

ghost use Rattle.std.specs.Prelude.{◌≡◌, ◌+◌, ◌*◌, ◌<◌, ◌≤◌, length};
ghost use Rattle.std.specs.Fn.{FnOnceReturnsAtMut};
ghost use Rattle.bit_addressing_memory.specs.Memory.{read_by, reading_in};
ghost use Rattle.bit_slice_views.specs.SpanLimits.{MAX_BITS};

use bit_addressing_memory::{BitOrder, BitRegister};
use bit_slice_views::{BitSlice, BitStore, Bits};
use bit_slice_views_mut::{BitsMut, MayWriteBeside, apply};
use std::marker::PhantomData;

/// Bits in words of their own: a list that does not grow.
///
/// The first bit may lie inside the first word, at the index `head`. The visible words are those up to the last bit;
/// their bits beside the list are dead bits. A box is made with visible words alone; `force_align` may leave one behind
/// them, which it goes on to hold.
#[derive(Drop)]
pub struct BitBox<T: BitStore, O> {
    pub(crate) words: Vec<T>,
    pub(crate) head: usize,
    pub(crate) len: usize,
    pub(crate) order: PhantomData<O>,

    ghost inside: { head < T.BITS },
    ghost short: { len ≤ MAX_BITS },
    ghost fits: { head + len ≤ length words.items * T.BITS },
}

#[tactic(auto, using(bit_slice_views::proofs::ViewLemmas::views))]
impl<T: BitStore, O: BitOrder<T>> Bits for BitBox<T, O> {
    ghost use Rattle.bit_containers_box.specs.Box.{box_bits, box_head};

    type Store = T;

    type Order = O;

    ghost bits = { box_bits (read_by T.BitRegister O.position) };

    ghost start = { box_head };

    fn as_bitslice(&self) -> BitSlice<'_, T, O> {
        BitSlice::<T, O>::from_place(self.words.as_slice(), self.head, self.len)
    }
}

#[tactic(auto, using(bit_slice_views_mut::proofs::FrameLemmas::frames))]
impl<T: BitStore, O: BitOrder<T>> BitsMut for BitBox<T, O> {
    ghost use Rattle.std.specs.Prelude.{refl};
    ghost use Rattle.bit_slice_views_mut.specs.FrameLaws.{shown_window, shown_fits, first_start};
    ghost use Rattle.bit_containers_box.specs.Box.{box_bits, box_frame, box_head, box_words};

    ghost Lender = { Unit {0} };

    ghost lender = { λ _. tt };

    ghost words = { box_words };

    ghost place = { box_head };

    ghost frame = { box_frame (read_by T.BitRegister O.position) };

    fn first_place(&self) -> usize {
        self.head
    }

    fn with_words<A, F: FnOnce(&mut [T]) -> A>(&mut self, _key: MayWriteBeside, f: F) -> A {
        apply::<T, A, F>(self.words.as_mut_slice(), f)
    }

    ghost window = { λ b. shown_window (reading_in T.BITS T.number O.position) b.words.items b.head b.len b.fits };

    ghost fits = { λ b. shown_fits (reading_in T.BITS T.number O.position) b.words.items b.head b.len b.fits };

    ghost framed = { λ _. refl };

    ghost starts = { λ b. first_start T.BITS b.head b.inside };
}
