//! A window of words, to write.

ghost use Rattle.std.specs.Prelude.{◌≡◌, ◌+◌, ◌-◌, ◌*◌, ◌%◌, ◌^◌, ◌<◌, ◌≤◌, ◌↔◌, [], length, min, IsOk, IfOk, IfErr};
ghost use Rattle.std.specs.Fn.{FnOnceReturnsAtMut};
ghost use Rattle.bit_addressing_memory.specs.Memory.{memory, piece, read_by, reading_in};
ghost use Rattle.bit_slice_views.specs.SpanLimits.{MAX_BITS};
ghost use Rattle.bit_slice_views.specs.SpanFaults.{TooLong};

use crate::beside::MayWriteBeside;
use crate::bits_mut::BitsMut;
use crate::bits_window::{BitsShown, BitsWindow};
use bit_addressing_memory::{BitIdx, BitOrder, BitRegister, mem};
use bit_slice_views::{BitSlice, BitSpanError, Bits, MAX_BITS};
use std::marker::PhantomData;

/// A writable window of a slice of words.
#[derive(Drop)]
pub struct BitSliceMut<'a, T: BitRegister, O> {
    pub(crate) words: &'a mut [T],
    pub(crate) head: usize,
    pub(crate) len: usize,
    order: PhantomData<O>,

    ghost short: { len ≤ MAX_BITS },
    ghost small: { head + len < 2 ^ 63 },
    ghost fits: { head + len ≤ length words.now * T.BITS },
}

#[tactic(auto, using(bit_slice_views::proofs::ViewLemmas::views))]
impl<'a, T: BitRegister, O: BitOrder<T>> BitSliceMut<'a, T, O> {
    ghost use Rattle.bit_slice_views_mut.specs.ViewMut.{lent_words, lent_lender, lent_place, lent_bits};

    // ---- make

    /// All bits of these words.
    pub fn from_slice_mut(words: &'a mut [T]) -> BitSliceMut<'a, T, O>
        requires { length words.old * T.BITS ≤ MAX_BITS }
        ensures lender { lent_lender result ≡ words.entry.ghost_name }
        ensures words { lent_words result ≡ words.old }
        ensures place { lent_place result ≡ 0 }
        ensures len { length (lent_bits (read_by T.BitRegister O.position) result) ≡ length words.old * T.BITS }
    {
        let len = words.len() * T::BITS as usize;
        BitSliceMut::from_place_mut(words, 0, len)
    }

    /// What `from_slice_mut` does.
    pub fn from_slice_unchecked_mut(words: &'a mut [T]) -> BitSliceMut<'a, T, O>
        requires { length words.old * T.BITS ≤ MAX_BITS }
        ensures lender { lent_lender result ≡ words.entry.ghost_name }
        ensures words { lent_words result ≡ words.old }
        ensures place { lent_place result ≡ 0 }
        ensures len { length (lent_bits (read_by T.BitRegister O.position) result) ≡ length words.old * T.BITS }
    {
        BitSliceMut::from_slice_mut(words)
    }

    /// `len` bits of these words, from a place on, which may lie in any of them.
    pub fn from_place_mut(words: &'a mut [T], place: usize, len: usize) -> BitSliceMut<'a, T, O>
        requires short { len ≤ MAX_BITS }
        requires ends { place + len < 2 ^ 63 }
        requires fits { place + len ≤ length words.old * T.BITS }
        ensures lender { lent_lender result ≡ words.entry.ghost_name }
        ensures words { lent_words result ≡ words.old }
        ensures place { lent_place result ≡ place }
        ensures len { length (lent_bits (read_by T.BitRegister O.position) result) ≡ len }
    {
        BitSliceMut {
            words,
            head: place,
            len,
            order: PhantomData,
        }
    }

    /// No bits.
    pub fn empty_mut() -> BitSliceMut<'a, T, O>
        ensures bits { lent_bits (read_by T.BitRegister O.position) result ≡ [] }
        ensures words { lent_words result ≡ [] }
        ensures place { lent_place result ≡ 0 }
    {
        BitSliceMut::from_slice_mut(&mut [])
    }

    /// All bits of these words, or how many they are where that is too many.
    ///
    /// Where their number passes `usize::MAX`, the error has `usize::MAX`.
    pub fn try_from_slice_mut(words: &'a mut [T]) -> Result<BitSliceMut<'a, T, O>, BitSpanError>
        ensures variant { IsOk result ↔ (length words.old * T.BITS ≤ MAX_BITS) }
        ensures lender { IfOk result (λ view. lent_lender view ≡ words.entry.ghost_name) }
        ensures words { IfOk result (λ view. lent_words view ≡ words.old) }
        ensures place { IfOk result (λ view. lent_place view ≡ 0) }
        ensures len { IfOk result (λ view. length (lent_bits (read_by T.BitRegister O.position) view)
            ≡ length words.old * T.BITS) }
        ensures err { IfErr result (λ error. error ≡ TooLong (min (length words.old * T.BITS) (2 ^ 64 - 1))) }
    {
        let bits = words.len().saturating_mul(T::BITS as usize);
        if bits > MAX_BITS {
            return Err(BitSpanError::TooLong(bits));
        }
        Ok(BitSliceMut::from_slice_mut(words))
    }

    // ---- size

    /// The index of the first bit in the word where it lies.
    pub fn head(&self) -> BitIdx<T>
        ensures { result ≡ lent_place self.now % T.BITS }
    {
        BitIdx::new_unchecked((self.head % mem::bits_of::<T>()) as u8)
    }
}

#[tactic(auto, using(bit_slice_views::proofs::ViewLemmas::views))]
impl<T: BitRegister, O: BitOrder<T>> Bits for BitSliceMut<'_, T, O> {
    ghost use Rattle.std.specs.Prelude.{◌%◌};
    ghost use Rattle.bit_slice_views_mut.specs.ViewMut.{lent_bits, lent_place};

    type Store = T;

    type Order = O;

    ghost bits = { lent_bits (read_by T.BitRegister O.position) };

    ghost start = { λ v. lent_place v % T.BITS };

    fn as_bitslice(&self) -> BitSlice<'_, T, O> {
        BitSlice::<T, O>::from_place(&*self.words, self.head, self.len)
    }
}

#[tactic(auto, using(crate::proofs::FrameLemmas::frames))]
impl<T: BitRegister, O: BitOrder<T>> BitsMut for BitSliceMut<'_, T, O> {
    ghost use Rattle.std.specs.Borrow.{GName};
    ghost use Rattle.std.specs.Prelude.{refl};
    ghost use Rattle.bit_slice_views_mut.specs.ViewMut.{lent_frame, lent_words};
    ghost use Rattle.bit_slice_views_mut.specs.FrameLaws.{shown_window, shown_fits};

    ghost Lender = { GName };

    ghost lender = { λ v. v.words.ghost_name };

    ghost words = { lent_words };

    ghost place = { λ v. v.head };

    ghost frame = { lent_frame (read_by T.BitRegister O.position) };

    fn first_place(&self) -> usize {
        self.head
    }

    fn with_words<A, F: FnOnce(&mut [T]) -> A>(&mut self, _key: MayWriteBeside, f: F) -> A {
        apply::<T, A, F>(self.words, f)
    }

    ghost window = { λ v. shown_window (reading_in T.BITS T.number O.position) v.words.now v.head v.len v.fits };

    ghost fits = { λ v. shown_fits (reading_in T.BITS T.number O.position) v.words.now v.head v.len v.fits };

    ghost framed = { λ v. refl };

    ghost starts = { λ v. refl };
}

#[tactic(auto, using(crate::proofs::FrameLemmas::frames))]
impl<T: BitRegister, O: BitOrder<T>> BitsShown for BitSliceMut<'_, T, O> {
    fn show(&mut self, _key: MayWriteBeside, from: usize, count: usize) {
        self.head = from;
        self.len = count;
    }
}

impl<T: BitRegister, O: BitOrder<T>> BitsWindow for BitSliceMut<'_, T, O> {}

/// A function's work on words, which keeps how many there are.
#[inline(always)]
pub fn apply<T: BitRegister, A, F: FnOnce(&mut [T]) -> A>(words: &mut [T], f: F) -> A
    requires callable { (w : _) → w.now ≡ words.old → F.pre f w }
    requires keeps { (w : _) (r : A) (a : _) → FnOnceReturnsAtMut F.FnOnce f w r a → length a ≡ length w }
    ensures ran { FnOnceReturnsAtMut F.FnOnce f words.old result words.new }
    ensures count { length words.new ≡ length words.old }
{
    f(words)
}
