//! Vectors of bits made of words where these are not too many, and seen as words and as bits one after another.

ghost use Rattle.std.specs.Prelude.{◌≡◌, ◌-◌, ◌*◌, ◌^◌, ◌≤◌, length, min, take, IfErr, IfOk, IsOk, ◌↔◌};
ghost use Rattle.std.specs.Prelude.{vec_capacity};
ghost use Rattle.bit_addressing_memory.specs.Memory.{memory, read_by};
ghost use Rattle.bit_addressing_span.specs.declared.span.TheConstants.{MAX_BITS};
ghost use Rattle.bit_containers_vector.specs.SliceFault.{IsTooLong};
ghost use Rattle.bit_containers_vector.specs.declared.slice_fault.SliceFault.TheVariants.{Memory};
ghost use Rattle.bit_containers_vector.specs.Vector.{vec_bits, vec_head, vec_words, visible, words_held};
ghost use Rattle.bit_containers_vector.specs.Vector.{room, HoldsBlock};

use crate::slice_fault::SliceFault;
use crate::vector::BitVec;
use crate::words::words_taken;
use bit_addressing_memory::{BitOrder, BitRegister, mem};
use bit_addressing_span::{BitSpanError, MAX_BITS};
use bit_slice_iterators::{BitsIter, Iter};
use bit_slice_views::{BitRef, BitStore};
use std::alloc::Global;

impl<T: BitStore, O: BitOrder<T>> BitVec<T, O> {
    /// The visible words: those up to the last bit.
    pub fn as_raw_slice(&self) -> &[T]
        ensures { result.now ≡ visible (read_by T.BitRegister O.position) self.now }
    {
        let count = words_taken::<T>(self.head + self.len);
        words_upto(self.words.as_slice(), count)
    }

    /// All bits of these words, or how many they are where that is too many; the other fault is want of memory.
    ///
    /// Where their number passes `usize::MAX`, the fault has `usize::MAX`.
    pub fn try_from_slice(alloc: Global, words: &[T]) -> Result<BitVec<T, O>, SliceFault>
        ensures bits { IfOk result (λ made. vec_bits (read_by T.BitRegister O.position) made
            ≡ memory (read_by T.BitRegister O.position) words.now) }
        ensures head { IfOk result (λ made. vec_head made ≡ 0) }
        ensures words { IfOk result (λ made. vec_words made ≡ words.now) }
        ensures fits { IsOk result → length words.now * T.BITS ≤ MAX_BITS }
        ensures err { IfErr result (λ fault. length words.now * T.BITS ≤ MAX_BITS ↔ (fault ≡ Memory)) }
        ensures long { IfErr result (IsTooLong (min (length words.now * T.BITS) (2 ^ 64 - 1))) }
    {
        let bits = words.len().saturating_mul(mem::bits_of::<T>());
        if bits > MAX_BITS {
            return Err(SliceFault::Span(BitSpanError::TooLong(bits)));
        }
        match BitVec::from_slice(alloc, words) {
            Ok(made) => Ok(made),
            Err(_) => Err(SliceFault::Memory),
        }
    }
}

/// What `try_from_vec` does.
impl<T: BitStore, O: BitOrder<T>> TryFrom<Vec<T>> for BitVec<T, O> {
    type Error = Vec<T>;

    ghost try_from_gives = { λ words made. (IsOk made ↔ (length words.items * T.BITS ≤ MAX_BITS))
        × IfOk made (λ vector. (vec_bits (read_by T.BitRegister O.position) vector
        ≡ memory (read_by T.BitRegister O.position) words.items)
        × (vec_head vector ≡ 0) × (vec_words vector ≡ words.items)
        × (room (read_by T.BitRegister O.position) vector ≡ vec_capacity words * T.BITS)
        × HoldsBlock words vector)
        × IfErr made (λ back. back ≡ words) };

    fn try_from(words: Vec<T>) -> Result<BitVec<T, O>, Vec<T>> {
        BitVec::try_from_vec(words)
    }
}

/// What `into_vec` does.
impl<T: BitStore, O: BitOrder<T>> From<BitVec<T, O>> for Vec<T> {
    ghost from_gives = { λ vector words. (words.items ≡ visible (read_by T.BitRegister O.position) vector)
        × (vec_capacity words ≡ words_held vector) };

    fn from(vector: BitVec<T, O>) -> Vec<T> {
        vector.into_vec()
    }
}

/// The bits of the vector as `iter` gives them.
impl<'a, T: BitStore + 'a, O: BitOrder<T>> IntoIterator for &'a BitVec<T, O> {
    type Item = BitRef;

    type IntoIter = Iter<'a, T, O>;

    ghost into_iter_gives = { λ vector iter. (iter.bits ≡ vec_bits (read_by T.BitRegister O.position) vector.now)
        × (iter.head ≡ vec_head vector.now) };

    fn into_iter(self) -> Iter<'a, T, O>
        ensures into_iter_gives { (result.bits ≡ vec_bits (read_by T.BitRegister O.position) self.now)
            × (result.head ≡ vec_head self.now) }
    {
        self.iter()
    }
}

// The first words.
fn words_upto<R>(words: &[R], upto: usize) -> &[R]
    requires { upto ≤ length words.now }
    ensures { result.now ≡ take upto words.now }
{
    &words[..upto]
}
