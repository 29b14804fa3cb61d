//! Windows made: of no bits, of one word, of a slice of words.

ghost use Rattle.std.specs.Prelude.{◌≡◌, ◌+◌, ◌-◌, ◌*◌, ◌/◌, ◌^◌, ◌≤◌, ◌↔◌, ℕ, length, min, [], ◌∷◌, IsOk, IfOk, IfErr};
ghost use Rattle.bit_addressing_memory.specs.Memory.{digits, memory, read_by};
ghost use Rattle.bit_addressing_span.specs.declared.span.TheConstants.{MAX_BITS};
ghost use Rattle.bit_addressing_span.specs.declared.span_error.BitSpanError.TheVariants.{TooLong};
ghost use Rattle.bit_slice_views.specs.View.{view_bits, view_words, view_head};

use crate::store::BitStore;
use crate::view::BitSlice;
use bit_addressing_memory::{BitOrder, BitRegister};
use bit_addressing_span::{BitSpanError, MAX_BITS};

/// How long a window can be, at these words. A contract knows these constants.
pub trait ViewLimits: BitRegister {
    ghost MAX_BITS: { ℕ };

    /// The greatest number of bits.
    const MAX_BITS: usize;

    ghost MAX_ELTS: { ℕ };

    /// The greatest number of words that hold one of them.
    const MAX_ELTS: usize;
}

impl<T: BitRegister> ViewLimits for T {
    ghost MAX_BITS = { MAX_BITS };

    const MAX_BITS: usize = MAX_BITS;

    ghost MAX_ELTS = { (MAX_BITS + (T.BITS - 1)) / T.BITS + 1 };

    const MAX_ELTS: usize = (MAX_BITS + (T::BITS as usize - 1)) / T::BITS as usize + 1;
}

/// How long a window can be. A contract knows the same numbers as constants of `ViewLimits`.
impl<'a, T: BitRegister, O> BitSlice<'a, T, O> {
    /// The greatest number of bits.
    pub const MAX_BITS: usize = MAX_BITS;

    /// The greatest number of words that hold one of them.
    pub const MAX_ELTS: usize = <T as ViewLimits>::MAX_ELTS;
}

#[tactic(auto, using(crate::proofs::ViewLemmas::views))]
impl<'a, T: BitRegister, O: BitOrder<T>> BitSlice<'a, T, O> {
    /// No bits.
    pub fn empty() -> BitSlice<'a, T, O>
        ensures bits { view_bits (read_by T.BitRegister O.position) result ≡ [] }
        ensures words { view_words result ≡ [] }
        ensures head { view_head result ≡ 0 }
    {
        BitSlice::from_slice(&[])
    }

    /// What `from_slice` does.
    pub fn from_slice_unchecked(words: &'a [T]) -> BitSlice<'a, T, O>
        requires { length words.now * T.BITS ≤ MAX_BITS }
        ensures bits { view_bits (read_by T.BitRegister O.position) result
            ≡ memory (read_by T.BitRegister O.position) words.now }
        ensures len { length (view_bits (read_by T.BitRegister O.position) result) ≡ length words.now * T.BITS }
        ensures words { view_words result ≡ words.now }
        ensures head { view_head result ≡ 0 }
    {
        BitSlice::from_slice(words)
    }

    /// All bits of these words, or how many they are where that is too many.
    ///
    /// Where their number passes `usize::MAX`, the error has `usize::MAX`.
    pub fn try_from_slice(words: &'a [T]) -> Result<BitSlice<'a, T, O>, BitSpanError>
        ensures variant { IsOk result ↔ (length words.now * T.BITS ≤ MAX_BITS) }
        ensures bits { IfOk result (λ view. view_bits (read_by T.BitRegister O.position) view
            ≡ memory (read_by T.BitRegister O.position) words.now) }
        ensures len { IfOk result (λ view. length (view_bits (read_by T.BitRegister O.position) view)
            ≡ length words.now * T.BITS) }
        ensures words { IfOk result (λ view. view_words view ≡ words.now) }
        ensures head { IfOk result (λ view. view_head view ≡ 0) }
        ensures err { IfErr result (λ error. error ≡ TooLong (min (length words.now * T.BITS) (2 ^ 64 - 1))) }
    {
        let bits = words.len().saturating_mul(T::BITS as usize);
        if bits > MAX_BITS {
            return Err(BitSpanError::TooLong(bits));
        }
        Ok(BitSlice::from_slice(words))
    }
}

impl<'a, T: BitRegister, O: BitOrder<T>> TryFrom<&'a [T]> for BitSlice<'a, T, O> {
    type Error = BitSpanError;

    ghost try_from_gives = { λ words made. (IsOk made ↔ (length words.now * T.BITS ≤ MAX_BITS))
        × IfOk made (λ view. view_bits (read_by T.BitRegister O.position) view
        ≡ memory (read_by T.BitRegister O.position) words.now)
        × IfErr made (λ error. error ≡ TooLong (min (length words.now * T.BITS) (2 ^ 64 - 1)))
        × IfOk made (λ view. view_words view ≡ words.now)
        × IfOk made (λ view. view_head view ≡ 0) };

    fn try_from(words: &'a [T]) -> Result<BitSlice<'a, T, O>, BitSpanError> {
        BitSlice::try_from_slice(words)
    }
}

/// No bits.
impl<'a, T: BitRegister, O: BitOrder<T>> Default for BitSlice<'a, T, O> {
    ghost is_default = { λ view. (view_bits (read_by T.BitRegister O.position) view ≡ [])
        × (view_words view ≡ []) × (view_head view ≡ 0) };

    fn default() -> Self {
        BitSlice::empty()
    }
}

#[tactic(auto, using(crate::proofs::ViewLemmas::views))]
impl<'a, T: BitStore, O: BitOrder<T>> BitSlice<'a, T, O> {
    /// The bits of one word.
    pub fn from_element(word: &'a T) -> BitSlice<'a, T, O>
        ensures bits { view_bits (read_by T.BitRegister O.position) result
            ≡ digits (read_by T.BitRegister O.position) word.now }
        ensures words { view_words result ≡ word.now ∷ [] }
        ensures head { view_head result ≡ 0 }
    {
        BitSlice::from_slice(std::slice::from_ref(word))
    }
}

/// The bits of one word: another name of `BitSlice::from_element`.
pub fn from_ref<'a, T: BitStore, O: BitOrder<T>>(word: &'a T) -> BitSlice<'a, T, O>
    ensures bits { view_bits (read_by T.BitRegister O.position) result
        ≡ digits (read_by T.BitRegister O.position) word.now }
    ensures words { view_words result ≡ word.now ∷ [] }
    ensures head { view_head result ≡ 0 }
{
    BitSlice::from_element(word)
}
