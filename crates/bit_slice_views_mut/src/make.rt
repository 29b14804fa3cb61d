//! Windows made in other ways: of one word, of no bits, of words that may be too many.

ghost use Rattle.std.specs.Prelude.{◌≡◌, ◌-◌, ◌*◌, ◌≤◌, ◌↔◌, ◌^◌, [], ◌∷◌, length, min, IsOk, IfOk, IfErr};
ghost use Rattle.std.specs.Prelude.{slice_index_or};
ghost use Rattle.std.specs.Borrow.{Array, follows, sem};
ghost use Rattle.bit_addressing_memory.specs.Memory.{read_by};
ghost use Rattle.bit_slice_views.specs.SpanLimits.{MAX_BITS};
ghost use Rattle.bit_slice_views.specs.SpanFaults.{TooLong};
ghost use Rattle.bit_slice_views_mut.specs.ViewMut.{lent_words, lent_lender, lent_place, lent_bits};

use crate::view_mut::BitSliceMut;
use bit_addressing_memory::{BitOrder, BitRegister};
use bit_slice_views::{BitSpanError, BitStore};

impl<'a, T: BitStore, O: BitOrder<T>> BitSliceMut<'a, T, O> {
    /// The bits of one word, which ends as the window leaves it.
    pub fn from_element_mut(word: &'a mut T) -> BitSliceMut<'a, T, O>
        ensures words { lent_words result ≡ word.old ∷ [] }
        ensures place { lent_place result ≡ 0 }
        ensures len { length (lent_bits (read_by T.BitRegister O.position) result) ≡ T.BITS }
        ensures* lends { sem 𝓛 (follows T.row (Array T.row 0) word.entry.ghost_name (lent_lender result)
            (λ words. slice_index_or words 0 word.old)) }
    {
        let words = std::slice::from_mut(word);
        BitSliceMut::from_slice_mut(words)
    }
}

/// The bits of one word: another name of `BitSliceMut::from_element_mut`.
pub fn from_mut<'a, T: BitStore, O: BitOrder<T>>(word: &'a mut T) -> BitSliceMut<'a, T, O>
    ensures words { lent_words result ≡ word.old ∷ [] }
    ensures place { lent_place result ≡ 0 }
    ensures len { length (lent_bits (read_by T.BitRegister O.position) result) ≡ T.BITS }
    ensures* lends { sem 𝓛 (follows T.row (Array T.row 0) word.entry.ghost_name (lent_lender result)
        (λ words. slice_index_or words 0 word.old)) }
{
    BitSliceMut::from_element_mut(word)
}

impl<'a, T: BitRegister, O: BitOrder<T>> TryFrom<&'a mut [T]> for BitSliceMut<'a, T, O> {
    type Error = BitSpanError;

    ghost try_from_gives = { λ words made. (IsOk made ↔ (length words.now * T.BITS ≤ MAX_BITS))
        × IfOk made (λ view. lent_lender view ≡ words.ghost_name)
        × IfOk made (λ view. lent_words view ≡ words.now)
        × IfOk made (λ view. lent_place view ≡ 0)
        × IfOk made (λ view. length (lent_bits (read_by T.BitRegister O.position) view) ≡ length words.now * T.BITS)
        × IfErr made (λ error. error ≡ TooLong (min (length words.now * T.BITS) (2 ^ 64 - 1))) };

    fn try_from(words: &'a mut [T]) -> Result<BitSliceMut<'a, T, O>, BitSpanError> {
        BitSliceMut::try_from_slice_mut(words)
    }
}

/// No bits.
impl<'a, T: BitRegister, O: BitOrder<T>> Default for BitSliceMut<'a, T, O> {
    ghost is_default = { λ view. (lent_bits (read_by T.BitRegister O.position) view ≡ [])
        × (lent_words view ≡ []) × (lent_place view ≡ 0) };

    fn default() -> Self {
        BitSliceMut::empty_mut()
    }
}
