//! A word with one bit set.

ghost use Rattle.std.specs.Prelude.{◌≡◌, ◌==◌, ℕ, ◌^◌, ◌<◌, ◌↔◌, IsSome, IfSome, map};
ghost use Rattle.std.specs.List.{range_with_len};
ghost use Rattle.bit_addressing_order.specs.BitOrder.{IsSelector};

use crate::mask::BitMask;
use crate::position::BitPos;
use crate::ranges::SelectorRange;
use crate::register::BitRegister;
use std::alloc::AllocError;
use std::marker::Model;

/// A word with exactly one bit set. A contract sees it as that word.
#[derive_where(Copy)]
pub struct BitSel<R: BitRegister> {
    word: R,
}

impl<R: BitRegister> Model for BitSel<R> {
    ghost use Rattle.bit_addressing_order.specs.BitOrder.{IsSelector};

    ghost Value = { R };

    ghost view = { λ selector. selector.word };

    ghost invariant = { λ selector. IsSelector R.BITS (R.number selector.word) };

    ghost inverse = { λ word. record { word = word } };
}

impl<R: BitRegister> Clone for BitSel<R> {
    ghost use Rattle.std.specs.Prelude.{◌≡◌, ⊤};

    ghost is_clone = { λ selector copy. copy ≡ selector };

    ghost is_infallible = { λ _. ⊤ };

    fn clone(&self) -> Result<BitSel<R>, AllocError> {
        Ok(*self)
    }
}

impl<R: BitRegister> BitSel<R> {
    /// The selector that is this word, or `None` where not exactly one bit is set.
    #[tactic(auto, using(crate::proofs::SelectorLemmas::one_bit_is_selector))]
    pub fn new(word: R) -> Option<BitSel<R>>
        ensures some { IsSome result ↔ IsSelector R.BITS (R.number word) }
        ensures value { IfSome result (λ made. made ≡ word) }
    {
        if word.value().is_power_of_two() {
            Some(BitSel::new_unchecked(word))
        } else {
            None
        }
    }

    /// The selector that is this word, which has exactly one bit set: the caller shows it, or calls
    /// `new`.
    pub fn new_unchecked(word: R) -> BitSel<R>
        requires { IsSelector R.BITS (R.number word) }
        ensures { result ≡ word }
    {
        BitSel { word }
    }

    /// The word, which has exactly one bit set.
    pub fn into_inner(self) -> R
        ensures value { result ≡ self }
        ensures one { IsSelector R.BITS (R.number result) }
    {
        self.word
    }

    /// The mask with this bit alone.
    pub fn mask(self) -> BitMask<R>
        ensures { result ≡ self }
    {
        BitMask::new(self.into_inner())
    }

    /// The selectors of every position, ascending. They come from both ends.
    pub fn range_all() -> SelectorRange<R>
        ensures { result ≡ map (λ position. 2 ^ position) (range_with_len 0 R.BITS) }
    {
        SelectorRange::new()
    }
}
