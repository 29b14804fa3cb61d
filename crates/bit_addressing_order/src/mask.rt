//! Sets of positions of a word.

ghost use Rattle.std.specs.Prelude.{◌≡◌, ℕ, ◌-◌, ◌^◌, ◌↔◌, bit_and, bit_or, map, IsTrue};
ghost use Rattle.std.specs.Int.{bit_at};
ghost use Rattle.std.specs.Iterator.{IsFinite, Drains};
ghost use Rattle.bit_addressing_order.specs.BitOrder.{IsOneBit};
ghost use Rattle.bit_addressing_order.specs.BitMask.{IsUnionOf};

use crate::limits::AllOrNone;
use crate::register::BitRegister;
use crate::selector::BitSel;
use std::alloc::AllocError;
use std::marker::Model;
use std::ops::{BitAnd, BitOr, Not};

/// Any set of positions of a word: a position is in it where its bit is set. A contract sees it as
/// that word.
#[derive_where(Copy)]
pub struct BitMask<R: BitRegister> {
    word: R,
}

impl<R: BitRegister> Model for BitMask<R> {
    ghost Value = { R };

    ghost view = { λ mask. mask.word };

    ghost inverse = { λ word. record { word = word } };
}

impl<R: BitRegister> AllOrNone for BitMask<R> {
    ghost ALL = { R.ALL };

    const ALL: Self = BitMask { word: R::ALL };

    ghost ZERO = { R.ZERO };

    const ZERO: Self = BitMask { word: R::ZERO };
}

impl<R: BitRegister> Clone for BitMask<R> {
    ghost use Rattle.std.specs.Prelude.{◌≡◌, ⊤};

    ghost is_clone = { λ mask copy. copy ≡ mask };

    ghost is_infallible = { λ _. ⊤ };

    fn clone(&self) -> Result<BitMask<R>, AllocError> {
        Ok(*self)
    }
}

impl<R: BitRegister> Default for BitMask<R> {
    ghost is_default = { λ mask. mask ≡ R.ZERO };

    fn default() -> Self {
        BitMask::ZERO
    }
}

// Make.
impl<R: BitRegister> BitMask<R> {
    /// The mask that is this word.
    pub fn new(word: R) -> BitMask<R>
        ensures { result ≡ word }
    {
        BitMask { word }
    }

    /// The union of the selectors that the iterator gives: a selector that comes again counts once.
    /// The iterator ends. In bitvec this is `Sum`.
    #[tactic(auto, using(crate::proofs::MaskLemmas::unions))]
    pub fn sum<I: Iterator<Item = BitSel<R>> + Drop>(selectors: I) -> BitMask<R>
        requires can { I.can_next selectors }
        requires ends { IsFinite (I.remaining selectors) }
        ensures { (items : _) × Drains I.next_gives selectors items
            × IsUnionOf (R.number result) (map R.number items) }
    {
        let mut sum = R::ZERO;
        for selector in selectors {
            sum = sum.or(selector.into_inner());
        }
        BitMask::new(sum)
    }
}

// Read.
impl<R: BitRegister> BitMask<R> {
    /// The word.
    pub fn into_inner(self) -> R
        ensures { result ≡ self }
    {
        self.word
    }

    /// Whether the selector's position is in the mask.
    #[tactic(auto, using(crate::proofs::DigitLemmas::test_of_one))]
    pub fn test(&self, selector: BitSel<R>) -> bool
        ensures { (p : ℕ) → IsOneBit (R.number selector) p
            → IsTrue result ↔ (bit_at (R.number self.now) p ≡ 1) }
    {
        let selected = self.into_inner().and(selector.into_inner());
        !selected.equals(R::ZERO)
    }
}

// Change.
impl<R: BitRegister> BitMask<R> {
    /// Puts the selector's position into the mask.
    pub fn insert(&mut self, selector: BitSel<R>)
        ensures { R.number self.new ≡ bit_or (R.number self.old) (R.number selector) }
    {
        *self = self.combine(selector);
    }

    /// The mask with the selector's position put in.
    pub fn combine(self, selector: BitSel<R>) -> BitMask<R>
        ensures { R.number result ≡ bit_or (R.number self) (R.number selector) }
    {
        BitMask::new(self.into_inner().or(selector.into_inner()))
    }
}

/// The positions that are not in the mask.
impl<R: BitRegister> Not for BitMask<R> {
    type Output = BitMask<R>;

    ghost not_gives = { λ mask result. R.number result ≡ 2 ^ R.BITS - 1 - R.number mask };

    fn not(self) -> BitMask<R> {
        BitMask::new(self.into_inner().not())
    }
}

/// The positions of the mask whose digit is 1 in a word.
impl<R: BitRegister> BitAnd<R> for BitMask<R> {
    type Output = BitMask<R>;

    ghost bitand_gives = { λ mask word result.
        R.number result ≡ bit_and (R.number mask) (R.number word) };

    fn bitand(self, word: R) -> BitMask<R> {
        BitMask::new(self.into_inner().and(word))
    }
}

/// The positions of the mask, and those whose digit is 1 in a word.
impl<R: BitRegister> BitOr<R> for BitMask<R> {
    type Output = BitMask<R>;

    ghost bitor_gives = { λ mask word result.
        R.number result ≡ bit_or (R.number mask) (R.number word) };

    fn bitor(self, word: R) -> BitMask<R> {
        BitMask::new(self.into_inner().or(word))
    }
}
