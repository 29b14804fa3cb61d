//! The position of a bit in a word, which is its weight.

ghost use Rattle.std.specs.Prelude.{◌≡◌, ℕ, ◌-◌, ◌^◌, ◌<◌, ◌↔◌, IsSome, IfSome};

use crate::limits::Limits;
use crate::mask::BitMask;
use crate::register::BitRegister;
use crate::selector::BitSel;
use std::marker::{Model, PhantomData};

/// The position of a bit in a word, from 0 to `BITS - 1`: the bit weighs two to that power. A
/// contract sees it as that number.
#[derive_where(Clone, Copy, PartialEq, Eq, PartialOrd, Ord, Hash)]
pub struct BitPos<R: BitRegister> {
    position: u8,
    #[derive_where(skip)]
    register: PhantomData<R>,
}

impl<R: BitRegister> Model for BitPos<R> {
    ghost Value = { ℕ };

    ghost view = { λ place. place.position };

    ghost invariant = { λ place. place.position < R.BITS };

    ghost inverse = { λ n. record { position = n; register = record {} } };
}

impl<R: BitRegister> Limits for BitPos<R> {
    ghost MIN = { 0 };

    const MIN: Self = BitPos {
        position: 0,
        register: PhantomData,
    };

    ghost MAX = { R.BITS - 1 };

    const MAX: Self = BitPos {
        position: R::BITS - 1,
        register: PhantomData,
    };
}

impl<R: BitRegister> Default for BitPos<R> {
    ghost is_default = { λ position. position ≡ 0 };

    fn default() -> Self {
        BitPos::MIN
    }
}

impl<R: BitRegister> BitPos<R> {
    /// The position of this number, or `None` where it is `BITS` or more.
    pub fn new(position: u8) -> Option<BitPos<R>>
        ensures some { IsSome result ↔ (position < R.BITS) }
        ensures value { IfSome result (λ made. made ≡ position) }
    {
        if position < R::BITS {
            Some(BitPos::new_unchecked(position))
        } else {
            None
        }
    }

    /// The position of this number, which is below `BITS`: the caller shows it, or calls `new`.
    pub fn new_unchecked(position: u8) -> BitPos<R>
        requires { position < R.BITS }
        ensures { result ≡ position }
    {
        let register = PhantomData;
        BitPos { position, register }
    }

    /// The number, which is below `BITS`.
    pub fn into_inner(self) -> u8
        ensures value { result ≡ self }
        ensures within { result < R.BITS }
    {
        self.position
    }

    /// The word with the digit at this position alone.
    #[tactic(auto, using(crate::proofs::DigitLemmas::one_shl, crate::proofs::DigitLemmas::IsSelector_pow))]
    pub fn select(self) -> BitSel<R>
        ensures { R.number result ≡ 2 ^ self }
    {
        BitSel::new_unchecked(R::ONE.shl(self.into_inner()))
    }

    /// The mask of this position alone.
    pub fn mask(self) -> BitMask<R>
        ensures { R.number result ≡ 2 ^ self }
    {
        self.select().mask()
    }
}
