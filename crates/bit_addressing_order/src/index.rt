//! The index of a bit in a word: how many bits an order counts before it.

ghost use Rattle.std.specs.Prelude.{◌≡◌, ℕ, ◌+◌, ◌-◌, ◌<◌, ◌≤◌, ◌^◌, ◌↔◌, pos, ◌+ℤ◌, ◌*ℤ◌};
ghost use Rattle.std.specs.Prelude.{IsTrue, IsOk, MatchResult, FitsSigned};
ghost use Rattle.std.specs.Int.{w64};
ghost use Rattle.std.specs.List.{range_with_len};
ghost use Rattle.bit_addressing_order.specs.BitIdx.{next_index, prev_index, IsOffset};

use crate::end::BitEnd;
use crate::limits::Limits;
use crate::mask::BitMask;
use crate::order::BitOrder;
use crate::position::BitPos;
use crate::ranges::IndexRange;
use crate::register::BitRegister;
use crate::selector::BitSel;
use std::marker::{Model, PhantomData};

/// The index of a bit in a word, from 0 to `BITS - 1`. A contract sees it as that number.
///
/// An order turns an index into a position. Names and behaviour are those of bitvec.
#[derive_where(Clone, Copy, PartialEq, Eq, PartialOrd, Ord, Hash)]
pub struct BitIdx<R: BitRegister> {
    index: u8,
    #[derive_where(skip)]
    register: PhantomData<R>,
}

impl<R: BitRegister> Model for BitIdx<R> {
    ghost Value = { ℕ };

    ghost view = { λ place. place.index };

    ghost invariant = { λ place. place.index < R.BITS };

    ghost inverse = { λ n. record { index = n; register = record {} } };
}

impl<R: BitRegister> Limits for BitIdx<R> {
    ghost MIN = { 0 };

    const MIN: Self = BitIdx {
        index: 0,
        register: PhantomData,
    };

    ghost MAX = { R.BITS - 1 };

    const MAX: Self = BitIdx {
        index: R::BITS - 1,
        register: PhantomData,
    };
}

impl<R: BitRegister> Default for BitIdx<R> {
    ghost is_default = { λ index. index ≡ 0 };

    fn default() -> Self {
        BitIdx::MIN
    }
}

/// A number that is no index of the register. A contract sees it as that number.
#[derive_where(Clone, Copy, PartialEq, Eq, PartialOrd, Ord, Hash)]
pub struct BitIdxError<R: BitRegister> {
    value: u8,
    #[derive_where(skip)]
    register: PhantomData<R>,
}

impl<R: BitRegister> Model for BitIdxError<R> {
    ghost Value = { ℕ };

    ghost view = { λ error. error.value };

    ghost inverse = { λ n. record { value = n; register = record {} } };
}

impl<R: BitRegister> BitIdxError<R> {
    /// The number that was refused.
    pub fn into_inner(self) -> u8
        ensures { result ≡ self }
    {
        self.value
    }
}

// Make.
impl<R: BitRegister> BitIdx<R> {
    /// The index of this number, or an error that has it where it is `BITS` or more.
    pub fn new(index: u8) -> Result<BitIdx<R>, BitIdxError<R>>
        ensures ok { IsOk result ↔ (index < R.BITS) }
        ensures value { MatchResult result (λ made. made ≡ index) (λ error. error ≡ index) }
    {
        if index < R::BITS {
            Ok(BitIdx::new_unchecked(index))
        } else {
            Err(BitIdxError {
                value: index,
                register: PhantomData,
            })
        }
    }

    /// The index of this number, which is below `BITS`: the caller shows it, or calls `new`.
    pub fn new_unchecked(index: u8) -> BitIdx<R>
        requires { index < R.BITS }
        ensures { result ≡ index }
    {
        let register = PhantomData;
        BitIdx { index, register }
    }

    /// The indices from this one up to before `upto`, which is not below it. They come from both
    /// ends.
    pub fn range(self, upto: BitEnd<R>) -> IndexRange<R>
        requires { self ≤ upto }
        ensures { result ≡ range_with_len self (upto - self) }
    {
        IndexRange::new(self.into_inner(), upto.into_inner())
    }

    /// Every index of the register, ascending. They come from both ends.
    pub fn range_all() -> IndexRange<R>
        ensures { result ≡ range_with_len 0 R.BITS }
    {
        IndexRange::new(0, R::BITS)
    }
}

// Read.
impl<R: BitRegister> BitIdx<R> {
    /// The number, which is below `BITS`.
    pub fn into_inner(self) -> u8
        ensures value { result ≡ self }
        ensures within { result < R.BITS }
    {
        self.index
    }

    /// The position that the order `O` gives to this index.
    pub fn position<O: BitOrder<R>>(self) -> BitPos<R>
        ensures value { result ≡ O.position self }
        ensures within { result < R.BITS }
    {
        O::at(self)
    }

    /// The word with the digit of this index alone, under the order `O`.
    pub fn select<O: BitOrder<R>>(self) -> BitSel<R>
        ensures value { R.number result ≡ 2 ^ O.position self }
        ensures within { O.position self < R.BITS }
    {
        O::select(self)
    }

    /// The mask of this index alone, under the order `O`.
    pub fn mask<O: BitOrder<R>>(self) -> BitMask<R>
        ensures value { R.number result ≡ 2 ^ O.position self }
        ensures within { O.position self < R.BITS }
    {
        self.select::<O>().mask()
    }
}

// Move.
impl<R: BitRegister> BitIdx<R> {
    /// The index above, and whether the word's edge was crossed: then it is the first.
    pub fn next(self) -> (BitIdx<R>, bool)
        ensures index { result.0 ≡ next_index R.BITS self }
        ensures crossed { IsTrue result.1 ↔ (self + 1 ≡ R.BITS) }

        // `prev` undoes it, and crosses the edge where it did.
        ensures undone { prev_index R.BITS result.0 ≡ self }
        ensures crossed_back { IsTrue result.1 ↔ (result.0 ≡ 0) }
    {
        let above = self.into_inner() + 1;
        if above == R::BITS {
            (BitIdx::new_unchecked(0), true)
        } else {
            (BitIdx::new_unchecked(above), false)
        }
    }

    /// The index below, and whether the word's edge was crossed: then it is the last.
    pub fn prev(self) -> (BitIdx<R>, bool)
        ensures index { result.0 ≡ prev_index R.BITS self }
        ensures crossed { IsTrue result.1 ↔ (self ≡ 0) }

        // `next` undoes it, and crosses the edge where it did.
        ensures undone { next_index R.BITS result.0 ≡ self }
        ensures crossed_back { IsTrue result.1 ↔ (result.0 + 1 ≡ R.BITS) }
    {
        let index = self.into_inner();
        if index == 0 {
            (BitIdx::new_unchecked(R::BITS - 1), true)
        } else {
            (BitIdx::new_unchecked(index - 1), false)
        }
    }

    /// How many words on the bit lies that is `by` bits above this one (below, where `by` is
    /// negative), and its index there. The number of words is rounded down; nothing wraps, whatever
    /// `by` is. In bitvec this call is private.
    pub fn offset(self, by: isize) -> (isize, BitIdx<R>)
        ensures { IsOffset R.BITS self by result.0 result.1 }
    {
        let (words, rest) = words_and_rest::<R>(by);
        let index = rest + self.into_inner();
        if index < R::BITS {
            (words, BitIdx::new_unchecked(index))
        } else {
            (words + 1, BitIdx::new_unchecked(index - R::BITS))
        }
    }
}

// So many bits as words, rounded down, and the rest. There is room for one word more.
fn words_and_rest<R: BitRegister>(bits: isize) -> (isize, u8)
    ensures place { (result.0 *ℤ pos R.BITS) +ℤ pos result.1 ≡ bits }
    ensures within { result.1 < R.BITS }
    ensures room { FitsSigned w64 (result.0 +ℤ pos 1) }
{
    let size = R::BITS as isize;
    (bits.div_euclid(size), bits.rem_euclid(size) as u8)
}
