//! The orders in which the bits of a word are counted.

ghost use Rattle.std.specs.Prelude.{◌≡◌, ℕ, Option, ◌+◌, ◌-◌, ◌^◌, ◌<◌, ◌≤◌, bit_and};
ghost use Rattle.bit_addressing_order.specs.BitOrder.{lower, upper, mask_from, selectors_from, masks_from};
ghost use Rattle.bit_addressing_order.specs.BitOrder.{IsLawful, IsSelector, IsIndexBound};

use crate::end::BitEnd;
use crate::index::BitIdx;
use crate::mask::BitMask;
use crate::position::BitPos;
use crate::register::BitRegister;
use crate::selector::BitSel;

/// The position of each index, with no law: the part of an order that `select_from_at` and
/// `mask_from_at` work from.
///
/// An order writes `position_of`, over plain numbers; its users call `at`. It is a unit struct, and
/// copied as one.
pub trait Positions<R: BitRegister>: Copy {
    ghost position: { ℕ → ℕ };

    /// The position of the index, both as plain numbers below `BITS`.
    fn position_of(index: u8) -> u8
        requires { index < R.BITS }
        ensures value { result ≡ position index }
        ensures within { result < R.BITS };

    /// The position of the index.
    final fn at(index: BitIdx<R>) -> BitPos<R>
        ensures { result ≡ position index }
    {
        BitPos::new_unchecked(Self::position_of(index.into_inner()))
    }
}

/// What may be an order: positions, selectors and masks, each a function of its arguments alone,
/// with no law.
///
/// A candidate writes `selector_of` and `mask_of`, over plain numbers and words, perhaps by
/// `select_from_at` and `mask_from_at`; its users call `select` and `mask`. Whether it is lawful is
/// what `verify_for_type` answers.
pub trait OrderCandidate<R: BitRegister>: Positions<R> {
    ghost selector: { ℕ → ℕ };

    ghost masked: { Option ℕ → Option ℕ → ℕ };

    /// The word with one digit set that selects the index, which is below `BITS`.
    fn selector_of(index: u8) -> R
        requires { index < R.BITS }
        ensures value { R.number result ≡ selector index }
        ensures one { IsSelector R.BITS (R.number result) };

    /// The mask of the indices from one bound, an index, up to before another. An absent bound is
    /// 0, or `BITS`.
    fn mask_of(from: Option<u8>, upto: Option<u8>) -> R
        requires from { IsIndexBound R.BITS from }
        requires order { lower from ≤ upper R.BITS upto }
        requires within { upper R.BITS upto ≤ R.BITS }
        ensures { R.number result ≡ masked from upto };

    /// The word with one digit set that selects the index.
    final fn select(index: BitIdx<R>) -> BitSel<R>
        ensures { R.number result ≡ selector index }
    {
        BitSel::new_unchecked(Self::selector_of(index.into_inner()))
    }

    /// The mask of the indices from `from` up to before `upto`, which is not below it. An absent
    /// bound is the least index, or the greatest end.
    final fn mask(from: Option<BitIdx<R>>, upto: Option<BitEnd<R>>) -> BitMask<R>
        requires { lower from ≤ upper R.BITS upto }
        ensures value { R.number result ≡ masked from upto }

        // What the types of the bounds say: the premises of the law on masks.
        ensures from { IsIndexBound R.BITS from }
        ensures upto { upper R.BITS upto ≤ R.BITS }
    {
        let from = from.map(|index| index.into_inner());
        let upto = upto.map(|end| end.into_inner());
        BitMask::new(Self::mask_of(from, upto))
    }
}

/// A lawful order: a candidate whose impl proves the laws.
///
/// `at` is one to one from the indices onto the positions, `select` holds the digit of that
/// position alone, and `mask` exactly the digits of its indices. In bitvec the trait is unsafe, its
/// laws are comments, and `select` and `mask` have bodies of their own.
pub trait BitOrder<R: BitRegister>: OrderCandidate<R> {
    /// Whether a word is turned to the list of its digits by few instructions, so that many bits are worked on at once.
    ///
    /// It is for speed alone: no answer depends on it. It is false unless an order says otherwise, as one may whose
    /// neighbours mostly stay neighbours; whether a compiler joins them is seen by counting. An order whose positions go
    /// straight with the indices need not say it.
    #[inline(always)]
    fn turns_quickly() -> bool {
        false
    }

    ghost lawful: { IsLawful R.BITS Self.position Self.selector Self.masked };
}

/// Counts from the least significant bit: index i is at position i.
#[derive(Clone, Copy, PartialEq, Eq, PartialOrd, Ord, Hash, Debug, Default)]
pub struct Lsb0;

/// The order of the machine's own numbers: another name of `Lsb0`.
pub type LocalBits = Lsb0;

impl<R: BitRegister> Positions<R> for Lsb0 {
    ghost position = { λ i. i };

    fn position_of(bits_below: u8) -> u8 {
        bits_below
    }
}

impl<R: BitRegister> OrderCandidate<R> for Lsb0 {
    ghost selector = { selectors_from (λ i. i) };

    ghost masked = { λ from upto. 2 ^ upper R.BITS upto - 2 ^ lower from };

    fn selector_of(index: u8) -> R {
        select_from_at::<R, Lsb0>(index)
    }

    fn mask_of(from: Option<u8>, upto: Option<u8>) -> R {
        ones_between(from.unwrap_or(0), upto.unwrap_or(R::BITS))
    }
}

impl<R: BitRegister> BitOrder<R> for Lsb0 {
    ghost use Rattle.bit_addressing_order.specs.OrderLaws.{lsb0_lawful};

    ghost lawful = { lsb0_lawful R.BITS };
}

/// Counts from the most significant bit: index i is at position `BITS - 1 - i`.
#[derive(Clone, Copy, PartialEq, Eq, PartialOrd, Ord, Hash, Debug, Default)]
pub struct Msb0;

impl<R: BitRegister> Positions<R> for Msb0 {
    ghost position = { λ i. R.BITS - 1 - i };

    fn position_of(index: u8) -> u8 {
        R::BITS - 1 - index
    }
}

impl<R: BitRegister> OrderCandidate<R> for Msb0 {
    ghost selector = { selectors_from (λ i. R.BITS - 1 - i) };

    ghost masked = { λ from upto. 2 ^ (R.BITS - lower from) - 2 ^ (R.BITS - upper R.BITS upto) };

    fn selector_of(index: u8) -> R {
        select_from_at::<R, Msb0>(index)
    }

    fn mask_of(from: Option<u8>, upto: Option<u8>) -> R {
        ones_between(
            R::BITS - upto.unwrap_or(R::BITS),
            R::BITS - from.unwrap_or(0),
        )
    }
}

impl<R: BitRegister> BitOrder<R> for Msb0 {
    ghost use Rattle.bit_addressing_order.specs.OrderLaws.{msb0_lawful};

    ghost lawful = { msb0_lawful R.BITS };
}

// The word whose ones are the positions from one bound up to before another.
#[tactic(auto, using(crate::proofs::DigitLemmas::ones_between_word))]
fn ones_between<R: BitRegister>(from: u8, upto: u8) -> R
    requires order { from ≤ upto }
    requires within { upto ≤ R.BITS }
    ensures { R.number result ≡ 2 ^ upto - 2 ^ from }
{
    if from == upto {
        R::ZERO
    } else {
        R::ALL.shr(R::BITS - (upto - from)).shl(from)
    }
}

/// The selector of an index, made from its position alone: for an order's own `selector_of`.
pub fn select_from_at<R: BitRegister, P: Positions<R>>(index: u8) -> R
    requires { index < R.BITS }
    ensures value { R.number result ≡ selectors_from P.position index }
    ensures one { IsSelector R.BITS (R.number result) }
{
    P::at(BitIdx::new_unchecked(index)).select().into_inner()
}

/// The mask of the indices from one bound up to before another, made from their positions alone,
/// one after another: for an order's own `mask_of`. An absent bound is 0, or `BITS`.
pub fn mask_from_at<R: BitRegister, P: Positions<R>>(from: Option<u8>, upto: Option<u8>) -> R
    requires order { lower from ≤ upper R.BITS upto }
    requires within { upper R.BITS upto ≤ R.BITS }
    ensures { R.number result ≡ masks_from R.BITS P.position from upto }
{
    mask_of_indices::<R, P>(from.unwrap_or(0), upto.unwrap_or(R::BITS))
}

// The word whose ones are the positions of these indices.
#[tactic(auto, using(crate::proofs::OrderLemmas::made_masks))]
fn mask_of_indices<R: BitRegister, P: Positions<R>>(first: u8, end: u8) -> R
    requires order { first ≤ end }
    requires within { end ≤ R.BITS }
    ensures { R.number result ≡ mask_from P.position first (end - first) }
{
    let mut mask = R::ZERO;
    for index in first..end {
        mask = mask.or(select_from_at::<R, P>(index));
    }
    mask
}

/// The masks of two ranges of indices, the second not before the end of the first. They have no
/// digit in common, whatever the order.
pub fn disjoint_masks<R: BitRegister, O: BitOrder<R>>(
    from: Option<BitIdx<R>>,
    upto: Option<BitEnd<R>>,
    later_from: Option<BitIdx<R>>,
    later_upto: Option<BitEnd<R>>,
) -> (BitMask<R>, BitMask<R>)
    requires order { lower from ≤ upper R.BITS upto }
    requires apart { upper R.BITS upto ≤ lower later_from }
    requires later_order { lower later_from ≤ upper R.BITS later_upto }
    ensures first { R.number result.0 ≡ O.masked from upto }
    ensures second { R.number result.1 ≡ O.masked later_from later_upto }
    ensures disjoint { bit_and (R.number result.0) (R.number result.1) ≡ 0 }
{
    let first = O::mask(from, upto);
    let later = O::mask(later_from, later_upto);
    (first, later)
}
