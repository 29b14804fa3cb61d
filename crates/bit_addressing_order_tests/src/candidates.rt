//! Candidates that break one law each.

ghost use Rattle.std.specs.Prelude.{◌≡◌, ◌==◌, ◌&&◌, ℕ, ◌^◌, is_none, if◌then◌else◌};
ghost use Rattle.bit_addressing_order.specs.BitOrder.{lower, upper, selectors_from, masks_from};

use bit_addressing_order::{BitRegister, OrderCandidate, Positions, mask_from_at, select_from_at};

/// Puts every index at position 0, and makes the rest from that.
#[derive(Clone, Copy)]
pub struct AllAtZero;

impl<R: BitRegister> Positions<R> for AllAtZero {
    ghost position = { λ _. 0 };

    fn position_of(_index: u8) -> u8 {
        0
    }
}

impl<R: BitRegister> OrderCandidate<R> for AllAtZero {
    ghost selector = { selectors_from (λ _. 0) };

    ghost masked = { masks_from R.BITS (λ _. 0) };

    fn selector_of(index: u8) -> R {
        select_from_at::<R, AllAtZero>(index)
    }

    fn mask_of(from: Option<u8>, upto: Option<u8>) -> R {
        mask_from_at::<R, AllAtZero>(from, upto)
    }
}

/// Counts from the least significant bit, but selects position 4 for index 3.
#[derive(Clone, Copy)]
pub struct OtherSelector;

impl<R: BitRegister> Positions<R> for OtherSelector {
    ghost position = { λ i. i };

    fn position_of(index: u8) -> u8 {
        index
    }
}

impl<R: BitRegister> OrderCandidate<R> for OtherSelector {
    ghost selector = { λ i. 2 ^ (if i == 3 then 4 else i) };

    ghost masked = { masks_from R.BITS (λ i. i) };

    fn selector_of(index: u8) -> R {
        if index == 3 {
            select_from_at::<R, OtherSelector>(4)
        } else {
            select_from_at::<R, OtherSelector>(index)
        }
    }

    fn mask_of(from: Option<u8>, upto: Option<u8>) -> R {
        mask_from_at::<R, OtherSelector>(from, upto)
    }
}

/// Counts from the least significant bit, but the mask from 2 to 5 is empty.
#[derive(Clone, Copy)]
pub struct EmptyMask;

impl<R: BitRegister> Positions<R> for EmptyMask {
    ghost position = { λ i. i };

    fn position_of(index: u8) -> u8 {
        index
    }
}

impl<R: BitRegister> OrderCandidate<R> for EmptyMask {
    ghost selector = { selectors_from (λ i. i) };

    ghost masked = { λ from upto. if lower from == 2 && upper R.BITS upto == 5 then 0
        else masks_from R.BITS (λ i. i) from upto };

    fn selector_of(index: u8) -> R {
        select_from_at::<R, EmptyMask>(index)
    }

    fn mask_of(from: Option<u8>, upto: Option<u8>) -> R {
        if from.unwrap_or(0) == 2 && upto.unwrap_or(R::BITS) == 5 {
            R::ZERO
        } else {
            mask_from_at::<R, EmptyMask>(from, upto)
        }
    }
}

/// Counts from the least significant bit, but the mask from 4 with no second bound is empty.
#[derive(Clone, Copy)]
pub struct EmptyTail;

impl<R: BitRegister> Positions<R> for EmptyTail {
    ghost position = { λ i. i };

    fn position_of(index: u8) -> u8 {
        index
    }
}

impl<R: BitRegister> OrderCandidate<R> for EmptyTail {
    ghost selector = { selectors_from (λ i. i) };

    ghost masked = { λ from upto. if lower from == 4 && is_none upto then 0 else masks_from R.BITS (λ i. i) from upto };

    fn selector_of(index: u8) -> R {
        select_from_at::<R, EmptyTail>(index)
    }

    fn mask_of(from: Option<u8>, upto: Option<u8>) -> R {
        if from.unwrap_or(0) == 4 && upto.is_none() {
            R::ZERO
        } else {
            mask_from_at::<R, EmptyTail>(from, upto)
        }
    }
}

/// Counts from the least significant bit, but the mask from 100 with no second bound is empty: words of
/// 128 bits alone have such an index.
#[derive(Clone, Copy)]
pub struct EmptyUpperTail;

impl<R: BitRegister> Positions<R> for EmptyUpperTail {
    ghost position = { λ i. i };

    fn position_of(index: u8) -> u8 {
        index
    }
}

impl<R: BitRegister> OrderCandidate<R> for EmptyUpperTail {
    ghost selector = { selectors_from (λ i. i) };

    ghost masked = { λ from upto. if lower from == 100 && is_none upto then 0
        else masks_from R.BITS (λ i. i) from upto };

    fn selector_of(index: u8) -> R {
        select_from_at::<R, EmptyUpperTail>(index)
    }

    fn mask_of(from: Option<u8>, upto: Option<u8>) -> R {
        if from.unwrap_or(0) == 100 && upto.is_none() {
            R::ZERO
        } else {
            mask_from_at::<R, EmptyUpperTail>(from, upto)
        }
    }
}
