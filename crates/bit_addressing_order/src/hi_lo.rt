//! The order of a word's halves of eight bits, each counted from its upper four.

ghost use Rattle.std.specs.Prelude.{bit_xor};
ghost use Rattle.bit_addressing_order.specs.BitOrder.{selectors_from, masks_from};

use crate::order::{BitOrder, OrderCandidate, Positions, mask_from_at, select_from_at};
use crate::register::BitRegister;

/// Flips the digit of weight 4 of each index: index 0 is at position 4, index 4 at position 0.
///
/// So each byte of a word is counted from its upper four bits, each of the two fours from its lowest bit.
#[derive(Clone, Copy, PartialEq, Eq, PartialOrd, Ord, Hash, Debug, Default)]
pub struct HiLo;

impl<R: BitRegister> Positions<R> for HiLo {
    ghost position = { λ i. bit_xor i 4 };

    #[tactic(auto, using(crate::specs::HiLoLaws::flip_within))]
    fn position_of(index: u8) -> u8 {
        index ^ 4
    }
}

impl<R: BitRegister> OrderCandidate<R> for HiLo {
    ghost selector = { selectors_from (λ i. bit_xor i 4) };

    ghost masked = { masks_from R.BITS (λ i. bit_xor i 4) };

    fn selector_of(index: u8) -> R {
        select_from_at::<R, HiLo>(index)
    }

    fn mask_of(from: Option<u8>, upto: Option<u8>) -> R {
        mask_from_at::<R, HiLo>(from, upto)
    }
}

impl<R: BitRegister> BitOrder<R> for HiLo {
    ghost use Rattle.bit_addressing_order.specs.OrderLaws.{lawful_from_at};
    ghost use Rattle.bit_addressing_order.specs.HiLoLaws.{flip_within, flip_apart};

    // A compiler joins four digits that go together.
    #[inline(always)]
    fn turns_quickly() -> bool {
        true
    }

    ghost lawful = { lawful_from_at R.BITS (λ i. bit_xor i 4) (λ i small. flip_within R.BITS i R.size small)
        (λ i j _ _ same. flip_apart i j same) };
}
