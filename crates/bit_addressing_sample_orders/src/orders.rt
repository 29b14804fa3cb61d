//! An order of a user's own.

ghost use Rattle.std.specs.Prelude.{◌+◌, ◌*◌, ◌%◌};
ghost use Rattle.bit_addressing_order.specs.BitOrder.{selectors_from, masks_from};

use bit_addressing_order::{
    BitOrder, BitRegister, OrderCandidate, Positions, mask_from_at, select_from_at,
};

/// Goes by steps of five from position 3, round the word.
#[derive(Clone, Copy)]
pub struct FifthStep;

impl<R: BitRegister> Positions<R> for FifthStep {
    ghost position = { λ i. (5 * i + 3) % R.BITS };

    fn position_of(index: u8) -> u8 {
        ((5 * index as u16 + 3) % R::BITS as u16) as u8
    }
}

impl<R: BitRegister> OrderCandidate<R> for FifthStep {
    ghost selector = { selectors_from (λ i. (5 * i + 3) % R.BITS) };

    ghost masked = { masks_from R.BITS (λ i. (5 * i + 3) % R.BITS) };

    fn selector_of(index: u8) -> R {
        select_from_at::<R, FifthStep>(index)
    }

    fn mask_of(from: Option<u8>, upto: Option<u8>) -> R {
        mask_from_at::<R, FifthStep>(from, upto)
    }
}

impl<R: BitRegister> BitOrder<R> for FifthStep {
    ghost use Rattle.std.specs.Prelude.{refl};
    ghost use Rattle.bit_addressing_order.specs.OrderLaws.{lawful_by_steps};

    ghost lawful = { lawful_by_steps R.BITS 5 3 R.size refl };
}
