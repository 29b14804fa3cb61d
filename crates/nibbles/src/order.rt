//! A bit order of the program's own.

ghost use Rattle.std.specs.Prelude.{◌+◌, ◌*◌, ◌%◌};
ghost use Rattle.bit_slice.specs.BitOrder.{selectors_from, masks_from};

use bit_slice::{BitOrder, OrderCandidate, Positions, mask_from_at, select_from_at};

/// The upper nibble of a byte comes first, each from its lowest digit on.
#[derive(Clone, Copy)]
pub struct UpperNibbleFirst;

impl Positions<u8> for UpperNibbleFirst {
    ghost position = { λ i. (1 * i + 4) % 8 };

    fn position_of(index: u8) -> u8 {
        (index + 4) % 8
    }
}

impl OrderCandidate<u8> for UpperNibbleFirst {
    ghost selector = { selectors_from (λ i. (1 * i + 4) % 8) };

    ghost masked = { masks_from 8 (λ i. (1 * i + 4) % 8) };

    fn selector_of(index: u8) -> u8 {
        select_from_at::<u8, UpperNibbleFirst>(index)
    }

    fn mask_of(from: Option<u8>, upto: Option<u8>) -> u8 {
        mask_from_at::<u8, UpperNibbleFirst>(from, upto)
    }
}

impl BitOrder<u8> for UpperNibbleFirst {
    ghost use Rattle.std.specs.Prelude.{refl};
    ghost use Rattle.bit_slice.specs.OrderLaws.{lawful_by_steps};
    ghost use Rattle.bit_slice.specs.RegisterLaws.{size_of_8};

    ghost lawful = { lawful_by_steps 8 1 4 size_of_8 refl };
}
