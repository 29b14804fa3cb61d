//! The order of the devices' bits in a word.

ghost use Rattle.std.specs.Prelude.{◌+◌, ◌*◌, ◌%◌};
ghost use Rattle.bit_addressing.specs.BitOrder.{selectors_from, masks_from};
ghost use Rattle.register_map.specs.Words.{upper_half_first};

use bit_addressing::{BitOrder, OrderCandidate, Positions, mask_from_at, select_from_at};

/// Begins in the middle of a `u32`: its upper half comes first.
#[derive(Clone, Copy)]
pub struct UpperHalfFirst;

impl Positions<u32> for UpperHalfFirst {
    ghost position = { upper_half_first };

    fn position_of(index: u8) -> u8 {
        (index + 16) % 32
    }
}

impl OrderCandidate<u32> for UpperHalfFirst {
    ghost selector = { selectors_from upper_half_first };

    ghost masked = { masks_from 32 upper_half_first };

    fn selector_of(index: u8) -> u32 {
        select_from_at::<u32, UpperHalfFirst>(index)
    }

    fn mask_of(from: Option<u8>, upto: Option<u8>) -> u32 {
        mask_from_at::<u32, UpperHalfFirst>(from, upto)
    }
}

impl BitOrder<u32> for UpperHalfFirst {
    ghost use Rattle.std.specs.Prelude.{refl};
    ghost use Rattle.bit_addressing.specs.OrderLaws.{lawful_by_steps};
    ghost use Rattle.bit_addressing.specs.RegisterLaws.{size_of_32};

    ghost lawful = { lawful_by_steps 32 1 16 size_of_32 refl };
}
