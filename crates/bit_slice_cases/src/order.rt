//! A straight order of a user's own: it says in which direction its positions go, and so has the word paths of `Lsb0` and
//! `Msb0`.

ghost use Rattle.std.specs.Prelude.{◌-◌};
ghost use Rattle.bit_slice.specs.BitOrder.{selectors_from, masks_from};

use bit_slice::{
    AlwaysStraight, BitOrder, BitRegister, Direction, OrderCandidate, Positions, Straight,
    StraightOrder, mask_from_at, select_from_at,
};

/// Counts from the most significant bit, as `Msb0` does.
#[derive(Clone, Copy)]
pub struct Downwards;

impl<R: BitRegister> Positions<R> for Downwards {
    ghost position = { λ i. R.BITS - 1 - i };

    fn position_of(index: u8) -> u8 {
        R::BITS - 1 - index
    }
}

impl<R: BitRegister> OrderCandidate<R> for Downwards {
    ghost selector = { selectors_from (λ i. R.BITS - 1 - i) };

    ghost masked = { masks_from R.BITS (λ i. R.BITS - 1 - i) };

    fn selector_of(index: u8) -> R {
        select_from_at::<R, Downwards>(index)
    }

    fn mask_of(from: Option<u8>, upto: Option<u8>) -> R {
        mask_from_at::<R, Downwards>(from, upto)
    }
}

impl<R: BitRegister> BitOrder<R> for Downwards {
    ghost use Rattle.bit_slice.specs.OrderLaws.{lawful_from_at, msb0_lawful};

    ghost lawful = { lawful_from_at R.BITS (λ i. R.BITS - 1 - i) (msb0_lawful R.BITS).in_range
        (msb0_lawful R.BITS).one_to_one };
}

impl<R: BitRegister> StraightOrder<R> for Downwards {
    fn straight() -> Straight<R, Downwards> {
        Straight::new(Direction::Descending)
    }
}

impl AlwaysStraight for Downwards {}
