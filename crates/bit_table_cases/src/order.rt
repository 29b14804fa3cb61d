//! An order of a user's own, with its word paths and its digits bit by bit: what a table wants of an order.

ghost use Rattle.std.specs.Prelude.{◌≡◌, ℕ, ◌+◌, ◌*◌, ◌%◌, ◌^◌, ◌<◌, ◌≤◌, ◌↔◌, ◌&&◌, ◌||◌, length, IsTrue, true, false};
ghost use Rattle.bit_table_script.specs.BitOrder.{selectors_from, masks_from};

use bit_table_script::{
    BitOrder, BitRegister, BitsMut, Digits, OrderCandidate, Positions, Steps, WordPaths, by_bits,
    digits_by_bits, mask_from_at, select_from_at,
};

/// Goes by steps of five from position 3, round the word, as `FifthStep` of `bit_addressing_sample_orders` does.
#[derive(Clone, Copy)]
pub struct StepsOfFive;

impl<R: BitRegister> Positions<R> for StepsOfFive {
    ghost position = { λ i. (5 * i + 3) % R.BITS };

    fn position_of(index: u8) -> u8 {
        ((5 * index as u16 + 3) % R::BITS as u16) as u8
    }
}

impl<R: BitRegister> OrderCandidate<R> for StepsOfFive {
    ghost selector = { selectors_from (λ i. (5 * i + 3) % R.BITS) };

    ghost masked = { masks_from R.BITS (λ i. (5 * i + 3) % R.BITS) };

    fn selector_of(index: u8) -> R {
        select_from_at::<R, StepsOfFive>(index)
    }

    fn mask_of(from: Option<u8>, upto: Option<u8>) -> R {
        mask_from_at::<R, StepsOfFive>(from, upto)
    }
}

impl<R: BitRegister> BitOrder<R> for StepsOfFive {
    ghost use Rattle.std.specs.Prelude.{refl};
    ghost use Rattle.bit_table_script.specs.OrderLaws.{lawful_by_steps};

    ghost lawful = { lawful_by_steps R.BITS 5 3 R.size refl };
}

impl<R: BitRegister> WordPaths<R> for StepsOfFive {
    ghost use Rattle.bit_table_script.specs.PathLaws.{one_span, span_of_one};

    ghost SPAN = { 1 };

    const SPAN: u8 = 1;

    fn equal(
        words: &[R],
        place: usize,
        others: &[R],
        other_place: usize,
        len: usize,
        steps: &mut Steps,
    ) -> bool {
        by_bits::equal::<R, StepsOfFive>(words, place, others, other_place, len, steps)
    }

    fn copy(
        words: &mut [R],
        place: usize,
        others: &[R],
        other_place: usize,
        len: usize,
        steps: &mut Steps,
    ) {
        by_bits::copy::<R, StepsOfFive>(words, place, others, other_place, len, steps);
    }

    fn swap(
        words: &mut [R],
        place: usize,
        others: &mut [R],
        other_place: usize,
        len: usize,
        steps: &mut Steps,
    ) {
        by_bits::swap::<R, StepsOfFive>(words, place, others, other_place, len, steps);
    }

    fn copy_over(words: &mut [R], source: usize, target: usize, len: usize, steps: &mut Steps) {
        by_bits::copy_over::<R, StepsOfFive>(words, source, target, len, steps);
    }

    fn and(
        words: &mut [R],
        place: usize,
        others: &[R],
        other_place: usize,
        len: usize,
        steps: &mut Steps,
    ) {
        by_bits::and::<R, StepsOfFive>(words, place, others, other_place, len, steps);
    }

    fn or(
        words: &mut [R],
        place: usize,
        others: &[R],
        other_place: usize,
        len: usize,
        steps: &mut Steps,
    ) {
        by_bits::or::<R, StepsOfFive>(words, place, others, other_place, len, steps);
    }

    fn xor(
        words: &mut [R],
        place: usize,
        others: &[R],
        other_place: usize,
        len: usize,
        steps: &mut Steps,
    ) {
        by_bits::xor::<R, StepsOfFive>(words, place, others, other_place, len, steps);
    }

    ghost least_span = { one_span };

    ghost most_span = { span_of_one };
}

impl<R: BitRegister> Digits<R> for StepsOfFive {
    ghost LOW_WORDS = { false };

    const LOW_WORDS: bool = false;

    ghost HIGH_WORDS = { false };

    const HIGH_WORDS: bool = false;

    fn load_low_at(words: &[R], place: usize, width: u32, signed: bool, steps: &mut Steps) -> i128 {
        digits_by_bits::load_low_at::<R, StepsOfFive>(words, place, width, signed, steps)
    }

    fn load_high_at(
        words: &[R],
        place: usize,
        width: u32,
        signed: bool,
        steps: &mut Steps,
    ) -> i128 {
        digits_by_bits::load_high_at::<R, StepsOfFive>(words, place, width, signed, steps)
    }

    fn store_low_at<V: BitsMut<Store = R, Order = StepsOfFive>>(
        view: &mut V,
        at: usize,
        width: u32,
        value: i128,
        steps: &mut Steps,
    ) {
        digits_by_bits::store_low_at::<V>(view, at, width, value, steps);
    }

    fn store_high_at<V: BitsMut<Store = R, Order = StepsOfFive>>(
        view: &mut V,
        at: usize,
        width: u32,
        value: i128,
        steps: &mut Steps,
    ) {
        digits_by_bits::store_high_at::<V>(view, at, width, value, steps);
    }
}
