//! Word paths: what an order does to many bits at once.
//!
//! No method has a body here. An order whose positions go straight with the indices calls `by_words`, a step for each 64
//! bits; one whose `SPAN` is 1 calls the functions of the same names in `by_bits`.

ghost use Rattle.std.specs.Prelude.{◌≡◌, ℕ, ◌+◌, ◌*◌, ◌^◌, ◌<◌, ◌≤◌, ◌↔◌, ◌&&◌, ◌||◌, length, IsTrue, true, false};
ghost use Rattle.bit_addressing_memory.specs.Memory.{entry, read_by, Copies, Overwrites};
ghost use Rattle.std.specs.Bool.{xor};
ghost use Rattle.bit_slice_paths.specs.Steps.{groups, Takes};

use crate::by_bits;
use bit_addressing_memory::{BitOrder, BitRegister, Direction, HiLo, Lsb0, Msb0, Straight};
use bit_slice_paths::combining::{AndOp, CopyOp, OrOp, XorOp};
use bit_slice_paths::{Steps, by_words};

/// What an order does to many bits of memories at once, from a place on of each, and in how many word steps: at
/// most one for each `SPAN` bits, and no fewer than one for each 64. Each method is lent the count.
///
/// The stretches lie in their memories, and their ends fit a `usize`. Every bit beside them stays.
pub trait WordPaths<R: BitRegister>: BitOrder<R> {
    ghost SPAN: { ℕ };

    /// How many bits a word step carries at least, but for the last one: 1 to 64.
    const SPAN: u8;

    /// Whether two stretches have the same bits. An answer of false takes one step at least.
    fn equal(
        words: &[R],
        place: usize,
        others: &[R],
        other_place: usize,
        len: usize,
        steps: &mut Steps,
    ) -> bool
        requires within { place + len ≤ length words.now * R.BITS }
        requires ends { place + len < 2 ^ 64 }
        requires other_within { other_place + len ≤ length others.now * R.BITS }
        requires other_ends { other_place + len < 2 ^ 64 }
        ensures value { IsTrue result ↔ ((k : ℕ) → k < len
            → entry (read_by R.BitRegister Self.position) words.now (place + k)
            ≡ entry (read_by R.BitRegister Self.position) others.now (other_place + k)) }
        ensures same { result ≡ true → Takes steps.old steps.new (groups len 64) (groups len SPAN) }
        ensures other { result ≡ false → Takes steps.old steps.new 1 (groups len SPAN) };

    /// Copies the bits of one stretch over those of another.
    fn copy(
        words: &mut [R],
        place: usize,
        others: &[R],
        other_place: usize,
        len: usize,
        steps: &mut Steps,
    )
        requires within { place + len ≤ length words.old * R.BITS }
        requires ends { place + len < 2 ^ 64 }
        requires other_within { other_place + len ≤ length others.now * R.BITS }
        requires other_ends { other_place + len < 2 ^ 64 }
        ensures copied { Copies (read_by R.BitRegister Self.position) words.old words.new
            (read_by R.BitRegister Self.position) others.now other_place place len }
        ensures steps { Takes steps.old steps.new (groups len 64) (groups len SPAN) };

    /// Exchanges the bits of two stretches.
    fn swap(
        words: &mut [R],
        place: usize,
        others: &mut [R],
        other_place: usize,
        len: usize,
        steps: &mut Steps,
    )
        requires within { place + len ≤ length words.old * R.BITS }
        requires ends { place + len < 2 ^ 64 }
        requires other_within { other_place + len ≤ length others.old * R.BITS }
        requires other_ends { other_place + len < 2 ^ 64 }
        ensures to_words { Copies (read_by R.BitRegister Self.position) words.old words.new
            (read_by R.BitRegister Self.position) others.old other_place place len }
        ensures to_others { Copies (read_by R.BitRegister Self.position) others.old others.new
            (read_by R.BitRegister Self.position) words.old place other_place len }
        ensures steps { Takes steps.old steps.new (groups len 64) (groups len SPAN) };

    /// Copies the bits of one stretch over those of another one of the same memory. The two may overlap: what is
    /// copied is the bits as they were.
    fn copy_over(words: &mut [R], source: usize, target: usize, len: usize, steps: &mut Steps)
        requires source_within { source + len ≤ length words.old * R.BITS }
        requires source_ends { source + len < 2 ^ 64 }
        requires target_within { target + len ≤ length words.old * R.BITS }
        requires target_ends { target + len < 2 ^ 64 }
        ensures copied { Copies (read_by R.BitRegister Self.position) words.old words.new
            (read_by R.BitRegister Self.position) words.old source target len }
        ensures steps { Takes steps.old steps.new (groups len 64) (groups len SPAN) };

    /// Clears each bit where the other memory has a zero.
    fn and(
        words: &mut [R],
        place: usize,
        others: &[R],
        other_place: usize,
        len: usize,
        steps: &mut Steps,
    )
        requires within { place + len ≤ length words.old * R.BITS }
        requires ends { place + len < 2 ^ 64 }
        requires other_within { other_place + len ≤ length others.now * R.BITS }
        requires other_ends { other_place + len < 2 ^ 64 }
        ensures combined { Overwrites (read_by R.BitRegister Self.position) words.old words.new place len
            (λ k. entry (read_by R.BitRegister Self.position) words.old (place + k)
            && entry (read_by R.BitRegister Self.position) others.now (other_place + k)) }
        ensures steps { Takes steps.old steps.new (groups len 64) (groups len SPAN) };

    /// Sets each bit where the other memory has a one.
    fn or(
        words: &mut [R],
        place: usize,
        others: &[R],
        other_place: usize,
        len: usize,
        steps: &mut Steps,
    )
        requires within { place + len ≤ length words.old * R.BITS }
        requires ends { place + len < 2 ^ 64 }
        requires other_within { other_place + len ≤ length others.now * R.BITS }
        requires other_ends { other_place + len < 2 ^ 64 }
        ensures combined { Overwrites (read_by R.BitRegister Self.position) words.old words.new place len
            (λ k. entry (read_by R.BitRegister Self.position) words.old (place + k)
            || entry (read_by R.BitRegister Self.position) others.now (other_place + k)) }
        ensures steps { Takes steps.old steps.new (groups len 64) (groups len SPAN) };

    /// Flips each bit where the other memory has a one.
    fn xor(
        words: &mut [R],
        place: usize,
        others: &[R],
        other_place: usize,
        len: usize,
        steps: &mut Steps,
    )
        requires within { place + len ≤ length words.old * R.BITS }
        requires ends { place + len < 2 ^ 64 }
        requires other_within { other_place + len ≤ length others.now * R.BITS }
        requires other_ends { other_place + len < 2 ^ 64 }
        ensures combined { Overwrites (read_by R.BitRegister Self.position) words.old words.new place len
            (λ k. xor (entry (read_by R.BitRegister Self.position) words.old (place + k))
            (entry (read_by R.BitRegister Self.position) others.now (other_place + k))) }
        ensures steps { Takes steps.old steps.new (groups len 64) (groups len SPAN) };

    ghost least_span: { 1 ≤ SPAN };

    ghost most_span: { SPAN ≤ 64 };
}

/// An order whose positions go straight with the indices of a word.
pub trait StraightOrder<R: BitRegister>: BitOrder<R> {
    /// In which direction they go.
    fn straight() -> Straight<R, Self>;
}

impl<R: BitRegister> StraightOrder<R> for Lsb0 {
    #[inline(always)]
    fn straight() -> Straight<R, Lsb0> {
        Straight::new(Direction::Ascending)
    }
}

impl<R: BitRegister> StraightOrder<R> for Msb0 {
    #[inline(always)]
    fn straight() -> Straight<R, Msb0> {
        Straight::new(Direction::Descending)
    }
}

/// Marks the orders that have the word paths of all straight ones. It names no register, so that an order of another
/// crate, which is not marked, may have word paths of its own.
pub trait AlwaysStraight {}

impl AlwaysStraight for Lsb0 {}

impl AlwaysStraight for Msb0 {}

impl<R: BitRegister, O: AlwaysStraight + StraightOrder<R>> WordPaths<R> for O {
    ghost use Rattle.bit_slice_words.specs.PathLaws.{most_of_64, span_of_one};

    ghost SPAN = { 64 };

    const SPAN: u8 = 64;

    fn equal(
        words: &[R],
        place: usize,
        others: &[R],
        other_place: usize,
        len: usize,
        steps: &mut Steps,
    ) -> bool {
        by_words::equal::<R, O>(words, place, others, other_place, len, steps)
    }

    fn copy(
        words: &mut [R],
        place: usize,
        others: &[R],
        other_place: usize,
        len: usize,
        steps: &mut Steps,
    ) {
        by_words::combine::<CopyOp, R, O>(words, place, others, other_place, len, steps);
    }

    fn swap(
        words: &mut [R],
        place: usize,
        others: &mut [R],
        other_place: usize,
        len: usize,
        steps: &mut Steps,
    ) {
        by_words::swap::<R, O>(O::straight(), words, place, others, other_place, len, steps);
    }

    fn copy_over(words: &mut [R], source: usize, target: usize, len: usize, steps: &mut Steps) {
        by_words::copy_over::<R, O>(O::straight(), words, source, target, len, steps);
    }

    fn and(
        words: &mut [R],
        place: usize,
        others: &[R],
        other_place: usize,
        len: usize,
        steps: &mut Steps,
    ) {
        by_words::combine::<AndOp, R, O>(words, place, others, other_place, len, steps);
    }

    fn or(
        words: &mut [R],
        place: usize,
        others: &[R],
        other_place: usize,
        len: usize,
        steps: &mut Steps,
    ) {
        by_words::combine::<OrOp, R, O>(words, place, others, other_place, len, steps);
    }

    fn xor(
        words: &mut [R],
        place: usize,
        others: &[R],
        other_place: usize,
        len: usize,
        steps: &mut Steps,
    ) {
        by_words::combine::<XorOp, R, O>(words, place, others, other_place, len, steps);
    }

    ghost least_span = { span_of_one };

    ghost most_span = { most_of_64 };
}

impl<R: BitRegister> WordPaths<R> for HiLo {
    ghost use Rattle.bit_slice_words.specs.PathLaws.{one_span, span_of_one};

    ghost SPAN = { 1 };

    const SPAN: u8 = 1;

    fn equal(
        words: &[R],
        place: usize,
        others: &[R],
        other_place: usize,
        len: usize,
        steps: &mut Steps,
    ) -> bool {
        by_bits::equal::<R, HiLo>(words, place, others, other_place, len, steps)
    }

    fn copy(
        words: &mut [R],
        place: usize,
        others: &[R],
        other_place: usize,
        len: usize,
        steps: &mut Steps,
    ) {
        by_bits::copy::<R, HiLo>(words, place, others, other_place, len, steps);
    }

    fn swap(
        words: &mut [R],
        place: usize,
        others: &mut [R],
        other_place: usize,
        len: usize,
        steps: &mut Steps,
    ) {
        by_bits::swap::<R, HiLo>(words, place, others, other_place, len, steps);
    }

    fn copy_over(words: &mut [R], source: usize, target: usize, len: usize, steps: &mut Steps) {
        by_bits::copy_over::<R, HiLo>(words, source, target, len, steps);
    }

    fn and(
        words: &mut [R],
        place: usize,
        others: &[R],
        other_place: usize,
        len: usize,
        steps: &mut Steps,
    ) {
        by_bits::and::<R, HiLo>(words, place, others, other_place, len, steps);
    }

    fn or(
        words: &mut [R],
        place: usize,
        others: &[R],
        other_place: usize,
        len: usize,
        steps: &mut Steps,
    ) {
        by_bits::or::<R, HiLo>(words, place, others, other_place, len, steps);
    }

    fn xor(
        words: &mut [R],
        place: usize,
        others: &[R],
        other_place: usize,
        len: usize,
        steps: &mut Steps,
    ) {
        by_bits::xor::<R, HiLo>(words, place, others, other_place, len, steps);
    }

    ghost least_span = { one_span };

    ghost most_span = { span_of_one };
}
