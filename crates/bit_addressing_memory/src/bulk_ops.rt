//! From how many bits on work goes many bits at a time: here alone for all crates up to the containers, and for speed alone,
//! since no result depends on it.
//!
//! Work on many bits at once costs much the same however few of them are needed, so a few go bit by bit. If neither the
//! positions go straight with the indices nor the bits of a word are reordered quickly, all do.

use crate::direction::direction_of;
use bit_addressing_order::{BitOrder, BitRegister};

/// What is done with bits, each kind with a cost of its own.
#[derive(Clone, Copy, PartialEq, Eq, Debug)]
pub enum BulkOp {
    /// Bits are copied or combined.
    Copy,
    /// Bits are moved into one word.
    Move,
    /// Bits are reversed.
    Reverse,
    /// Bits are rotated.
    Rotate,
    /// Two stretches of one memory are swapped.
    SwapWithin,
    /// Two windows are swapped.
    Swap,
    /// The first bits of two memories are compared, which mostly differ early.
    Compare,
    /// The same, if a block of 64 bits is compared next.
    CompareBlock,
    /// The bits behind these are compared, if fewer than 64 are left.
    CompareRest,
    /// Bits are searched for at one index after the other.
    Search,
    /// The indices of ones or zeros are iterated over.
    Indices,
    /// A number of so many bits is loaded.
    Load,
    /// A number of so many bits is stored.
    Store,
    /// Bytes are made of bits.
    Bytes,
    /// Bits are filled with what a closure returns.
    Fill,
    /// Bits are filled with what a closure returns that is shown each bit.
    ForEach,
}

/// Up to how many bits of a stretch go bit by bit: `straight` if the positions go straight with the indices, `reordered` if
/// the order says that the bits of a word are reordered quickly, and else all.
#[inline(always)]
pub fn limit_by_order<R: BitRegister, O: BitOrder<R>>(straight: usize, reordered: usize) -> usize {
    if direction_of::<R, O>().is_some() {
        straight
    } else if O::turns_quickly() {
        reordered
    } else {
        usize::MAX
    }
}

/// Up to how many bits an operation goes bit by bit.
#[inline(always)]
pub fn bit_loop_limit<R: BitRegister, O: BitOrder<R>>(op: BulkOp) -> usize {
    limit_by_order::<R, O>(straight::<R>(op), reordered::<R>(op))
}

/// Up to how many bits an operation on two memories goes bit by bit.
#[inline(always)]
pub fn bit_loop_limit_of_two<R: BitRegister, O: BitOrder<R>, Q: BitRegister, P: BitOrder<Q>>(
    op: BulkOp,
) -> usize {
    bit_loop_limit::<R, O>(op).max(bit_loop_limit::<Q, P>(op))
}

// Where the positions go straight: a block is words and shifts. In instructions, of `u64` under `Lsb0`, n bits one by one
// and up to 64 at once: a copy 40 + 30 n and 190, a reversal 24 + 13 n and 180, lists compared 30 + 21 n and 230, a number
// stored 25 + 20 n and 80, windows swapped 30 + 51 n and 600, a closure's results 15 + 21 n and 1,100, those of a closure
// that is shown the bit 18 + 37 n and 2,400. Of words of 8 bits the second is up to twice that. A number of bytes is read by
// 33 + 13 n, or 133. Of lists that differ behind the first bits both ways are paid: a block of fewer than 64 bits costs twice
// one of 64, so more are compared one by one if no whole one is left. A whole one costs little, so it comes behind the first
// bit.
#[inline(always)]
fn straight<R: BitRegister>(op: BulkOp) -> usize {
    match op {
        BulkOp::Load => if R::BITS == 8 { 5 } else { 0 },
        BulkOp::CompareBlock => 1,
        BulkOp::Store => 5,
        BulkOp::Copy | BulkOp::Move | BulkOp::Rotate | BulkOp::SwapWithin => 8,
        BulkOp::Reverse => 12,
        BulkOp::Bytes => 16,
        BulkOp::Compare | BulkOp::CompareRest => 24,
        BulkOp::Indices => if R::BITS < 64 { 63 } else { 16 },
        BulkOp::Swap | BulkOp::Search | BulkOp::Fill => 32,
        BulkOp::ForEach => 64,
    }
}

// Where the bits of a word are reordered. Of `u64` under `HiLo`: a copy 40 + 33 n and 650 to 850, a reversal 30 + 17 n and
// up to 740, lists compared 35 + 27 n and 1,200, a number stored 23 + 22 n and 500, windows swapped 30 + 59 n and 1,800. A
// closure's results gain nothing. Of narrower words a few bits are reordered at once, so that a move into one word gains
// early, and bits that are searched for gain nothing; of 32 bits a block costs the most.
#[inline(always)]
fn reordered<R: BitRegister>(op: BulkOp) -> usize {
    let (narrow, of_32) = (R::BITS < 64, R::BITS == 32);
    match op {
        BulkOp::CompareRest => 0,
        BulkOp::Load | BulkOp::Store => 16,
        BulkOp::Move => if R::BITS < 32 { 4 } else { 24 },
        BulkOp::Bytes => if of_32 { 64 } else { 24 },
        BulkOp::Copy | BulkOp::Rotate | BulkOp::SwapWithin => if of_32 { 40 } else { 24 },
        BulkOp::Indices => if narrow { usize::MAX } else { 32 },
        BulkOp::Search => 32,
        BulkOp::Swap => 48,
        BulkOp::Compare | BulkOp::CompareBlock => if of_32 { 80 } else { 64 },
        BulkOp::ForEach => if of_32 { usize::MAX } else { 64 },
        BulkOp::Reverse => 80,
        BulkOp::Fill => usize::MAX,
    }
}

/// From how many bits on two memories are combined or compared by whole words, taken as they are: of fewer, blocks of 64 bits
/// are quicker (of 300 bits 26 ns by blocks and 21 by words).
pub const WHOLE_WORDS: usize = 256;

/// From how many bits on, if each word is joined of two.
pub const JOINED_WORDS: usize = 768;

/// How many bits are compared block by block before whole words are, a round at a time: memories that differ mostly do so
/// early, and then a round costs more than it saves.
pub const NEAR_BITS: usize = 8_192;

/// How many words are searched for a bit before rounds of them are, one by one or by blocks of 64 bits: a bit that is near is
/// found sooner so.
pub const NEAR_WORDS: usize = 256;

/// From how many bits on blocks begin at a word of the first memory, so that each lies in as few words as it can.
pub const FROM_BORDER: usize = 256;

/// From how many words on two windows are swapped by three combinations of whole words: of 1,000 bits of `u64` at 13 and 29
/// they take 160 ns where copies of 1,024 bits take 120, of 1,000,000 bits 24,000 and 99,000.
pub const SWAPPED_BY_WORDS: usize = 64;

/// From how many narrow words on their ones are counted 64 bits at a time.
pub const COUNTED_BY_BLOCKS: usize = 16;

/// From how many narrow words on a move goes 64 bits at a time: of fewer, the call that does so costs more than it saves.
pub(crate) const MOVED_BY_BLOCKS: usize = 8;

/// Up to how many bits of its shorter part a rotation goes by moves alone: with more, swaps take less time.
pub const ROTATED_BY_MOVES: usize = 256;

/// Up to how many bits the word path of an order is quicker than the comparison of any two windows, which goes bit by bit at
/// first.
pub const COMPARED_BY_PATHS: usize = 2_048;
