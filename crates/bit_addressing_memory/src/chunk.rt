//! Chunks: numbers of 64 digits, whose bits are counted up from the lowest digit, or down from the highest. Where positions go
//! straight, a word's bits become a chunk, and a chunk's a word, by a shift.

ghost use Rattle.std.specs.Prelude.{◌≡◌, ◌+◌, ◌*◌, ◌/◌, ◌%◌, ◌^◌, ◌<◌, ◌≤◌};
ghost use Rattle.bit_addressing_memory.specs.Prelude.{read_by};
ghost use Rattle.bit_addressing_memory.specs.Chunk.{IsLowered, IsRaised, IsPart, IsPatched, IsPlaced, IsCut, IsRest};

use crate::direction::{Direction, Straight};
use bit_addressing_order::{BitOrder, BitRegister};

/// The chunk whose bits are those of another from bit `by` on, and then zeros.
#[inline(always)]
#[tactic(auto, using(crate::proofs::ChunkLemmas::lowered_up, crate::proofs::ChunkLemmas::lowered_down))]
pub fn lowered(direction: Direction, chunk: u64, by: u8) -> u64
    requires { by < 64 }
    ensures { IsLowered direction chunk by result }
{
    match direction {
        Direction::Ascending => chunk >> by,
        Direction::Descending => chunk << by,
    }
}

/// The chunk that begins with `by` zeros, and then has the bits of another as far as there is room.
#[inline(always)]
#[tactic(auto, using(crate::proofs::ChunkLemmas::raised_up, crate::proofs::ChunkLemmas::raised_down))]
pub fn raised(direction: Direction, chunk: u64, by: u8) -> u64
    requires { by < 64 }
    ensures { IsRaised direction chunk by result }
{
    match direction {
        Direction::Ascending => chunk << by,
        Direction::Descending => chunk >> by,
    }
}

/// The chunk with each bit from bit `count` on made zero. `count` is 1 to 64.
#[inline(always)]
#[tactic(auto, using(crate::proofs::ChunkLemmas::cut_is))]
pub fn first_bits(direction: Direction, chunk: u64, count: u8) -> u64
    requires some { 0 < count }
    requires few { count ≤ 64 }
    ensures { IsCut direction chunk count result }
{
    let above = 64 - count;
    lowered(direction, raised(direction, chunk, above), above)
}

/// The chunk with each bit before bit `from` made zero.
#[inline(always)]
#[tactic(auto, using(crate::proofs::ChunkLemmas::rest_is))]
pub fn last_bits(direction: Direction, chunk: u64, from: u8) -> u64
    requires { from < 64 }
    ensures { IsRest direction chunk from result }
{
    raised(direction, lowered(direction, chunk, from), from)
}

/// The chunk with `count` of its bits, from bit `from` on, made the first bits of another.
#[inline(always)]
#[tactic(auto, using(crate::proofs::ChunkLemmas::patched_is))]
pub fn patched(direction: Direction, chunk: u64, from: u8, count: u8, other: u64) -> u64
    requires some { 0 < count }
    requires within { from + count ≤ 64 }
    ensures { IsPatched direction chunk from count other result }
{
    let mask = raised(direction, first_bits(direction, !0, count), from);
    let bits = raised(direction, first_bits(direction, other, count), from);
    chunk & !mask | bits
}

/// The bits of a word from an index on, as many as a chunk has, and zeros behind them.
#[inline(always)]
pub fn part<R: BitRegister, O: BitOrder<R>>(straight: Straight<R, O>, word: R, from: u8) -> u64
    requires { from < R.BITS }
    ensures { IsPart (read_by R.BitRegister O.position) word from R.BITS straight.direction result }
{
    match straight.direction {
        Direction::Ascending => part_up(word.value(), from),
        Direction::Descending => part_down(word.value(), 128 - R::BITS + from),
    }
}

#[inline(always)]
fn part_up(value: u128, by: u8) -> u64
    requires { by < 128 }
    ensures { result ≡ value / 2 ^ by % 2 ^ 64 }
{
    ((value >> by) % (1 << 64)) as u64
}

#[inline(always)]
fn part_down(value: u128, by: u8) -> u64
    requires { by < 128 }
    ensures { result ≡ value * 2 ^ by % 2 ^ 128 / 2 ^ 64 }
{
    ((value << by) >> 64) as u64
}

/// A word with the bits of a chunk from an index on.
#[inline(always)]
#[tactic(auto, using(crate::proofs::ChunkLemmas::placed_up_is, crate::proofs::ChunkLemmas::placed_down_is))]
pub fn placed<R: BitRegister>(direction: Direction, chunk: u64, from: u8) -> R
    requires { from < R.BITS }
    ensures { IsPlaced direction chunk from R.BITS (R.number result) }
{
    match direction {
        Direction::Ascending => R::from_value(u128::from(chunk) << from),
        Direction::Descending => {
            R::from_value(((u128::from(chunk) << 64) >> from) >> (128 - R::BITS))
        }
    }
}
