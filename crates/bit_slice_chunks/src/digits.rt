//! Numbers and the chunks that hold their digits: the lowest first in one direction, the highest in the other.

ghost use Rattle.std.specs.Prelude.{◌≡◌, ◌<◌, ◌≤◌};
ghost use Rattle.bit_addressing_memory.specs.Chunk.{digits_in, HoldsDigits};

use bit_addressing_memory::Direction;

/// The number whose digits the first `count` bits of a chunk are, 1 to 64, where zeros lie behind them.
#[inline(always)]
pub fn digits_of(direction: Direction, chunk: u64, count: u8) -> u64
    requires some { 0 < count }
    requires few { count ≤ 64 }
    ensures { result ≡ digits_in direction count chunk }
{
    match direction {
        Direction::Ascending => chunk,
        Direction::Descending => chunk >> (64 - count),
    }
}

/// A chunk whose first `count` bits, 1 to 64, are the lowest digits of a number.
#[inline(always)]
#[tactic(auto, using(crate::proofs::DigitsLemmas::holds_up, crate::proofs::DigitsLemmas::holds_down))]
pub fn chunk_of(direction: Direction, digits: u64, count: u8) -> u64
    requires some { 0 < count }
    requires few { count ≤ 64 }
    ensures { HoldsDigits direction digits count result }
{
    match direction {
        Direction::Ascending => digits,
        Direction::Descending => digits << (64 - count),
    }
}
