//! Where two chunks differ.

ghost use Rattle.std.specs.Prelude.{◌≡◌, ℕ};
ghost use Rattle.bit_addressing_memory.specs.declared.direction.Direction.{Direction};
ghost use Rattle.bit_addressing_memory.specs.Chunk.{AgreeTo};

use bit_addressing_memory::Direction;

/// The first bit in which two chunks differ: 64 where they have the same bits.
#[inline(always)]
pub fn first_difference(direction: Direction, chunk: u64, other: u64) -> usize
    ensures { AgreeTo direction chunk other result }
{
    if chunk == other {
        return 64;
    }
    let differ = chunk ^ other;
    match direction {
        Direction::Ascending => differ.trailing_zeros() as usize,
        Direction::Descending => differ.leading_zeros() as usize,
    }
}
