//! Chunks in another direction and in reverse, and digits of a word as a chunk.

ghost use Rattle.std.specs.Prelude.{◌≡◌, ℕ, ◌-◌, ◌<◌, ◌≤◌};
ghost use Rattle.bit_addressing_memory.specs.Memory.{reading_in};
ghost use Rattle.bit_addressing_memory.specs.Chunk.{IsFaced, IsPart, IsTurned};
ghost use Rattle.bit_addressing_memory.specs.declared.direction.Direction.TheVariants.{Ascending};

use crate::reversal::reversed;
use bit_addressing_memory::chunk::{lowered, part};
use bit_addressing_memory::{BitRegister, Direction, Lsb0, Straight};

/// The chunk of the direction `to` that has the bits of a chunk of the direction `from`, in the same places.
#[inline(always)]
#[tactic(auto, using(crate::proofs::TurnLemmas::faced_same, crate::proofs::TurnLemmas::faced_other))]
pub fn faced(from: Direction, to: Direction, chunk: u64) -> u64
    ensures { IsFaced from to chunk result }
{
    if from == to { chunk } else { reversed(chunk) }
}

/// The chunk whose first `count` bits, 1 to 64, are those of another in reverse.
#[inline(always)]
#[tactic(auto, using(crate::proofs::TurnLemmas::turned_is))]
pub fn turned(direction: Direction, chunk: u64, count: u8) -> u64
    requires some { 0 < count }
    requires few { count ≤ 64 }
    ensures { IsTurned direction chunk count result }
{
    lowered(direction, reversed(chunk), 64 - count)
}

// The digits of a word from one on, as many as a chunk has. A word of up to 64 is shifted as such a number.
#[inline(always)]
pub(crate) fn digits_from<R: BitRegister>(word: R, below: u8) -> u64
    requires { below < R.BITS }
    ensures { IsPart (reading_in R.BITS R.number (λ i. i)) word below R.BITS Ascending result }
{
    if R::BITS > 64 {
        return part::<R, Lsb0>(Straight::new(Direction::Ascending), word, below);
    }
    let digits = (word.value() % (1 << 64)) as u64;
    digits >> below
}
