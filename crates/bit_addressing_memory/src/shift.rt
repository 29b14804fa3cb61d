//! Words cut from two words, one behind the other, by shifts: any index of theirs becomes index 0.

ghost use Rattle.std.specs.Prelude.{◌≡◌, ℕ, ◌+◌, ◌-◌, ◌<◌, ◌≤◌, false};
ghost use Rattle.bit_addressing_memory.specs.Memory.{indexed, read_by};
ghost use Rattle.bit_addressing_memory.specs.ShiftSteps.{AreShifted};
ghost use Rattle.bit_addressing_memory.specs.Straight.{Goes, IsJoined};

use crate::direction::Direction;
use bit_addressing_order::{BitRegister, Positions};

/// The word whose digits are those of `first` from the index `by` on, and then those of `next`. The
/// positions go in `direction`, as `direction_of` tells, and `by` is an index other than 0.
pub fn joined<R: BitRegister, P: Positions<R>>(direction: Direction, first: R, next: R, by: u8) -> R
    requires goes { Goes R.BITS P.position direction }
    requires some { 0 < by }
    requires within { by < R.BITS }
    ensures { IsJoined (read_by R.BitRegister P.position) first next result by }
{
    match direction {
        Direction::Ascending => shifted(first, next, by),
        Direction::Descending => shifted(next, first, R::BITS - by),
    }
}

/// The word with each digit moved up by so many indices: those that leave the word are dropped, and
/// the lowest are zero. The positions go in `direction`, and `by` is an index.
pub fn raised<R: BitRegister, P: Positions<R>>(direction: Direction, word: R, by: u8) -> R
    requires goes { Goes R.BITS P.position direction }
    requires within { by < R.BITS }
    ensures below { (i : ℕ) → i < by → indexed R.number P.position result i ≡ false }
    ensures raised { (i : ℕ) → by ≤ i → i < R.BITS → indexed R.number P.position result i
        ≡ indexed R.number P.position word (i - by) }
{
    if by == 0 {
        return word;
    }
    joined::<R, P>(direction, R::ZERO, word, R::BITS - by)
}

// The digits of `low` from the position `by` on, and then those of `high`.
fn shifted<R: BitRegister>(low: R, high: R, by: u8) -> R
    requires some { 0 < by }
    requires within { by < R.BITS }
    ensures { AreShifted R.BITS (R.number low) (R.number high) (R.number result) by }
{
    low.shr(by).or(high.shl(R::BITS - by))
}
