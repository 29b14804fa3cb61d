//! Whether the positions of a word go straight with its indices: up or down, over the whole word.

ghost use Rattle.std.specs.Prelude.{◌≡◌, ◌<◌, ◌↔◌, IsTrue, MatchOption};
ghost use Rattle.bit_addressing_memory.specs.declared.direction.Direction.{Direction};
ghost use Rattle.bit_addressing_memory.specs.Chunk.{IsOwn};
ghost use Rattle.bit_addressing_memory.specs.Straight.{Goes, straight};

use bit_addressing_order::{BitRegister, Positions};
use std::alloc::AllocError;
use std::marker::PhantomData;

/// How positions go straight with the indices of a word.
#[derive(Clone, Copy, PartialEq, Eq, Debug)]
pub enum Direction {
    /// Each index is its own position.
    Ascending,
    /// Index 0 has the highest position, and each next index the position below.
    Descending,
}

/// That the positions go straight with the indices of a word, and in which direction.
#[derive(Copy)]
pub struct Straight<R: BitRegister, P: Positions<R>> {
    pub direction: Direction,
    register: PhantomData<R>,
    order: PhantomData<P>,
    ghost goes: { Goes R.BITS P.position direction },
}

impl<R: BitRegister, P: Positions<R>> Clone for Straight<R, P> {
    ghost use Rattle.std.specs.Prelude.{⊤};

    ghost is_clone = { λ straight copy. copy ≡ straight };

    ghost is_infallible = { λ _. ⊤ };

    fn clone(&self) -> Result<Self, AllocError> {
        Ok(*self)
    }
}

impl<R: BitRegister, P: Positions<R>> Straight<R, P> {
    /// The positions go in this direction.
    #[inline(always)]
    pub fn new(direction: Direction) -> Self
        requires { Goes R.BITS P.position direction }
        ensures { result.direction ≡ direction }
    {
        Self {
            direction,
            register: PhantomData,
            order: PhantomData,
        }
    }

    // The same, found anew, so that a compiler knows the direction where this was handed to a function out of line.
    #[inline(always)]
    pub(crate) fn again(self) -> Self
        ensures { result.direction ≡ self.direction }
    {
        match Self::find() {
            Some(straight) => straight,
            None => self,
        }
    }

    /// The direction in which the positions go, by `direction_of`: none where they go neither way.
    #[inline(always)]
    pub fn find() -> Option<Self>
        ensures { (direction : Direction) → Goes R.BITS P.position direction
            → MatchOption result ⊥ (λ straight. straight.direction ≡ direction) }
    {
        match direction_of::<R, P>() {
            Some(direction) => Some(Self::new(direction)),
            None => None,
        }
    }
}

/// The direction in which chunks of an order are had without a turn: that of its positions where they go straight, else up.
#[inline(always)]
pub fn direction_for<R: BitRegister, P: Positions<R>>() -> Direction
    ensures { IsOwn R.BITS P.position result }
{
    match Straight::<R, P>::find() {
        Some(straight) => straight.direction,
        None => Direction::Ascending,
    }
}

/// The same again, so that a compiler knows it in a function out of line that it was handed to.
#[inline(always)]
#[tactic(auto, using(crate::proofs::TransferLemmas::own_same))]
pub fn known_direction<R: BitRegister, P: Positions<R>>(direction: Direction) -> Direction
    requires { IsOwn R.BITS P.position direction }
    ensures { result ≡ direction }
{
    direction_for::<R, P>()
}

/// The direction in which the positions go with the indices: none where they go neither way over the
/// whole word. Each index is looked at.
pub fn direction_of<R: BitRegister, P: Positions<R>>() -> Option<Direction>
    ensures { (direction : Direction) → (result ≡ Some direction) ↔ Goes R.BITS P.position direction }
{
    if goes::<R, P>(Direction::Ascending) {
        return Some(Direction::Ascending);
    }
    if goes::<R, P>(Direction::Descending) {
        return Some(Direction::Descending);
    }
    None
}

/// Whether the positions go in this direction with the indices, over the whole word.
pub fn goes<R: BitRegister, P: Positions<R>>(direction: Direction) -> bool
    ensures { IsTrue result ↔ Goes R.BITS P.position direction }
{
    for index in 0..R::BITS {
        if P::position_of(index) != position_in::<R>(direction, index) {
            return false;
        }
    }
    true
}

// The position of an index where positions go in this direction.
fn position_in<R: BitRegister>(direction: Direction, index: u8) -> u8
    requires { index < R.BITS }
    ensures { result ≡ straight R.BITS direction index }
{
    match direction {
        Direction::Ascending => index,
        Direction::Descending => R::BITS - 1 - index,
    }
}
