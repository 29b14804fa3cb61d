//! The iterators over the places of a word, from both ends.

ghost use Rattle.std.specs.Prelude.{◌≡◌, ℕ, ◌+◌, ◌-◌, ◌<◌, ◌≤◌, ◌^◌, length, map, IfSome, Some, ⊤};
ghost use Rattle.std.specs.List.{range_with_len};
ghost use Rattle.std.specs.Iterator.{YieldsFirstBy, YieldsLastBy, item_count, at_most, UpTo};
ghost use Rattle.std.specs.Iterator.SizeHint.{IsWithinCount};

use crate::end::BitEnd;
use crate::index::BitIdx;
use crate::position::BitPos;
use crate::register::BitRegister;
use crate::selector::BitSel;
use std::alloc::AllocError;
use std::iter::FusedIterator;
use std::marker::{Model, PhantomData};

/// What a range goes over: the places that are the numbers below a limit.
pub trait Place: Copy {
    ghost number: { Self → ℕ };

    ghost limit: { ℕ };

    /// The place of this number, which is below the limit.
    fn of_number(place: u8) -> Self
        requires { place < limit }
        ensures { number result ≡ place };
}

impl<R: BitRegister> Place for BitIdx<R> {
    ghost number = { λ index. index };

    ghost limit = { R.BITS };

    fn of_number(place: u8) -> BitIdx<R> {
        BitIdx::new_unchecked(place)
    }
}

impl<R: BitRegister> Place for BitEnd<R> {
    ghost number = { λ end. end };

    ghost limit = { R.BITS + 1 };

    fn of_number(place: u8) -> BitEnd<R> {
        BitEnd::new_unchecked(place)
    }
}

impl<R: BitRegister> Place for BitPos<R> {
    ghost number = { λ position. position };

    ghost limit = { R.BITS };

    fn of_number(place: u8) -> BitPos<R> {
        BitPos::new_unchecked(place)
    }
}

/// The indices of a range, ascending.
pub type IndexRange<R> = PlaceRange<BitIdx<R>>;

/// The ends of ranges from one index on, ascending.
pub type EndRange<R> = PlaceRange<BitEnd<R>>;

/// The places of a range, ascending; a contract sees it as the list of the numbers of those that
/// are left.
///
/// It is exact in length, gives each place once from either end, and then `None` for good.
#[derive(Drop)]
pub struct PlaceRange<P: Place> {
    from: u8,
    upto: u8,
    place: PhantomData<P>,
}

impl<P: Place> Model for PlaceRange<P> {
    ghost use Rattle.std.specs.Prelude.{ℕ, List, ◌-◌, ◌≤◌};
    ghost use Rattle.std.specs.List.{range_with_len};

    ghost Value = { List ℕ };

    ghost view = { λ range. range_with_len range.from (range.upto - range.from) };

    ghost invariant = { λ range. (range.from ≤ range.upto) × (range.upto ≤ P.limit) };
}

impl<P: Place> PlaceRange<P> {
    // The places from one number up to before another.
    pub(crate) fn new(from: u8, upto: u8) -> PlaceRange<P>
        requires order { from ≤ upto }
        requires within { upto ≤ P.limit }
        ensures { result ≡ range_with_len from (upto - from) }
    {
        PlaceRange {
            from,
            upto,
            place: PhantomData,
        }
    }
}

impl<P: Place> Clone for PlaceRange<P> {
    ghost is_clone = { λ range copy. copy ≡ range };

    ghost is_infallible = { λ _. ⊤ };

    fn clone(&self) -> Result<Self, AllocError> {
        Ok(PlaceRange::new(self.from, self.upto))
    }
}

#[tactic(auto, using(crate::proofs::RangeLemmas::ends_of_range))]
impl<P: Place> Iterator for PlaceRange<P> {
    type Item = P;

    ghost next_gives = { YieldsFirstBy P.number (λ rest. rest) };

    ghost remaining = { item_count (λ rest. rest) };

    fn next(&mut self) -> Option<P> {
        if self.from == self.upto {
            return None;
        }
        let first = self.from;
        self.from = first + 1;
        Some(P::of_number(first))
    }

    fn size_hint(&self) -> (usize, Option<usize>)
        ensures lower { IsWithinCount result.0 (at_most (length self.now)) }
        ensures upper { IfSome result.1 (UpTo (at_most (length self.now))) }
        ensures exact { result ≡ (length self.now, Some (length self.now)) }
    {
        let places = self.len();
        (places, Some(places))
    }
}

#[tactic(auto, using(crate::proofs::RangeLemmas::ends_of_range))]
impl<P: Place> DoubleEndedIterator for PlaceRange<P> {
    ghost next_back_gives = { YieldsLastBy P.number (λ rest. rest) };

    fn next_back(&mut self) -> Option<P> {
        if self.from == self.upto {
            return None;
        }
        let last = self.upto - 1;
        self.upto = last;
        Some(P::of_number(last))
    }
}

#[tactic(auto, using(crate::proofs::RangeLemmas::ends_of_range))]
impl<P: Place> ExactSizeIterator for PlaceRange<P> {
    fn len(&self) -> usize {
        (self.upto - self.from) as usize
    }
}

impl<P: Place> FusedIterator for PlaceRange<P> {}

/// The selectors of every position, ascending; a contract sees it as the list of the numbers of
/// those that are left.
///
/// It is exact in length, gives each selector once from either end, and then `None` for good.
#[derive(Drop)]
pub struct SelectorRange<R: BitRegister> {
    positions: PlaceRange<BitPos<R>>,
}

impl<R: BitRegister> Model for SelectorRange<R> {
    ghost use Rattle.std.specs.Prelude.{ℕ, List, map, ◌^◌};

    ghost Value = { List ℕ };

    ghost view = { λ range. map (λ position. 2 ^ position) range.positions };
}

impl<R: BitRegister> SelectorRange<R> {
    // The selectors of every position.
    pub(crate) fn new() -> SelectorRange<R>
        ensures { result ≡ map (λ position. 2 ^ position) (range_with_len 0 R.BITS) }
    {
        SelectorRange {
            positions: PlaceRange::new(0, R::BITS),
        }
    }
}

impl<R: BitRegister> Clone for SelectorRange<R> {
    ghost is_clone = { λ range copy. copy ≡ range };

    ghost is_infallible = { λ _. ⊤ };

    fn clone(&self) -> Result<Self, AllocError> {
        let positions = self.positions.clone()?;
        Ok(SelectorRange { positions })
    }
}

impl<R: BitRegister> Iterator for SelectorRange<R> {
    type Item = BitSel<R>;

    ghost next_gives = { YieldsFirstBy R.number (λ rest. rest) };

    ghost remaining = { item_count (λ rest. rest) };

    fn next(&mut self) -> Option<BitSel<R>> {
        self.positions.next().map(|position| position.select())
    }

    fn size_hint(&self) -> (usize, Option<usize>)
        ensures lower { IsWithinCount result.0 (at_most (length self.now)) }
        ensures upper { IfSome result.1 (UpTo (at_most (length self.now))) }
        ensures exact { result ≡ (length self.now, Some (length self.now)) }
    {
        let selectors = self.len();
        (selectors, Some(selectors))
    }
}

impl<R: BitRegister> DoubleEndedIterator for SelectorRange<R> {
    ghost next_back_gives = { YieldsLastBy R.number (λ rest. rest) };

    fn next_back(&mut self) -> Option<BitSel<R>> {
        self.positions.next_back().map(|position| position.select())
    }
}

impl<R: BitRegister> ExactSizeIterator for SelectorRange<R> {
    fn len(&self) -> usize {
        self.positions.len()
    }
}

impl<R: BitRegister> FusedIterator for SelectorRange<R> {}
