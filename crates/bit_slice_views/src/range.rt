//! The six kinds of ranges, as parts of a list.

ghost use Rattle.std.specs.Prelude.{◌≡◌, ℕ, ◌+◌, ◌<◌, ◌≤◌, IfSome, IsSome, ◌↔◌};

use std::ops::{Range, RangeFrom, RangeFull, RangeInclusive, RangeTo, RangeToInclusive};

/// A range of indices of a list: one of the six kinds that Rust writes with `..`.
pub trait BitRange {
    ghost start: { Self → ℕ };

    // The index after the last one, in a list of so many.
    ghost end: { Self → ℕ → ℕ };

    /// The first index and the one after the last, where both lie in a list of `len` in that order.
    fn ends_in(&self, len: usize) -> Option<(usize, usize)>
        ensures variant { IsSome result ↔ ((start self.now ≤ end self.now len) × (end self.now len ≤ len)) }
        ensures value { IfSome result (λ ends. (ends.0 ≡ start self.now) × (ends.1 ≡ end self.now len)) };
}

// The two ends, where they lie in a list of `len` in that order.
fn checked(from: usize, upto: usize, len: usize) -> Option<(usize, usize)>
    ensures variant { IsSome result ↔ ((from ≤ upto) × (upto ≤ len)) }
    ensures value { IfSome result (λ ends. (ends.0 ≡ from) × (ends.1 ≡ upto)) }
{
    if from <= upto && upto <= len {
        Some((from, upto))
    } else {
        None
    }
}

impl BitRange for Range<usize> {
    ghost start = { λ range. range.start };

    ghost end = { λ range _. range.end };

    fn ends_in(&self, len: usize) -> Option<(usize, usize)> {
        checked(self.start, self.end, len)
    }
}

impl BitRange for RangeFrom<usize> {
    ghost start = { λ range. range.start };

    ghost end = { λ _ n. n };

    fn ends_in(&self, len: usize) -> Option<(usize, usize)> {
        checked(self.start, len, len)
    }
}

impl BitRange for RangeTo<usize> {
    ghost start = { λ _. 0 };

    ghost end = { λ range _. range.end };

    fn ends_in(&self, len: usize) -> Option<(usize, usize)> {
        checked(0, self.end, len)
    }
}

impl BitRange for RangeFull {
    ghost start = { λ _. 0 };

    ghost end = { λ _ n. n };

    fn ends_in(&self, len: usize) -> Option<(usize, usize)> {
        checked(0, len, len)
    }
}

impl BitRange for RangeInclusive<usize> {
    ghost use Rattle.std.specs.Range.{range_inclusive_start, range_inclusive_end};

    ghost start = { λ range. range_inclusive_start range };

    ghost end = { λ range _. range_inclusive_end range + 1 };

    fn ends_in(&self, len: usize) -> Option<(usize, usize)> {
        let last = *self.end();
        if last >= len {
            return None;
        }
        checked(*self.start(), last + 1, len)
    }
}

impl BitRange for RangeToInclusive<usize> {
    ghost start = { λ _. 0 };

    ghost end = { λ range _. range.end + 1 };

    fn ends_in(&self, len: usize) -> Option<(usize, usize)> {
        if self.end >= len {
            return None;
        }
        checked(0, self.end + 1, len)
    }
}
