//! Ranges of pointers: from one bit up to before another.

ghost use Rattle.std.specs.Prelude.{◌≡◌, ⊤, ◌+◌, ◌^◌, ◌<◌, ◌↔◌, IsTrue, IfSome, length};
ghost use Rattle.std.specs.Prelude.{pos, ◌+ℤ◌, ◌-ℤ◌, ◌≤ℤ◌, ◌<ℤ◌, FitsSigned};
ghost use Rattle.std.specs.Int.{w64};
ghost use Rattle.std.specs.Iterator.{MakesProgress, YieldsFirst, YieldsLast, UpTo, item_count};
ghost use Rattle.std.specs.Iterator.SizeHint.{IsWithinCount};
ghost use Rattle.std.specs.Option.{option_to_list};
ghost use Rattle.bit_addressing.specs.Pointer.{whole_place};
ghost use Rattle.bit_addressing.specs.PointerRange.{end_of, pointers_of};

use crate::pointer::{BitPtr, Dangling, distance};
use bit_addressing_order::{BitOrder, BitRegister};
use std::iter::FusedIterator;
use std::marker::Model;
use std::ops::{Bound, Range, RangeBounds};

/// The pointers from one up to before another, ascending. A contract sees the first, and how many there
/// are.
///
/// It gives each pointer once, from either end, and then `None` for good.
#[derive(Drop)]
#[derive_where(Clone, PartialEq, Eq, Hash)]
pub struct BitPtrRange<R: BitRegister, O: BitOrder<R>> {
    start: BitPtr<R, O>,
    end: BitPtr<R, O>,
}

impl<R: BitRegister, O: BitOrder<R>> Model for BitPtrRange<R, O> {
    ghost use Rattle.std.proofs.Common.{ap};
    ghost use Rattle.bit_addressing.specs.PointerRange.{PointerRange, IsRange, bits_between, end_of};
    ghost use Rattle.bit_addressing.specs.PointerRangeLaws.{end_is};

    ghost Value = { PointerRange };

    ghost view = { λ range. record { start = range.start; len = bits_between R.BITS range.start range.end } };

    ghost invariant = { λ range. IsRange R.BITS range.start range.end };

    ghost inverse = { λ value. record { start = value.start; end = end_of R.BITS value } };

    ghost inverse_ok = { λ range h. ap (λ end. record { start = range.start; end = end })
        (end_is R.BITS range.start range.end h.end_bit h.order) };
}

/// The range that has no pointer and begins nowhere in particular.
///
/// In bitvec it is a constant of the type itself; here the trait is in scope where it is named.
pub trait EmptyRange {
    ghost EMPTY: { Self };

    /// From word 0, bit 0 up to before it.
    const EMPTY: Self;
}

impl<R: BitRegister, O: BitOrder<R>> EmptyRange for BitPtrRange<R, O> {
    ghost use Rattle.std.specs.Prelude.{pos};

    ghost EMPTY = { record { start = record { word = pos 0; bit = 0 }; len = 0 } };

    const EMPTY: Self = BitPtrRange {
        start: BitPtr::DANGLING,
        end: BitPtr::DANGLING,
    };
}

impl<R: BitRegister, O: BitOrder<R>> Default for BitPtrRange<R, O> {
    ghost use Rattle.std.specs.Prelude.{◌≡◌, pos};

    ghost is_default = { λ range. range ≡ record { start = record { word = pos 0; bit = 0 }; len = 0 } };

    fn default() -> Self {
        BitPtrRange::EMPTY
    }
}

// Make and read.
impl<R: BitRegister, O: BitOrder<R>> BitPtrRange<R, O> {
    /// Whether `from_range` may be called: whether the start is not past the end, and an `isize` counts the bits
    /// between.
    pub fn is_range(range: &Range<BitPtr<R, O>>) -> bool
        ensures { IsTrue result ↔ ((whole_place R.BITS range.now.start ≤ℤ whole_place R.BITS range.now.end)
            × FitsSigned w64 (whole_place R.BITS range.now.end -ℤ whole_place R.BITS range.now.start)) }
    {
        let on = bits_to(range.start, range.end);
        on >= 0 && on <= isize::MAX as i128
    }

    /// The pointers of a range whose start is not past its end, and whose bits an `isize` counts.
    #[tactic(auto, using(crate::proofs::PointerRangeLemmas::stays_here))]
    pub fn from_range(range: Range<BitPtr<R, O>>) -> BitPtrRange<R, O>
        requires order { whole_place R.BITS range.start ≤ℤ whole_place R.BITS range.end }
        requires fits { FitsSigned w64 (whole_place R.BITS range.end -ℤ whole_place R.BITS range.start) }
        ensures start { result.start ≡ range.start }
        ensures len { pos result.len ≡ whole_place R.BITS range.end -ℤ whole_place R.BITS range.start }
    {
        let (word, bit) = range.start.raw_parts();
        let (end_word, end_bit) = range.end.raw_parts();
        BitPtrRange {
            start: BitPtr::new(word, bit),
            end: BitPtr::new(end_word, end_bit),
        }
    }

    /// The same range as the first pointer and the one before which it ends.
    pub fn into_range(self) -> Range<BitPtr<R, O>>
        ensures start { result.start ≡ self.start }
        ensures end { result.end ≡ end_of R.BITS self }
    {
        self.start()..self.end()
    }

    /// Whether a pointer is one of the range's.
    pub fn contains(&self, pointer: &BitPtr<R, O>) -> bool
        ensures { IsTrue result ↔ ((whole_place R.BITS self.now.start ≤ℤ whole_place R.BITS pointer.now)
            × (whole_place R.BITS pointer.now <ℤ (whole_place R.BITS self.now.start +ℤ pos self.now.len))) }
    {
        let on = bits_to(self.start(), *pointer);
        on >= 0 && on < self.bits_left() as i128
    }

    /// The pointer that the range begins with.
    pub fn start(&self) -> BitPtr<R, O>
        ensures { result ≡ self.now.start }
    {
        self.ends().0
    }

    /// The pointer before which it ends.
    pub fn end(&self) -> BitPtr<R, O>
        ensures { result ≡ end_of R.BITS self.now }
    {
        self.ends().1
    }

    /// Whether it has no pointer.
    pub fn is_empty(&self) -> bool
        ensures { IsTrue result ↔ (self.now.len ≡ 0) }
    {
        self.bits_left() == 0
    }

    // The pointer that the range begins with, and the one before which it ends.
    #[tactic(auto, using(crate::proofs::PointerRangeLemmas::end_seen))]
    fn ends(&self) -> (BitPtr<R, O>, BitPtr<R, O>)
        ensures start { result.0 ≡ self.now.start }
        ensures end { result.1 ≡ end_of R.BITS self.now }
    {
        (self.start, self.end)
    }

    // How many pointers it has.
    fn bits_left(&self) -> usize
        ensures value { result ≡ self.now.len }
        ensures small { result < 2 ^ 63 }
    {
        bits_to(self.start, self.end) as usize
    }
}

#[tactic(auto, using(crate::proofs::PointerLemmas::steps_from_front, crate::proofs::PointerRangeLemmas::ends_of_pointers))]
impl<R: BitRegister, O: BitOrder<R>> Iterator for BitPtrRange<R, O> {
    type Item = BitPtr<R, O>;

    ghost next_gives = { YieldsFirst (pointers_of R.BITS) };

    ghost remaining = { item_count (pointers_of R.BITS) };

    fn next(&mut self) -> Option<BitPtr<R, O>>
        ensures steps { YieldsFirst (pointers_of R.BITS) self.old result self.new }
        ensures goes { MakesProgress (λ _. ⊤) (item_count (pointers_of R.BITS)) self.old result self.new }

        // Where the range ends stays, so one that is spent begins there, too.
        ensures end { end_of R.BITS self.new ≡ end_of R.BITS self.old }
        ensures left { self.new.len + length (option_to_list result) ≡ self.old.len }
    {
        if self.bits_left() == 0 {
            return None;
        }
        let first = self.start;
        self.start = self.start.add(1);
        Some(first)
    }

    fn size_hint(&self) -> (usize, Option<usize>)
        ensures lower { IsWithinCount result.0 (item_count (pointers_of R.BITS) self.now) }
        ensures upper { IfSome result.1 (UpTo (item_count (pointers_of R.BITS) self.now)) }
        ensures exact { result ≡ (self.now.len, Some self.now.len) }
    {
        let len = self.len();
        (len, Some(len))
    }
}

#[tactic(auto, using(crate::proofs::PointerLemmas::steps_from_back))]
impl<R: BitRegister, O: BitOrder<R>> DoubleEndedIterator for BitPtrRange<R, O> {
    ghost next_back_gives = { YieldsLast (pointers_of R.BITS) };

    fn next_back(&mut self) -> Option<BitPtr<R, O>>
        ensures steps { YieldsLast (pointers_of R.BITS) self.old result self.new }
        ensures goes { MakesProgress (λ _. ⊤) (item_count (pointers_of R.BITS)) self.old result self.new }

        // Where the range begins stays, so one that is spent ends there, too.
        ensures start { self.new.start ≡ self.old.start }
        ensures left { self.new.len + length (option_to_list result) ≡ self.old.len }
    {
        if self.bits_left() == 0 {
            return None;
        }
        self.end = self.end.sub(1);
        Some(self.end)
    }
}

#[tactic(auto, using(crate::proofs::PointerRangeLemmas::ends_of_pointers))]
impl<R: BitRegister, O: BitOrder<R>> ExactSizeIterator for BitPtrRange<R, O> {
    fn len(&self) -> usize {
        self.bits_left()
    }
}

impl<R: BitRegister, O: BitOrder<R>> FusedIterator for BitPtrRange<R, O> {}

#[tactic(auto, using(crate::proofs::PointerRangeLemmas::end_seen))]
impl<R: BitRegister, O: BitOrder<R>> RangeBounds<BitPtr<R, O>> for BitPtrRange<R, O> {
    ghost use Rattle.std.specs.Prelude.{⊤};
    ghost use Rattle.std.specs.declared.ops.Bound.TheVariants.{Included, Excluded};
    ghost use Rattle.bit_addressing.specs.PointerRange.{end_of};

    ghost has_bounds = { λ _. ⊤ };

    ghost start_bound = { λ range. Included range.start };

    ghost end_bound = { λ range. Excluded (end_of R.BITS range) };

    fn start_bound(&self) -> Bound<&BitPtr<R, O>> {
        Bound::Included(&self.start)
    }

    fn end_bound(&self) -> Bound<&BitPtr<R, O>> {
        Bound::Excluded(&self.end)
    }
}

// How many bits on from one pointer another lies.
fn bits_to<R: BitRegister, O: BitOrder<R>>(from: BitPtr<R, O>, to: BitPtr<R, O>) -> i128
    ensures { result ≡ whole_place R.BITS to -ℤ whole_place R.BITS from }
{
    let (word, bit) = from.raw_parts();
    let (to_word, to_bit) = to.raw_parts();
    distance::<R>(word, bit, to_word, to_bit)
}
