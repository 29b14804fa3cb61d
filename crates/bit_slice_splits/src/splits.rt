//! The parts of a window between the places where a predicate answers true, one after another, from both ends.

ghost use Rattle.std.specs.Prelude.{◌≡◌, ◌<◌, ◌≤◌, ◌&&◌, Bool, true, false, length, IfSome};
ghost use Rattle.std.specs.Iterator.{at_most, MakesProgress, UpTo};
ghost use Rattle.std.specs.Iterator.SizeHint.{IsWithinCount};
ghost use Rattle.bit_addressing_memory.specs.Memory.{piece, read_by};
ghost use Rattle.bit_slice_views.specs.View.{view_bits, view_head};
ghost use Rattle.bit_slice_splits.specs.Ways.{bounds_up_to, most_left, EndsFrom, GivesPart, PartsFrom};

use crate::search::asked_in;
use crate::ways::{FromBack, FromFront, InclusiveBack, InclusiveFront, SplitEnd};
use bit_addressing_memory::{BitOrder, BitRegister};
use bit_slice_views::{BitSlice, Bits};
use std::marker::{Model, PhantomData};

/// The parts of a window that are left; a contract sees the bits not yet split, the index of the first of them in its
/// word, the predicate, and whether no part is left.
///
/// After the last part it gives `None` for good.
#[derive(Drop)]
pub struct Splits<'a, T: BitRegister, O: BitOrder<T>, F, A: SplitEnd, B: SplitEnd> {
    view: BitSlice<'a, T, O>,
    f: F,
    done: bool,
    ways: PhantomData<(A, B)>,
}

/// The parts between the places where the predicate answers true.
pub type Split<'a, T, O, F> = Splits<'a, T, O, F, FromFront, FromBack>;

/// The same from the back on.
pub type RSplit<'a, T, O, F> = Splits<'a, T, O, F, FromBack, FromFront>;

/// The parts that end with the bit where the predicate answers true.
pub type SplitInclusive<'a, T, O, F> = Splits<'a, T, O, F, InclusiveFront, InclusiveBack>;

impl<'a, T: BitRegister, O: BitOrder<T>, F, A: SplitEnd, B: SplitEnd> Model
    for Splits<'a, T, O, F, A, B> {
    ghost use Rattle.bit_addressing_memory.specs.Memory.{read_by};
    ghost use Rattle.bit_slice_views.specs.View.{view_bits, view_head};
    ghost use Rattle.bit_slice_splits.specs.Ways.{SplitLeft};

    ghost Value = { SplitLeft F };

    ghost view = { λ splits. record {
      bits = view_bits (read_by T.BitRegister O.position) splits.view;
      head = view_head splits.view;
      callee = splits.f;
      done = splits.done;
    } };
}

impl<'a, T: BitRegister, O: BitOrder<T>, F, A: SplitEnd, B: SplitEnd> Splits<'a, T, O, F, A, B> {
    /// The parts of a window, which live as long as its words; none where `done` is true.
    pub fn new(view: BitSlice<'a, T, O>, f: F, done: bool) -> Splits<'a, T, O, F, A, B>
        ensures bits { result.bits ≡ view_bits (read_by T.BitRegister O.position) view.entry }
        ensures head { result.head ≡ view_head view.entry }
        ensures callee { result.callee ≡ f }
        ensures done { result.done ≡ done }
    {
        Splits {
            view,
            f,
            done,
            ways: PhantomData,
        }
    }

    // How many parts come at most.
    pub(crate) fn most(&self) -> usize
        ensures { result ≡ most_left (A.IS_INCLUSIVE && B.IS_INCLUSIVE) self.now }
    {
        if self.done {
            return 0;
        }
        let (_, _, left) = self.view.parts();
        if A::IS_INCLUSIVE && B::IS_INCLUSIVE {
            left.max(1)
        } else {
            left + 1
        }
    }

    // All bits that are left, as the last part.
    pub(crate) fn finish(&mut self) -> Option<BitSlice<'a, T, O>>
        ensures { GivesPart (view_bits (read_by T.BitRegister O.position)) view_head EndsFrom self.old result
            self.new }
    {
        if self.done {
            return None;
        }
        self.done = true;
        Some(self.view)
    }
}

impl<
    'a,
    T: BitRegister + 'a,
    O: BitOrder<T>,
    F: FnMut(usize, &bool) -> bool + Drop,
    A: SplitEnd,
    B: SplitEnd,
> Splits<'a, T, O, F, A, B> {
    // The part that comes off at an end, or nothing where none is left.
    fn take_part<E: SplitEnd>(&mut self) -> Option<BitSlice<'a, T, O>>
        requires { F.IsAlwaysCallable self.old.callee }
        ensures steps { GivesPart (view_bits (read_by T.BitRegister O.position)) view_head
            (PartsFrom T.BITS E.way F.FnMut) self.old result self.new }
        ensures goes { (inclusive : Bool) → (inclusive ≡ true → E.IS_INCLUSIVE ≡ true)
            → MakesProgress (λ splits. F.IsAlwaysCallable splits.callee) (λ s. at_most (most_left inclusive s))
            self.old result self.new }
    {
        if self.done {
            return None;
        }
        let view = self.view;
        let asked = asked_in::<BitSlice<'a, T, O>, F, E>(&view, &mut self.f);
        let part = E::part(view.len(), asked);
        self.view = view.part(part.rest, part.rest_len);
        self.done = part.last;
        Some(view.part(part.start, part.len))
    }
}

impl<
    'a,
    T: BitRegister + 'a,
    O: BitOrder<T>,
    F: FnMut(usize, &bool) -> bool + Drop,
    A: SplitEnd,
    B: SplitEnd,
> Iterator for Splits<'a, T, O, F, A, B> {
    type Item = BitSlice<'a, T, O>;

    ghost can_next = { λ splits. F.IsAlwaysCallable splits.callee };

    ghost next_gives = { GivesPart (view_bits (read_by T.BitRegister O.position)) view_head
        (PartsFrom T.BITS A.way F.FnMut) };

    ghost remaining = { λ s. at_most (most_left (A.IS_INCLUSIVE && B.IS_INCLUSIVE) s) };

    fn next(&mut self) -> Option<BitSlice<'a, T, O>> {
        self.take_part::<A>()
    }

    fn size_hint(&self) -> (usize, Option<usize>)
        ensures lower { IsWithinCount result.0
            (at_most (most_left (A.IS_INCLUSIVE && B.IS_INCLUSIVE) self.now)) }
        ensures upper { IfSome result.1
            (UpTo (at_most (most_left (A.IS_INCLUSIVE && B.IS_INCLUSIVE) self.now))) }
        ensures exact { result ≡ bounds_up_to (most_left (A.IS_INCLUSIVE && B.IS_INCLUSIVE) self.now) }
    {
        let most = self.most();
        (most.min(1), Some(most))
    }
}

impl<
    'a,
    T: BitRegister + 'a,
    O: BitOrder<T>,
    F: FnMut(usize, &bool) -> bool + Drop,
    A: SplitEnd,
    B: SplitEnd,
> DoubleEndedIterator for Splits<'a, T, O, F, A, B> {
    ghost can_next_back = { λ splits. F.IsAlwaysCallable splits.callee };

    ghost next_back_gives = { GivesPart (view_bits (read_by T.BitRegister O.position)) view_head
        (PartsFrom T.BITS B.way F.FnMut) };

    fn next_back(&mut self) -> Option<BitSlice<'a, T, O>> {
        self.take_part::<B>()
    }
}
