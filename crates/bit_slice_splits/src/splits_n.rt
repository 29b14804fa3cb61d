//! So many parts of a window at most.

ghost use Rattle.std.specs.Prelude.{◌≡◌, ◌&&◌, false, min, IfSome};
ghost use Rattle.std.specs.Iterator.{at_most, UpTo};
ghost use Rattle.std.specs.Iterator.SizeHint.{IsWithinCount};
ghost use Rattle.bit_addressing_memory.specs.Memory.{read_by};
ghost use Rattle.bit_slice_views.specs.View.{view_bits, view_head};
ghost use Rattle.bit_slice_splits.specs.Ways.{bounds_up_to, most_left, PartsUpTo};

use crate::splits::Splits;
use crate::ways::{FromBack, FromFront, SplitEnd};
use bit_addressing_memory::{BitOrder, BitRegister};
use bit_slice_views::BitSlice;
use std::marker::Model;

/// So many parts of a window at most, the last of which has all that is left; a contract sees the parts and how many may
/// still come.
///
/// After the last part it gives `None` for good.
#[derive(Drop)]
pub struct SplitsN<'a, T: BitRegister, O: BitOrder<T>, F, A: SplitEnd> {
    parts: Splits<'a, T, O, F, A, A>,
    count: usize,
}

/// So many parts from the front on.
pub type SplitN<'a, T, O, F> = SplitsN<'a, T, O, F, FromFront>;

/// So many parts from the back on.
pub type RSplitN<'a, T, O, F> = SplitsN<'a, T, O, F, FromBack>;

impl<'a, T: BitRegister, O: BitOrder<T>, F, A: SplitEnd> Model for SplitsN<'a, T, O, F, A> {
    ghost use Rattle.bit_slice_splits.specs.Ways.{SplitNLeft};

    ghost Value = { SplitNLeft F };

    ghost view = { λ splits. record { parts = splits.parts; count = splits.count } };
}

impl<'a, T: BitRegister, O: BitOrder<T>, F, A: SplitEnd> SplitsN<'a, T, O, F, A> {
    /// At most `count` parts of a window.
    pub fn new(view: BitSlice<'a, T, O>, count: usize, f: F) -> SplitsN<'a, T, O, F, A>
        ensures bits { result.parts.bits ≡ view_bits (read_by T.BitRegister O.position) view.entry }
        ensures head { result.parts.head ≡ view_head view.entry }
        ensures callee { result.parts.callee ≡ f }
        ensures done { result.parts.done ≡ false }
        ensures count { result.count ≡ count }
    {
        SplitsN {
            parts: Splits::new(view, f, false),
            count,
        }
    }
}

impl<
    'a,
    T: BitRegister + 'a,
    O: BitOrder<T>,
    F: FnMut(usize, &bool) -> bool + Drop,
    A: SplitEnd,
> Iterator for SplitsN<'a, T, O, F, A> {
    type Item = BitSlice<'a, T, O>;

    ghost can_next = { λ splits. F.IsAlwaysCallable splits.parts.callee };

    ghost next_gives = { PartsUpTo (view_bits (read_by T.BitRegister O.position)) view_head T.BITS A.way F.FnMut };

    ghost remaining = { λ s. at_most (min s.count (most_left (A.IS_INCLUSIVE && A.IS_INCLUSIVE) s.parts)) };

    fn next(&mut self) -> Option<BitSlice<'a, T, O>> {
        let count = self.count;
        if count == 0 {
            return None;
        }
        self.count = count - 1;
        if count == 1 {
            self.parts.finish()
        } else {
            self.parts.next()
        }
    }

    fn size_hint(&self) -> (usize, Option<usize>)
        ensures lower { IsWithinCount result.0
            (at_most (min self.now.count (most_left (A.IS_INCLUSIVE && A.IS_INCLUSIVE) self.now.parts))) }
        ensures upper { IfSome result.1
            (UpTo (at_most (min self.now.count (most_left (A.IS_INCLUSIVE && A.IS_INCLUSIVE) self.now.parts)))) }
        ensures exact { result
            ≡ bounds_up_to (min self.now.count (most_left (A.IS_INCLUSIVE && A.IS_INCLUSIVE) self.now.parts)) }
    {
        let most = self.count.min(self.parts.most());
        (most.min(1), Some(most))
    }
}
