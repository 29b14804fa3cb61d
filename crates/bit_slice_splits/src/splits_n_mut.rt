//! So many parts of a writable window at most, of which one is lent at a time.

ghost use Rattle.std.specs.Prelude.{◌≡◌, ◌<◌, ◌≤◌, ◌↔◌, true, false, IsTrue, IsSome, IfSome};
ghost use Rattle.std.specs.Borrow.{sem};
ghost use Rattle.std.specs.Iterator.{SkipsThenYields};
ghost use Rattle.bit_addressing_memory.specs.Memory.{read_by};
ghost use Rattle.bit_slice_splits.specs.Lending.{at_most_row, LendsNext};
ghost use Rattle.bit_slice_splits.specs.SplitsMut.{parts_callee, parts_count, parts_done, parts_found, parts_loan};
ghost use Rattle.bit_slice_splits.specs.SplitsMut.{parts_most, parts_view, KeepsWindow, LiesIn, SplitsAll};
ghost use Rattle.bit_slice_splits.specs.Takes.{parts_state, TakesNth, TakesUpTo};

use crate::splits_mut::SplitsMut;
use crate::ways::{FromBack, FromFront, SplitEnd};
use bit_addressing_memory::BitRegister;
use bit_slice_views::Bits;
use bit_slice_views_mut::{BitsMut, BitsWindow};

/// Stands for the other end where so many parts come at most, all from one end.
pub struct AtMost;

/// So many parts at most from the front on, the last of which has all that is left.
pub type SplitNMut<'s, V, F> = SplitsMut<'s, V, F, FromFront, AtMost>;

/// The same from the back on.
pub type RSplitNMut<'s, V, F> = SplitsMut<'s, V, F, FromBack, AtMost>;

impl<'s, V: BitsWindow, F: FnMut(usize, &bool) -> bool + Drop, A: SplitEnd> SplitsMut<
    's,
    V,
    F,
    A,
    AtMost,
> {
    // ---- make

    /// At most `count` parts of a window.
    pub fn up_to(of: &'s mut V, count: usize, f: F) -> SplitsMut<'s, V, F, A, AtMost>
        ensures same_reference { parts_loan result ≡ of.entry.ghost_name }
        ensures parts { SplitsAll (read_by V.Store.BitRegister V.Order.position) V.lender V.words V.place
            V.bits V.frame of.old f result }
        ensures done { parts_done result ≡ false }
        ensures count { parts_most result ≡ count }
    {
        let mut parts = SplitsMut::new(of, f, false);
        parts.most = count;
        parts
    }

    // ---- look for

    // Looks for the next part, and tells whether there is one: `part_mut` lends it then.
    fn seek_next(&mut self) -> bool
        requires callable { F.IsAlwaysCallable (parts_callee self.old) }
        requires lies { LiesIn V.Store.BITS V.words self.old }
        ensures parts { TakesUpTo (read_by V.Store.BitRegister V.Order.position) (V.words (parts_view self.old))
            A.way F.FnMut (parts_state self.old)
            (parts_found (read_by V.Store.BitRegister V.Order.position) V.words result self.new)
            (parts_state self.new) }
        ensures found { IsTrue result ↔ ((0 < parts_most self.old) × (parts_done self.old ≡ false)) }
        ensures shorter { IsTrue result → parts_count self.old ≤ parts_count self.new → parts_done self.new ≡ true }
        ensures keeps { KeepsWindow V.lender V.words self.old self.new }
        ensures callable_still { F.IsAlwaysCallable (parts_callee self.new) }
        ensures lies_still { LiesIn V.Store.BITS V.words self.new }
    {
        let most = self.most;
        if most == 0 {
            return false;
        }
        self.most = most - 1;
        if most == 1 {
            self.seek_rest()
        } else {
            self.seek::<A>()
        }
    }

    // Takes `k` parts off and looks for the next one, and tells whether there is one: `part_mut` lends it then.
    fn seek_nth_next(&mut self, k: usize) -> bool
        requires callable { F.IsAlwaysCallable (parts_callee self.old) }
        requires lies { LiesIn V.Store.BITS V.words self.old }
        ensures parts { SkipsThenYields (TakesUpTo (read_by V.Store.BitRegister V.Order.position)
            (V.words (parts_view self.old)) A.way F.FnMut) (parts_state self.old) k
            (parts_found (read_by V.Store.BitRegister V.Order.position) V.words result self.new)
            (parts_state self.new) }
        ensures going { IsTrue result → parts_done self.old ≡ false }
        ensures shorter { IsTrue result → parts_count self.old ≤ parts_count self.new → parts_done self.new ≡ true }
        ensures keeps { KeepsWindow V.lender V.words self.old self.new }
        ensures callable_still { F.IsAlwaysCallable (parts_callee self.new) }
        ensures lies_still { LiesIn V.Store.BITS V.words self.new }
    {
        let mut passed = 0;
        while passed < k {
            if !self.seek_next() {
                return false;
            }
            passed += 1;
        }
        self.seek_next()
    }

    // ---- lend

    /// The next part, to write. The last that may come has all that is left.
    pub fn next_mut(&mut self) -> Option<&mut V>
        requires callable { F.IsAlwaysCallable (parts_callee self.old) }
        requires lies { LiesIn V.Store.BITS V.words self.old }
        ensures variant { IsSome result ↔ ((0 < parts_most self.old) × (parts_done self.old ≡ false)) }
        ensures words { IfSome result (λ part. V.words part.now ≡ V.words (parts_view self.old)) }
        ensures lender { IfSome result (λ part. V.lender part.now ≡ V.lender (parts_view self.old)) }
        ensures* lends { sem 𝓛 (LendsNext V.row F.row A.row at_most_row V.Store.row V.Order.row V.lender V.words V.place
            V.bits F.FnMut (TakesUpTo (read_by V.Store.BitRegister V.Order.position)
            (V.words (parts_view self.old)) A.way F.FnMut)
            self.entry result) }
    {
        if self.seek_next() {
            Some(self.part_mut())
        } else {
            None
        }
    }

    /// Passes over `k` parts and lends the next one, to write, as `k + 1` calls of `next_mut` do. Where no
    /// more than `k` are left, none is left then.
    pub fn nth_mut(&mut self, k: usize) -> Option<&mut V>
        requires callable { F.IsAlwaysCallable (parts_callee self.old) }
        requires lies { LiesIn V.Store.BITS V.words self.old }
        ensures variant { IsSome result → parts_done self.old ≡ false }
        ensures words { IfSome result (λ part. V.words part.now ≡ V.words (parts_view self.old)) }
        ensures lender { IfSome result (λ part. V.lender part.now ≡ V.lender (parts_view self.old)) }
        ensures* lends { sem 𝓛 (LendsNext V.row F.row A.row at_most_row V.Store.row V.Order.row V.lender V.words V.place
            V.bits F.FnMut (TakesNth F.FnMut (TakesUpTo (read_by V.Store.BitRegister V.Order.position)
            (V.words (parts_view self.old)) A.way F.FnMut) k)
            self.entry result) }
    {
        if self.seek_nth_next(k) {
            Some(self.part_mut())
        } else {
            None
        }
    }
}
