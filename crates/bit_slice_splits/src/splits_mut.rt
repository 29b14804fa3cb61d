//! The parts of a writable window between the places where a predicate answers true, of which one is lent at a time.

ghost use Rattle.std.specs.Prelude.{◌≡◌, ◌+◌, ◌*◌, ◌<◌, ◌≤◌, ◌^◌, ◌↔◌, length, true, false, IsTrue, IsSome, IfSome};
ghost use Rattle.std.specs.Borrow.{sem};
ghost use Rattle.std.specs.Iterator.{SkipsThenYields};
ghost use Rattle.bit_addressing_memory.specs.Memory.{memory, piece, read_by};
ghost use Rattle.bit_slice_views.specs.SpanLimits.{MAX_BITS};
ghost use Rattle.bit_slice_splits.specs.Lending.{LendsNext, LendsPart};
ghost use Rattle.bit_slice_splits.specs.SplitsMut.{parts_around, parts_found_len, parts_found_start};
ghost use Rattle.bit_slice_splits.specs.SplitsMut.{parts_callee, parts_count, parts_done, parts_found, parts_most};
ghost use Rattle.bit_slice_splits.specs.SplitsMut.{parts_len, parts_loan, parts_place, parts_view, parts_whole};
ghost use Rattle.bit_slice_splits.specs.SplitsMut.{KeepsWindow, LiesIn, PartsBy, SplitsAll};
ghost use Rattle.bit_slice_splits.specs.Takes.{parts_state, TakesNth, TakesPart, TakesRest};

use crate::search::asked_in;
use crate::ways::{FromBack, FromFront, InclusiveBack, InclusiveFront, Parting, SplitEnd};
use bit_addressing_memory::BitRegister;
use bit_slice_views::Bits;
use bit_slice_views_mut::{BitsMut, BitsShown, BitsWindow, MayWriteBeside};
use std::marker::PhantomData;

/// The parts of a writable window that were not lent yet, of which one is lent at a time.
///
/// When this ends, the window shows all its bits again.
pub struct SplitsMut<'s, V: BitsWindow, F: Drop, A, B> {
    of: &'s mut V,
    head: usize,
    len: usize,
    from: usize,
    count: usize,
    start: usize,
    size: usize,
    f: F,
    done: bool,
    pub(crate) most: usize,
    ways: PhantomData<(A, B)>,
}

/// The parts between the places where the predicate answers true.
pub type SplitMut<'s, V, F> = SplitsMut<'s, V, F, FromFront, FromBack>;

/// The same from the back on.
pub type RSplitMut<'s, V, F> = SplitsMut<'s, V, F, FromBack, FromFront>;

/// The parts that end with the bit where the predicate answers true.
pub type SplitInclusiveMut<'s, V, F> = SplitsMut<'s, V, F, InclusiveFront, InclusiveBack>;

#[tactic(auto, using(bit_slice_access::proofs::PartLemmas::shows_all, bit_slice_access::proofs::PartLemmas::framed_all))]
impl<V: BitsWindow, F: Drop, A, B> Drop for SplitsMut<'_, V, F, A, B> {
    fn drop(self)
        requires fits { parts_place self + parts_len self ≤ length (V.words (parts_view self)) * V.Store.BITS }
        requires short { parts_len self ≤ MAX_BITS }
        requires small { parts_place self + parts_len self < 2 ^ 63 }
        ensures bits { V.bits self.exit.0.now
            ≡ parts_whole (read_by V.Store.BitRegister V.Order.position) V.words self.entry }
        ensures frame { V.frame self.exit.0.now
            ≡ parts_around (read_by V.Store.BitRegister V.Order.position) V.lender V.words self.entry }
    {
        let SplitsMut {
            of,
            head,
            len,
            from: _,
            count: _,
            start: _,
            size: _,
            f: _,
            done: _,
            most: _,
            ways: _,
        } = self;
        of.show(MayWriteBeside, head, len);
    }
}

impl<'s, V: BitsWindow, F: Drop, A, B> SplitsMut<'s, V, F, A, B> {
    // ---- make

    /// The parts of a window, none where `done` is true.
    pub fn new(of: &'s mut V, f: F, done: bool) -> SplitsMut<'s, V, F, A, B>
        ensures same_reference { parts_loan result ≡ of.entry.ghost_name }
        ensures parts { SplitsAll (read_by V.Store.BitRegister V.Order.position) V.lender V.words V.place
            V.bits V.frame of.old f result }
        ensures done { parts_done result ≡ done }
    {
        let head = of.first_place();
        let len = of.len();
        SplitsMut {
            of,
            head,
            len,
            from: 0,
            count: len,
            start: 0,
            size: 0,
            f,
            done,
            most: 0,
            ways: PhantomData,
        }
    }

    // ---- look for

    // Takes all bits that are left as the last part, and tells whether there is one.
    pub(crate) fn seek_rest(&mut self) -> bool
        requires { LiesIn V.Store.BITS V.words self.old }
        ensures found { IsTrue result ↔ (parts_done self.old ≡ false) }
        ensures ends { TakesRest (read_by V.Store.BitRegister V.Order.position) (V.words (parts_view self.old))
            (parts_state self.old) (parts_found (read_by V.Store.BitRegister V.Order.position) V.words result self.new)
            (parts_state self.new) }
        ensures most { parts_most self.new ≡ parts_most self.old }
        ensures shorter { IsTrue result → parts_done self.new ≡ true }
        ensures keeps { KeepsWindow V.lender V.words self.old self.new }
        ensures lies_still { LiesIn V.Store.BITS V.words self.new }
    {
        if self.done {
            return false;
        }
        self.start = self.from;
        self.size = self.count;
        self.done = true;
        true
    }

    // ---- lend

    // The part that was found last, to write.
    pub(crate) fn part_mut(&mut self) -> &mut V
        requires { LiesIn V.Store.BITS V.words self.old }
        ensures words { V.words result.now ≡ V.words (parts_view self.old) }
        ensures lender { V.lender result.now ≡ V.lender (parts_view self.old) }
        ensures place { V.place result.now ≡ parts_place self.old + parts_found_start self.old }
        ensures len { length (V.bits result.now) ≡ parts_found_len self.old }
        ensures* lends { sem 𝓛 (LendsPart V.row F.row A.row B.row V.Store.row V.Order.row self.entry result) }
    {
        let head = self.head + self.start;
        let size = self.size;
        self.of.show(MayWriteBeside, head, size);
        &mut *self.of
    }
}

impl<'s, V: BitsWindow, F: FnMut(usize, &bool) -> bool + Drop, A: SplitEnd, B: SplitEnd> SplitsMut<
    's,
    V,
    F,
    A,
    B,
> {
    // ---- lend

    /// The next part from the front, to write.
    pub fn next_mut(&mut self) -> Option<&mut V>
        requires callable { F.IsAlwaysCallable (parts_callee self.old) }
        requires lies { LiesIn V.Store.BITS V.words self.old }
        ensures variant { IsSome result ↔ (parts_done self.old ≡ false) }
        ensures words { IfSome result (λ part. V.words part.now ≡ V.words (parts_view self.old)) }
        ensures lender { IfSome result (λ part. V.lender part.now ≡ V.lender (parts_view self.old)) }
        ensures* lends { sem 𝓛 (LendsNext V.row F.row A.row B.row V.Store.row V.Order.row V.lender V.words V.place
            V.bits F.FnMut (TakesPart (read_by V.Store.BitRegister V.Order.position)
            (V.words (parts_view self.old)) A.way F.FnMut)
            self.entry result) }
    {
        if self.seek::<A>() {
            Some(self.part_mut())
        } else {
            None
        }
    }

    /// The next part from the back, to write.
    pub fn next_back_mut(&mut self) -> Option<&mut V>
        requires callable { F.IsAlwaysCallable (parts_callee self.old) }
        requires lies { LiesIn V.Store.BITS V.words self.old }
        ensures variant { IsSome result ↔ (parts_done self.old ≡ false) }
        ensures words { IfSome result (λ part. V.words part.now ≡ V.words (parts_view self.old)) }
        ensures lender { IfSome result (λ part. V.lender part.now ≡ V.lender (parts_view self.old)) }
        ensures* lends { sem 𝓛 (LendsNext V.row F.row A.row B.row V.Store.row V.Order.row V.lender V.words V.place
            V.bits F.FnMut (TakesPart (read_by V.Store.BitRegister V.Order.position)
            (V.words (parts_view self.old)) B.way F.FnMut)
            self.entry result) }
    {
        if self.seek::<B>() {
            Some(self.part_mut())
        } else {
            None
        }
    }

    /// Passes over `k` parts from the front and lends the next one, to write, as `k + 1` calls of `next_mut` do. Where no
    /// more than `k` are left, none is left then.
    pub fn nth_mut(&mut self, k: usize) -> Option<&mut V>
        requires callable { F.IsAlwaysCallable (parts_callee self.old) }
        requires lies { LiesIn V.Store.BITS V.words self.old }
        ensures variant { IsSome result → parts_done self.old ≡ false }
        ensures words { IfSome result (λ part. V.words part.now ≡ V.words (parts_view self.old)) }
        ensures lender { IfSome result (λ part. V.lender part.now ≡ V.lender (parts_view self.old)) }
        ensures* lends { sem 𝓛 (LendsNext V.row F.row A.row B.row V.Store.row V.Order.row V.lender V.words V.place
            V.bits F.FnMut (TakesNth F.FnMut (TakesPart (read_by V.Store.BitRegister V.Order.position)
            (V.words (parts_view self.old)) A.way F.FnMut) k)
            self.entry result) }
    {
        if self.seek_nth::<A>(k) {
            Some(self.part_mut())
        } else {
            None
        }
    }

    /// Passes over `k` parts from the back and lends the next one, to write, as `k + 1` calls of `next_back_mut` do. Where no
    /// more than `k` are left, none is left then.
    pub fn nth_back_mut(&mut self, k: usize) -> Option<&mut V>
        requires callable { F.IsAlwaysCallable (parts_callee self.old) }
        requires lies { LiesIn V.Store.BITS V.words self.old }
        ensures variant { IsSome result → parts_done self.old ≡ false }
        ensures words { IfSome result (λ part. V.words part.now ≡ V.words (parts_view self.old)) }
        ensures lender { IfSome result (λ part. V.lender part.now ≡ V.lender (parts_view self.old)) }
        ensures* lends { sem 𝓛 (LendsNext V.row F.row A.row B.row V.Store.row V.Order.row V.lender V.words V.place
            V.bits F.FnMut (TakesNth F.FnMut (TakesPart (read_by V.Store.BitRegister V.Order.position)
            (V.words (parts_view self.old)) B.way F.FnMut) k)
            self.entry result) }
    {
        if self.seek_nth::<B>(k) {
            Some(self.part_mut())
        } else {
            None
        }
    }
}

impl<'s, V: BitsWindow, F: FnMut(usize, &bool) -> bool + Drop, A, B> SplitsMut<'s, V, F, A, B> {
    // Looks for the next part at one end, and tells whether there is one: `part_mut` lends it then.
    pub(crate) fn seek<W: SplitEnd>(&mut self) -> bool
        requires callable { F.IsAlwaysCallable (parts_callee self.old) }
        requires lies { LiesIn V.Store.BITS V.words self.old }
        ensures found { IsTrue result ↔ (parts_done self.old ≡ false) }
        ensures parts { TakesPart (read_by V.Store.BitRegister V.Order.position) (V.words (parts_view self.old))
            W.way F.FnMut (parts_state self.old)
            (parts_found (read_by V.Store.BitRegister V.Order.position) V.words result self.new)
            (parts_state self.new) }
        ensures most { parts_most self.new ≡ parts_most self.old }
        ensures keeps { KeepsWindow V.lender V.words self.old self.new }
        ensures callable_still { F.IsAlwaysCallable (parts_callee self.new) }
        ensures lies_still { LiesIn V.Store.BITS V.words self.new }

        // Fewer bits are left, or no part is, so a search comes to its end.
        ensures shorter { IsTrue result → parts_count self.old ≤ parts_count self.new → parts_done self.new ≡ true }
    {
        if self.done {
            return false;
        }
        let from = self.from;
        let part = parted::<V, F, W>(self.of, &mut self.f, self.head, self.len, from, self.count);
        self.start = from + part.start;
        self.size = part.len;
        self.from = from + part.rest;
        self.count = part.rest_len;
        self.done = part.last;
        true
    }

    // Takes `k` parts off at one end and looks for the next one there, and tells whether there is one: `part_mut` lends it
    // then.
    pub(crate) fn seek_nth<W: SplitEnd>(&mut self, k: usize) -> bool
        requires callable { F.IsAlwaysCallable (parts_callee self.old) }
        requires lies { LiesIn V.Store.BITS V.words self.old }
        ensures parts { SkipsThenYields (TakesPart (read_by V.Store.BitRegister V.Order.position)
            (V.words (parts_view self.old)) W.way F.FnMut) (parts_state self.old) k
            (parts_found (read_by V.Store.BitRegister V.Order.position) V.words result self.new)
            (parts_state self.new) }
        ensures going { IsTrue result → parts_done self.old ≡ false }
        ensures keeps { KeepsWindow V.lender V.words self.old self.new }
        ensures callable_still { F.IsAlwaysCallable (parts_callee self.new) }
        ensures lies_still { LiesIn V.Store.BITS V.words self.new }
        ensures shorter { IsTrue result → parts_count self.old ≤ parts_count self.new → parts_done self.new ≡ true }
    {
        let mut passed = 0;
        while passed < k {
            if !self.seek::<W>() {
                return false;
            }
            passed += 1;
        }
        self.seek::<W>()
    }
}

// The window made to show what is left to be split, and the part that comes off.
#[tactic(auto, using(bit_slice_iterators::proofs::PartLemmas::part_bits))]
fn parted<V: BitsWindow, F: FnMut(usize, &bool) -> bool, W: SplitEnd>(
    of: &mut V,
    f: &mut F,
    head: usize,
    len: usize,
    from: usize,
    count: usize,
) -> Parting
    requires callable { F.IsAlwaysCallable f.old }
    requires inside { from + count ≤ len }
    requires fits { head + len ≤ length (V.words of.old) * V.Store.BITS }
    requires short { len ≤ MAX_BITS }
    requires small { head + len < 2 ^ 63 }
    ensures parts { PartsBy W.way F.FnMut
        (piece (piece (memory (read_by V.Store.BitRegister V.Order.position) (V.words of.old)) head len) from count)
        f.old result.start result.len result.rest result.rest_len result.last f.new }
    ensures words { V.words of.new ≡ V.words of.old }
    ensures lender { V.lender of.new ≡ V.lender of.old }
    ensures callable_still { F.IsAlwaysCallable f.new }
    ensures within { result.start + result.len ≤ count }
    ensures rest_within { result.rest + result.rest_len ≤ count }
    ensures shorter { count ≤ result.rest_len → result.last ≡ true }
{
    of.show(MayWriteBeside, head + from, count);
    let asked = asked_in::<V, F, W>(of, f);
    W::part(count, asked)
}
