//! The pieces of a writable window, of which one is lent at a time.

ghost use Rattle.std.specs.Prelude.{◌≡◌, ℕ, ◌+◌, ◌-◌, ◌*◌, ◌%◌, ◌<◌, ◌≤◌, ◌^◌, ◌↔◌, length, IsSome, IfSome};
ghost use Rattle.std.specs.Borrow.{sem};
ghost use Rattle.bit_addressing_memory.specs.Memory.{memory, piece, read_by};
ghost use Rattle.bit_slice_views.specs.SpanLimits.{MAX_BITS};
ghost use Rattle.bit_slice_iterators.specs.Lending.{LendsFirst, LendsLast, LendsNth, LendsNthBack, LendsRest};
ghost use Rattle.bit_slice_iterators.specs.PiecesMut.{pieces_around, pieces_back, pieces_front, pieces_len, pieces_loan};
ghost use Rattle.bit_slice_iterators.specs.PiecesMut.{pieces_place, pieces_size, pieces_taken, pieces_view, pieces_whole};
ghost use Rattle.bit_slice_iterators.specs.PiecesMut.{rest_left, CutsAll, PiecesLie};
ghost use Rattle.bit_slice_access.specs.Part.{part_loan};
ghost use Rattle.bit_slice_iterators.specs.Remainder.{IsRest};

use crate::cuts::{Backward, BackwardExact, Cuts, ExactCuts, Forward, ForwardExact};
use bit_addressing_memory::BitRegister;
use bit_slice_access::{BitsMut, BitsShown, BitsWindow, MayWriteBeside, Part};
use bit_slice_views::Bits;
use std::marker::PhantomData;

/// The pieces of a writable window that were not lent yet, of which one is lent at a time.
///
/// Between two loans the window shows the piece that was lent last; when this ends, it shows all its bits again.
pub struct PiecesMut<'s, V: BitsWindow, C: Cuts> {
    pub(crate) of: &'s mut V,
    pub(crate) head: usize,
    pub(crate) len: usize,
    pub(crate) by: usize,
    pub(crate) front: usize,
    pub(crate) back: usize,
    pub(crate) taken: bool,
    pub(crate) cuts: PhantomData<C>,
}

/// Pieces from the front on, the last of which may be shorter.
pub type ChunksMut<'s, V> = PiecesMut<'s, V, Forward>;

/// Whole pieces from the front on.
pub type ChunksExactMut<'s, V> = PiecesMut<'s, V, ForwardExact>;

/// Pieces from the back on, the last of which may be shorter.
pub type RChunksMut<'s, V> = PiecesMut<'s, V, Backward>;

/// Whole pieces from the back on.
pub type RChunksExactMut<'s, V> = PiecesMut<'s, V, BackwardExact>;

#[tactic(auto, using(bit_slice_access::proofs::PartLemmas::shows_all, bit_slice_access::proofs::PartLemmas::framed_all))]
impl<V: BitsWindow, C: Cuts> Drop for PiecesMut<'_, V, C> {
    fn drop(self)
        requires fits { pieces_place self + pieces_len self ≤ length (V.words (pieces_view self)) * V.Store.BITS }
        requires short { pieces_len self ≤ MAX_BITS }
        requires small { pieces_place self + pieces_len self < 2 ^ 63 }
        ensures bits { V.bits self.exit.0.now
            ≡ pieces_whole (read_by V.Store.BitRegister V.Order.position) V.words self.entry }
        ensures frame { V.frame self.exit.0.now
            ≡ pieces_around (read_by V.Store.BitRegister V.Order.position) V.lender V.words self.entry }
    {
        let PiecesMut {
            of,
            head: place,
            len,
            by: _,
            front: _,
            back: _,
            taken: _,
            cuts: _,
        } = self;
        of.show(MayWriteBeside, place, len);
    }
}

impl<'s, V: BitsWindow, C: Cuts> PiecesMut<'s, V, C> {
    // ---- make

    /// All pieces of the size `by`.
    pub fn new(of: &'s mut V, by: usize) -> PiecesMut<'s, V, C>
        requires { 0 < by }
        ensures same_reference { pieces_loan result ≡ of.entry.ghost_name }
        ensures cuts { CutsAll (read_by V.Store.BitRegister V.Order.position) V.lender V.words V.place V.bits V.frame
            C.cut of.old by result }
        ensures lies { PiecesLie V.Store.BITS V.words C.cut result }
    {
        let head = of.first_place();
        let len = of.len();
        let back = C::count(len, by);
        PiecesMut {
            of,
            head,
            len,
            by,
            front: 0,
            back,
            taken: false,
            cuts: PhantomData,
        }
    }

    // ---- count

    /// How many pieces are left.
    pub fn len(&self) -> usize
        requires { pieces_front self.now ≤ pieces_back self.now }
        ensures { result ≡ pieces_back self.now - pieces_front self.now }
    {
        self.back - self.front
    }

    // ---- lend

    /// The first piece that is left, to write.
    pub fn next_mut(&mut self) -> Option<&mut V>
        requires some { 0 < pieces_size self.old }
        requires ordered { pieces_front self.old ≤ pieces_back self.old }
        requires within { pieces_back self.old ≤ C.cut.count (pieces_len self.old) (pieces_size self.old) }
        requires fits { pieces_place self.old + pieces_len self.old
            ≤ length (V.words (pieces_view self.old)) * V.Store.BITS }
        requires short { pieces_len self.old ≤ MAX_BITS }
        requires small { pieces_place self.old + pieces_len self.old < 2 ^ 63 }
        ensures variant { IsSome result ↔ (pieces_front self.old < pieces_back self.old) }
        ensures bits { IfSome result (λ piece_lent. V.bits piece_lent.now
            ≡ piece (pieces_whole (read_by V.Store.BitRegister V.Order.position) V.words self.old)
            (C.cut.start (pieces_len self.old) (pieces_size self.old) (pieces_front self.old))
            (C.cut.size (pieces_len self.old) (pieces_size self.old) (pieces_front self.old))) }
        ensures len { IfSome result (λ piece_lent. length (V.bits piece_lent.now)
            ≡ C.cut.size (pieces_len self.old) (pieces_size self.old) (pieces_front self.old)) }
        ensures words { IfSome result (λ piece_lent. V.words piece_lent.now ≡ V.words (pieces_view self.old)) }
        ensures lender { IfSome result (λ piece_lent. V.lender piece_lent.now ≡ V.lender (pieces_view self.old)) }
        ensures place { IfSome result (λ piece_lent. V.place piece_lent.now ≡ pieces_place self.old
            + C.cut.start (pieces_len self.old) (pieces_size self.old) (pieces_front self.old)) }
        ensures* lends { sem 𝓛 (LendsFirst V.row C.row V.Store.row V.Order.row self.entry result) }
    {
        if self.front == self.back {
            return None;
        }
        let (start, size) = C::piece(self.len, self.by, self.front);
        self.front = self.front + 1;
        let head = self.head;
        let len = self.len;
        show_part(self.of, head, len, start, size);
        Some(&mut *self.of)
    }

    /// The last piece that is left, to write.
    pub fn next_back_mut(&mut self) -> Option<&mut V>
        requires some { 0 < pieces_size self.old }
        requires ordered { pieces_front self.old ≤ pieces_back self.old }
        requires within { pieces_back self.old ≤ C.cut.count (pieces_len self.old) (pieces_size self.old) }
        requires fits { pieces_place self.old + pieces_len self.old
            ≤ length (V.words (pieces_view self.old)) * V.Store.BITS }
        requires short { pieces_len self.old ≤ MAX_BITS }
        requires small { pieces_place self.old + pieces_len self.old < 2 ^ 63 }
        ensures variant { IsSome result ↔ (pieces_front self.old < pieces_back self.old) }
        ensures bits { IfSome result (λ piece_lent. V.bits piece_lent.now
            ≡ piece (pieces_whole (read_by V.Store.BitRegister V.Order.position) V.words self.old)
            (C.cut.start (pieces_len self.old) (pieces_size self.old) (pieces_back self.old - 1))
            (C.cut.size (pieces_len self.old) (pieces_size self.old) (pieces_back self.old - 1))) }
        ensures len { IfSome result (λ piece_lent. length (V.bits piece_lent.now)
            ≡ C.cut.size (pieces_len self.old) (pieces_size self.old) (pieces_back self.old - 1)) }
        ensures words { IfSome result (λ piece_lent. V.words piece_lent.now ≡ V.words (pieces_view self.old)) }
        ensures lender { IfSome result (λ piece_lent. V.lender piece_lent.now ≡ V.lender (pieces_view self.old)) }
        ensures place { IfSome result (λ piece_lent. V.place piece_lent.now ≡ pieces_place self.old
            + C.cut.start (pieces_len self.old) (pieces_size self.old) (pieces_back self.old - 1)) }
        ensures* lends { sem 𝓛 (LendsLast V.row C.row V.Store.row V.Order.row self.entry result) }
    {
        if self.front == self.back {
            return None;
        }
        let last = self.back - 1;
        let (start, size) = C::piece(self.len, self.by, last);
        self.back = last;
        let head = self.head;
        let len = self.len;
        show_part(self.of, head, len, start, size);
        Some(&mut *self.of)
    }

    /// Passes over `k` pieces from the front and lends the next one, to write, as `k + 1` calls of `next_mut` do. Where no
    /// more than `k` are left, none is left then.
    pub fn nth_mut(&mut self, k: usize) -> Option<&mut V>
        requires some { 0 < pieces_size self.old }
        requires ordered { pieces_front self.old ≤ pieces_back self.old }
        requires within { pieces_back self.old ≤ C.cut.count (pieces_len self.old) (pieces_size self.old) }
        requires fits { pieces_place self.old + pieces_len self.old
            ≤ length (V.words (pieces_view self.old)) * V.Store.BITS }
        requires short { pieces_len self.old ≤ MAX_BITS }
        requires small { pieces_place self.old + pieces_len self.old < 2 ^ 63 }
        ensures variant { IsSome result ↔ (pieces_front self.old + k < pieces_back self.old) }
        ensures bits { IfSome result (λ piece_lent. V.bits piece_lent.now
            ≡ piece (pieces_whole (read_by V.Store.BitRegister V.Order.position) V.words self.old)
            (C.cut.start (pieces_len self.old) (pieces_size self.old) (pieces_front self.old + k))
            (C.cut.size (pieces_len self.old) (pieces_size self.old) (pieces_front self.old + k))) }
        ensures len { IfSome result (λ piece_lent. length (V.bits piece_lent.now)
            ≡ C.cut.size (pieces_len self.old) (pieces_size self.old) (pieces_front self.old + k)) }
        ensures words { IfSome result (λ piece_lent. V.words piece_lent.now ≡ V.words (pieces_view self.old)) }
        ensures lender { IfSome result (λ piece_lent. V.lender piece_lent.now ≡ V.lender (pieces_view self.old)) }
        ensures place { IfSome result (λ piece_lent. V.place piece_lent.now ≡ pieces_place self.old
            + C.cut.start (pieces_len self.old) (pieces_size self.old) (pieces_front self.old + k)) }
        ensures* lends { sem 𝓛 (LendsNth V.row C.row V.Store.row V.Order.row k self.entry result) }
    {
        if k >= self.back - self.front {
            self.front = self.back;
            return None;
        }
        let at = self.front + k;
        let (start, size) = C::piece(self.len, self.by, at);
        self.front = at + 1;
        let head = self.head;
        let len = self.len;
        show_part(self.of, head, len, start, size);
        Some(&mut *self.of)
    }

    /// Passes over `k` pieces from the back and lends the next one, to write, as `k + 1` calls of `next_back_mut` do. Where
    /// no more than `k` are left, none is left then.
    pub fn nth_back_mut(&mut self, k: usize) -> Option<&mut V>
        requires some { 0 < pieces_size self.old }
        requires ordered { pieces_front self.old ≤ pieces_back self.old }
        requires within { pieces_back self.old ≤ C.cut.count (pieces_len self.old) (pieces_size self.old) }
        requires fits { pieces_place self.old + pieces_len self.old
            ≤ length (V.words (pieces_view self.old)) * V.Store.BITS }
        requires short { pieces_len self.old ≤ MAX_BITS }
        requires small { pieces_place self.old + pieces_len self.old < 2 ^ 63 }
        ensures variant { IsSome result ↔ (pieces_front self.old + k < pieces_back self.old) }
        ensures bits { IfSome result (λ piece_lent. V.bits piece_lent.now
            ≡ piece (pieces_whole (read_by V.Store.BitRegister V.Order.position) V.words self.old)
            (C.cut.start (pieces_len self.old) (pieces_size self.old) (pieces_back self.old - k - 1))
            (C.cut.size (pieces_len self.old) (pieces_size self.old) (pieces_back self.old - k - 1))) }
        ensures len { IfSome result (λ piece_lent. length (V.bits piece_lent.now)
            ≡ C.cut.size (pieces_len self.old) (pieces_size self.old) (pieces_back self.old - k - 1)) }
        ensures words { IfSome result (λ piece_lent. V.words piece_lent.now ≡ V.words (pieces_view self.old)) }
        ensures lender { IfSome result (λ piece_lent. V.lender piece_lent.now ≡ V.lender (pieces_view self.old)) }
        ensures place { IfSome result (λ piece_lent. V.place piece_lent.now ≡ pieces_place self.old
            + C.cut.start (pieces_len self.old) (pieces_size self.old) (pieces_back self.old - k - 1)) }
        ensures* lends { sem 𝓛 (LendsNthBack V.row C.row V.Store.row V.Order.row k self.entry result) }
    {
        if k >= self.back - self.front {
            self.back = self.front;
            return None;
        }
        let at = self.back - k - 1;
        let (start, size) = C::piece(self.len, self.by, at);
        self.back = at;
        let head = self.head;
        let len = self.len;
        show_part(self.of, head, len, start, size);
        Some(&mut *self.of)
    }

    // `count` bits of the window from bit `from` on, for as long as the window is lent.
    pub(crate) fn into_part(self, from: usize, count: usize) -> Part<'s, V>
        requires inside { from + count ≤ pieces_len self }
        requires fits { pieces_place self + pieces_len self ≤ length (V.words (pieces_view self)) * V.Store.BITS }
        requires short { pieces_len self ≤ MAX_BITS }
        requires small { pieces_place self + pieces_len self < 2 ^ 63 }
        ensures same_reference { part_loan result ≡ pieces_loan self.entry }
        ensures shows { IsRest (read_by V.Store.BitRegister V.Order.position) V.lender V.words V.place V.bits
            (pieces_whole (read_by V.Store.BitRegister V.Order.position) V.words self.entry)
            (pieces_around (read_by V.Store.BitRegister V.Order.position) V.lender V.words self.entry)
            from count result }
    {
        let PiecesMut {
            of,
            head,
            len,
            by: _,
            front: _,
            back: _,
            taken: _,
            cuts: _,
        } = self;
        of.show(MayWriteBeside, head, len);
        Part::new(of, from, count)
    }
}

impl<'s, V: BitsWindow, C: ExactCuts> PiecesMut<'s, V, C> {
    /// The bits that are in no piece, to write: fewer than the size. Once they are taken there are none.
    pub fn take_remainder(&mut self) -> &mut V
        requires some { 0 < pieces_size self.old }
        requires fits { pieces_place self.old + pieces_len self.old
            ≤ length (V.words (pieces_view self.old)) * V.Store.BITS }
        requires short { pieces_len self.old ≤ MAX_BITS }
        requires small { pieces_place self.old + pieces_len self.old < 2 ^ 63 }
        ensures bits { V.bits result.now
            ≡ piece (pieces_whole (read_by V.Store.BitRegister V.Order.position) V.words self.old)
            (C.rest (pieces_len self.old) (pieces_size self.old))
            (rest_left (pieces_taken self.old) (pieces_len self.old % pieces_size self.old)) }
        ensures len { length (V.bits result.now)
            ≡ rest_left (pieces_taken self.old) (pieces_len self.old % pieces_size self.old) }
        ensures words { V.words result.now ≡ V.words (pieces_view self.old) }
        ensures lender { V.lender result.now ≡ V.lender (pieces_view self.old) }
        ensures place { V.place result.now ≡ pieces_place self.old
            + C.rest (pieces_len self.old) (pieces_size self.old) }
        ensures* lends { sem 𝓛 (LendsRest V.row C.row V.Store.row V.Order.row self.entry result) }
    {
        let size = rest_of(self.taken, self.len, self.by);
        self.taken = true;
        let head = self.head;
        let len = self.len;
        let start = C::rest_start(self.len, self.by);
        show_part(self.of, head, len, start, size);
        &mut *self.of
    }

    /// The bits that are in no piece, to write for as long as the window is lent: none once they were taken.
    pub fn into_remainder(self) -> Part<'s, V>
        requires some { 0 < pieces_size self }
        requires fits { pieces_place self + pieces_len self ≤ length (V.words (pieces_view self)) * V.Store.BITS }
        requires short { pieces_len self ≤ MAX_BITS }
        requires small { pieces_place self + pieces_len self < 2 ^ 63 }
        ensures same_reference { part_loan result ≡ pieces_loan self.entry }
        ensures shows { IsRest (read_by V.Store.BitRegister V.Order.position) V.lender V.words V.place V.bits
            (pieces_whole (read_by V.Store.BitRegister V.Order.position) V.words self.entry)
            (pieces_around (read_by V.Store.BitRegister V.Order.position) V.lender V.words self.entry)
            (C.rest (pieces_len self.entry) (pieces_size self.entry))
            (rest_left (pieces_taken self.entry) (pieces_len self.entry % pieces_size self.entry)) result }
    {
        let start = C::rest_start(self.len, self.by);
        let size = rest_of(self.taken, self.len, self.by);
        self.into_part(start, size)
    }
}

// How many bits in no piece are left.
fn rest_of(taken: bool, len: usize, by: usize) -> usize
    requires { 0 < by }
    ensures { result ≡ rest_left taken (len % by) }
{
    if taken { 0 } else { len % by }
}

// Makes a window of `len` bits from the place `head` on show `size` of them, from bit `start` on.
#[tactic(auto, using(crate::proofs::PartLemmas::part_bits))]
pub(crate) fn show_part<V: BitsWindow>(
    of: &mut V,
    head: usize,
    len: usize,
    start: usize,
    size: usize,
)
    requires inside { start + size ≤ len }
    requires fits { head + len ≤ length (V.words of.old) * V.Store.BITS }
    requires short { len ≤ MAX_BITS }
    requires small { head + len < 2 ^ 63 }
    ensures bits { V.bits of.new
        ≡ piece (piece (memory (read_by V.Store.BitRegister V.Order.position) (V.words of.old)) head len) start size }
    ensures len { length (V.bits of.new) ≡ size }
    ensures words { V.words of.new ≡ V.words of.old }
    ensures lender { V.lender of.new ≡ V.lender of.old }
    ensures place { V.place of.new ≡ head + start }
{
    of.show(MayWriteBeside, head + start, size);
}
