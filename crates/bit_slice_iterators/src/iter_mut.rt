//! The bits of a writable window, of which one is lent at a time.

ghost use Rattle.std.specs.Prelude.{◌≡◌, ◌+◌, ◌-◌, ◌*◌, ◌<◌, ◌≤◌, ◌^◌, length};
ghost use Rattle.std.specs.Borrow.{sem};
ghost use Rattle.bit_addressing_memory.specs.Memory.{piece, read_by};
ghost use Rattle.bit_slice_views.specs.SpanLimits.{MAX_BITS};
ghost use Rattle.bit_slice_access.specs.Part.{part_loan};
ghost use Rattle.bit_slice_iterators.specs.Lending.{LendsLeft};
ghost use Rattle.bit_slice_iterators.specs.PiecesMut.{pieces_around, pieces_back, pieces_front, pieces_len, pieces_loan};
ghost use Rattle.bit_slice_iterators.specs.PiecesMut.{pieces_place, pieces_view, pieces_whole};
ghost use Rattle.bit_slice_iterators.specs.Remainder.{IsRest};

use crate::cuts::{Cuts, Single};
use crate::pieces_mut::{PiecesMut, show_part};
use bit_addressing_memory::BitRegister;
use bit_slice_access::{BitsMut, BitsWindow, Part};
use bit_slice_views::Bits;

/// The bits of a writable window that were not lent yet: each is lent as a window of one bit.
pub type IterMut<'s, V> = PiecesMut<'s, V, Single>;

/// A way to cut into the single bits, in order.
pub trait EachBit: Cuts {}

impl EachBit for Single {}

impl<'s, V: BitsWindow, C: EachBit> PiecesMut<'s, V, C> {
    /// The bits that were not lent yet, as a window, to read and to write. They are left to be lent.
    pub fn as_bitslice(&mut self) -> &mut V
        requires ordered { pieces_front self.old ≤ pieces_back self.old }
        requires within { pieces_back self.old ≤ pieces_len self.old }
        requires fits { pieces_place self.old + pieces_len self.old
            ≤ length (V.words (pieces_view self.old)) * V.Store.BITS }
        requires short { pieces_len self.old ≤ MAX_BITS }
        requires small { pieces_place self.old + pieces_len self.old < 2 ^ 63 }
        ensures bits { V.bits result.now
            ≡ piece (pieces_whole (read_by V.Store.BitRegister V.Order.position) V.words self.old)
            (pieces_front self.old) (pieces_back self.old - pieces_front self.old) }
        ensures len { length (V.bits result.now) ≡ pieces_back self.old - pieces_front self.old }
        ensures words { V.words result.now ≡ V.words (pieces_view self.old) }
        ensures lender { V.lender result.now ≡ V.lender (pieces_view self.old) }
        ensures place { V.place result.now ≡ pieces_place self.old + pieces_front self.old }
        ensures* lends { sem 𝓛 (LendsLeft V.row C.row V.Store.row V.Order.row self.entry result) }
    {
        let head = self.head;
        let len = self.len;
        let front = self.front;
        let left = self.back - front;
        show_part(self.of, head, len, front, left);
        &mut *self.of
    }

    /// What `as_bitslice` does.
    pub fn as_slice(&mut self) -> &mut V
        requires ordered { pieces_front self.old ≤ pieces_back self.old }
        requires within { pieces_back self.old ≤ pieces_len self.old }
        requires fits { pieces_place self.old + pieces_len self.old
            ≤ length (V.words (pieces_view self.old)) * V.Store.BITS }
        requires short { pieces_len self.old ≤ MAX_BITS }
        requires small { pieces_place self.old + pieces_len self.old < 2 ^ 63 }
        ensures bits { V.bits result.now
            ≡ piece (pieces_whole (read_by V.Store.BitRegister V.Order.position) V.words self.old)
            (pieces_front self.old) (pieces_back self.old - pieces_front self.old) }
        ensures len { length (V.bits result.now) ≡ pieces_back self.old - pieces_front self.old }
        ensures words { V.words result.now ≡ V.words (pieces_view self.old) }
        ensures lender { V.lender result.now ≡ V.lender (pieces_view self.old) }
        ensures place { V.place result.now ≡ pieces_place self.old + pieces_front self.old }
        ensures* lends { sem 𝓛 (LendsLeft V.row C.row V.Store.row V.Order.row self.entry result) }
    {
        self.as_bitslice()
    }

    /// The bits that were not lent yet, for as long as the window is lent.
    pub fn into_bitslice(self) -> Part<'s, V>
        requires ordered { pieces_front self ≤ pieces_back self }
        requires within { pieces_back self ≤ pieces_len self }
        requires fits { pieces_place self + pieces_len self ≤ length (V.words (pieces_view self)) * V.Store.BITS }
        requires short { pieces_len self ≤ MAX_BITS }
        requires small { pieces_place self + pieces_len self < 2 ^ 63 }
        ensures same_reference { part_loan result ≡ pieces_loan self.entry }
        ensures shows { IsRest (read_by V.Store.BitRegister V.Order.position) V.lender V.words V.place V.bits
            (pieces_whole (read_by V.Store.BitRegister V.Order.position) V.words self.entry)
            (pieces_around (read_by V.Store.BitRegister V.Order.position) V.lender V.words self.entry)
            (pieces_front self.entry) (pieces_back self.entry - pieces_front self.entry) result }
    {
        let front = self.front;
        let left = self.back - front;
        self.into_part(front, left)
    }

    /// What `into_bitslice` does.
    pub fn into_slice(self) -> Part<'s, V>
        requires ordered { pieces_front self ≤ pieces_back self }
        requires within { pieces_back self ≤ pieces_len self }
        requires fits { pieces_place self + pieces_len self ≤ length (V.words (pieces_view self)) * V.Store.BITS }
        requires short { pieces_len self ≤ MAX_BITS }
        requires small { pieces_place self + pieces_len self < 2 ^ 63 }
        ensures same_reference { part_loan result ≡ pieces_loan self.entry }
        ensures shows { IsRest (read_by V.Store.BitRegister V.Order.position) V.lender V.words V.place V.bits
            (pieces_whole (read_by V.Store.BitRegister V.Order.position) V.words self.entry)
            (pieces_around (read_by V.Store.BitRegister V.Order.position) V.lender V.words self.entry)
            (pieces_front self.entry) (pieces_back self.entry - pieces_front self.entry) result }
    {
        self.into_bitslice()
    }
}
