//! Two parts of a window, of which one is lent at a time.

ghost use Rattle.std.specs.Prelude.{◌≡◌, ℕ, ◌+◌, ◌-◌, ◌*◌, ◌<◌, ◌≤◌, ◌^◌, length};
ghost use Rattle.std.specs.Borrow.{sem};
ghost use Rattle.bit_slice_views.specs.SpanLimits.{MAX_BITS};
ghost use Rattle.bit_slice_views_mut.specs.Lending.{LendsHalf};

use crate::beside::MayWriteBeside;
use crate::bits_mut::BitsMut;
use crate::bits_window::{BitsShown, BitsWindow};
use bit_addressing_memory::BitRegister;
use bit_slice_views::Bits;

/// Two parts of a window, of which one is lent at a time.
pub struct Pair<'s, V: BitsWindow> {
    of: &'s mut V,
    head: usize,
    mid: usize,
    len: usize,
}

impl<V: BitsWindow> Drop for Pair<'_, V> {
    ghost use Rattle.bit_slice_views_mut.specs.Pair.{pair_len, pair_place, pair_view};

    fn drop(self)
        requires fits { pair_place self + pair_len self ≤ length (V.words (pair_view self)) * V.Store.BITS }
        requires short { pair_len self ≤ MAX_BITS }
        requires small { pair_place self + pair_len self < 2 ^ 63 }
        ensures words { V.words self.exit.0.now ≡ V.words (pair_view self.entry) }
        ensures lender { V.lender self.exit.0.now ≡ V.lender (pair_view self.entry) }
        ensures place { V.place self.exit.0.now ≡ pair_place self.entry }
        ensures len { length (V.bits self.exit.0.now) ≡ pair_len self.entry }
    {
        let Pair {
            of,
            head,
            mid: _,
            len,
        } = self;
        of.show(MayWriteBeside, head, len);
    }
}

impl<'s, V: BitsWindow> Pair<'s, V> {
    ghost use Rattle.bit_slice_views_mut.specs.Pair.{pair_len, pair_loan, pair_mid, pair_place, pair_view};

    pub(crate) fn new(of: &'s mut V, head: usize, mid: usize, len: usize) -> Pair<'s, V>
        ensures same_reference { pair_loan result ≡ of.entry.ghost_name }
        ensures value { pair_view result ≡ of.old }
        ensures head { pair_place result ≡ head }
        ensures mid { pair_mid result ≡ mid }
        ensures len { pair_len result ≡ len }
    {
        Pair { of, head, mid, len }
    }

    /// The first part, to write.
    pub fn left_mut(&mut self) -> &mut V
        requires ordered { pair_mid self.old ≤ pair_len self.old }
        requires fits { pair_place self.old + pair_len self.old ≤ length (V.words (pair_view self.old)) * V.Store.BITS }
        requires short { pair_len self.old ≤ MAX_BITS }
        requires small { pair_place self.old + pair_len self.old < 2 ^ 63 }
        ensures words { V.words result.now ≡ V.words (pair_view self.old) }
        ensures lender { V.lender result.now ≡ V.lender (pair_view self.old) }
        ensures place { V.place result.now ≡ pair_place self.old }
        ensures len { length (V.bits result.now) ≡ pair_mid self.old }
        ensures* lends { sem 𝓛 (LendsHalf V.row V.Store.row V.Order.row self.entry result) }
    {
        let head = self.head;
        let mid = self.mid;
        self.of.show(MayWriteBeside, head, mid);
        &mut *self.of
    }

    /// The other part, to write.
    pub fn right_mut(&mut self) -> &mut V
        requires ordered { pair_mid self.old ≤ pair_len self.old }
        requires fits { pair_place self.old + pair_len self.old ≤ length (V.words (pair_view self.old)) * V.Store.BITS }
        requires short { pair_len self.old ≤ MAX_BITS }
        requires small { pair_place self.old + pair_len self.old < 2 ^ 63 }
        ensures words { V.words result.now ≡ V.words (pair_view self.old) }
        ensures lender { V.lender result.now ≡ V.lender (pair_view self.old) }
        ensures place { V.place result.now ≡ pair_place self.old + pair_mid self.old }
        ensures len { length (V.bits result.now) ≡ pair_len self.old - pair_mid self.old }
        ensures* lends { sem 𝓛 (LendsHalf V.row V.Store.row V.Order.row self.entry result) }
    {
        let head = self.head + self.mid;
        let len = self.len - self.mid;
        self.of.show(MayWriteBeside, head, len);
        &mut *self.of
    }
}
