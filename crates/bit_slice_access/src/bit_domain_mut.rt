//! A window cut at the borders of its words, to write: one part is lent at a time.

ghost use Rattle.std.specs.Prelude.{◌≡◌, ◌+◌, ◌-◌, ◌*◌, ◌/◌, ◌%◌, ◌<◌, ◌≤◌, ◌^◌, ◌↔◌, IsTrue, length, min};
ghost use Rattle.std.specs.Borrow.{sem};
ghost use Rattle.bit_addressing_span.specs.declared.span.TheConstants.{MAX_BITS};
ghost use Rattle.bit_slice_access.specs.Lending.{LendsPart};

use bit_addressing_memory::{BitRegister, mem};
use bit_slice_views_mut::{Bits, BitsMut, BitsShown, BitsWindow, MayWriteBeside};

/// A window cut at the borders of its words: the bits before the first border, the whole words behind it, and the bits
/// behind the last border. A part may have no bits. One part is lent at a time.
///
/// In bitvec it is an enum of the parts: there the bits of a window that touches no border are the `Enclave`, here they
/// are the first part.
pub struct BitDomainMut<'s, V: BitsWindow> {
    of: &'s mut V,
    head: usize,
    len: usize,
    first: usize,
    body: usize,
}

impl<V: BitsWindow> Drop for BitDomainMut<'_, V> {
    ghost use Rattle.bit_slice_access.specs.Cut.{cut_len, cut_place, cut_view};

    fn drop(self)
        requires fits { cut_place self + cut_len self ≤ length (V.words (cut_view self)) * V.Store.BITS }
        requires short { cut_len self ≤ MAX_BITS }
        requires small { cut_place self + cut_len self < 2 ^ 63 }
        ensures words { V.words self.exit.0.now ≡ V.words (cut_view self.entry) }
        ensures lender { V.lender self.exit.0.now ≡ V.lender (cut_view self.entry) }
        ensures place { V.place self.exit.0.now ≡ cut_place self.entry }
        ensures len { length (V.bits self.exit.0.now) ≡ cut_len self.entry }
    {
        let BitDomainMut {
            of,
            head,
            len,
            first: _,
            body: _,
        } = self;
        of.show(MayWriteBeside, head, len);
    }
}

// How many bits stand before the first border, and in whole words after it.
fn cut(place: usize, len: usize, bits: usize) -> (usize, usize)
    requires { 0 < bits }
    ensures first { result.0 ≡ min len ((bits - place % bits) % bits) }
    ensures body { result.1 ≡ (len - result.0) / bits * bits }
    ensures within { result.0 + result.1 ≤ len }
{
    let first = len.min((bits - place % bits) % bits);
    let body = (len - first) / bits * bits;
    (first, body)
}

impl<'s, V: BitsWindow> BitDomainMut<'s, V> {
    ghost use Rattle.bit_slice_access.specs.Cut.{cut_body, cut_first, cut_len, cut_loan, cut_place, cut_view};
    ghost use Rattle.bit_slice_access.specs.Cut.{IsCutAt};

    pub(crate) fn new(of: &'s mut V, place: usize, len: usize) -> BitDomainMut<'s, V>
        ensures same_reference { cut_loan result ≡ of.entry.ghost_name }
        ensures value { cut_view result ≡ of.old }
        ensures cut { IsCutAt V.Store.BITS place len result }
    {
        let (first, body) = cut(place, len, mem::bits_of::<V::Store>());
        BitDomainMut {
            of,
            head: place,
            len,
            first,
            body,
        }
    }

    /// The bits before the first border: all bits of a window that touches none.
    pub fn head_mut(&mut self) -> &mut V
        requires ordered { cut_first self.old + cut_body self.old ≤ cut_len self.old }
        requires fits { cut_place self.old + cut_len self.old ≤ length (V.words (cut_view self.old)) * V.Store.BITS }
        requires short { cut_len self.old ≤ MAX_BITS }
        requires small { cut_place self.old + cut_len self.old < 2 ^ 63 }
        ensures words { V.words result.now ≡ V.words (cut_view self.old) }
        ensures lender { V.lender result.now ≡ V.lender (cut_view self.old) }
        ensures place { V.place result.now ≡ cut_place self.old }
        ensures len { length (V.bits result.now) ≡ cut_first self.old }
        ensures* lends { sem 𝓛 (LendsPart V.row V.Store.row V.Order.row self.entry result) }
    {
        let place = self.head;
        let count = self.first;
        self.of.show(MayWriteBeside, place, count);
        &mut *self.of
    }

    /// The bits of the whole words.
    pub fn body_mut(&mut self) -> &mut V
        requires ordered { cut_first self.old + cut_body self.old ≤ cut_len self.old }
        requires fits { cut_place self.old + cut_len self.old ≤ length (V.words (cut_view self.old)) * V.Store.BITS }
        requires short { cut_len self.old ≤ MAX_BITS }
        requires small { cut_place self.old + cut_len self.old < 2 ^ 63 }
        ensures words { V.words result.now ≡ V.words (cut_view self.old) }
        ensures lender { V.lender result.now ≡ V.lender (cut_view self.old) }
        ensures place { V.place result.now ≡ cut_place self.old + cut_first self.old }
        ensures len { length (V.bits result.now) ≡ cut_body self.old }
        ensures* lends { sem 𝓛 (LendsPart V.row V.Store.row V.Order.row self.entry result) }
    {
        let place = self.head + self.first;
        let count = self.body;
        self.of.show(MayWriteBeside, place, count);
        &mut *self.of
    }

    /// The bits behind the last border.
    pub fn tail_mut(&mut self) -> &mut V
        requires ordered { cut_first self.old + cut_body self.old ≤ cut_len self.old }
        requires fits { cut_place self.old + cut_len self.old ≤ length (V.words (cut_view self.old)) * V.Store.BITS }
        requires short { cut_len self.old ≤ MAX_BITS }
        requires small { cut_place self.old + cut_len self.old < 2 ^ 63 }
        ensures words { V.words result.now ≡ V.words (cut_view self.old) }
        ensures lender { V.lender result.now ≡ V.lender (cut_view self.old) }
        ensures place { V.place result.now ≡ cut_place self.old + (cut_first self.old + cut_body self.old) }
        ensures len { length (V.bits result.now)
            ≡ cut_len self.old - (cut_first self.old + cut_body self.old) }
        ensures* lends { sem 𝓛 (LendsPart V.row V.Store.row V.Order.row self.entry result) }
    {
        let from = self.first + self.body;
        let place = self.head + from;
        let count = self.len - from;
        self.of.show(MayWriteBeside, place, count);
        &mut *self.of
    }
}
