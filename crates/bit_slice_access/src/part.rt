//! A part of a window, to write.

ghost use Rattle.std.specs.Prelude.{◌≡◌, ◌+◌, ◌*◌, ◌<◌, ◌≤◌, ◌^◌, length};
ghost use Rattle.std.specs.Fn.{FnOnceReturnsAtMut};
ghost use Rattle.bit_addressing_memory.specs.Memory.{memory, piece, read_by};
ghost use Rattle.bit_addressing_span.specs.declared.span.TheConstants.{MAX_BITS};
ghost use Rattle.bit_slice_views_mut.specs.Frame.{frame_of};

use bit_addressing_memory::BitRegister;
use bit_slice_views_mut::{BitSlice, Bits, BitsMut, BitsShown, BitsWindow, MayWriteBeside};

/// Some bits of a window, as a window of its own: what a range lends.
///
/// When it ends, the window shows all its bits again.
pub struct Part<'s, V: BitsWindow> {
    of: &'s mut V,
    head: usize,
    len: usize,

    ghost short: { len ≤ MAX_BITS },
    ghost small: { head + len < 2 ^ 63 },
    ghost fits: { head + len ≤ length (V.words of.now) * V.Store.BITS },
}

#[tactic(auto, using(crate::proofs::PartLemmas::shows_all, crate::proofs::PartLemmas::framed_all))]
impl<V: BitsWindow> Drop for Part<'_, V> {
    ghost use Rattle.bit_slice_access.specs.Part.{part_whole, part_around};

    fn drop(self)
        ensures bits { V.bits self.exit.0.now
            ≡ part_whole (read_by V.Store.BitRegister V.Order.position) V.words self.entry }
        ensures frame { V.frame self.exit.0.now
            ≡ part_around (read_by V.Store.BitRegister V.Order.position) V.lender V.words self.entry }
    {
        let Part { of, head, len } = self;
        of.show(MayWriteBeside, head, len);
    }
}

impl<V: BitsWindow> Bits for Part<'_, V> {
    ghost use Rattle.bit_slice_access.specs.Part.{part_view};

    type Store = V::Store;

    type Order = V::Order;

    ghost bits = { λ part. V.bits (part_view part) };

    ghost start = { λ part. V.start (part_view part) };

    fn as_bitslice(&self) -> BitSlice<'_, V::Store, V::Order> {
        self.of.as_bitslice()
    }
}

impl<V: BitsWindow> BitsMut for Part<'_, V> {
    ghost use Rattle.std.specs.Prelude.{refl};
    ghost use Rattle.bit_slice_access.specs.Part.{part_lender, part_view};
    ghost use Rattle.bit_slice_access.specs.PartLender.{PartLender};

    ghost Lender = { PartLender V.Lender };

    ghost lender = { part_lender V.lender };

    ghost words = { λ part. V.words (part_view part) };

    ghost place = { λ part. V.place (part_view part) };

    ghost frame = { λ part. frame_of (read_by V.Store.BitRegister V.Order.position) (part_lender V.lender part)
        (V.words (part_view part)) (V.place (part_view part)) (length (V.bits (part_view part))) };

    fn first_place(&self) -> usize {
        self.of.first_place()
    }

    fn with_words<A, F: FnOnce(&mut [V::Store]) -> A>(&mut self, key: MayWriteBeside, f: F) -> A {
        self.of.with_words(key, f)
    }

    ghost window = { λ part. V.window (part_view part) };

    ghost fits = { λ part. V.fits (part_view part) };

    ghost framed = { λ part. refl };

    ghost starts = { λ part. V.starts (part_view part) };
}

impl<V: BitsWindow> BitsShown for Part<'_, V> {
    fn show(&mut self, key: MayWriteBeside, from: usize, count: usize) {
        self.of.show(key, from, count);
    }
}

impl<V: BitsWindow> BitsWindow for Part<'_, V> {}

impl<'s, V: BitsWindow> Part<'s, V> {
    ghost use Rattle.bit_slice_access.specs.Part.{part_loan};
    ghost use Rattle.bit_slice_access.specs.Shows.{IsPartOf};

    /// `count` bits of a window, from bit `from` on.
    pub fn new(of: &'s mut V, from: usize, count: usize) -> Part<'s, V>
        requires { from + count ≤ length (V.bits of.old) }
        ensures same_reference { part_loan result ≡ of.entry.ghost_name }
        ensures shows { IsPartOf (read_by V.Store.BitRegister V.Order.position) V.lender V.words V.place V.bits V.frame
            of.old from count result }
    {
        let head = of.first_place();
        let len = of.len();
        of.show(MayWriteBeside, head + from, count);
        Part { of, head, len }
    }
}
