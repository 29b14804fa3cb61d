//! The splits of whatever lends bits to write.

ghost use Rattle.std.specs.Prelude.{◌≡◌, ◌↔◌, false, length, IsTrue};
ghost use Rattle.bit_addressing_memory.specs.Memory.{read_by};
ghost use Rattle.bit_slice_splits.specs.SplitsMut.{parts_done, parts_loan, parts_most, SplitsAll};

use crate::splits_mut::{RSplitMut, SplitInclusiveMut, SplitMut};
use crate::splits_n_mut::{RSplitNMut, SplitNMut};
use bit_addressing_memory::BitRegister;
use bit_slice_views::Bits;
use bit_slice_views_mut::{BitsMut, BitsWindow};

/// The splits of a window by a predicate, to write: of every `BitsWindow`.
///
/// One part is lent at a time, by `next_mut`. The predicate is handed what that of `split` is.
pub trait BitsSplitsMut: BitsWindow {
    /// The parts between the bits where the predicate answers true; these bits are in none.
    final fn split_mut<F: FnMut(usize, &bool) -> bool + Drop>(
        &mut self,
        f: F,
    ) -> SplitMut<'_, Self, F>
        ensures same_reference { parts_loan result ≡ self.entry.ghost_name }
        ensures parts { SplitsAll (read_by Self.Store.BitRegister Self.Order.position) Self.lender Self.words Self.place
            Self.bits Self.frame self.old f result }
        ensures done { parts_done result ≡ false }
    {
        SplitMut::new(self, f, false)
    }

    /// The parts that end with the bit where the predicate answers true, or at the end. No bits have none.
    final fn split_inclusive_mut<F: FnMut(usize, &bool) -> bool + Drop>(
        &mut self,
        f: F,
    ) -> SplitInclusiveMut<'_, Self, F>
        ensures same_reference { parts_loan result ≡ self.entry.ghost_name }
        ensures parts { SplitsAll (read_by Self.Store.BitRegister Self.Order.position) Self.lender Self.words Self.place
            Self.bits Self.frame self.old f result }
        ensures done { IsTrue (parts_done result) ↔ (length (Self.bits self.old) ≡ 0) }
    {
        let done = self.is_empty();
        SplitInclusiveMut::new(self, f, done)
    }

    /// The parts between the bits where the predicate answers true, from the back on.
    final fn rsplit_mut<F: FnMut(usize, &bool) -> bool + Drop>(
        &mut self,
        f: F,
    ) -> RSplitMut<'_, Self, F>
        ensures same_reference { parts_loan result ≡ self.entry.ghost_name }
        ensures parts { SplitsAll (read_by Self.Store.BitRegister Self.Order.position) Self.lender Self.words Self.place
            Self.bits Self.frame self.old f result }
        ensures done { parts_done result ≡ false }
    {
        RSplitMut::new(self, f, false)
    }

    /// At most `count` parts as of `split_mut`; the last of them has all that is left.
    final fn splitn_mut<F: FnMut(usize, &bool) -> bool + Drop>(
        &mut self,
        count: usize,
        f: F,
    ) -> SplitNMut<'_, Self, F>
        ensures same_reference { parts_loan result ≡ self.entry.ghost_name }
        ensures parts { SplitsAll (read_by Self.Store.BitRegister Self.Order.position) Self.lender Self.words Self.place
            Self.bits Self.frame self.old f result }
        ensures done { parts_done result ≡ false }
        ensures count { parts_most result ≡ count }
    {
        SplitNMut::up_to(self, count, f)
    }

    /// At most `count` parts as of `rsplit_mut`; the last of them has all that is left.
    final fn rsplitn_mut<F: FnMut(usize, &bool) -> bool + Drop>(
        &mut self,
        count: usize,
        f: F,
    ) -> RSplitNMut<'_, Self, F>
        ensures same_reference { parts_loan result ≡ self.entry.ghost_name }
        ensures parts { SplitsAll (read_by Self.Store.BitRegister Self.Order.position) Self.lender Self.words Self.place
            Self.bits Self.frame self.old f result }
        ensures done { parts_done result ≡ false }
        ensures count { parts_most result ≡ count }
    {
        RSplitNMut::up_to(self, count, f)
    }
}

impl<V: BitsWindow> BitsSplitsMut for V {}
