//! What a writable window lends by words, whatever lends the window.

ghost use Rattle.std.specs.Prelude.{◌≡◌, ◌+◌, ◌/◌, ◌%◌, ◌^◌, ◌<◌, ◌≤◌, length};
ghost use Rattle.std.specs.Fn.{FnOnceReturnsAtMut};
ghost use Rattle.bit_addressing_span.specs.declared.span.TheConstants.{MAX_BITS};
ghost use Rattle.bit_slice_access.specs.Cut.{cut_loan, cut_view, CutLies, IsCutAt};
ghost use Rattle.bit_slice_access.specs.Domain.{domain_loan, domain_view};
ghost use Rattle.bit_slice_access.specs.Halves.{IsSplit, KeepsHalves, halves_words};

use crate::bit_domain_mut::BitDomainMut;
use crate::domain_mut::WindowDomainMut;
use crate::halves::{Halves, split_in};
use bit_addressing_memory::BitRegister;
use bit_slice_views_mut::{Bits, BitsMut, BitsWindow, MayWriteBeside};

/// What a writable window lends by words: of every `BitsWindow`.
pub trait BitsDomains: BitsWindow {
    /// The words of the window, each read and written in the part of it that lies in the window.
    final fn domain_mut(&mut self) -> WindowDomainMut<'_, Self>
        ensures same_reference { domain_loan result ≡ self.entry.ghost_name }
        ensures value { domain_view result ≡ self.old }
    {
        WindowDomainMut::new(self)
    }

    /// The window cut at the borders of its words, of which one part is lent at a time.
    final fn bit_domain_mut(&mut self) -> BitDomainMut<'_, Self>
        ensures same_reference { cut_loan result ≡ self.entry.ghost_name }
        ensures value { cut_view result ≡ self.old }
        ensures cut { IsCutAt Self.Store.BITS (Self.place self.old) (length (Self.bits self.old)) result }

        // What the window's type says.
        ensures short { length (Self.bits self.old) ≤ MAX_BITS }
        ensures small { Self.place self.old + length (Self.bits self.old) < 2 ^ 63 }

        // What its calls ask.
        ensures lies { CutLies Self.Store.BITS Self.words result }
    {
        let place = self.first_place();
        let len = self.len();
        BitDomainMut::new(self, place, len)
    }

    /// Lends the words, split where bit `mid` of the window begins a word, to a function: windows of both parts can be
    /// written at once.
    final fn split_words_mut<A, F: FnOnce(&mut Halves<'_, Self::Store>) -> A>(
        &mut self,
        mid: usize,
        f: F,
    ) -> A
        requires inside { mid ≤ length (Self.bits self.old) }
        requires border { (Self.place self.old + mid) % Self.Store.BITS ≡ 0 }
        requires callable { (h : _) → IsSplit (Self.words self.old) ((Self.place self.old + mid) / Self.Store.BITS) h.now
            → F.pre f h }
        requires keeps { (h : _) (r : A) (k : _) → FnOnceReturnsAtMut F.FnOnce f h r k → KeepsHalves h k }
        ensures words { (h : _) × (k : _)
            × IsSplit (Self.words self.old) ((Self.place self.old + mid) / Self.Store.BITS) h
            × FnOnceReturnsAtMut F.FnOnce f h result k × (Self.words self.new ≡ halves_words k) }
        ensures lender { Self.lender self.new ≡ Self.lender self.old }
        ensures place { Self.place self.new ≡ Self.place self.old }
        ensures len { length (Self.bits self.new) ≡ length (Self.bits self.old) }
    {
        let place = self.first_place() + mid;
        self.with_words(
            MayWriteBeside,
            |words| split_in::<Self::Store, A, F>(words, place, f),
        )
    }
}

impl<V: BitsWindow> BitsDomains for V {}
