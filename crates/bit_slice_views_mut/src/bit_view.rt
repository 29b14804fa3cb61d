//! The bits of a word or of an array of words.

ghost use Rattle.std.specs.Prelude.{◌≡◌, ◌*◌, ◌≤◌, length};
ghost use Rattle.std.specs.Borrow.{Array, follows, sem};
ghost use Rattle.bit_addressing_memory.specs.Memory.{memory, read_by};
ghost use Rattle.bit_slice_views.specs.SpanLimits.{MAX_BITS};
ghost use Rattle.bit_slice_views.specs.View.{view_bits, view_head, view_words};
ghost use Rattle.bit_slice_views_mut.specs.ViewMut.{lent_bits, lent_lender, lent_place, lent_words};

use crate::view_mut::BitSliceMut;
use bit_addressing_memory::{BitOrder, BitRegister};
use bit_slice_views::{BitSlice, BitViewSized};

/// The bits of a word or of an array of words, of at most `MAX_BITS` bits, as windows.
pub trait BitView: BitViewSized {
    /// All bits, to read, in the order `O`.
    final fn view_bits<O: BitOrder<Self::Store>>(&self) -> BitSlice<'_, Self::Store, O>
        requires { Self.COUNT * Self.Store.BITS ≤ MAX_BITS }
        ensures bits { view_bits (read_by Self.Store.BitRegister O.position) result
            ≡ memory (read_by Self.Store.BitRegister O.position) (Self.words self.now) }
        ensures len { length (view_bits (read_by Self.Store.BitRegister O.position) result)
            ≡ Self.COUNT * Self.Store.BITS }
        ensures words { view_words result ≡ Self.words self.now }
        ensures head { view_head result ≡ 0 }
    {
        BitSlice::from_slice(self.as_raw_slice())
    }

    /// All bits, to write, in the order `O`.
    ///
    /// Whoever wants to know the value afterwards hands the words that `as_raw_mut_slice` lends to a function, which
    /// makes a window of them.
    final fn view_bits_mut<O: BitOrder<Self::Store>>(&mut self) -> BitSliceMut<'_, Self::Store, O>
        requires { Self.COUNT * Self.Store.BITS ≤ MAX_BITS }
        ensures words { lent_words result ≡ Self.words self.old }
        ensures place { lent_place result ≡ 0 }
        ensures len { length (lent_bits (read_by Self.Store.BitRegister O.position) result)
            ≡ Self.COUNT * Self.Store.BITS }
        ensures* lends { sem 𝓛 (follows Self.row (Array Self.Store.row 0) self.entry.ghost_name (lent_lender result)
            (Self.with_words self.old)) }
    {
        let words = self.as_raw_mut_slice();
        BitSliceMut::from_slice_mut(words)
    }
}

impl<A: BitViewSized> BitView for A {}
