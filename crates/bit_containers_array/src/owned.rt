//! What an array of bits lends. Boxes and vectors have calls of their own of the same names.

ghost use Rattle.std.specs.Prelude.{◌≡◌, ℕ, List, length};
ghost use Rattle.std.specs.Borrow.{Array, Lends, follows, sem};
ghost use Rattle.bit_addressing_memory.specs.Memory.{read_by};
ghost use Rattle.bit_slice_views.specs.View.{view_bits, view_head};
ghost use Rattle.bit_slice_views_mut.specs.ViewMut.{lent_bits, lent_lender, lent_place, lent_words};

use bit_slice_views::{BitSlice, Bits};
use bit_slice_views_mut::{BitSliceMut, BitsMut};

/// What owns its bits and the words that they lie in: a container.
///
/// A contract sees its list as `bits`, as of each list that is written. Whoever writes the words that it lends knows it
/// afterwards as `with_words` of what they became.
pub trait BitsOwned: BitsMut {
    // How many words it has.
    ghost count: { Self → ℕ };

    // The value with other words.
    ghost with_words: { Self → List Self.Store → Self };

    /// The words, to read.
    fn as_raw_slice(&self) -> &[Self::Store]
        ensures value { result.now ≡ Self.words self.now }
        ensures count { length result.now ≡ count self.now };

    /// The words, to write.
    fn as_raw_mut_slice(&mut self) -> &mut [Self::Store]
        ensures value { result.now ≡ Self.words self.old }
        ensures count { length result.now ≡ count self.old }
        ensures* lends { sem 𝓛 (Lends Self.row (Array Self.Store.row 0) self.entry result (with_words self.old)) };

    ghost words_of: { (v : Self) (xs : List Self.Store) → length xs ≡ count v → Self.words (with_words v xs) ≡ xs };

    ghost lender_of: { (v : Self) (xs : List Self.Store) → length xs ≡ count v
        → Self.lender (with_words v xs) ≡ Self.lender v };

    ghost place_of: { (v : Self) (xs : List Self.Store) → length xs ≡ count v
        → Self.place (with_words v xs) ≡ Self.place v };

    ghost len_of: { (v : Self) (xs : List Self.Store) → length (Self.words v) ≡ count v → length xs ≡ count v
        → length (Self.bits (with_words v xs)) ≡ length (Self.bits v) };

    /// The list, as a writable window.
    ///
    /// Whoever wants to know the container afterwards writes it by the calls of `BitsMut`, or hands the words that
    /// `as_raw_mut_slice` lends to a function.
    final fn as_mut_bitslice(&mut self) -> BitSliceMut<'_, Self::Store, Self::Order>
        ensures bits { lent_bits (read_by Self.Store.BitRegister Self.Order.position) result ≡ Self.bits self.old }
        ensures words { lent_words result ≡ Self.words self.old }
        ensures place { lent_place result ≡ Self.place self.old }
        ensures* lends { sem 𝓛 (follows Self.row (Array Self.Store.row 0) self.entry.ghost_name (lent_lender result)
            (with_words self.old)) }
    {
        let place = self.first_place();
        let len = self.len();
        let words = self.as_raw_mut_slice();
        BitSliceMut::from_place_mut(words, place, len)
    }

    /// Another name of `as_bitslice`.
    final fn as_slice(&self) -> BitSlice<'_, Self::Store, Self::Order>
        ensures bits { view_bits (read_by Self.Store.BitRegister Self.Order.position) result ≡ Self.bits self.now }
        ensures head { view_head result ≡ Self.start self.now }
    {
        self.as_bitslice()
    }

    /// Another name of `as_mut_bitslice`.
    final fn as_mut_slice(&mut self) -> BitSliceMut<'_, Self::Store, Self::Order>
        ensures bits { lent_bits (read_by Self.Store.BitRegister Self.Order.position) result ≡ Self.bits self.old }
        ensures words { lent_words result ≡ Self.words self.old }
        ensures place { lent_place result ≡ Self.place self.old }
        ensures* lends { sem 𝓛 (follows Self.row (Array Self.Store.row 0) self.entry.ghost_name (lent_lender result)
            (with_words self.old)) }
    {
        self.as_mut_bitslice()
    }
}
