//! The words and the bits of a box, lent to be read and to be written.

ghost use Rattle.std.specs.Prelude.{◌≡◌, ◌≤◌, length, take};
ghost use Rattle.std.specs.Borrow.{Array, follows, sem};
ghost use Rattle.bit_addressing_memory.specs.Memory.{read_by};
ghost use Rattle.bit_containers_box.specs.Box.{box_bits, box_head, box_visible};
ghost use Rattle.bit_containers_box.specs.Lending.{with_words};
ghost use Rattle.bit_slice_views.specs.View.{view_bits, view_head};
ghost use Rattle.bit_slice_views_mut.specs.ViewMut.{lent_bits, lent_lender, lent_place, lent_words};

use crate::boxed::BitBox;
use crate::words::words_taken;
use bit_addressing_memory::BitOrder;
use bit_slice_views::{BitSlice, BitStore, Bits};
use bit_slice_views_mut::BitSliceMut;

impl<T: BitStore, O: BitOrder<T>> BitBox<T, O> {
    ghost use Rattle.bit_containers_box.specs.contracts.boxed.BitBox.{the_row};

    /// The visible words: those up to the last bit.
    pub fn as_raw_slice(&self) -> &[T]
        ensures { result.now ≡ box_visible (read_by T.BitRegister O.position) self.now }
    {
        let count = words_taken::<T>(self.head + self.len);
        words_upto(self.words.as_slice(), count)
    }

    /// The visible words, to write: the bits of the list in them, and the dead bits.
    pub fn as_raw_mut_slice(&mut self) -> &mut [T]
        ensures words { result.now ≡ box_visible (read_by T.BitRegister O.position) self.old }
        ensures* lends { sem 𝓛 (follows (the_row T.row O.row T.BitRegister) (Array T.row 0) self.entry.ghost_name
            result.ghost_name (with_words self.old)) }
    {
        let count = words_taken::<T>(self.head + self.len);
        self.words.slice_mut(0..count)
    }

    /// The list, as a writable window.
    ///
    /// Whoever wants to know the box afterwards writes it by the calls of `BitsMut`, or hands the words that
    /// `as_raw_mut_slice` lends to a function.
    pub fn as_mut_bitslice(&mut self) -> BitSliceMut<'_, T, O>
        ensures bits { lent_bits (read_by T.BitRegister O.position) result
            ≡ box_bits (read_by T.BitRegister O.position) self.old }
        ensures words { lent_words result ≡ box_visible (read_by T.BitRegister O.position) self.old }
        ensures place { lent_place result ≡ box_head self.old }
        ensures* lends { sem 𝓛 (follows (the_row T.row O.row T.BitRegister) (Array T.row 0) self.entry.ghost_name
            (lent_lender result) (with_words self.old)) }
    {
        let head = self.head;
        let len = self.len;
        BitSliceMut::from_place_mut(self.as_raw_mut_slice(), head, len)
    }

    /// Another name of `as_bitslice`.
    pub fn as_slice(&self) -> BitSlice<'_, T, O>
        ensures bits { view_bits (read_by T.BitRegister O.position) result
            ≡ box_bits (read_by T.BitRegister O.position) self.now }
        ensures head { view_head result ≡ box_head self.now }
    {
        self.as_bitslice()
    }

    /// Another name of `as_mut_bitslice`.
    pub fn as_mut_slice(&mut self) -> BitSliceMut<'_, T, O>
        ensures bits { lent_bits (read_by T.BitRegister O.position) result
            ≡ box_bits (read_by T.BitRegister O.position) self.old }
        ensures words { lent_words result ≡ box_visible (read_by T.BitRegister O.position) self.old }
        ensures place { lent_place result ≡ box_head self.old }
        ensures* lends { sem 𝓛 (follows (the_row T.row O.row T.BitRegister) (Array T.row 0) self.entry.ghost_name
            (lent_lender result) (with_words self.old)) }
    {
        self.as_mut_bitslice()
    }
}

// The first words.
fn words_upto<T>(words: &[T], upto: usize) -> &[T]
    requires { upto ≤ length words.now }
    ensures { result.now ≡ take upto words.now }
{
    &words[..upto]
}
