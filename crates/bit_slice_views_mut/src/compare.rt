//! Writable windows compared as lists of bits, their bits by index, and their texts: as those of shared windows.

ghost use Rattle.std.specs.Prelude.{◌≡◌, ◌<◌, Some, true, false, length, slice_index_or};
ghost use Rattle.std.specs.Fmt.{WritesOnOk};
ghost use Rattle.std.specs.Ordering.{as_partial_cmp};
ghost use Rattle.bit_addressing_memory.specs.Memory.{read_by, reading_in};
ghost use Rattle.bit_slice_views.specs.Compare.{bits_eq, bits_cmp, bits_fed, bits_equiv, bits_per, bits_total};
ghost use Rattle.bit_slice_views.specs.Compare.{bits_ties, bits_po, bits_alike};
ghost use Rattle.bit_slice_views.specs.Texts.{bits_text, groups_text};
ghost use Rattle.bit_slice_views_mut.specs.ViewMut.{lent_bits};

use crate::view_mut::BitSliceMut;
use bit_addressing_memory::{BitOrder, BitRegister};
use bit_slice_views::words::WordPaths;
use bit_slice_views::{Bits, write_bits, write_groups};
use std::cmp::Ordering;
use std::fmt;
use std::hash::{Hash, Hasher};
use std::ops::Index;

/// Windows of one type are equal where their lists are: by the word path of their order.
impl<T: BitRegister, O: WordPaths<T>> PartialEq for BitSliceMut<'_, T, O> {
    ghost eq = { bits_eq (lent_bits (read_by T.BitRegister O.position)) };

    ghost laws = { bits_per (lent_bits (reading_in T.BITS T.number O.position)) };

    fn eq(&self, other: &Self) -> bool {
        self.as_bitslice() == other.as_bitslice()
    }
}

impl<T: BitRegister, O: WordPaths<T>> Eq for BitSliceMut<'_, T, O> {
    ghost laws = { bits_equiv (lent_bits (reading_in T.BITS T.number O.position)) };
}

/// The order of `cmp_bits`.
impl<T: BitRegister, O: WordPaths<T>> PartialOrd for BitSliceMut<'_, T, O> {
    ghost partial_cmp = { as_partial_cmp (bits_cmp (lent_bits (read_by T.BitRegister O.position))) };

    ghost laws = { bits_po (lent_bits (reading_in T.BITS T.number O.position)) };

    fn partial_cmp(&self, other: &Self) -> Option<Ordering> {
        Some(self.cmp_bits(other))
    }
}

impl<T: BitRegister, O: WordPaths<T>> Ord for BitSliceMut<'_, T, O> {
    ghost use Rattle.std.specs.Prelude.{refl};

    ghost cmp = { bits_cmp (lent_bits (read_by T.BitRegister O.position)) };

    ghost total = { bits_total (lent_bits (reading_in T.BITS T.number O.position)) };

    ghost matches_partial_cmp = { λ _ _. refl };

    ghost matches_eq = { bits_ties (lent_bits (reading_in T.BITS T.number O.position)) };

    fn cmp(&self, other: &Self) -> Ordering {
        self.cmp_bits(other)
    }
}

/// The hash of `hash_bits`.
impl<T: BitRegister, O: WordPaths<T>> Hash for BitSliceMut<'_, T, O> {
    ghost hash_input = { bits_fed (lent_bits (read_by T.BitRegister O.position)) };

    ghost respects_eq = { bits_alike (lent_bits (reading_in T.BITS T.number O.position)) };

    fn hash<H: Hasher>(&self, state: &mut H) {
        self.hash_bits(state);
    }
}

impl<T: BitRegister, O: BitOrder<T>> Index<usize> for BitSliceMut<'_, T, O> {
    type Output = bool;

    ghost can_index = { λ view i. i < length (lent_bits (read_by T.BitRegister O.position) view) };

    ghost index_gives = { λ view i bit.
        bit ≡ slice_index_or (lent_bits (read_by T.BitRegister O.position) view) i false };

    fn index(&self, i: usize) -> &bool {
        if self.bit(i) { &true } else { &false }
    }
}

impl<T: BitRegister, O: BitOrder<T>> fmt::Display for BitSliceMut<'_, T, O> {
    ghost output = { λ view. Some (bits_text (lent_bits (read_by T.BitRegister O.position) view)) };

    fn fmt<W: fmt::Write>(&self, f: &mut fmt::Formatter<W>) -> fmt::Result {
        write_bits(self, f)
    }
}

impl<T: BitRegister, O: BitOrder<T>> fmt::Debug for BitSliceMut<'_, T, O> {
    ghost debug_output = { λ view. Some (bits_text (lent_bits (read_by T.BitRegister O.position) view)) };

    fn fmt<W: fmt::Write>(&self, f: &mut fmt::Formatter<W>) -> fmt::Result {
        fmt::Display::fmt(self, f)
    }
}

impl<T: BitRegister, O: BitOrder<T>> fmt::Binary for BitSliceMut<'_, T, O> {
    fn fmt<W: fmt::Write>(&self, f: &mut fmt::Formatter<W>) -> fmt::Result
        ensures { WritesOnOk W.write_str_gives f.old result
            (bits_text (lent_bits (read_by T.BitRegister O.position) self.now)) f.new }
    {
        fmt::Debug::fmt(self, f)
    }
}

impl<T: BitRegister, O: BitOrder<T>> fmt::Octal for BitSliceMut<'_, T, O> {
    fn fmt<W: fmt::Write>(&self, f: &mut fmt::Formatter<W>) -> fmt::Result
        ensures { WritesOnOk W.write_str_gives f.old result
            (groups_text 3 false (lent_bits (read_by T.BitRegister O.position) self.now)) f.new }
    {
        write_groups(self, 3, false, f)
    }
}

impl<T: BitRegister, O: BitOrder<T>> fmt::LowerHex for BitSliceMut<'_, T, O> {
    fn fmt<W: fmt::Write>(&self, f: &mut fmt::Formatter<W>) -> fmt::Result
        ensures { WritesOnOk W.write_str_gives f.old result
            (groups_text 4 false (lent_bits (read_by T.BitRegister O.position) self.now)) f.new }
    {
        write_groups(self, 4, false, f)
    }
}

impl<T: BitRegister, O: BitOrder<T>> fmt::UpperHex for BitSliceMut<'_, T, O> {
    fn fmt<W: fmt::Write>(&self, f: &mut fmt::Formatter<W>) -> fmt::Result
        ensures { WritesOnOk W.write_str_gives f.old result
            (groups_text 4 true (lent_bits (read_by T.BitRegister O.position) self.now)) f.new }
    {
        write_groups(self, 4, true, f)
    }
}
