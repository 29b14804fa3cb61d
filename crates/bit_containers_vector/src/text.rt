//! The texts of vectors of bits, and a bit by its index.

ghost use Rattle.std.specs.Prelude.{◌≡◌, ◌<◌, false, true, length, slice_index_or, Some};
ghost use Rattle.std.specs.Fmt.{WritesOnOk};
ghost use Rattle.bit_addressing_memory.specs.Memory.{read_by};
ghost use Rattle.bit_slice_views.specs.Texts.{bits_text, groups_text};
ghost use Rattle.bit_containers_vector.specs.Vector.{vec_bits};

use crate::vector::BitVec;
use bit_addressing_memory::{BitOrder, BitRegister};
use bit_slice_views::{BitStore, Bits, write_bits, write_groups};
use std::fmt;
use std::ops::Index;

impl<T: BitStore, O: BitOrder<T>> fmt::Display for BitVec<T, O> {
    ghost output = { λ vector. Some (bits_text (vec_bits (read_by T.BitRegister O.position) vector)) };

    fn fmt<W: fmt::Write>(&self, f: &mut fmt::Formatter<W>) -> fmt::Result {
        write_bits(self, f)
    }
}

impl<T: BitStore, O: BitOrder<T>> fmt::Debug for BitVec<T, O> {
    ghost debug_output = { λ vector. Some (bits_text (vec_bits (read_by T.BitRegister O.position) vector)) };

    fn fmt<W: fmt::Write>(&self, f: &mut fmt::Formatter<W>) -> fmt::Result {
        fmt::Display::fmt(self, f)
    }
}

impl<T: BitStore, O: BitOrder<T>> fmt::Binary for BitVec<T, O> {
    fn fmt<W: fmt::Write>(&self, f: &mut fmt::Formatter<W>) -> fmt::Result
        ensures { WritesOnOk W.write_str_gives f.old result
            (bits_text (vec_bits (read_by T.BitRegister O.position) self.now)) f.new }
    {
        fmt::Debug::fmt(self, f)
    }
}

impl<T: BitStore, O: BitOrder<T>> fmt::Octal for BitVec<T, O> {
    fn fmt<W: fmt::Write>(&self, f: &mut fmt::Formatter<W>) -> fmt::Result
        ensures { WritesOnOk W.write_str_gives f.old result
            (groups_text 3 false (vec_bits (read_by T.BitRegister O.position) self.now)) f.new }
    {
        write_groups(self, 3, false, f)
    }
}

impl<T: BitStore, O: BitOrder<T>> fmt::LowerHex for BitVec<T, O> {
    fn fmt<W: fmt::Write>(&self, f: &mut fmt::Formatter<W>) -> fmt::Result
        ensures { WritesOnOk W.write_str_gives f.old result
            (groups_text 4 false (vec_bits (read_by T.BitRegister O.position) self.now)) f.new }
    {
        write_groups(self, 4, false, f)
    }
}

impl<T: BitStore, O: BitOrder<T>> fmt::UpperHex for BitVec<T, O> {
    fn fmt<W: fmt::Write>(&self, f: &mut fmt::Formatter<W>) -> fmt::Result
        ensures { WritesOnOk W.write_str_gives f.old result
            (groups_text 4 true (vec_bits (read_by T.BitRegister O.position) self.now)) f.new }
    {
        write_groups(self, 4, true, f)
    }
}

impl<T: BitStore, O: BitOrder<T>> Index<usize> for BitVec<T, O> {
    type Output = bool;

    ghost can_index = { λ vector i. i < length (vec_bits (read_by T.BitRegister O.position) vector) };

    ghost index_gives = { λ vector i bit.
        bit ≡ slice_index_or (vec_bits (read_by T.BitRegister O.position) vector) i false };

    fn index(&self, i: usize) -> &bool {
        if self.bit(i) { &true } else { &false }
    }
}
