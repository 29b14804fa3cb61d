//! The texts of arrays: those of windows.

ghost use Rattle.std.specs.Prelude.{true, false, Some};
ghost use Rattle.std.specs.Fmt.{WritesOnOk};
ghost use Rattle.bit_addressing_memory.specs.Memory.{read_by};
ghost use Rattle.bit_slice_views.specs.Texts.{bits_text, groups_text};

use crate::array::BitArray;
use bit_addressing_memory::{BitOrder, BitRegister};
use bit_slice_views::{BitViewSized, write_bits, write_groups};
use std::fmt;

impl<A: BitViewSized, O: BitOrder<A::Store>> fmt::Display for BitArray<A, O> {
    ghost use Rattle.bit_containers_array.specs.Array.{array_bits};

    ghost output = { λ array. Some (bits_text (array_bits (read_by A.Store.BitRegister O.position) A.words array)) };

    fn fmt<W: fmt::Write>(&self, f: &mut fmt::Formatter<W>) -> fmt::Result {
        write_bits(self, f)
    }
}

impl<A: BitViewSized, O: BitOrder<A::Store>> fmt::Debug for BitArray<A, O> {
    ghost use Rattle.bit_containers_array.specs.Array.{array_bits};

    ghost debug_output = { λ array. Some (bits_text
        (array_bits (read_by A.Store.BitRegister O.position) A.words array)) };

    fn fmt<W: fmt::Write>(&self, f: &mut fmt::Formatter<W>) -> fmt::Result {
        fmt::Display::fmt(self, f)
    }
}

impl<A: BitViewSized, O: BitOrder<A::Store>> fmt::Binary for BitArray<A, O> {
    ghost use Rattle.bit_containers_array.specs.Array.{array_bits};

    fn fmt<W: fmt::Write>(&self, f: &mut fmt::Formatter<W>) -> fmt::Result
        ensures { WritesOnOk W.write_str_gives f.old result
            (bits_text (array_bits (read_by A.Store.BitRegister O.position) A.words self.now)) f.new }
    {
        fmt::Debug::fmt(self, f)
    }
}

impl<A: BitViewSized, O: BitOrder<A::Store>> fmt::Octal for BitArray<A, O> {
    ghost use Rattle.bit_containers_array.specs.Array.{array_bits};

    fn fmt<W: fmt::Write>(&self, f: &mut fmt::Formatter<W>) -> fmt::Result
        ensures { WritesOnOk W.write_str_gives f.old result
            (groups_text 3 false (array_bits (read_by A.Store.BitRegister O.position) A.words self.now)) f.new }
    {
        write_groups(self, 3, false, f)
    }
}

impl<A: BitViewSized, O: BitOrder<A::Store>> fmt::LowerHex for BitArray<A, O> {
    ghost use Rattle.bit_containers_array.specs.Array.{array_bits};

    fn fmt<W: fmt::Write>(&self, f: &mut fmt::Formatter<W>) -> fmt::Result
        ensures { WritesOnOk W.write_str_gives f.old result
            (groups_text 4 false (array_bits (read_by A.Store.BitRegister O.position) A.words self.now)) f.new }
    {
        write_groups(self, 4, false, f)
    }
}

impl<A: BitViewSized, O: BitOrder<A::Store>> fmt::UpperHex for BitArray<A, O> {
    ghost use Rattle.bit_containers_array.specs.Array.{array_bits};

    fn fmt<W: fmt::Write>(&self, f: &mut fmt::Formatter<W>) -> fmt::Result
        ensures { WritesOnOk W.write_str_gives f.old result
            (groups_text 4 true (array_bits (read_by A.Store.BitRegister O.position) A.words self.now)) f.new }
    {
        write_groups(self, 4, true, f)
    }
}
