//! Arrays of one type compared and hashed by their lists.

ghost use Rattle.std.specs.Ordering.{as_partial_cmp};
ghost use Rattle.bit_addressing_memory.specs.Memory.{read_by, reading_in};
ghost use Rattle.bit_slice_views.specs.Compare.{bits_eq, bits_cmp, bits_fed, bits_equiv, bits_per, bits_total};
ghost use Rattle.bit_slice_views.specs.Compare.{bits_ties, bits_po, bits_alike};

use crate::array::BitArray;
use bit_addressing_memory::{BitOrder, BitRegister};
use bit_slice_views::{BitViewSized, Bits};
use bit_slice_words::WordPaths;
use std::cmp::Ordering;
use std::hash::{Hash, Hasher};

/// Arrays of one type are equal where their lists are: by the word path of their order.
impl<A: BitViewSized, O: WordPaths<A::Store>> PartialEq for BitArray<A, O> {
    ghost use Rattle.bit_containers_array.specs.Array.{array_bits};

    ghost eq = { bits_eq (array_bits (read_by A.Store.BitRegister O.position) A.words) };

    ghost laws = { bits_per (array_bits (reading_in A.Store.BITS A.Store.number O.position) A.words) };

    fn eq(&self, other: &Self) -> bool {
        self.as_bitslice() == other.as_bitslice()
    }
}

impl<A: BitViewSized, O: WordPaths<A::Store>> Eq for BitArray<A, O> {
    ghost use Rattle.bit_containers_array.specs.Array.{array_bits};

    ghost laws = { bits_equiv (array_bits (reading_in A.Store.BITS A.Store.number O.position) A.words) };
}

/// The order of `cmp_bits`.
impl<A: BitViewSized, O: WordPaths<A::Store>> PartialOrd for BitArray<A, O> {
    ghost use Rattle.bit_containers_array.specs.Array.{array_bits};

    ghost partial_cmp = { as_partial_cmp (bits_cmp (array_bits (read_by A.Store.BitRegister O.position) A.words)) };

    ghost laws = { bits_po (array_bits (reading_in A.Store.BITS A.Store.number O.position) A.words) };

    fn partial_cmp(&self, other: &Self) -> Option<Ordering> {
        Some(self.cmp_bits(other))
    }
}

impl<A: BitViewSized, O: WordPaths<A::Store>> Ord for BitArray<A, O> {
    ghost use Rattle.std.specs.Prelude.{refl};
    ghost use Rattle.bit_containers_array.specs.Array.{array_bits};

    ghost cmp = { bits_cmp (array_bits (read_by A.Store.BitRegister O.position) A.words) };

    ghost total = { bits_total (array_bits (reading_in A.Store.BITS A.Store.number O.position) A.words) };

    ghost matches_partial_cmp = { λ _ _. refl };

    ghost matches_eq = { bits_ties (array_bits (reading_in A.Store.BITS A.Store.number O.position) A.words) };

    fn cmp(&self, other: &Self) -> Ordering {
        self.cmp_bits(other)
    }
}

/// The hash of `hash_bits`.
impl<A: BitViewSized, O: WordPaths<A::Store>> Hash for BitArray<A, O> {
    ghost use Rattle.bit_containers_array.specs.Array.{array_bits};

    ghost hash_input = { bits_fed (array_bits (read_by A.Store.BitRegister O.position) A.words) };

    ghost respects_eq = { bits_alike (array_bits (reading_in A.Store.BITS A.Store.number O.position) A.words) };

    fn hash<H: Hasher>(&self, state: &mut H) {
        self.hash_bits(state);
    }
}
