//! Boxes of bits compared and hashed by their lists: dead bits, head and memory play no part.

ghost use Rattle.std.specs.Ordering.{as_partial_cmp};
ghost use Rattle.bit_addressing_memory.specs.Memory.{read_by, reading_in};
ghost use Rattle.bit_slice_views.specs.Compare.{bits_eq, bits_cmp, bits_fed, bits_equiv, bits_per, bits_total};
ghost use Rattle.bit_slice_views.specs.Compare.{bits_ties, bits_po, bits_alike};
ghost use Rattle.bit_containers_box.specs.Box.{box_bits};

use crate::boxed::BitBox;
use bit_addressing_memory::{BitOrder, BitRegister};
use bit_slice_views::{BitStore, Bits};
use bit_slice_words::WordPaths;
use std::cmp::Ordering;
use std::hash::{Hash, Hasher};

/// Boxes of one type are equal where their lists are: by the word path of their order.
impl<T: BitStore, O: WordPaths<T>> PartialEq for BitBox<T, O> {
    ghost eq = { bits_eq (box_bits (read_by T.BitRegister O.position)) };

    ghost laws = { bits_per (box_bits (reading_in T.BITS T.number O.position)) };

    fn eq(&self, other: &Self) -> bool {
        self.as_bitslice() == other.as_bitslice()
    }
}

impl<T: BitStore, O: WordPaths<T>> Eq for BitBox<T, O> {
    ghost laws = { bits_equiv (box_bits (reading_in T.BITS T.number O.position)) };
}

/// The order of `cmp_bits`.
impl<T: BitStore, O: WordPaths<T>> PartialOrd for BitBox<T, O> {
    ghost partial_cmp = { as_partial_cmp (bits_cmp (box_bits (read_by T.BitRegister O.position))) };

    ghost laws = { bits_po (box_bits (reading_in T.BITS T.number O.position)) };

    fn partial_cmp(&self, other: &Self) -> Option<Ordering> {
        Some(self.cmp_bits(other))
    }
}

impl<T: BitStore, O: WordPaths<T>> Ord for BitBox<T, O> {
    ghost use Rattle.std.specs.Prelude.{refl};

    ghost cmp = { bits_cmp (box_bits (read_by T.BitRegister O.position)) };

    ghost total = { bits_total (box_bits (reading_in T.BITS T.number O.position)) };

    ghost matches_partial_cmp = { λ _ _. refl };

    ghost matches_eq = { bits_ties (box_bits (reading_in T.BITS T.number O.position)) };

    fn cmp(&self, other: &Self) -> Ordering {
        self.cmp_bits(other)
    }
}

/// The hash of `hash_bits`.
impl<T: BitStore, O: WordPaths<T>> Hash for BitBox<T, O> {
    ghost hash_input = { bits_fed (box_bits (read_by T.BitRegister O.position)) };

    ghost respects_eq = { bits_alike (box_bits (reading_in T.BITS T.number O.position)) };

    fn hash<H: Hasher>(&self, state: &mut H) {
        self.hash_bits(state);
    }
}
