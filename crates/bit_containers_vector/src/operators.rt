//! The operators of Rust on vectors of bits, with whatever shows bits of the same words and order on the right.

ghost use Rattle.std.specs.Prelude.{◌≡◌, ◌&&◌, ◌||◌};
ghost use Rattle.std.specs.Bool.{xor};
ghost use Rattle.bit_addressing_memory.specs.Memory.{read_by};
ghost use Rattle.bit_slice_views_mut.specs.Combined.{combined};
ghost use Rattle.bit_containers_vector.specs.Vector.{Combines};
ghost use Rattle.bit_slice_views_mut.specs.ViewMut.{lent_bits, lent_frame};

use crate::vector::BitVec;
use bit_addressing_memory::{BitOrder, BitRegister};
use bit_slice_views::{BitStore, Bits};
use bit_slice_views_mut::{BitSliceMut, and_view, or_view, xor_view};
use bit_slice_words::WordPaths;
use std::ops::{BitAnd, BitAndAssign, BitOr, BitOrAssign, BitXor, BitXorAssign};

/// Each bit becomes what it and the other's bit are both; those past the other's end are cleared.
impl<T: BitStore, O: WordPaths<T>, V: Bits<Store = T, Order = O> + Drop> BitAndAssign<V>
    for BitVec<T, O> {
    ghost bitand_assign_gives = { λ before other after.
        Combines (read_by T.BitRegister O.position) (λ a b. a && b) before (V.bits other) after };

    fn bitand_assign(&mut self, other: V) {
        and_view(self, other.as_bitslice());
    }
}

/// What `&=` makes of the vector.
impl<T: BitStore, O: WordPaths<T>, V: Bits<Store = T, Order = O> + Drop> BitAnd<V>
    for BitVec<T, O> {
    type Output = BitVec<T, O>;

    ghost bitand_gives = { λ before other after.
        Combines (read_by T.BitRegister O.position) (λ a b. a && b) before (V.bits other) after };

    fn bitand(self, other: V) -> BitVec<T, O> {
        let mut combined = self;
        and_view(&mut combined, other.as_bitslice());
        combined
    }
}

/// Each bit becomes what it or the other's bit is; those past the other's end stay.
impl<T: BitStore, O: WordPaths<T>, V: Bits<Store = T, Order = O> + Drop> BitOrAssign<V>
    for BitVec<T, O> {
    ghost bitor_assign_gives = { λ before other after.
        Combines (read_by T.BitRegister O.position) (λ a b. a || b) before (V.bits other) after };

    fn bitor_assign(&mut self, other: V) {
        or_view(self, other.as_bitslice());
    }
}

/// What `|=` makes of the vector.
impl<T: BitStore, O: WordPaths<T>, V: Bits<Store = T, Order = O> + Drop> BitOr<V> for BitVec<T, O> {
    type Output = BitVec<T, O>;

    ghost bitor_gives = { λ before other after.
        Combines (read_by T.BitRegister O.position) (λ a b. a || b) before (V.bits other) after };

    fn bitor(self, other: V) -> BitVec<T, O> {
        let mut combined = self;
        or_view(&mut combined, other.as_bitslice());
        combined
    }
}

/// Each bit becomes whether it and the other's bit differ; those past the other's end stay.
impl<T: BitStore, O: WordPaths<T>, V: Bits<Store = T, Order = O> + Drop> BitXorAssign<V>
    for BitVec<T, O> {
    ghost bitxor_assign_gives = { λ before other after.
        Combines (read_by T.BitRegister O.position) xor before (V.bits other) after };

    fn bitxor_assign(&mut self, other: V) {
        xor_view(self, other.as_bitslice());
    }
}

/// What `^=` makes of the vector.
impl<T: BitStore, O: WordPaths<T>, V: Bits<Store = T, Order = O> + Drop> BitXor<V>
    for BitVec<T, O> {
    type Output = BitVec<T, O>;

    ghost bitxor_gives = { λ before other after.
        Combines (read_by T.BitRegister O.position) xor before (V.bits other) after };

    fn bitxor(self, other: V) -> BitVec<T, O> {
        let mut combined = self;
        xor_view(&mut combined, other.as_bitslice());
        combined
    }
}

/// What `&=` does with the vector's bits as a window.
impl<'a, 'b, T: BitStore, O: WordPaths<T>> BitAndAssign<&'b BitVec<T, O>>
    for BitSliceMut<'a, T, O> {
    ghost use Rattle.bit_containers_vector.specs.Vector.{vec_bits};

    ghost bitand_assign_gives = { λ before other after.
        (lent_bits (read_by T.BitRegister O.position) after
        ≡ combined (λ a b. a && b) (lent_bits (read_by T.BitRegister O.position) before)
        (vec_bits (read_by T.BitRegister O.position) other.now))
        × (lent_frame (read_by T.BitRegister O.position) after
        ≡ lent_frame (read_by T.BitRegister O.position) before) };

    fn bitand_assign(&mut self, other: &'b BitVec<T, O>) {
        *self &= other.as_bitslice();
    }
}

/// What `|=` does with the vector's bits as a window.
impl<'a, 'b, T: BitStore, O: WordPaths<T>> BitOrAssign<&'b BitVec<T, O>> for BitSliceMut<'a, T, O> {
    ghost use Rattle.bit_containers_vector.specs.Vector.{vec_bits};

    ghost bitor_assign_gives = { λ before other after.
        (lent_bits (read_by T.BitRegister O.position) after
        ≡ combined (λ a b. a || b) (lent_bits (read_by T.BitRegister O.position) before)
        (vec_bits (read_by T.BitRegister O.position) other.now))
        × (lent_frame (read_by T.BitRegister O.position) after
        ≡ lent_frame (read_by T.BitRegister O.position) before) };

    fn bitor_assign(&mut self, other: &'b BitVec<T, O>) {
        *self |= other.as_bitslice();
    }
}

/// What `^=` does with the vector's bits as a window.
impl<'a, 'b, T: BitStore, O: WordPaths<T>> BitXorAssign<&'b BitVec<T, O>>
    for BitSliceMut<'a, T, O> {
    ghost use Rattle.bit_containers_vector.specs.Vector.{vec_bits};

    ghost bitxor_assign_gives = { λ before other after.
        (lent_bits (read_by T.BitRegister O.position) after
        ≡ combined xor (lent_bits (read_by T.BitRegister O.position) before)
        (vec_bits (read_by T.BitRegister O.position) other.now))
        × (lent_frame (read_by T.BitRegister O.position) after
        ≡ lent_frame (read_by T.BitRegister O.position) before) };

    fn bitxor_assign(&mut self, other: &'b BitVec<T, O>) {
        *self ^= other.as_bitslice();
    }
}
