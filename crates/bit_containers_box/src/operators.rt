//! The operators of Rust on boxes of bits, with whatever shows bits of the same words and order on the right.

ghost use Rattle.std.specs.Prelude.{◌≡◌, ◌&&◌, ◌||◌};
ghost use Rattle.std.specs.Bool.{xor};
ghost use Rattle.bit_addressing_memory.specs.Memory.{read_by};
ghost use Rattle.bit_containers_box.specs.Box.{Combines};
ghost use Rattle.bit_slice_views_mut.specs.Combined.{combined};
ghost use Rattle.bit_slice_views_mut.specs.ViewMut.{lent_bits, lent_frame};

use crate::boxed::BitBox;
use bit_addressing_memory::{BitOrder, BitRegister};
use bit_slice_views::{BitStore, Bits};
use bit_slice_views_mut::{BitSliceMut, and_view, or_view, xor_view};
use bit_slice_words::WordPaths;
use std::ops::{BitAnd, BitAndAssign, BitOr, BitOrAssign, BitXor, BitXorAssign};

/// Each bit becomes what it and the other's bit are both; those past the other's end are cleared.
impl<T: BitStore, O: WordPaths<T>, V: Bits<Store = T, Order = O> + Drop> BitAndAssign<V>
    for BitBox<T, O> {
    ghost bitand_assign_gives = { λ before other after.
        Combines (read_by T.BitRegister O.position) (λ a b. a && b) before (V.bits other) after };

    fn bitand_assign(&mut self, other: V) {
        and_view(self, other.as_bitslice());
    }
}

/// What `&=` makes of the box.
impl<T: BitStore, O: WordPaths<T>, V: Bits<Store = T, Order = O> + Drop> BitAnd<V>
    for BitBox<T, O> {
    type Output = BitBox<T, O>;

    ghost bitand_gives = { λ before other after.
        Combines (read_by T.BitRegister O.position) (λ a b. a && b) before (V.bits other) after };

    fn bitand(self, other: V) -> BitBox<T, O> {
        let mut combined = self;
        and_view(&mut combined, other.as_bitslice());
        combined
    }
}

/// Each bit becomes what it or the other's bit is; those past the other's end stay.
impl<T: BitStore, O: WordPaths<T>, V: Bits<Store = T, Order = O> + Drop> BitOrAssign<V>
    for BitBox<T, O> {
    ghost bitor_assign_gives = { λ before other after.
        Combines (read_by T.BitRegister O.position) (λ a b. a || b) before (V.bits other) after };

    fn bitor_assign(&mut self, other: V) {
        or_view(self, other.as_bitslice());
    }
}

/// What `|=` makes of the box.
impl<T: BitStore, O: WordPaths<T>, V: Bits<Store = T, Order = O> + Drop> BitOr<V> for BitBox<T, O> {
    type Output = BitBox<T, O>;

    ghost bitor_gives = { λ before other after.
        Combines (read_by T.BitRegister O.position) (λ a b. a || b) before (V.bits other) after };

    fn bitor(self, other: V) -> BitBox<T, O> {
        let mut combined = self;
        or_view(&mut combined, other.as_bitslice());
        combined
    }
}

/// Each bit becomes whether it and the other's bit differ; those past the other's end stay.
impl<T: BitStore, O: WordPaths<T>, V: Bits<Store = T, Order = O> + Drop> BitXorAssign<V>
    for BitBox<T, O> {
    ghost bitxor_assign_gives = { λ before other after.
        Combines (read_by T.BitRegister O.position) xor before (V.bits other) after };

    fn bitxor_assign(&mut self, other: V) {
        xor_view(self, other.as_bitslice());
    }
}

/// What `^=` makes of the box.
impl<T: BitStore, O: WordPaths<T>, V: Bits<Store = T, Order = O> + Drop> BitXor<V>
    for BitBox<T, O> {
    type Output = BitBox<T, O>;

    ghost bitxor_gives = { λ before other after.
        Combines (read_by T.BitRegister O.position) xor before (V.bits other) after };

    fn bitxor(self, other: V) -> BitBox<T, O> {
        let mut combined = self;
        xor_view(&mut combined, other.as_bitslice());
        combined
    }
}

/// What `&=` does with the box's bits as a window.
impl<'a, 'b, T: BitStore, O: WordPaths<T>> BitAndAssign<&'b BitBox<T, O>>
    for BitSliceMut<'a, T, O> {
    ghost use Rattle.bit_containers_box.specs.Box.{box_bits};

    ghost bitand_assign_gives = { λ before other after.
        (lent_bits (read_by T.BitRegister O.position) after
        ≡ combined (λ a b. a && b) (lent_bits (read_by T.BitRegister O.position) before)
        (box_bits (read_by T.BitRegister O.position) other.now))
        × (lent_frame (read_by T.BitRegister O.position) after
        ≡ lent_frame (read_by T.BitRegister O.position) before) };

    fn bitand_assign(&mut self, other: &'b BitBox<T, O>) {
        *self &= other.as_bitslice();
    }
}

/// What `|=` does with the box's bits as a window.
impl<'a, 'b, T: BitStore, O: WordPaths<T>> BitOrAssign<&'b BitBox<T, O>> for BitSliceMut<'a, T, O> {
    ghost use Rattle.bit_containers_box.specs.Box.{box_bits};

    ghost bitor_assign_gives = { λ before other after.
        (lent_bits (read_by T.BitRegister O.position) after
        ≡ combined (λ a b. a || b) (lent_bits (read_by T.BitRegister O.position) before)
        (box_bits (read_by T.BitRegister O.position) other.now))
        × (lent_frame (read_by T.BitRegister O.position) after
        ≡ lent_frame (read_by T.BitRegister O.position) before) };

    fn bitor_assign(&mut self, other: &'b BitBox<T, O>) {
        *self |= other.as_bitslice();
    }
}

/// What `^=` does with the box's bits as a window.
impl<'a, 'b, T: BitStore, O: WordPaths<T>> BitXorAssign<&'b BitBox<T, O>>
    for BitSliceMut<'a, T, O> {
    ghost use Rattle.bit_containers_box.specs.Box.{box_bits};

    ghost bitxor_assign_gives = { λ before other after.
        (lent_bits (read_by T.BitRegister O.position) after
        ≡ combined xor (lent_bits (read_by T.BitRegister O.position) before)
        (box_bits (read_by T.BitRegister O.position) other.now))
        × (lent_frame (read_by T.BitRegister O.position) after
        ≡ lent_frame (read_by T.BitRegister O.position) before) };

    fn bitxor_assign(&mut self, other: &'b BitBox<T, O>) {
        *self ^= other.as_bitslice();
    }
}
