//! The operators of Rust on arrays: with whatever shows bits of the same words and order on the right, and on writable
//! windows with an array on the right. Of an array only the bits of its list are combined or flipped: where its words have
//! more than `MAX_BITS`, the others stay.

ghost use Rattle.std.specs.Prelude.{◌≡◌, ◌&&◌, ◌||◌, map, not};
ghost use Rattle.std.specs.Bool.{xor};
ghost use Rattle.bit_addressing_memory.specs.Memory.{read_by};
ghost use Rattle.bit_slice_views_mut.specs.Combined.{combined};
ghost use Rattle.bit_slice_views_mut.specs.ViewMut.{lent_bits, lent_frame};

use crate::array::BitArray;
use bit_addressing_memory::{BitOrder, BitRegister};
use bit_slice_views::{BitViewSized, Bits};
use bit_slice_views_mut::{BitSliceMut, BitsMut, and_view, or_view, xor_view};
use bit_slice_words::WordPaths;
use std::ops::{BitAnd, BitAndAssign, BitOr, BitOrAssign, BitXor, BitXorAssign, Not};

/// Each bit becomes what it and the other's bit are both; those past the other's end are cleared.
impl<
    A: BitViewSized,
    O: WordPaths<A::Store>,
    V: Bits<Store = A::Store, Order = O> + Drop,
> BitAndAssign<V> for BitArray<A, O> {
    ghost use Rattle.bit_containers_array.specs.Array.{array_bits, array_frame};

    ghost bitand_assign_gives = { λ before other after.
        (array_bits (read_by A.Store.BitRegister O.position) A.words after
        ≡ combined (λ a b. a && b) (array_bits (read_by A.Store.BitRegister O.position) A.words before)
        (V.bits other))
        × (array_frame (read_by A.Store.BitRegister O.position) A.words after
        ≡ array_frame (read_by A.Store.BitRegister O.position) A.words before) };

    fn bitand_assign(&mut self, other: V) {
        and_view(self, other.as_bitslice());
    }
}

/// Each bit is what it and the other's bit are both; those past the other's end are 0.
impl<A: BitViewSized, O: WordPaths<A::Store>, V: Bits<Store = A::Store, Order = O> + Drop> BitAnd<V>
    for BitArray<A, O> {
    ghost use Rattle.bit_containers_array.specs.Array.{array_bits, array_frame};

    type Output = BitArray<A, O>;

    ghost bitand_gives = { λ array other both.
        (array_bits (read_by A.Store.BitRegister O.position) A.words both
        ≡ combined (λ a b. a && b) (array_bits (read_by A.Store.BitRegister O.position) A.words array)
        (V.bits other))
        × (array_frame (read_by A.Store.BitRegister O.position) A.words both
        ≡ array_frame (read_by A.Store.BitRegister O.position) A.words array) };

    fn bitand(self, other: V) -> BitArray<A, O> {
        let mut both = self;
        both &= other;
        both
    }
}

/// Each bit becomes what it or the other's bit is.
impl<
    A: BitViewSized,
    O: WordPaths<A::Store>,
    V: Bits<Store = A::Store, Order = O> + Drop,
> BitOrAssign<V> for BitArray<A, O> {
    ghost use Rattle.bit_containers_array.specs.Array.{array_bits, array_frame};

    ghost bitor_assign_gives = { λ before other after.
        (array_bits (read_by A.Store.BitRegister O.position) A.words after
        ≡ combined (λ a b. a || b) (array_bits (read_by A.Store.BitRegister O.position) A.words before)
        (V.bits other))
        × (array_frame (read_by A.Store.BitRegister O.position) A.words after
        ≡ array_frame (read_by A.Store.BitRegister O.position) A.words before) };

    fn bitor_assign(&mut self, other: V) {
        or_view(self, other.as_bitslice());
    }
}

/// Each bit is what it or the other's bit is.
impl<A: BitViewSized, O: WordPaths<A::Store>, V: Bits<Store = A::Store, Order = O> + Drop> BitOr<V>
    for BitArray<A, O> {
    ghost use Rattle.bit_containers_array.specs.Array.{array_bits, array_frame};

    type Output = BitArray<A, O>;

    ghost bitor_gives = { λ array other both.
        (array_bits (read_by A.Store.BitRegister O.position) A.words both
        ≡ combined (λ a b. a || b) (array_bits (read_by A.Store.BitRegister O.position) A.words array)
        (V.bits other))
        × (array_frame (read_by A.Store.BitRegister O.position) A.words both
        ≡ array_frame (read_by A.Store.BitRegister O.position) A.words array) };

    fn bitor(self, other: V) -> BitArray<A, O> {
        let mut both = self;
        both |= other;
        both
    }
}

/// Each bit becomes whether it and the other's bit differ.
impl<
    A: BitViewSized,
    O: WordPaths<A::Store>,
    V: Bits<Store = A::Store, Order = O> + Drop,
> BitXorAssign<V> for BitArray<A, O> {
    ghost use Rattle.bit_containers_array.specs.Array.{array_bits, array_frame};

    ghost bitxor_assign_gives = { λ before other after.
        (array_bits (read_by A.Store.BitRegister O.position) A.words after
        ≡ combined xor (array_bits (read_by A.Store.BitRegister O.position) A.words before) (V.bits other))
        × (array_frame (read_by A.Store.BitRegister O.position) A.words after
        ≡ array_frame (read_by A.Store.BitRegister O.position) A.words before) };

    fn bitxor_assign(&mut self, other: V) {
        xor_view(self, other.as_bitslice());
    }
}

/// Each bit is whether it and the other's bit differ.
impl<A: BitViewSized, O: WordPaths<A::Store>, V: Bits<Store = A::Store, Order = O> + Drop> BitXor<V>
    for BitArray<A, O> {
    ghost use Rattle.bit_containers_array.specs.Array.{array_bits, array_frame};

    type Output = BitArray<A, O>;

    ghost bitxor_gives = { λ array other both.
        (array_bits (read_by A.Store.BitRegister O.position) A.words both
        ≡ combined xor (array_bits (read_by A.Store.BitRegister O.position) A.words array) (V.bits other))
        × (array_frame (read_by A.Store.BitRegister O.position) A.words both
        ≡ array_frame (read_by A.Store.BitRegister O.position) A.words array) };

    fn bitxor(self, other: V) -> BitArray<A, O> {
        let mut both = self;
        both ^= other;
        both
    }
}

/// The same array, each bit flipped.
impl<A: BitViewSized, O: BitOrder<A::Store>> Not for BitArray<A, O> {
    ghost use Rattle.bit_containers_array.specs.Array.{array_bits, array_frame};

    type Output = BitArray<A, O>;

    ghost not_gives = { λ before after.
        (array_bits (read_by A.Store.BitRegister O.position) A.words after
        ≡ map not (array_bits (read_by A.Store.BitRegister O.position) A.words before))
        × (array_frame (read_by A.Store.BitRegister O.position) A.words after
        ≡ array_frame (read_by A.Store.BitRegister O.position) A.words before) };

    fn not(self) -> BitArray<A, O> {
        let mut array = self;
        array.invert();
        array
    }
}

/// What `&=` does with the array's bits as a window.
impl<'a, A: BitViewSized, O: WordPaths<A::Store>> BitAndAssign<BitArray<A, O>>
    for BitSliceMut<'a, A::Store, O> {
    ghost use Rattle.bit_containers_array.specs.Array.{array_bits};

    ghost bitand_assign_gives = { λ before other after.
        (lent_bits (read_by A.Store.BitRegister O.position) after
        ≡ combined (λ a b. a && b) (lent_bits (read_by A.Store.BitRegister O.position) before)
        (array_bits (read_by A.Store.BitRegister O.position) A.words other))
        × (lent_frame (read_by A.Store.BitRegister O.position) after
        ≡ lent_frame (read_by A.Store.BitRegister O.position) before) };

    fn bitand_assign(&mut self, other: BitArray<A, O>) {
        *self &= other.as_bitslice();
    }
}

/// What `|=` does with the array's bits as a window.
impl<'a, A: BitViewSized, O: WordPaths<A::Store>> BitOrAssign<BitArray<A, O>>
    for BitSliceMut<'a, A::Store, O> {
    ghost use Rattle.bit_containers_array.specs.Array.{array_bits};

    ghost bitor_assign_gives = { λ before other after.
        (lent_bits (read_by A.Store.BitRegister O.position) after
        ≡ combined (λ a b. a || b) (lent_bits (read_by A.Store.BitRegister O.position) before)
        (array_bits (read_by A.Store.BitRegister O.position) A.words other))
        × (lent_frame (read_by A.Store.BitRegister O.position) after
        ≡ lent_frame (read_by A.Store.BitRegister O.position) before) };

    fn bitor_assign(&mut self, other: BitArray<A, O>) {
        *self |= other.as_bitslice();
    }
}

/// What `^=` does with the array's bits as a window.
impl<'a, A: BitViewSized, O: WordPaths<A::Store>> BitXorAssign<BitArray<A, O>>
    for BitSliceMut<'a, A::Store, O> {
    ghost use Rattle.bit_containers_array.specs.Array.{array_bits};

    ghost bitxor_assign_gives = { λ before other after.
        (lent_bits (read_by A.Store.BitRegister O.position) after
        ≡ combined xor (lent_bits (read_by A.Store.BitRegister O.position) before)
        (array_bits (read_by A.Store.BitRegister O.position) A.words other))
        × (lent_frame (read_by A.Store.BitRegister O.position) after
        ≡ lent_frame (read_by A.Store.BitRegister O.position) before) };

    fn bitxor_assign(&mut self, other: BitArray<A, O>) {
        *self ^= other.as_bitslice();
    }
}
