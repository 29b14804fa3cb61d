//! Boxes of bits made of words where these are not too many, and seen as bits one after another.

ghost use Rattle.std.specs.Prelude.{◌≡◌, ◌*◌, ◌≤◌, ◌↔◌, length, IfErr, IfOk, IsOk};
ghost use Rattle.std.specs.Box.{boxed_slice_items};
ghost use Rattle.bit_addressing_memory.specs.Memory.{memory, read_by};
ghost use Rattle.bit_slice_views.specs.SpanLimits.{MAX_BITS};
ghost use Rattle.bit_containers_box.specs.Box.{box_bits, box_head, box_words, box_room, IsBoxed, KeepsBlock};
ghost use Rattle.bit_containers_vector.specs.Vector.{vec_bits, vec_head, vec_words, room};

use crate::boxed::BitBox;
use bit_addressing_memory::BitOrder;
use bit_containers_vector::BitVec;
use bit_slice_iterators::{BitsIter, Iter};
use bit_slice_views::{BitRef, BitStore};
use std::boxed::BoxedSlice;

/// What `try_from_boxed_slice` does.
impl<T: BitStore, O: BitOrder<T>> TryFrom<BoxedSlice<T>> for BitBox<T, O> {
    type Error = BoxedSlice<T>;

    ghost try_from_gives = { λ words made.
        (IsOk made ↔ (length (boxed_slice_items words) * T.BITS ≤ MAX_BITS))
        × IfOk made (IsBoxed (read_by T.BitRegister O.position)
        (memory (read_by T.BitRegister O.position) (boxed_slice_items words)) 0 (boxed_slice_items words))
        × IfErr made (λ back. boxed_slice_items back ≡ boxed_slice_items words) };

    fn try_from(words: BoxedSlice<T>) -> Result<BitBox<T, O>, BoxedSlice<T>> {
        BitBox::try_from_boxed_slice(words)
    }
}

/// What `into_boxed_slice` does.
impl<T: BitStore, O: BitOrder<T>> From<BitBox<T, O>> for BoxedSlice<T> {
    ghost from_gives = { λ from words. boxed_slice_items words ≡ box_words from };

    fn from(from: BitBox<T, O>) -> BoxedSlice<T> {
        from.into_boxed_slice()
    }
}

/// What `into_bitvec` does.
impl<T: BitStore, O: BitOrder<T>> From<BitBox<T, O>> for BitVec<T, O> {
    ghost from_gives = { λ from made.
        (vec_bits (read_by T.BitRegister O.position) made ≡ box_bits (read_by T.BitRegister O.position) from)
        × (vec_head made ≡ box_head from) × (vec_words made ≡ box_words from)
        × (room (read_by T.BitRegister O.position) made ≡ box_room (read_by T.BitRegister O.position) from)
        × KeepsBlock from made };

    fn from(from: BitBox<T, O>) -> BitVec<T, O> {
        from.into_bitvec()
    }
}

/// The bits of the box as `iter` gives them.
impl<'a, T: BitStore + 'a, O: BitOrder<T>> IntoIterator for &'a BitBox<T, O> {
    type Item = BitRef;

    type IntoIter = Iter<'a, T, O>;

    ghost into_iter_gives = { λ bits iter. (iter.bits ≡ box_bits (read_by T.BitRegister O.position) bits.now)
        × (iter.head ≡ box_head bits.now) };

    fn into_iter(self) -> Iter<'a, T, O>
        ensures into_iter_gives { (result.bits ≡ box_bits (read_by T.BitRegister O.position) self.now)
            × (result.head ≡ box_head self.now) }
    {
        self.iter()
    }
}
