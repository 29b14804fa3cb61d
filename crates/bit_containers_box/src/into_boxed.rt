//! Vectors of bits that become boxes.

ghost use Rattle.std.specs.Prelude.{◌≡◌, ℕ, Bool, List, IfOk, IsOk};
ghost use Rattle.bit_addressing_memory.specs.Memory.{read_by};
ghost use Rattle.bit_containers_box.specs.Box.{box_held, IsBoxed};
ghost use Rattle.bit_containers_box.specs.Left.{left_bits, left_place, left_words};

use crate::boxed::BitBox;
use crate::iter::IntoIter;
use bit_addressing_memory::BitOrder;
use bit_containers_vector::BitVec;
use bit_slice_views::BitStore;
use std::alloc::AllocFailed;

/// What becomes a box of its own bits: a vector, whose words are not copied.
pub trait IntoBoxed: Sized {
    type Store: BitStore;

    type Order: BitOrder<Self::Store>;

    ghost list: { Self → List Bool };

    // The index of the first bit in the first word.
    ghost head: { Self → ℕ };

    // The visible words.
    ghost shown: { Self → List Self.Store };

    // For how many words its memory is.
    ghost held: { Self → ℕ };

    /// A box of the same bits, in the visible words. It takes no memory, and so the vector never comes back; the box keeps
    /// the capacity.
    fn into_boxed_bitslice(self) -> Result<BitBox<Self::Store, Self::Order>, AllocFailed<Self>>
        ensures done { IsOk result }
        ensures same { IfOk result (IsBoxed (read_by Self.Store.BitRegister Self.Order.position) (list self)
            (head self) (shown self)) }
        ensures held { IfOk result (λ made. box_held made ≡ held self) };

    /// Another name of `into_boxed_bitslice`.
    fn into_boxed_slice(self) -> Result<BitBox<Self::Store, Self::Order>, AllocFailed<Self>>
        ensures done { IsOk result }
        ensures same { IfOk result (IsBoxed (read_by Self.Store.BitRegister Self.Order.position) (list self)
            (head self) (shown self)) }
        ensures held { IfOk result (λ made. box_held made ≡ held self) };

    /// The bits one after another: the iterator of that box. It takes no memory, and so the vector never comes back.
    fn into_iter(self) -> Result<IntoIter<Self::Store, Self::Order>, AllocFailed<Self>>
        ensures done { IsOk result }
        ensures bits { IfOk result (λ iter. left_bits (read_by Self.Store.BitRegister Self.Order.position) iter
            ≡ list self) }
        ensures words { IfOk result (λ iter. left_words iter ≡ shown self) }
        ensures place { IfOk result (λ iter. left_place iter ≡ head self) };
}

impl<T: BitStore, O: BitOrder<T>> IntoBoxed for BitVec<T, O> {
    ghost use Rattle.bit_containers_vector.specs.Vector.{vec_bits, vec_head, visible, words_held};

    type Store = T;

    type Order = O;

    ghost list = { vec_bits (read_by T.BitRegister O.position) };

    ghost head = { vec_head };

    ghost shown = { visible (read_by T.BitRegister O.position) };

    ghost held = { words_held };

    fn into_boxed_bitslice(self) -> Result<BitBox<T, O>, AllocFailed<BitVec<T, O>>> {
        BitBox::from_vec(self)
    }

    fn into_boxed_slice(self) -> Result<BitBox<T, O>, AllocFailed<BitVec<T, O>>> {
        self.into_boxed_bitslice()
    }

    fn into_iter(self) -> Result<IntoIter<T, O>, AllocFailed<BitVec<T, O>>> {
        let bits = self.into_boxed_bitslice()?;
        Ok(bits.into_iter())
    }
}
