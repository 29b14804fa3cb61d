//! Bits of an array by their indices, to write.

ghost use Rattle.std.specs.Prelude.{◌≡◌, ◌+◌, ◌<◌, ◌↔◌, IfSome, IsSome, length};
ghost use Rattle.std.specs.Borrow.{RestsIfNone, sem};
ghost use Rattle.bit_addressing_memory.specs.Memory.{read_by};
ghost use Rattle.bit_slice_iterators.specs.BitMut.{bit_index, bit_loan, bit_view};

use crate::array::BitArray;
use bit_addressing_memory::BitOrder;
use bit_slice_iterators::BitMut;
use bit_slice_views::BitViewSized;

/// The calls of `BitsAccess`, which here say too that an array without such a bit stays as it was.
impl<A: BitViewSized, O: BitOrder<A::Store>> BitArray<A, O> {
    ghost use Rattle.bit_containers_array.specs.Array.{array_bits};
    ghost use Rattle.bit_containers_array.specs.contracts.array.BitArray.{the_row};

    /// The bit at an index, or `None` where it does not lie in the array.
    pub fn get_mut(&mut self, i: usize) -> Option<BitMut<'_, BitArray<A, O>>>
        ensures variant { IsSome result ↔ (i < length (array_bits (read_by A.Store.BitRegister O.position) A.words self.old)) }
        ensures same_reference { IfSome result (λ bit. bit_loan bit ≡ self.entry.ghost_name) }
        ensures value { IfSome result (λ bit. bit_view bit ≡ self.old) }
        ensures index { IfSome result (λ bit. bit_index bit ≡ i) }
        ensures* rests { sem 𝓛 (RestsIfNone (the_row A.row O.row A.Store.row A.Access.row) self.entry bit_loan result (λ n. n ≡ self.old)) }
    {
        if i < self.len() {
            Some(BitMut::new(self, i))
        } else {
            None
        }
    }

    /// The first bit, or `None` of an array without bits.
    pub fn first_mut(&mut self) -> Option<BitMut<'_, BitArray<A, O>>>
        ensures variant { IsSome result ↔ (0 < length (array_bits (read_by A.Store.BitRegister O.position) A.words self.old)) }
        ensures same_reference { IfSome result (λ bit. bit_loan bit ≡ self.entry.ghost_name) }
        ensures value { IfSome result (λ bit. bit_view bit ≡ self.old) }
        ensures index { IfSome result (λ bit. bit_index bit ≡ 0) }
        ensures* rests { sem 𝓛 (RestsIfNone (the_row A.row O.row A.Store.row A.Access.row) self.entry bit_loan result (λ n. n ≡ self.old)) }
    {
        if self.len() == 0 {
            return None;
        }
        Some(BitMut::new(self, 0))
    }

    /// The last bit, or `None` of an array without bits.
    pub fn last_mut(&mut self) -> Option<BitMut<'_, BitArray<A, O>>>
        ensures variant { IsSome result ↔ (0 < length (array_bits (read_by A.Store.BitRegister O.position) A.words self.old)) }
        ensures same_reference { IfSome result (λ bit. bit_loan bit ≡ self.entry.ghost_name) }
        ensures value { IfSome result (λ bit. bit_view bit ≡ self.old) }
        ensures index { IfSome result (λ bit. bit_index bit + 1 ≡ length (array_bits (read_by A.Store.BitRegister O.position) A.words self.old)) }
        ensures* rests { sem 𝓛 (RestsIfNone (the_row A.row O.row A.Store.row A.Access.row) self.entry bit_loan result (λ n. n ≡ self.old)) }
    {
        let len = self.len();
        if len == 0 {
            return None;
        }
        Some(BitMut::new(self, len - 1))
    }
}
