//! Arrays of bits made: from words, from none, from a window.

ghost use Rattle.std.specs.Prelude.{◌≡◌, ◌-◌, ◌*◌, ◌++◌, ◌↔◌, false, length, min, replicate, IsOk, IfOk, IfErr};
ghost use Rattle.bit_addressing_memory.specs.Memory.{memory, read_by};
ghost use Rattle.bit_slice_views.specs.SpanLimits.{MAX_BITS};
ghost use Rattle.bit_slice_views.specs.View.{view_bits, view_head};

use crate::array::BitArray;
use crate::error::TryFromBitSliceError;
use bit_addressing_memory::{BitOrder, BitRegister};
use bit_slice_views::{BitSlice, BitViewSized, Bits};
use bit_slice_views_mut::BitsMut;

impl<A: BitViewSized, O: BitOrder<A::Store>> From<A> for BitArray<A, O> {
    ghost from_gives = { λ words array. array.words ≡ words };

    fn from(words: A) -> BitArray<A, O> {
        BitArray::new(words)
    }
}

/// No bit set.
impl<A: BitViewSized, O: BitOrder<A::Store>> Default for BitArray<A, O> {
    ghost use Rattle.bit_containers_array.specs.Array.{array_bits};

    ghost is_default = { λ array. (array.words ≡ A.ZERO)
        × (array_bits (read_by A.Store.BitRegister O.position) A.words array
        ≡ replicate (min (A.COUNT * A.Store.BITS) MAX_BITS) false) };

    fn default() -> Self {
        BitArray::new(A::ZERO)
    }
}

/// The bits of a window, which has as many as the array and begins with a word. Where the words of the array have more
/// than `MAX_BITS`, the others are 0.
impl<'a, A: BitViewSized, O: BitOrder<A::Store>> TryFrom<BitSlice<'a, A::Store, O>>
    for BitArray<A, O> {
    ghost use Rattle.bit_containers_array.specs.Array.{array_bits, array_words};
    ghost use Rattle.bit_containers_array.specs.FromView.{IsFirstFault};

    type Error = TryFromBitSliceError;

    ghost try_from_gives = { λ view made.
        (IsOk made ↔ ((length (view_bits (read_by A.Store.BitRegister O.position) view)
        ≡ min (A.COUNT * A.Store.BITS) MAX_BITS) × (view_head view ≡ 0)))
        × IfOk made (λ array. (array_bits (read_by A.Store.BitRegister O.position) A.words array
        ≡ view_bits (read_by A.Store.BitRegister O.position) view)
        × (memory (read_by A.Store.BitRegister O.position) (array_words A.words array)
        ≡ view_bits (read_by A.Store.BitRegister O.position) view ++ replicate (A.COUNT * A.Store.BITS
        - length (view_bits (read_by A.Store.BitRegister O.position) view)) false))
        × IfErr made (IsFirstFault (length (view_bits (read_by A.Store.BitRegister O.position) view))
        (min (A.COUNT * A.Store.BITS) MAX_BITS)) };

    fn try_from(view: BitSlice<'a, A::Store, O>) -> Result<BitArray<A, O>, TryFromBitSliceError> {
        let mut array = BitArray::<A, O>::default();
        let actual = view.len();
        let expected = array.len();
        if actual != expected {
            return Err(TryFromBitSliceError::UnequalLen { actual, expected });
        }
        if view.head().into_inner() != 0 {
            return Err(TryFromBitSliceError::Misaligned);
        }
        array.clone_from_bitslice(&view);
        Ok(array)
    }
}
