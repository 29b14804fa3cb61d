//! The array without a bit set.

ghost use Rattle.std.specs.Prelude.{◌≡◌, false, length, replicate};
ghost use Rattle.bit_addressing_memory.specs.Memory.{read_by};

use crate::array::BitArray;
use bit_addressing_memory::BitOrder;
use bit_slice_views::{BitViewSized, Bits};
use std::marker::PhantomData;

/// The array whose bits are all 0. A contract knows this constant.
pub trait BitArrayZero: Bits {
    ghost ZERO: { Self };

    /// The array whose bits are all 0.
    const ZERO: Self;

    ghost zero_bits: { Self.bits ZERO ≡ replicate (length (Self.bits ZERO)) false };
}

impl<A: BitViewSized, O: BitOrder<A::Store>> BitArrayZero for BitArray<A, O> {
    ghost use Rattle.bit_containers_array.specs.ZeroLaws.{no_bits};

    ghost ZERO = { record { words = A.ZERO; order = record {} } };

    const ZERO: BitArray<A, O> = BitArray {
        words: A::ZERO,
        order: PhantomData,
    };

    ghost zero_bits = { no_bits A.Store.BITS A.Store.number O.position (A.words A.ZERO) A.COUNT A.Store.ZERO
        A.Store.least_bits A.zero_words A.Store.zero_is };
}
