//! Windows made into vectors of their own.

ghost use Rattle.std.specs.Prelude.{◌≡◌, ℕ, ◌+◌, ◌*◌, ◌%◌, ◌^◌, ◌<◌, ◌≤◌, ◌++◌, length, replicate, IfOk};
ghost use Rattle.bit_slice.specs.Memory.{read_by, Copies};
ghost use Rattle.bit_slice.specs.SpanLimits.{MAX_BITS};
ghost use Rattle.bit_containers.specs.Repeated.{repeated};
ghost use Rattle.bit_containers_vector.specs.Count.{words_for};
ghost use Rattle.bit_containers_vector.specs.Grown.{HoldsAlone};
ghost use Rattle.bit_containers_vector.specs.Vector.{vec_bits, vec_head};
ghost use Rattle.bit_slice.specs.View.{view_bits};

use bit_containers_vector::BitVec;
use bit_slice::words::copy_in;
use bit_slice::{BitOrder, BitRegister, BitSlice, BitSliceMut, BitStore, Bits, mem};
use std::alloc::{AllocError, Global};

/// What windows make of themselves: vectors of their bits. Each call takes memory.
pub trait ToBits<T: BitStore, O: BitOrder<T>>: Bits<Store = T, Order = O> {
    // The index of the first bit in the word where it lies.
    ghost head: { Self → ℕ };

    /// The same bits, from the same head on, with dead bits that are 0.
    fn to_bitvec(&self, alloc: Global) -> Result<BitVec<T, O>, AllocError>
        ensures { IfOk result (λ made. HoldsAlone (read_by T.BitRegister O.position) made (head self.now)
            (Self.bits self.now)) };

    /// Another name of `to_bitvec`.
    final fn to_vec(&self, alloc: Global) -> Result<BitVec<T, O>, AllocError>
        ensures { IfOk result (λ made. HoldsAlone (read_by T.BitRegister O.position) made (head self.now)
            (Self.bits self.now)) }
    {
        self.to_bitvec(alloc)
    }

    /// The list so many times, one after the other, from the first bit of a word on.
    final fn repeat(&self, alloc: Global, times: usize) -> Result<BitVec<T, O>, AllocError>
        requires { times * length (Self.bits self.now) ≤ MAX_BITS }
        ensures bits { IfOk result (λ made. vec_bits (read_by T.BitRegister O.position) made
            ≡ repeated times (Self.bits self.now)) }
        ensures head { IfOk result (λ made. vec_head made ≡ 0) }
    {
        repeat_bits(alloc, self.as_bitslice(), times)
    }
}

impl<'a, T: BitStore, O: BitOrder<T>> ToBits<T, O> for BitSlice<'a, T, O> {
    ghost use Rattle.bit_slice.specs.View.{view_head};

    ghost head = { view_head };

    fn to_bitvec(&self, alloc: Global) -> Result<BitVec<T, O>, AllocError> {
        BitVec::from_bitslice(alloc, *self)
    }
}

impl<'a, T: BitStore, O: BitOrder<T>> ToBits<T, O> for BitSliceMut<'a, T, O> {
    ghost use Rattle.bit_slice.specs.ViewMut.{lent_place};

    ghost head = { λ view. lent_place view % T.BITS };

    fn to_bitvec(&self, alloc: Global) -> Result<BitVec<T, O>, AllocError> {
        let head = self.head().into_inner();
        with_head(alloc, self.as_bitslice(), head)
    }
}

// The bits of a window, from an index of a word on, with dead bits that are 0.
fn with_head<T: BitStore, O: BitOrder<T>>(
    alloc: Global,
    view: BitSlice<'_, T, O>,
    head: u8,
) -> Result<BitVec<T, O>, AllocError>
    requires { head < T.BITS }
    ensures { IfOk result (λ made. HoldsAlone (read_by T.BitRegister O.position) made head
        (view_bits (read_by T.BitRegister O.position) view.entry)) }
{
    let (words, source, len) = view.parts();
    let head = head as usize;
    let mut held = zeros::<T>(alloc, head + len)?;
    copy::<T, O>(&mut held, head, words, source as usize, len);
    Ok(BitVec::from_place(held, head, len))
}

// So many words that are 0 as these bits take.
fn zeros<T: BitStore>(alloc: Global, bits: usize) -> Result<Vec<T>, AllocError>
    ensures { IfOk result (λ made. made.items ≡ replicate (words_for T.BITS bits) T.ZERO) }
{
    let mut made = Vec::new(alloc);
    made.resize(bits.div_ceil(mem::bits_of::<T>()), T::ZERO)?;
    Ok(made)
}

// Makes `len` bits from a place on those of another memory.
#[tactic(auto, using(bit_containers_vector::proofs::CountLemmas::refilled))]
fn copy<T: BitStore, O: BitOrder<T>>(
    words: &mut Vec<T>,
    place: usize,
    others: &[T],
    source: usize,
    len: usize,
)
    requires within { place + len ≤ length words.old.items * T.BITS }
    requires ends { place + len < 2 ^ 64 }
    requires source_within { source + len ≤ length others.now * T.BITS }
    requires source_ends { source + len < 2 ^ 64 }
    ensures copied { Copies (read_by T.BitRegister O.position) words.old.items words.new.items
        (read_by T.BitRegister O.position) others.now source place len }
{
    copy_in::<T, O, T, O>(others, source, words.as_mut_slice(), place, len);
}

// The bits of a window so many times.
fn repeat_bits<T: BitStore, O: BitOrder<T>>(
    alloc: Global,
    view: BitSlice<'_, T, O>,
    times: usize,
) -> Result<BitVec<T, O>, AllocError>
    requires { times * length (view_bits (read_by T.BitRegister O.position) view) ≤ MAX_BITS }
    ensures bits { IfOk result (λ made. vec_bits (read_by T.BitRegister O.position) made
        ≡ repeated times (view_bits (read_by T.BitRegister O.position) view.entry)) }
    ensures head { IfOk result (λ made. vec_head made ≡ 0) }
{
    let mut made = BitVec::with_capacity(alloc, times * view.len())?;
    for _i in 0..times {
        made.extend_from_bitslice(&view)?;
    }
    Ok(made)
}
