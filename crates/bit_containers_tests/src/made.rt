//! Boxes and vectors made by a bound alone: of words and arrays of words, and of what becomes a box.

ghost use Rattle.std.specs.Prelude.{◌*◌, ◌≤◌};
ghost use Rattle.bit_addressing_span.specs.declared.span.TheConstants.{MAX_BITS};

use bit_addressing_memory::{BitOrder, Lsb0, Msb0};
use bit_containers_box::{BitBox, IntoBoxed};
use bit_containers_vector::BitVec;
use bit_slice_views::{BitViewSized, Bits};
use std::alloc::{AllocError, Global};
use std::process::Abort;

// A box of an array's bits.
fn boxed<A: BitViewSized, O: BitOrder<A::Store>>(
    alloc: Global,
    array: &A,
) -> Result<BitBox<A::Store, O>, AllocError>
    requires { A.COUNT * A.Store.BITS ≤ MAX_BITS }
{
    BitBox::from_array(alloc, array)
}

// A vector of them.
fn all_of<A: BitViewSized, O: BitOrder<A::Store>>(
    alloc: Global,
    array: &A,
) -> Result<BitVec<A::Store, O>, AllocError>
    requires { A.COUNT * A.Store.BITS ≤ MAX_BITS }
{
    BitVec::from_array(alloc, array)
}

#[test]
fn arrays_become_boxes_and_vectors(rt: HostRuntime) -> Result<(), AllocError> {
    let alloc = rt.alloc();
    let bits = boxed::<[u8; 2], Msb0>(alloc, &[0b1000_0001, 0b0100_0000])?;
    assert!(rt; bits.len() == 16 && bits[0] && bits[7] && bits[9] && bits.count_ones() == 3);
    assert!(rt; bits.into_boxed_slice().as_slice() == [0b1000_0001u8, 0b0100_0000].as_slice());
    let bits = boxed::<u16, Lsb0>(alloc, &0x8001)?;
    assert!(rt; bits.len() == 16 && bits[0] && bits[15] && bits.count_ones() == 2);
    let none = boxed::<[u64; 0], Lsb0>(alloc, &[])?;
    assert!(rt; none.is_empty() && none.into_boxed_slice().len() == 0);
    let bits = all_of::<[u16; 2], Msb0>(alloc, &[0x1234, 0x5678])?;
    assert!(rt; bits.count_ones() == 13 && bits.len() == 32);
    Ok(())
}

// How many ones a vector has as a box, and how many bits one after another.
fn counted<V: IntoBoxed + Drop>(vector: V, other: V) -> (usize, usize) {
    match (vector.into_boxed_slice(), other.into_iter()) {
        (Ok(bits), Ok(iter)) => (bits.count_ones(), iter.len()),
        _ => (100, 100),
    }
}

#[test]
fn vectors_become_boxes(rt: HostRuntime) -> Result<(), AllocError> {
    let alloc = rt.alloc();
    let vector = BitVec::<u8, Msb0>::from_element(alloc, 0b0001_0101)?;
    assert!(rt; counted(vector.clone()?, vector) == (3, 8));
    Ok(())
}
