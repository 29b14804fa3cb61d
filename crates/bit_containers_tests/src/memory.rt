//! Room for bits: what is reserved, what stays, and bits that come without a refusal.

use bit_addressing_memory::{BitOrder, Lsb0, Msb0};
use bit_containers_vector::BitVec;
use bit_slice_views::{BitSlice, BitStore, Bits};
use std::alloc::{AllocError, Global};

// Whether so many bits come in the memory that was reserved for them, and none of it is given back when the list is cut.
fn reserved<O: BitOrder<u8>>(
    alloc: Global,
    head: usize,
    more: usize,
    is_exact: bool,
) -> Result<bool, AllocError> {
    let words = [0x5au8, 0xc3];
    let window = BitSlice::<u8, O>::from_place(&words, head % 8, 5);
    let mut vector = BitVec::<u8, O>::from_bitslice(alloc, window)?;
    let before = vector.capacity();
    if vector.len() > 1000 || more > 1000 {
        return Ok(false);
    }
    if is_exact {
        vector.reserve_exact(more)?;
    } else {
        vector.reserve(more)?;
    }
    let kept = vector.capacity();
    for k in 0..more {
        if vector.len() > 1000 {
            return Ok(false);
        }
        vector.push(k % 3 == 0)?;
        if vector.capacity() != kept {
            return Ok(false);
        }
    }
    let roomy = kept >= before && kept >= vector.len();
    vector.truncate(1);
    let cut = vector.capacity() == kept;
    vector.clear();
    Ok(roomy && cut && vector.capacity() == kept)
}

#[test]
fn what_is_reserved_is_there(rt: HostRuntime) -> Result<(), AllocError> {
    for head in 0..8usize {
        assert!(rt; reserved::<Lsb0>(rt.alloc(), head, 30, false)?);
        assert!(rt; reserved::<Msb0>(rt.alloc(), head, 11, true)?);
    }
    Ok(())
}

// Whether bits that are put in, and a new length, leave the capacity within what was reserved.
fn grown_within<T: BitStore, O: BitOrder<T>>(alloc: Global) -> Result<bool, AllocError> {
    let mut vector = BitVec::<T, O>::with_capacity(alloc, 100)?;
    let before = vector.capacity();
    vector.insert(0, true)?;
    vector.resize(99, true)?;
    if vector.len() == 99 {
        vector.insert(50, false)?;
    }
    Ok(before >= 100 && vector.capacity() == before && vector.len() == 100)
}

// Whether memory is given back as far as no visible word needs it.
fn given_back<T: BitStore, O: BitOrder<T>>(alloc: Global) -> Result<bool, AllocError> {
    let mut vector = BitVec::<T, O>::with_capacity(alloc, 400)?;
    vector.resize(20, true)?;
    let before = vector.capacity();
    vector.shrink_to_fit()?;
    let less = vector.capacity() >= 20 && vector.capacity() < before;
    Ok(less && vector.len() == 20 && vector.all())
}

#[test]
fn memory_is_kept_and_given_back(rt: HostRuntime) -> Result<(), AllocError> {
    let alloc = rt.alloc();
    assert!(rt; grown_within::<u8, Lsb0>(alloc)? && grown_within::<u64, Msb0>(alloc)?);
    assert!(rt; given_back::<u8, Lsb0>(alloc)? && given_back::<u16, Msb0>(alloc)?);
    assert!(rt; BitVec::<u8, Lsb0>::new(alloc).capacity() == 0);
    Ok(())
}
