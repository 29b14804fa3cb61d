//! Equality, order and hash: of one list at two heads, with different dead bits; of arrays, and of their refusals.

use bit_addressing_memory::{Lsb0, Msb0};
use bit_containers_array::{BitArray, TryFromBitSliceError};
use bit_containers_box::BitBox;
use bit_containers_vector::BitVec;
use bit_slice_views::{BitSlice, Bits};
use bit_slice_views_mut::BitsMut;
use bit_slice_words::WordPaths;
use std::alloc::{AllocError, Global};
use std::cmp::Ordering;
use std::hash::{DefaultHasher, Hash, Hasher};
use std::process::Abort;

// The hash of a value, which `Hash` feeds.
fn hashed<H: Hash>(value: &H) -> u64 {
    let mut state = DefaultHasher::new();
    value.hash(&mut state);
    state.finish()
}

// Whether two values compare so, and are equal and hash alike where they do.
fn agree<V: Ord + Hash>(left: &V, right: &V, wanted: Ordering) -> bool {
    let is_equal = wanted == Ordering::Equal;
    let ordered = left.cmp(right) == wanted && left.partial_cmp(right) == Some(wanted);
    ordered && (left == right) == is_equal && (hashed(left) == hashed(right)) == is_equal
}

// Nine bits from a head on, and one bit beside them.
fn made<O: WordPaths<u8>>(
    alloc: Global,
    head: usize,
    dead: bool,
) -> Result<BitVec<u8, O>, AllocError> {
    let words = [0u8; 2];
    let list = [0x0b5cu16];
    let list = BitSlice::<u16, Msb0>::from_place(&list, 5, 9);
    let mut made = BitVec::from_bitslice(
        alloc,
        BitSlice::<u8, O>::from_place(&words, head % 8, 9),
    )?;
    made.set_uninitialized(dead);
    if made.len() == list.len() {
        made.clone_from_bitslice(&list);
    }
    Ok(made)
}

// Whether vectors and boxes of one list at two heads are equal, and the vectors differ once a bit comes behind.
fn alike<O: WordPaths<u8>>(alloc: Global, head: usize, other: usize) -> Result<bool, AllocError> {
    let mut left = made::<O>(alloc, head, false)?;
    let mut right = made::<O>(alloc, other, true)?;
    let equal = agree(&left, &right, Ordering::Equal);
    if left.len() > 100 || right.len() > 100 {
        return Ok(false);
    }
    right.push(false)?;
    let longer = agree(&left, &right, Ordering::Less);
    left.push(true)?;
    let greater = agree(&left, &right, Ordering::Greater);
    let left = BitBox::from_vec(made::<O>(alloc, head, true)?).map_err(AllocError::from)?;
    let mut right = BitBox::from_vec(made::<O>(alloc, other, false)?).map_err(AllocError::from)?;
    let boxed = agree(&left, &right, Ordering::Equal);
    right.invert();
    // the first bit of the list is a zero
    let less = agree(&left, &right, Ordering::Less);
    let none = agree(&BitBox::<u8, O>::empty(alloc), &left, Ordering::Less);
    Ok(equal && longer && greater && boxed && less && none)
}

#[test]
fn lists_at_two_heads(rt: HostRuntime) -> Result<(), AllocError> {
    for head in 0..8usize {
        for other in 0..8usize {
            assert!(rt; alike::<Lsb0>(rt.alloc(), head, other)?);
            assert!(rt; alike::<Msb0>(rt.alloc(), head, other)?);
        }
    }
    Ok(())
}

#[test]
fn equal_arrays_hash_alike(rt: HostRuntime) {
    let left = BitArray::<[u8; 2], Msb0>::new([0x12, 0x34]);
    let right = BitArray::<[u8; 2], Msb0>::from([0x12, 0x34]);
    assert!(rt; agree(&left, &right, Ordering::Equal));
    // the first bit that differs decides: under `Msb0` the highest, under `Lsb0` the lowest
    let other = BitArray::<[u8; 2], Msb0>::new([0x92, 0x34]);
    assert!(rt; agree(&left, &other, Ordering::Less));
    let low = BitArray::<u8, Lsb0>::new(0x01);
    assert!(rt; agree(&low, &BitArray::new(0x80), Ordering::Greater));
    // the list and nothing else: a window of the same bits hashes alike, and other words of them are equal
    assert!(rt; hashed(&left) == hashed(&left.as_bitslice()));
    let wide = BitArray::<u16, Msb0>::new(0x1234);
    assert!(rt; wide.eq_bits(&left) && hashed(&wide) == hashed(&left));
}

#[test]
fn refusals_are_compared(rt: HostRuntime) {
    let short = TryFromBitSliceError::UnequalLen {
        actual: 3,
        expected: 8,
    };
    let long = TryFromBitSliceError::UnequalLen {
        actual: 16,
        expected: 8,
    };
    let misaligned = TryFromBitSliceError::Misaligned;
    let copy = short;
    assert!(rt; copy == short && short != long && short < long && long < misaligned);
}
