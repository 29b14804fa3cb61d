//! Cases of operators: two windows of one memory, which stand on the left and on the right.

use crate::shown::{push_list, push_words};
use bit_containers::{
    BitArray, BitBox, BitSlice, BitSliceMut, BitStore, BitVec, BitViewSized, Bits, BitsMut,
    WordPaths,
};
use std::alloc::{AllocError, Global};
use std::ops::{BitAnd, BitAndAssign, BitOr, BitOrAssign, BitXor, BitXorAssign};

// Combines a list with another in place.
fn assign<L: BitAndAssign<R> + BitOrAssign<R> + BitXorAssign<R>, R: Drop>(
    left: &mut L,
    how: &str,
    right: R,
)
    requires and { L.can_bitand_assign left.old right }
    requires or { L.can_bitor_assign left.old right }
    requires xor { L.can_bitxor_assign left.old right }
{
    match how {
        "and" => *left &= right,
        "or" => *left |= right,
        _ => *left ^= right,
    }
}

// The value of a list combined with another.
fn value<L: BitAnd<R, Output = L> + BitOr<R, Output = L> + BitXor<R, Output = L> + Drop, R: Drop>(
    left: L,
    how: &str,
    right: R,
) -> L
    requires and { L.can_bitand left right }
    requires or { L.can_bitor left right }
    requires xor { L.can_bitxor left right }
{
    match how {
        "and" => left & right,
        "or" => left | right,
        _ => left ^ right,
    }
}

/// The results of an operator on vectors, boxes, windows that are lent and arrays; or a vector that takes over a list.
pub fn combine<
    T: BitStore + BitViewSized<Store = T>,
    Two: BitViewSized<Store = T>,
    Three: BitViewSized<Store = T>,
    O: WordPaths<T>,
>(
    alloc: Global,
    how: &str,
    left: BitSlice<'_, T, O>,
    right: BitSlice<'_, T, O>,
) -> Result<String, AllocError> {
    let mut text = String::new(alloc);
    if how == "copy" {
        copy(alloc, &mut text, left, right)?;
        return Ok(text);
    }
    vectors(alloc, &mut text, how, left, right)?;
    boxes(alloc, &mut text, how, left, right)?;
    windows(alloc, &mut text, how, left, right)?;
    arrays::<Two, Two, O>(&mut text, how, left, right)?;
    arrays::<Two, T, O>(&mut text, how, left, right)?;
    arrays::<T, Three, O>(&mut text, how, left, right)?;
    Ok(text)
}

// A vector, and a box, that take over as many bits.
fn copy<T: BitStore, O: WordPaths<T>>(
    alloc: Global,
    text: &mut String,
    left: BitSlice<'_, T, O>,
    right: BitSlice<'_, T, O>,
) -> Result<(), AllocError> {
    let mut made = BitVec::<T, O>::from_bitslice(alloc, left)?;
    made.set_uninitialized(true);
    let mut other = BitBox::<T, O>::from_bitslice(alloc, left)?;
    if made.len() != right.len() || other.len() != right.len() {
        return text.push_str("refused");
    }
    made.copy_from_bitslice(&right);
    push_words(text, made.as_raw_slice())?;
    other.copy_from_bitslice(&made);
    push_words(text, other.as_raw_slice())
}

fn vectors<T: BitStore, O: WordPaths<T>>(
    alloc: Global,
    text: &mut String,
    how: &str,
    left: BitSlice<'_, T, O>,
    right: BitSlice<'_, T, O>,
) -> Result<(), AllocError> {
    let other = BitVec::<T, O>::from_bitslice(alloc, right)?;
    let mut made = BitVec::<T, O>::from_bitslice(alloc, left)?;
    made.set_uninitialized(true);
    assign(&mut made, how, right);
    push_words(text, made.as_raw_slice())?;
    let mut made = BitVec::<T, O>::from_bitslice(alloc, left)?;
    assign(&mut made, how, other);
    push_words(text, made.as_raw_slice())?;
    let made = value(BitVec::<T, O>::from_bitslice(alloc, left)?, how, right);
    push_list(text, &made)?;
    Ok(())
}

fn boxes<T: BitStore, O: WordPaths<T>>(
    alloc: Global,
    text: &mut String,
    how: &str,
    left: BitSlice<'_, T, O>,
    right: BitSlice<'_, T, O>,
) -> Result<(), AllocError> {
    let mut made = BitBox::<T, O>::from_bitslice(alloc, left)?;
    made.fill_uninitialized(true);
    assign(&mut made, how, BitVec::<T, O>::from_bitslice(alloc, right)?);
    push_words(text, made.as_raw_slice())?;
    let mut made = BitBox::<T, O>::from_bitslice(alloc, left)?;
    assign(&mut made, how, right);
    push_words(text, made.as_raw_slice())?;
    let other = BitBox::<T, O>::from_bitslice(alloc, right)?;
    let made = value(BitBox::<T, O>::from_bitslice(alloc, left)?, how, other);
    push_list(text, &made)
}

// The list is lent by a vector or a box, and stands on the left of a vector, of a box and, where the right list is one, of
// an array of a word.
fn windows<T: BitStore + BitViewSized<Store = T>, O: WordPaths<T>>(
    alloc: Global,
    text: &mut String,
    how: &str,
    left: BitSlice<'_, T, O>,
    right: BitSlice<'_, T, O>,
) -> Result<(), AllocError> {
    let vector = BitVec::<T, O>::from_bitslice(alloc, right)?;
    let other = BitBox::<T, O>::from_bitslice(alloc, right)?;
    let mut made = BitBox::<T, O>::from_bitslice(alloc, left)?;
    made.fill_uninitialized(true);
    assign(&mut made.as_mut_bitslice(), how, &vector);
    push_words(text, made.as_raw_slice())?;
    let mut made = BitVec::<T, O>::from_bitslice(alloc, left)?;
    assign(&mut made.as_mut_bitslice(), how, &other);
    push_words(text, made.as_raw_slice())?;
    if let Ok(array) = BitArray::<T, O>::try_from(right) {
        let mut made = BitVec::<T, O>::from_bitslice(alloc, left)?;
        made.set_uninitialized(true);
        assign(&mut made.as_mut_bitslice(), how, array);
        push_words(text, made.as_raw_slice())?;
    }
    Ok(())
}

// The lists are arrays, where they are so long and begin with a word; and the left one once more a window with an array
// on its right.
fn arrays<A: BitViewSized, B: BitViewSized<Store = A::Store>, O: WordPaths<A::Store>>(
    text: &mut String,
    how: &str,
    left: BitSlice<'_, A::Store, O>,
    right: BitSlice<'_, A::Store, O>,
) -> Result<(), AllocError> {
    let Ok(array) = BitArray::<A, O>::try_from(left) else {
        return Ok(())
    };
    push_list(text, &value(array, how, right))?;
    let Ok(other) = BitArray::<B, O>::try_from(right) else {
        return Ok(())
    };
    let mut changed = array;
    assign(&mut changed, how, other);
    push_list(text, &changed)?;
    Ok(())
}
