//! Calls that add bits at the end of a vector.

use crate::call::Call;
use crate::shown::push_list;
use bit_addressing_sample_orders::texts::read_words;
use bit_containers::{BitOrder, BitSlice, BitStore, BitVec, Bits, BitsIter, Msb0};
use std::alloc::{AllocError, Global};

/// Makes a call that adds another list, and says whether the call is one of these.
pub fn grow<T: BitStore, O: BitOrder<T>>(
    alloc: Global,
    text: &mut String,
    vector: &mut BitVec<T, O>,
    call: &Call<'_>,
    other: BitSlice<'_, u16, Msb0>,
) -> Result<bool, AllocError> {
    if vector.len() > 2000 || other.len() > 200 {
        return Ok(false);
    }
    match call.name {
        "extend" => vector.extend_from_bitslice(&other)?,
        "extend_slice" => vector.extend_from_slice(&other)?,
        "extend_items" => vector.extend(other.iter().by_vals())?,
        "append" => {
            let mut other = BitVec::<u16, Msb0>::from_bitslice(alloc, other)?;
            vector.append(&mut other)?;
            push_list(text, &other)?;
        }
        "collect" => *vector = BitVec::collect(alloc, other.iter().by_vals())?,
        _ => return Ok(false),
    }
    Ok(true)
}

/// Makes a call that adds all bits of words.
pub fn grow_by_words<T: BitStore, O: BitOrder<T>>(
    alloc: Global,
    vector: &mut BitVec<T, O>,
    call: &Call<'_>,
) -> Result<bool, AllocError> {
    let words = read_words::<T>(alloc, call.first)?;
    if vector.len() > 1000 || words.len().saturating_mul(T::BITS as usize) > 1000 {
        return Ok(false);
    }
    match call.name {
        "extend_raw" => vector.extend_from_raw_slice(words.as_slice())?,
        "extend_elements" => vector.extend_elements(words.into_iter())?,
        _ => return Ok(false),
    }
    Ok(true)
}
