//! Calls that take bits out of a vector, or copies of them.

use crate::call::Call;
use crate::ranges::{drain_by_kind, splice_by_kind};
use crate::shown::{push_bit, push_list, push_number, push_words};
use bit_addressing_sample_orders::texts::number;
use bit_containers::{BitOrder, BitSlice, BitStore, BitVec, Bits, BitsMut, Msb0, Retain, ToBits};
use std::alloc::{AllocError, Global};

/// Makes a call that takes bits out or copies them, and says whether it could be made.
pub fn take<T: BitStore, O: BitOrder<T>>(
    alloc: Global,
    text: &mut String,
    vector: &mut BitVec<T, O>,
    call: &Call<'_>,
    other: BitSlice<'_, u16, Msb0>,
) -> Result<bool, AllocError> {
    let (a, b) = (number(call.first), number(call.second));
    match call.name {
        "split_off" if a <= vector.len() => {
            let rest = vector.split_off(a)?;
            push_copy(alloc, text, &rest)?;
            push_words(text, rest.as_raw_slice())?;
        }
        "leave" => return leave(text, vector, a, b),
        "keep" => keep(vector, other),
        "copies" => {
            push_copies(alloc, text, &vector.as_bitslice(), a)?;
            push_copies(alloc, text, &vector.as_mut_bitslice(), a)?;
        }
        _ => {
            return Ok(
                drain_by_kind(text, vector, call)?
                    || splice_by_kind(alloc, text, vector, call, other)?,
            );
        }
    }
    Ok(true)
}

// Takes bits out as for others in their place, which do not come.
fn leave<T: BitStore, O: BitOrder<T>>(
    text: &mut String,
    vector: &mut BitVec<T, O>,
    from: usize,
    upto: usize,
) -> Result<bool, AllocError> {
    if from > upto || upto > vector.len() {
        return Ok(false);
    }
    let mut gone = vector.splice(from..upto, std::iter::repeat_n(true, 3));
    push_bit(text, gone.next())?;
    push_bit(text, gone.next_back())?;
    Ok(true)
}

// Keeps the bits that are those of another list at their index.
fn keep<T: BitStore, O: BitOrder<T>>(vector: &mut BitVec<T, O>, other: BitSlice<'_, u16, Msb0>) {
    vector.retain(|index, bit| has(other, index, *bit));
}

// Whether a list has this bit at an index.
fn has(list: BitSlice<'_, u16, Msb0>, index: usize, bit: bool) -> bool {
    index < list.len() && list.bit(index) == bit
}

// Writes a vector that was made of another: its list and its head.
fn push_copy<T: BitStore, O: BitOrder<T>>(
    alloc: Global,
    text: &mut String,
    made: &BitVec<T, O>,
) -> Result<(), AllocError> {
    push_list(text, made)?;
    push_number(alloc, text, Some(made.first_place()))
}

// Writes the vectors that are made of a window: its bits once with their head and words, and up to three times.
fn push_copies<T: BitStore, O: BitOrder<T>, V: ToBits<T, O>>(
    alloc: Global,
    text: &mut String,
    window: &V,
    times: usize,
) -> Result<(), AllocError> {
    if window.len() > 100 {
        return Ok(());
    }
    let once = window.to_bitvec(alloc)?;
    push_copy(alloc, text, &once)?;
    push_words(text, once.as_raw_slice())?;
    push_copy(alloc, text, &window.to_vec(alloc)?)?;
    let many = match times {
        0 => window.repeat(alloc, 0)?,
        1 => window.repeat(alloc, 1)?,
        2 => window.repeat(alloc, 2)?,
        _ => window.repeat(alloc, 3)?,
    };
    push_copy(alloc, text, &many)
}
