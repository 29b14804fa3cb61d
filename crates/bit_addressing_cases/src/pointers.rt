//! Pointers that are moved.

use crate::text::next_signed;
use bit_addressing::{BitIdx, BitOrder, BitPtr, BitRegister};
use std::alloc::{AllocError, Global};
use std::str::SplitWhitespace;

/// `pointer WORD INDEX BY`: the pointers so many bits on or back, by each call that moves one: where its word is no `isize`,
/// that it can't be moved so, and where it wraps to.
pub fn pointer_case<R: BitRegister, O: BitOrder<R>>(
    alloc: Global,
    mut args: SplitWhitespace<'_>,
) -> Result<String, AllocError> {
    let word = next_signed(&mut args);
    let index = next_signed(&mut args);
    let by = next_signed(&mut args);
    if index < 0 || index >= R::BITS as isize {
        return "no such index".to_string(alloc);
    }
    let pointer = BitPtr::<R, O>::new(word, BitIdx::new_unchecked(index as u8));
    let mut text = String::new(alloc);
    push_moved(alloc, &mut text, offset(pointer, by))?;
    push_moved(alloc, &mut text, stepped(pointer, by))?;
    push_moved(alloc, &mut text, Some(pointer.wrapping_offset(by)))?;
    let count = by.unsigned_abs();
    let wrapped = if by < 0 {
        pointer.wrapping_sub(count)
    } else {
        pointer.wrapping_add(count)
    };
    push_moved(alloc, &mut text, Some(wrapped))?;
    Ok(text)
}

// The pointer so many bits on, where it can be moved so.
fn offset<R: BitRegister, O: BitOrder<R>>(
    pointer: BitPtr<R, O>,
    by: isize,
) -> Option<BitPtr<R, O>> {
    if pointer.can_offset(by) {
        Some(pointer.offset(by))
    } else {
        None
    }
}

// The same by a count, on or back.
fn stepped<R: BitRegister, O: BitOrder<R>>(
    pointer: BitPtr<R, O>,
    by: isize,
) -> Option<BitPtr<R, O>> {
    let count = by.unsigned_abs();
    if by < 0 && pointer.can_sub(count) {
        return Some(pointer.sub(count));
    }
    if by >= 0 && pointer.can_add(count) {
        return Some(pointer.add(count));
    }
    None
}

// Writes where a pointer points to.
fn push_moved<R: BitRegister, O: BitOrder<R>>(
    alloc: Global,
    text: &mut String,
    pointer: Option<BitPtr<R, O>>,
) -> Result<(), AllocError> {
    let Some(pointer) = pointer else {
        return text.push_str("none ");
    };
    let (word, bit) = pointer.raw_parts();
    let bit = bit.into_inner();
    text.push_str(format!(in alloc; "{word}.{bit} ")?.as_str())
}
