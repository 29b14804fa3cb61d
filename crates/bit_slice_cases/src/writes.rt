//! Calls that write all bits of a window.

use crate::case::Case;
use crate::memory::{OTHERS_FROM, push_bits, put_bits};
use bit_addressing_sample_orders::texts::number;
use bit_slice::{BitSliceMut, Bits, BitsCopy, BitsFill, BitsMut, Msb0};
use std::alloc::AllocError;

/// Makes the call of a case, and answers whether it is one of these.
pub fn write<V: BitsMut, W: Bits>(view: &mut V, case: &Case<'_>, other: &W) -> bool {
    let a = number(case.first);
    let len = view.len();
    match case.call {
        "fill" => view.fill(a == 1),
        "invert" => view.invert(),
        "reverse" => view.reverse(),
        "rotate_left" if a <= len => view.rotate_left(a),
        "rotate_right" if a <= len => view.rotate_right(a),
        "shift_left" => view.shift_left(a),
        "shift_right" => view.shift_right(a),
        "shift_start" => view.shift_start(a),
        "shift_end" => view.shift_end(a),
        "and" => view.and_bits(other),
        "or" => view.or_bits(other),
        "xor" => view.xor_bits(other),
        "clone" if other.len() == len => view.clone_from_bitslice(other),
        "clone_slice" if other.len() == len => view.clone_from_slice(other),
        "fill_with" => view.fill_with(is_third),
        "for_each" => view.for_each(turned),
        _ => return false,
    }
    true
}

// Whether an index is a multiple of three.
fn is_third(index: usize) -> bool {
    index % 3 == 0
}

// A bit turned where it is one of the first eight.
fn turned(index: usize, bit: bool) -> bool {
    bit != (index < 8)
}

/// Exchanges the bits of a window with others as many, in other words and another order, and writes what these are then.
pub fn exchange<V: BitsMut>(
    text: &mut String,
    view: &mut V,
    case: &Case<'_>,
) -> Result<bool, AllocError> {
    let mut room = [0u16; 16];
    let count = put_bits(&mut room, case.first);
    let mut other = BitSliceMut::<u16, Msb0>::from_place_mut(&mut room, OTHERS_FROM, count);
    match case.call {
        "swap_with" if other.len() == view.len() => view.swap_with_bitslice(&mut other),
        "swap_with_slice" if other.len() == view.len() => view.swap_with_slice(&mut other),
        _ => return Ok(false),
    }
    push_bits(text, &other)?;
    text.push(' ')?;
    Ok(true)
}
