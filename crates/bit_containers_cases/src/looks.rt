//! Calls that read a list.

use crate::call::Call;
use crate::shown::{push_bit, push_list, push_number, push_ref, push_turns};
use bit_addressing_sample_orders::texts::number;
use bit_containers::{Bits, BitsIter, BitsParts, BitsPieces};
use std::alloc::{AllocError, Global};
use std::cmp::Ordering;

/// Makes a call that reads a list, and with it perhaps another; whether the call is one of these.
pub fn look<V: Bits, W: Bits>(
    alloc: Global,
    text: &mut String,
    view: &V,
    call: &Call<'_>,
    other: &W,
) -> Result<bool, AllocError> {
    let (a, b) = (number(call.first), number(call.second));
    match call.name {
        "ends" => {
            push_ref(text, view.first())?;
            push_ref(text, view.last())?;
        }
        "get" => push_ref(text, view.get(a))?,
        "part" => match view.get(a..b) {
            Some(part) => push_list(text, &part)?,
            None => text.push('-')?,
        },
        "nth" => {
            let mut bits = view.iter().by_vals();
            push_bit(text, bits.nth(a))?;
            push_bit(text, bits.nth_back(b))?;
        }
        "turns" => push_turns(text, view.iter().by_vals())?,
        "compare" => text.push(match view.cmp_bits(other) {
            Ordering::Less => '<',
            Ordering::Equal if view.eq_bits(other) => '=',
            Ordering::Equal => '!',
            Ordering::Greater => '>',
        })?,
        _ => return seek(alloc, text, view, call),
    }
    Ok(true)
}

// The same of a call that counts or cuts.
fn seek<V: Bits>(
    alloc: Global,
    text: &mut String,
    view: &V,
    call: &Call<'_>,
) -> Result<bool, AllocError> {
    let size = number(call.first);
    match call.name {
        "ones" => {
            push_number(alloc, text, Some(view.count_ones()))?;
            push_number(alloc, text, view.first_one())?;
            push_number(alloc, text, view.last_one())?;
            push_number(alloc, text, view.iter_ones().nth(1))?;
        }
        "zeros" => {
            push_number(alloc, text, Some(view.count_zeros()))?;
            push_number(alloc, text, view.first_zero())?;
            push_number(alloc, text, view.last_zero())?;
            push_number(alloc, text, view.iter_zeros().next_back())?;
        }
        "last_chunk" if size > 0 => match view.chunks(size).next_back() {
            Some(piece) => push_list(text, &piece)?,
            None => text.push('-')?,
        },
        _ => return Ok(false),
    }
    Ok(true)
}
