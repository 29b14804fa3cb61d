//! Calls that read the list of a window.

use crate::case::Case;
use bit_addressing_sample_orders::texts::number;
use bit_slice::Bits;
use std::alloc::{AllocError, Global};
use std::cmp::Ordering;

/// Writes what a call answers that reads a window, and with it perhaps another list; whether it is one of these.
pub fn look<V: Bits, W: Bits>(
    alloc: Global,
    text: &mut String,
    view: &V,
    case: &Case<'_>,
    other: &W,
) -> Result<bool, AllocError> {
    match case.call {
        "len" => {
            push_number(alloc, text, view.len())?;
            push_flags(text, &[view.is_empty()])?;
        }
        "count" => {
            push_number(alloc, text, view.count_ones())?;
            push_number(alloc, text, view.count_zeros())?;
        }
        "ones" => {
            push_place(alloc, text, view.first_one())?;
            push_place(alloc, text, view.last_one())?;
        }
        "zeros" => {
            push_place(alloc, text, view.first_zero())?;
            push_place(alloc, text, view.last_zero())?;
        }
        "leading" => {
            push_number(alloc, text, view.leading_ones())?;
            push_number(alloc, text, view.leading_zeros())?;
        }
        "trailing" => {
            push_number(alloc, text, view.trailing_ones())?;
            push_number(alloc, text, view.trailing_zeros())?;
        }
        "any" => push_flags(text, &[view.any(), view.all(), view.some()])?,
        "not_any" => push_flags(text, &[view.not_any(), view.not_all()])?,
        _ => return compare(text, view, case, other),
    }
    Ok(true)
}

// The same of a call that compares it with another list, or reads a bit.
fn compare<V: Bits, W: Bits>(
    text: &mut String,
    view: &V,
    case: &Case<'_>,
    other: &W,
) -> Result<bool, AllocError> {
    let i = number(case.first);
    match case.call {
        "bit" if i < view.len() => push_flags(text, &[view.bit(i)])?,
        "eq" => push_flags(text, &[view.eq_bits(other)])?,
        "contains" => push_flags(text, &[view.contains(other)])?,
        "starts" => push_flags(text, &[view.starts_with(other)])?,
        "ends" => push_flags(text, &[view.ends_with(other)])?,
        "cmp" => push_word(
            text,
            match view.cmp_bits(other) {
                Ordering::Less => "Less",
                Ordering::Equal => "Equal",
                Ordering::Greater => "Greater",
            },
        )?,
        _ => return Ok(false),
    }
    Ok(true)
}

// Writes a word, after a space where one stands before it.
fn push_word(text: &mut String, word: &str) -> Result<(), AllocError> {
    if !text.is_empty() {
        text.push(' ')?;
    }
    text.push_str(word)
}

fn push_flags(text: &mut String, flags: &[bool]) -> Result<(), AllocError> {
    for flag in flags {
        push_word(text, if *flag { "true" } else { "false" })?;
    }
    Ok(())
}

fn push_number(alloc: Global, text: &mut String, number: usize) -> Result<(), AllocError> {
    push_word(text, format!(in alloc; "{number}")?.as_str())
}

fn push_place(alloc: Global, text: &mut String, place: Option<usize>) -> Result<(), AllocError> {
    push_word(text, format!(in alloc; "{place:?}")?.as_str())
}
