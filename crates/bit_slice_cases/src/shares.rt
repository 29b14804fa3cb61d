//! Windows of the same words: made in other ways, and parts of one.

ghost use Rattle.std.specs.Prelude.{◌+◌, ◌*◌, ◌≤◌, length};

use crate::case::Case;
use crate::memory::{push_bit, push_bits};
use bit_addressing_sample_orders::texts::number;
use bit_slice::{BitOrder, BitRef, BitRegister, BitSlice, Bits, BitsParts};
use std::alloc::{AllocError, Global};

/// The window of a case made of all words, by its part and by what two cuts leave, and of its own words and head again.
pub fn make<R: BitRegister, O: BitOrder<R>>(
    alloc: Global,
    words: &[R],
    case: &Case<'_>,
) -> Result<String, AllocError> {
    let Ok(whole) = BitSlice::<R, O>::try_from_slice(words) else {
        return "too long".to_string(alloc);
    };
    if case.from > whole.len() || case.len > whole.len() - case.from {
        return "no such window".to_string(alloc);
    }
    let part = whole.part(case.from, case.len);
    let (_, right) = whole.split_at(case.from);
    let (left, _) = right.split_at(case.len);
    let (own, head, count) = part.parts();
    let again = BitSlice::<R, O>::from_parts(own, head, count);
    let mut text = format!(in alloc; "{head} ")?;
    push_bits(&mut text, &part)?;
    text.push(' ')?;
    push_bits(&mut text, &left)?;
    text.push(' ')?;
    push_bits(&mut text, &again)?;
    Ok(text)
}

/// What a call answers that gives parts of a window.
pub fn share<V: Bits, W: Bits>(
    alloc: Global,
    view: &V,
    case: &Case<'_>,
    other: &W,
) -> Result<Option<String>, AllocError> {
    let (a, b) = (number(case.first), number(case.second));
    let mut text = String::new(alloc);
    match case.call {
        "part" if a <= view.len() && b <= view.len() - a => {
            push_bits(&mut text, &view.part(a, b))?;
        }
        "split_at" if a <= view.len() => {
            let (left, right) = view.split_at(a);
            push_bits(&mut text, &left)?;
            text.push('|')?;
            push_bits(&mut text, &right)?;
        }
        "get" => push_found_bit(&mut text, view.get(a))?,
        "first" => push_found_bit(&mut text, view.first())?,
        "last" => push_found_bit(&mut text, view.last())?,
        "get_range" => push_found(&mut text, view.get(a..b))?,
        "strip_prefix" => push_found(&mut text, view.strip_prefix(other))?,
        "strip_suffix" => push_found(&mut text, view.strip_suffix(other))?,
        "split_first" => {
            if let Some((bit, rest)) = view.split_first() {
                push_bit(&mut text, *bit)?;
                push_bits(&mut text, &rest)?;
            }
        }
        "split_last" => {
            if let Some((bit, rest)) = view.split_last() {
                push_bit(&mut text, *bit)?;
                push_bits(&mut text, &rest)?;
            }
        }
        _ => return Ok(None),
    }
    Ok(Some(text))
}

// Writes the bits of a part behind a stroke, or that there is none.
fn push_found<V: Bits + Drop>(text: &mut String, found: Option<V>) -> Result<(), AllocError> {
    match found {
        Some(part) => {
            text.push('|')?;
            push_bits(text, &part)
        }
        None => text.push_str("none"),
    }
}

// Writes a bit, or that there is none.
fn push_found_bit(text: &mut String, found: Option<BitRef>) -> Result<(), AllocError> {
    match found {
        Some(bit) => push_bit(text, *bit),
        None => text.push_str("none"),
    }
}
