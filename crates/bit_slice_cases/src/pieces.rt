//! Calls that give pieces of a window, or indices, one after another.

use crate::case::Case;
use crate::memory::push_bits;
use bit_addressing_sample_orders::texts::number;
use bit_slice::pieces::{Cuts, Indices, Pieces, Sought};
use bit_slice::{BitOrder, BitRegister, BitSlice, Bits, BitsIter, BitsPieces};
use std::alloc::{AllocError, Global};

/// What a call gives one after another: from the front, from the back where the case's second word is `back`, from the back
/// and the front by turns where it is `turns`; of pieces by `nth` and `nth_back`, each time behind as many as the third word
/// says.
pub fn cut<R: BitRegister, O: BitOrder<R>>(
    alloc: Global,
    view: &BitSlice<'_, R, O>,
    case: &Case<'_>,
) -> Result<Option<String>, AllocError> {
    let size = number(case.first);
    let mut text = String::new(alloc);
    match case.call {
        "iter_ones" => push_indices(alloc, &mut text, view.iter_ones(), case.first)?,
        "iter_zeros" => push_indices(alloc, &mut text, view.iter_zeros(), case.first)?,
        _ if size == 0 => return Ok(None),
        "chunks" => push_pieces(&mut text, view.chunks(size), case)?,
        "chunks_exact" => push_pieces(&mut text, view.chunks_exact(size), case)?,
        "rchunks" => push_pieces(&mut text, view.rchunks(size), case)?,
        "rchunks_exact" => push_pieces(&mut text, view.rchunks_exact(size), case)?,
        "windows" => push_pieces(&mut text, view.windows(size), case)?,
        "chunks_exact_rest" => push_bits(&mut text, &view.chunks_exact(size).remainder())?,
        "rchunks_exact_rest" => push_bits(&mut text, &view.rchunks_exact(size).remainder())?,
        _ => return Ok(None),
    }
    Ok(Some(text))
}

// Whether the call of an index goes to the back.
fn is_from_back(way: &str, k: usize) -> bool {
    way == "back" || way == "turns" && k % 2 == 0
}

// The pieces, each as its bits; a `!` where more come than there are.
fn push_pieces<R: BitRegister, O: BitOrder<R>, C: Cuts>(
    text: &mut String,
    mut all: Pieces<'_, R, O, C>,
    case: &Case<'_>,
) -> Result<(), AllocError> {
    let (way, by) = (case.second, number(case.third));
    for k in 0..all.len() {
        let piece = match way {
            "nth" => all.nth(by),
            "nth_back" => all.nth_back(by),
            _ if is_from_back(way, k) => all.next_back(),
            _ => all.next(),
        };
        let Some(piece) = piece else { break };
        text.push('|')?;
        push_bits(text, &piece)?;
    }
    let is_over = all.next().is_none() && all.next_back().is_none();
    text.push(if is_over { '|' } else { '!' })
}

// The next index from one end.
fn next_index<R: BitRegister, O: BitOrder<R>, B: Sought>(
    all: &mut Indices<'_, R, O, B>,
    is_from_back: bool,
) -> Option<usize> {
    if is_from_back {
        return all.next_back();
    }
    all.next()
}

// The indices.
fn push_indices<R: BitRegister, O: BitOrder<R>, B: Sought>(
    alloc: Global,
    text: &mut String,
    mut all: Indices<'_, R, O, B>,
    way: &str,
) -> Result<(), AllocError> {
    for k in 0..all.len() {
        let index = next_index(&mut all, is_from_back(way, k));
        let Some(index) = index else { break };
        text.push_str(format!(in alloc; "{index},")?.as_str())?;
    }
    let is_over = all.next().is_none() && all.next_back().is_none();
    text.push(if is_over { '.' } else { '!' })
}
