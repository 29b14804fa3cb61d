//! Splits of a window at its ones, to read.

use crate::case::Case;
use crate::memory::push_bits;
use bit_addressing_sample_orders::texts::number;
use bit_slice::splitting::{SplitEnd, Splits, SplitsN};
use bit_slice::{BitOrder, BitRegister, BitSlice, BitsSplits};
use std::alloc::{AllocError, Global};

/// Whether a bit is 1, wherever it stands.
pub fn is_one(_index: usize, bit: &bool) -> bool {
    *bit
}

/// The parts that a call gives: from the front, or from the back where the case's first word is `back`.
pub fn split<R: BitRegister, O: BitOrder<R>>(
    alloc: Global,
    view: &BitSlice<'_, R, O>,
    case: &Case<'_>,
) -> Result<Option<String>, AllocError> {
    let count = number(case.first);
    let is_back = case.first == "back";
    let mut text = String::new(alloc);
    match case.call {
        "split" => push_parts(&mut text, view.split(is_one), is_back)?,
        "rsplit" => push_parts(&mut text, view.rsplit(is_one), is_back)?,
        "split_inclusive" => push_parts(&mut text, view.split_inclusive(is_one), is_back)?,
        "splitn" => push_parts_up_to(&mut text, view.splitn(count, is_one))?,
        "rsplitn" => push_parts_up_to(&mut text, view.rsplitn(count, is_one))?,
        _ => return Ok(None),
    }
    text.push('|')?;
    Ok(Some(text))
}

// The parts from one end.
fn push_parts<R: BitRegister, O: BitOrder<R>, F, A: SplitEnd, B: SplitEnd>(
    text: &mut String,
    all: Splits<'_, R, O, F, A, B>,
    is_back: bool,
) -> Result<(), AllocError>
where
    F: FnMut(usize, &bool) -> bool + Drop,
    requires { F.IsAlwaysCallable all.callee }
{
    if is_back {
        for part in all.rev() {
            text.push('|')?;
            push_bits(text, &part)?;
        }
    } else {
        for part in all {
            text.push('|')?;
            push_bits(text, &part)?;
        }
    }
    Ok(())
}

// So many parts at most.
fn push_parts_up_to<R: BitRegister, O: BitOrder<R>, F, A: SplitEnd>(
    text: &mut String,
    all: SplitsN<'_, R, O, F, A>,
) -> Result<(), AllocError>
where
    F: FnMut(usize, &bool) -> bool + Drop,
    requires { F.IsAlwaysCallable all.parts.callee }
{
    for part in all {
        text.push('|')?;
        push_bits(text, &part)?;
    }
    Ok(())
}
