//! Copies and exchanges between two memories of other words and orders.

ghost use Rattle.std.specs.Prelude.{◌+◌, ◌*◌, ◌<◌, ◌≤◌, length};

use crate::entries::pointer_to;
use crate::text::{has_stretch, next_number};
use bit_addressing::entries::{copy_between, swap_between};
use bit_addressing::{BitOrder, BitRegister, Lsb0, Msb0};
use bit_addressing_sample_orders::FifthStep;
use bit_addressing_sample_orders::texts::{push_words, read_words};
use std::alloc::{AllocError, Global};
use std::str::SplitWhitespace;

/// `between CALL KIND OTHERS FROM TO LEN`: both memories after a call that copies a stretch of the others from one place to
/// another, or exchanges two, where the kind names the others' word and order.
pub fn between_case<R: BitRegister, O: BitOrder<R>>(
    alloc: Global,
    words: &mut [R],
    mut args: SplitWhitespace<'_>,
) -> Result<String, AllocError> {
    let call = args.next().unwrap_or("");
    match args.next().unwrap_or("") {
        "u8-msb0" => with_others::<R, O, u8, Msb0>(alloc, words, call, args),
        "u16-fifth" => with_others::<R, O, u16, FifthStep>(alloc, words, call, args),
        "u64-lsb0" => with_others::<R, O, u64, Lsb0>(alloc, words, call, args),
        _ => "no such kind".to_string(alloc),
    }
}

fn with_others<R: BitRegister, O: BitOrder<R>, Q: BitRegister, P: BitOrder<Q>>(
    alloc: Global,
    words: &mut [R],
    call: &str,
    mut args: SplitWhitespace<'_>,
) -> Result<String, AllocError> {
    let mut others = read_words::<Q>(alloc, args.next().unwrap_or(""))?;
    let from = next_number(&mut args);
    let to = next_number(&mut args);
    let len = next_number(&mut args);
    if !has_stretch(words, to, len) || !has_stretch(&others, from, len) {
        return "no such place".to_string(alloc);
    }
    if call == "swap" {
        swap_between::<R, O, Q, P>(words, to, &mut others, from, len);
    } else if call == "swap_bit" && len == 1 {
        pointer_to::<R, O>(to).swap(words, pointer_to::<Q, P>(from), &mut others);
    } else {
        copy_by::<R, O, Q, P>(call, words, to, &others, from, len);
    }
    let mut text = String::new(alloc);
    push_words(&mut text, words)?;
    text.push(' ')?;
    push_words(&mut text, &others)?;
    Ok(text)
}

// Copies by the call of this name.
fn copy_by<R: BitRegister, O: BitOrder<R>, Q: BitRegister, P: BitOrder<Q>>(
    call: &str,
    words: &mut [R],
    to: usize,
    others: &[Q],
    from: usize,
    len: usize,
)
    requires from { from + len ≤ length others.now * Q.BITS }
    requires to { to + len ≤ length words.old * R.BITS }
    requires from_small { from ≤ 2048 }
    requires to_small { to ≤ 2048 }
{
    let source = pointer_to::<Q, P>(from);
    let target = pointer_to::<R, O>(to);
    match call {
        "between" => copy_between::<Q, P, R, O>(others, from, words, to, len),
        "to" => source.copy_to(others, target, words, len),
        "to_apart" => source.copy_to_nonoverlapping(others, target, words, len),
        "from" => target.copy_from(words, source, others, len),
        "from_apart" => target.copy_from_nonoverlapping(words, source, others, len),
        _ => {}
    }
}
