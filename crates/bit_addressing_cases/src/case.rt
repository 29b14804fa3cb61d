//! One case: its words are read, and its call is answered.

use crate::acts::act_case;
use crate::between::between_case;
use crate::entries::{copy_case, entry_case, exchange_case, move_case, swap_case};
use crate::parts::part_case;
use crate::pointers::pointer_case;
use crate::spans::span_case;
use crate::texts::text_case;
use bit_addressing::{BitOrder, BitRegister, Lsb0, Msb0};
use bit_addressing_sample_orders::FifthStep;
use bit_addressing_sample_orders::texts::read_words;
use std::alloc::{AllocError, Global};
use std::str::SplitWhitespace;

/// What a line is answered.
pub fn answer(alloc: Global, line: &str) -> Result<String, AllocError> {
    let mut words = line.split_whitespace();
    match words.next().unwrap_or("") {
        "u8" => in_words::<u8>(alloc, words),
        "u16" => in_words::<u16>(alloc, words),
        "u32" => in_words::<u32>(alloc, words),
        "u64" => in_words::<u64>(alloc, words),
        "u128" => in_words::<u128>(alloc, words),
        "usize" => in_words::<usize>(alloc, words),
        _ => "no such word".to_string(alloc),
    }
}

fn in_words<R: BitRegister>(
    alloc: Global,
    mut words: SplitWhitespace<'_>,
) -> Result<String, AllocError> {
    match words.next().unwrap_or("") {
        "lsb0" => in_order::<R, Lsb0>(alloc, words),
        "msb0" => in_order::<R, Msb0>(alloc, words),
        "fifth" => in_order::<R, FifthStep>(alloc, words),
        _ => "no such order".to_string(alloc),
    }
}

fn in_order<R: BitRegister, O: BitOrder<R>>(
    alloc: Global,
    mut words: SplitWhitespace<'_>,
) -> Result<String, AllocError> {
    let mut memory = read_words::<R>(alloc, words.next().unwrap_or(""))?;
    match words.next().unwrap_or("") {
        "entry" => entry_case::<R, O>(alloc, &mut memory, words),
        "swap" => swap_case::<R, O>(alloc, &mut memory, words),
        "copy" => copy_case::<R, O>(alloc, &mut memory, words),
        "exchange" => exchange_case::<R, O>(alloc, &mut memory, words),
        "move" => move_case::<R, O>(alloc, &mut memory, words),
        "between" => between_case::<R, O>(alloc, &mut memory, words),
        "pointer" => pointer_case::<R, O>(alloc, words),
        "span" => span_case::<R, O>(alloc, &memory, words),
        "texts" => text_case::<R, O>(alloc, &mut memory, words),
        "act" => act_case::<R, O>(alloc, &mut memory, words),
        "part" => part_case::<R, O>(alloc, &mut memory, words),
        _ => "no such call".to_string(alloc),
    }
}
