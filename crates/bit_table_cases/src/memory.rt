//! Cases of a memory: 24 words, of which the first are given.

use crate::digits::{digits_case, image_case, row_case};
use crate::moves::{keep_case, move_case};
use crate::order::StepsOfFive;
use crate::text::cut;
use bit_addressing_sample_orders::texts;
use bit_addressing_sample_orders::texts::push_word;
use bit_table_script::{BitRegister, BitStore, Digits, HiLo, Lsb0, Msb0};
use std::alloc::{AllocError, Global};

/// What a case of this kind is answered over the word and the order that the first two words name.
pub fn in_memory(alloc: Global, kind: &str, rest: &str) -> Result<String, AllocError> {
    let (word, rest) = cut(rest);
    match word {
        "u8" => in_words::<u8>(alloc, kind, rest),
        "u16" => in_words::<u16>(alloc, kind, rest),
        "u32" => in_words::<u32>(alloc, kind, rest),
        "u64" => in_words::<u64>(alloc, kind, rest),
        "u128" => in_words::<u128>(alloc, kind, rest),
        "usize" => in_words::<usize>(alloc, kind, rest),
        _ => "no such case".to_string(alloc),
    }
}

fn in_words<R: BitStore>(alloc: Global, kind: &str, rest: &str) -> Result<String, AllocError> {
    let (order, rest) = cut(rest);
    match order {
        "lsb0" => in_order::<R, Lsb0>(alloc, kind, rest),
        "msb0" => in_order::<R, Msb0>(alloc, kind, rest),
        "hilo" => in_order::<R, HiLo>(alloc, kind, rest),
        "fifth" => in_order::<R, StepsOfFive>(alloc, kind, rest),
        _ => "no such order".to_string(alloc),
    }
}

fn in_order<R: BitStore, O: Digits<R>>(
    alloc: Global,
    kind: &str,
    rest: &str,
) -> Result<String, AllocError> {
    match kind {
        "image" => image_case::<R, O>(alloc, rest),
        "digits" => digits_case::<R, O>(alloc, rest),
        "row" => row_case::<R, O>(alloc, rest),
        "move" => move_case::<R, O>(alloc, rest),
        "keep" => keep_case::<R, O>(alloc, rest),
        _ => "no such case".to_string(alloc),
    }
}

/// How many words a memory has.
pub const WORDS: usize = 24;

/// The words of a text of hexadecimal digits, zeros behind them up to so many as a memory has, and how many the text has.
pub fn read_words<R: BitRegister>(
    alloc: Global,
    text: &str,
) -> Result<(Vec<R>, usize), AllocError> {
    let mut words = texts::read_words::<R>(alloc, text)?;
    let count = words.len();
    for _ in count..WORDS {
        words.push(R::ZERO)?;
    }
    Ok((words, count))
}

/// Writes so many words in hexadecimal, each with as many digits as it has.
pub fn push_words<R: BitRegister>(
    text: &mut String,
    words: &[R],
    count: usize,
) -> Result<(), AllocError> {
    for word in words.iter().take(count) {
        push_word(text, *word)?;
    }
    Ok(())
}
