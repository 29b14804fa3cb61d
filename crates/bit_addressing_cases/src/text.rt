//! Numbers and words as texts, and stretches of a memory.

ghost use Rattle.std.specs.Prelude.{◌+◌, ◌*◌, ◌≤◌, IsTrue, length};

use bit_addressing::BitRegister;
use bit_addressing_sample_orders::texts::{number, push_word};
use std::alloc::{AllocError, Global};
use std::str::SplitWhitespace;

/// The next word as a number.
pub fn next_number(words: &mut SplitWhitespace<'_>) -> usize {
    number(words.next().unwrap_or(""))
}

/// The next word as a number with a sign, and 0 for any other word.
pub fn next_signed(words: &mut SplitWhitespace<'_>) -> isize {
    words.next().unwrap_or("").parse::<isize>().unwrap_or(0)
}

/// Whether a stretch lies in some words, and is small.
pub fn has_stretch<R: BitRegister>(words: &[R], from: usize, len: usize) -> bool
    ensures near { IsTrue result → from ≤ 2048 }
    ensures short { IsTrue result → len ≤ 2048 }
    ensures fits { IsTrue result → from + len ≤ length words.now * R.BITS }
{
    let most = words.len().saturating_mul(R::BITS as usize);
    from <= 2048 && len <= 2048 && from + len <= most
}

/// Writes a bit.
pub fn push_bit(text: &mut String, bit: bool) -> Result<(), AllocError> {
    text.push(if bit { '1' } else { '0' })
}

/// Writes a number, and a mark behind it.
pub fn push_number(
    alloc: Global,
    text: &mut String,
    number: usize,
    mark: char,
) -> Result<(), AllocError> {
    text.push_str(format!(in alloc; "{number}{mark}")?.as_str())
}

/// Writes a word, or `-` where there is none, and a comma.
pub fn push_some<R: BitRegister>(text: &mut String, word: Option<R>) -> Result<(), AllocError> {
    match word {
        Some(word) => push_word(text, word)?,
        None => text.push('-')?,
    }
    text.push(',')
}
