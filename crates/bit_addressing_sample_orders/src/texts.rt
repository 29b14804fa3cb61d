//! Words and numbers as texts, as the lines of the programs that answer cases have them.

use bit_addressing_order::BitRegister;
use std::alloc::{AllocError, Global};

/// A number in decimal, and 0 for any other word.
pub fn number(word: &str) -> usize {
    word.parse::<usize>().unwrap_or(0)
}

/// The words of a text of hexadecimal digits.
pub fn read_words<R: BitRegister>(alloc: Global, text: &str) -> Result<Vec<R>, AllocError> {
    let mut words = Vec::new(alloc);
    let mut value = 0u128;
    let mut digits = 0u8;
    for byte in text.bytes() {
        value = value << 4 | (byte as char).to_digit(16).unwrap_or(0) as u128;
        digits = digits.wrapping_add(4);
        if digits == R::BITS {
            words.push(R::from_value(value))?;
            value = 0;
            digits = 0;
        }
    }
    Ok(words)
}

/// Writes a word in hexadecimal, with as many digits as it has.
pub fn push_word<R: BitRegister>(text: &mut String, word: R) -> Result<(), AllocError> {
    let value = word.value();
    let mut left = R::BITS;
    for _ in 0..R::BITS / 4 {
        left = left.wrapping_sub(4);
        let digit = ((value >> (left % 128)) % 16) as u8;
        text.push(if digit < 10 {
            (b'0' + digit) as char
        } else {
            (b'a' + (digit - 10)) as char
        })?;
    }
    Ok(())
}

/// Writes words in hexadecimal, one after another.
pub fn push_words<R: BitRegister>(text: &mut String, words: &[R]) -> Result<(), AllocError> {
    for word in words {
        push_word(text, *word)?;
    }
    Ok(())
}
