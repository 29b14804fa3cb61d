//! What the words of a case mean, and how answers are written.

use bit_table_script::Bits;
use std::alloc::{AllocError, Global};

/// A text up to its first space, and what stands behind that.
pub fn cut(text: &str) -> (&str, &str) {
    match text.split_once(' ') {
        Some(parts) => parts,
        None => (text, ""),
    }
}

/// A whole number in decimal, and 0 for any other word.
pub fn whole_number(word: &str) -> i128 {
    word.parse::<i128>().unwrap_or(0)
}

/// The bytes that a text means: `;` is the end of a line, and behind `\` stand `n` for that too, `t` and `r` for a tab and
/// a carriage return, `x` for the byte 0xfe, and `k` for ten thousand times the byte behind it.
pub fn meant(alloc: Global, text: &str) -> Result<Vec<u8>, AllocError> {
    let mut bytes = Vec::new(alloc);
    let mut before = b' ';
    for byte in text.bytes() {
        match (before, byte) {
            (b'\\', b'k') | (b' ', b'\\') => {
                before = byte;
                continue;
            }
            (b'\\', b'n') | (b' ', b';') => bytes.push(b'\n')?,
            (b'\\', b't') => bytes.push(b'\t')?,
            (b'\\', b'r') => bytes.push(b'\r')?,
            (b'\\', b'x') => bytes.push(0xfe)?,
            (b'k', _) => {
                for _ in 0..10_000u32 {
                    bytes.push(byte)?;
                }
            }
            _ => bytes.push(byte)?,
        }
        before = b' ';
    }
    Ok(bytes)
}

/// Writes answer lines in one line, behind what is there: ` /` ends each, and a space stands before the next.
pub fn push_answer(text: &mut String, answer: &[u8]) -> Result<(), AllocError> {
    for byte in answer {
        if *byte == b'\n' {
            text.push_str(" /")?;
        } else {
            if text.as_str().ends_with('/') {
                text.push(' ')?;
            }
            text.push(char::from(*byte))?;
        }
    }
    Ok(())
}

/// Writes bits between brackets, each as a digit.
pub fn push_bits<V: Bits>(text: &mut String, bits: &V) -> Result<(), AllocError> {
    text.push('[')?;
    for k in 0..bits.len() {
        text.push(if bits.bit(k) { '1' } else { '0' })?;
    }
    text.push(']')
}
