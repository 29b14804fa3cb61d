//! One case: its words are read, its window is made, and its calls are made.

use crate::arrays::array_case;
use crate::boxes::box_case;
use crate::operators::combine;
use crate::vectors::vector_case;
use bit_addressing_sample_orders::FifthStep;
use bit_addressing_sample_orders::texts::{number, read_words};
use bit_containers::{BitOrder, BitSlice, BitStore, BitViewSized, Lsb0, Msb0, WordPaths};
use std::alloc::{AllocError, Global};
use std::str::SplitWhitespace;

/// What a line is answered. A line that begins with a word is one of a vector.
pub fn answer(alloc: Global, line: &str) -> Result<String, AllocError> {
    let mut words = line.split_whitespace();
    let first = words.next().unwrap_or("");
    let (kind, word) = match first {
        "u8" | "u16" | "u32" | "u64" | "u128" => ("vector", first),
        _ => (first, words.next().unwrap_or("")),
    };
    match word {
        "u8" => in_words::<u8, [u8; 0], [u8; 1], [u8; 2], [u8; 3]>(alloc, kind, words),
        "u16" => in_words::<u16, [u16; 0], [u16; 1], [u16; 2], [u16; 3]>(alloc, kind, words),
        "u32" => in_words::<u32, [u32; 0], [u32; 1], [u32; 2], [u32; 3]>(alloc, kind, words),
        "u64" => in_words::<u64, [u64; 0], [u64; 1], [u64; 2], [u64; 3]>(alloc, kind, words),
        "u128" => {
            in_words::<u128, [u128; 0], [u128; 1], [u128; 2], [u128; 3]>(alloc, kind, words)
        }
        _ => "no such word".to_string(alloc),
    }
}

// The arrays of none to three words are types of their own here: of an array of a type parameter a call would owe that it
// fits the memory.
fn in_words<
    T: BitStore + BitViewSized<Store = T>,
    Zero: BitViewSized<Store = T>,
    One: BitViewSized<Store = T>,
    Two: BitViewSized<Store = T>,
    Three: BitViewSized<Store = T>,
>(alloc: Global, kind: &str, mut words: SplitWhitespace<'_>) -> Result<String, AllocError> {
    match words.next().unwrap_or("") {
        "lsb0" => in_paths::<T, Zero, One, Two, Three, Lsb0>(alloc, kind, words),
        "msb0" => in_paths::<T, Zero, One, Two, Three, Msb0>(alloc, kind, words),
        "fifth" => in_order::<T, Zero, One, Two, Three, FifthStep>(alloc, kind, words),
        _ => "no such order".to_string(alloc),
    }
}

// A case of an operator has two windows.
fn in_paths<
    T: BitStore + BitViewSized<Store = T>,
    Zero: BitViewSized<Store = T>,
    One: BitViewSized<Store = T>,
    Two: BitViewSized<Store = T>,
    Three: BitViewSized<Store = T>,
    O: WordPaths<T>,
>(alloc: Global, kind: &str, mut words: SplitWhitespace<'_>) -> Result<String, AllocError> {
    match kind {
        "and" | "or" | "xor" | "copy" => {}
        _ => return in_order::<T, Zero, One, Two, Three, O>(alloc, kind, words),
    }
    let memory = read_words::<T>(alloc, words.next().unwrap_or(""))?;
    let (place, len) = (next_number(&mut words), next_number(&mut words));
    let (right_place, right_len) = (next_number(&mut words), next_number(&mut words));
    let most = memory.len().saturating_mul(T::BITS as usize);
    if most > 2000 || place > most || right_place > most {
        return "too long".to_string(alloc);
    }
    if len > most - place || right_len > most - right_place {
        return "no such window".to_string(alloc);
    }
    let left = BitSlice::<T, O>::from_place(&memory, place, len);
    let right = BitSlice::<T, O>::from_place(&memory, right_place, right_len);
    combine::<T, Two, Three, O>(alloc, kind, left, right)
}

fn in_order<
    T: BitStore + BitViewSized<Store = T>,
    Zero: BitViewSized<Store = T>,
    One: BitViewSized<Store = T>,
    Two: BitViewSized<Store = T>,
    Three: BitViewSized<Store = T>,
    O: BitOrder<T>,
>(alloc: Global, kind: &str, mut words: SplitWhitespace<'_>) -> Result<String, AllocError> {
    let memory = read_words::<T>(alloc, words.next().unwrap_or(""))?;
    let (place, len) = (next_number(&mut words), next_number(&mut words));
    let most = memory.len().saturating_mul(T::BITS as usize);
    if most > 2000 || place > most || len > most - place {
        return "no such window".to_string(alloc);
    }
    let window = BitSlice::<T, O>::from_place(&memory, place, len);
    match kind {
        "vector" => vector_case::<T, O>(alloc, window, words),
        "box" => box_case::<T, O>(alloc, window, words),
        "word" => array_case::<T, O>(alloc, window, words),
        "array0" => array_case::<Zero, O>(alloc, window, words),
        "array1" => array_case::<One, O>(alloc, window, words),
        "array2" => array_case::<Two, O>(alloc, window, words),
        "array3" => array_case::<Three, O>(alloc, window, words),
        _ => "no such kind".to_string(alloc),
    }
}

// The next word as a number.
fn next_number(words: &mut SplitWhitespace<'_>) -> usize {
    number(words.next().unwrap_or(""))
}
