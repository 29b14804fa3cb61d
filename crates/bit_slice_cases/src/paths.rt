//! Word paths of two memories of the same words and order.

ghost use Rattle.std.specs.Prelude.{◌+◌, ◌*◌, ◌≤◌, length};

use crate::case::Case;
use crate::memory::has_window;
use bit_addressing_sample_orders::texts::{number, push_words, read_words};
use bit_slice::{BitRegister, BitSlice, BitSliceMut, BitsMut, Steps, WordPaths};
use std::alloc::{AllocError, Global};

/// What a word path is answered, or a copy that goes by one: whether the bits are equal, the steps, and both memories. The
/// first word of the call is the other memory, the next the place there. Where the third is `lengths`, it is a digest of
/// what each length is answered, from no bits to those of the case.
pub fn go_path<R: BitRegister, O: WordPaths<R>>(
    alloc: Global,
    case: &Case<'_>,
) -> Result<String, AllocError> {
    if case.third == "lengths" {
        return go_lengths::<R, O>(alloc, case);
    }
    go_so_far::<R, O>(alloc, case, case.len)
}

// The digest: of the answers one after the other, byte by byte, as Fowler, Noll and Vo make it (FNV-1a, 64 bits).
fn go_lengths<R: BitRegister, O: WordPaths<R>>(
    alloc: Global,
    case: &Case<'_>,
) -> Result<String, AllocError> {
    let mut digest = 0xcbf2_9ce4_8422_2325u64;
    for len in 0..case.len.min(2_048) + 1 {
        let answer = go_so_far::<R, O>(alloc, case, len)?;
        for byte in answer.bytes() {
            digest = (digest ^ u64::from(byte)).wrapping_mul(0x0000_0100_0000_01b3);
        }
    }
    format!(in alloc; "{digest:016x}")
}

// The answer for so many bits.
fn go_so_far<R: BitRegister, O: WordPaths<R>>(
    alloc: Global,
    case: &Case<'_>,
    len: usize,
) -> Result<String, AllocError> {
    let mut words = read_words::<R>(alloc, case.memory)?;
    let mut others = read_words::<R>(alloc, case.first)?;
    let from = number(case.second);
    if !has_window(&words, case.from, len) || !has_window(&others, from, len) {
        return "no such window".to_string(alloc);
    }
    let mut steps = Steps::new();
    let is_equal = go::<R, O>(&mut words, case, len, &mut others, from, &mut steps);
    let mut text = format!(in alloc; "{is_equal} {} ", steps.taken())?;
    push_words(&mut text, &words)?;
    text.push(' ')?;
    push_words(&mut text, &others)?;
    Ok(text)
}

// Makes the call: what `equal` answers, and true of the others. An unknown call is answered false.
fn go<R: BitRegister, O: WordPaths<R>>(
    words: &mut [R],
    case: &Case<'_>,
    len: usize,
    others: &mut [R],
    from: usize,
    steps: &mut Steps,
) -> bool
    requires near { case.now.from ≤ 2048 }
    requires other_near { from ≤ 2048 }
    requires short { len ≤ 2048 }
    requires fits { case.now.from + len ≤ length words.old * R.BITS }
    requires other_fits { from + len ≤ length others.old * R.BITS }
{
    let at = case.from;
    match case.call {
        "path_equal" => return O::equal(words, at, others, from, len, steps),
        "path_copy" => O::copy(words, at, others, from, len, steps),
        "path_swap" => O::swap(words, at, others, from, len, steps),
        "path_over" if has_window(words, from, len) => O::copy_over(words, from, at, len, steps),
        "path_and" => O::and(words, at, others, from, len, steps),
        "path_or" => O::or(words, at, others, from, len, steps),
        "path_xor" => O::xor(words, at, others, from, len, steps),
        "copy_from" => {
            let other = BitSlice::<R, O>::from_place(others, from, len);
            BitSliceMut::<R, O>::from_place_mut(words, at, len).copy_from_bitslice(&other);
        }
        "copy_from_slice" => {
            let other = BitSlice::<R, O>::from_place(others, from, len);
            BitSliceMut::<R, O>::from_place_mut(words, at, len).copy_from_slice(&other);
        }
        _ => return false,
    }
    true
}
