//! One case: its words are read, its window is made, and its call is answered.

ghost use Rattle.std.specs.Prelude.{◌+◌, ◌*◌, ◌≤◌, length};

use crate::edits::{edit, lend_bits, lend_halves, move_stretch};
use crate::lent::write_pieces;
use crate::looks::look;
use crate::memory::{OTHERS_FROM, has_window, put_bits};
use crate::numbers::hold_number;
use crate::order::Downwards;
use crate::paths::go_path;
use crate::pieces::cut;
use crate::shares::{make, share};
use crate::splits::split;
use crate::texts::show;
use crate::writes::{exchange, write};
use bit_addressing_sample_orders::FifthStep;
use bit_addressing_sample_orders::texts::{number, push_words, read_words};
use bit_slice::{
    BitOrder, BitRegister, BitSlice, BitSliceMut, Bits, BitsWindow, FieldOrder, HiLo, Lsb0, Msb0,
    WordPaths,
};
use std::alloc::{AllocError, Global};

/// What a case asks of its window.
#[derive(Drop)]
pub struct Case<'a> {
    /// The words of the memory in hexadecimal digits, one after another.
    pub memory: &'a str,
    /// The place at which the window begins.
    pub from: usize,
    /// How many bits it has.
    pub len: usize,
    /// The name of the call.
    pub call: &'a str,
    /// The words behind it, empty where there are none.
    pub first: &'a str,
    pub second: &'a str,
    pub third: &'a str,
    pub fourth: &'a str,
}

impl<'a> Case<'a> {
    /// The case of these words.
    fn read(mut words: std::str::SplitWhitespace<'a>) -> Case<'a> {
        Case {
            memory: words.next().unwrap_or(""),
            from: number(words.next().unwrap_or("")),
            len: number(words.next().unwrap_or("")),
            call: words.next().unwrap_or(""),
            first: words.next().unwrap_or(""),
            second: words.next().unwrap_or(""),
            third: words.next().unwrap_or(""),
            fourth: words.next().unwrap_or(""),
        }
    }
}

/// What a line is answered.
pub fn answer(alloc: Global, line: &str) -> Result<String, AllocError> {
    let mut words = line.split_whitespace();
    let word = words.next().unwrap_or("");
    let order = words.next().unwrap_or("");
    let case = Case::read(words);
    match word {
        "u8" => in_words::<u8>(alloc, order, &case),
        "u16" => in_words::<u16>(alloc, order, &case),
        "u32" => in_words::<u32>(alloc, order, &case),
        "u64" => in_words::<u64>(alloc, order, &case),
        "u128" => in_words::<u128>(alloc, order, &case),
        "usize" => in_words::<usize>(alloc, order, &case),
        _ => "no such word".to_string(alloc),
    }
}

fn in_words<R: BitRegister>(
    alloc: Global,
    order: &str,
    case: &Case<'_>,
) -> Result<String, AllocError> {
    match order {
        "lsb0" => in_turn::<R, Lsb0>(alloc, case),
        "msb0" => in_turn::<R, Msb0>(alloc, case),
        "fifth" => in_order::<R, FifthStep>(alloc, case),
        "hilo" => in_paths::<R, HiLo>(alloc, case),
        "own" => go_path::<R, Downwards>(alloc, case),
        _ => "no such order".to_string(alloc),
    }
}

// What a case is answered under an order that holds numbers too.
fn in_turn<R: BitRegister, O: FieldOrder<R> + WordPaths<R>>(
    alloc: Global,
    case: &Case<'_>,
) -> Result<String, AllocError> {
    if case.call.starts_with("load") || case.call.starts_with("store") {
        return hold_number::<R, O>(alloc, case);
    }
    in_paths::<R, O>(alloc, case)
}

// What it is answered under an order that has word paths of its own.
fn in_paths<R: BitRegister, O: WordPaths<R>>(
    alloc: Global,
    case: &Case<'_>,
) -> Result<String, AllocError> {
    if case.call.starts_with("path_") || case.call.starts_with("copy_from") {
        return go_path::<R, O>(alloc, case);
    }
    in_order::<R, O>(alloc, case)
}

// What it is answered under any order.
fn in_order<R: BitRegister, O: BitOrder<R>>(
    alloc: Global,
    case: &Case<'_>,
) -> Result<String, AllocError> {
    let mut words = read_words::<R>(alloc, case.memory)?;
    if !has_window(&words, case.from, case.len) {
        return "no such window".to_string(alloc);
    }
    if let "move_words" = case.call {
        return move_stretch::<R, O>(alloc, &mut words, case);
    }
    let mut room = [0u16; 16];
    let count = put_bits(&mut room, case.first);
    let other = BitSlice::<u16, Msb0>::from_place(&room, OTHERS_FROM, count);
    if let Some(text) = read::<R, O, BitSlice<'_, u16, Msb0>>(alloc, &words, case, &other)? {
        return Ok(text);
    }
    if let "texts_mut" = case.call {
        return show(
            alloc,
            &BitSliceMut::<R, O>::from_place_mut(&mut words, case.from, case.len),
        );
    }
    let mut text = String::new(alloc);
    {
        let mut view = BitSliceMut::<R, O>::from_place_mut(&mut words, case.from, case.len);
        write_window(&mut text, &mut view, case, &other)?;
    }
    push_words(&mut text, &words)?;
    Ok(text)
}

// What a call is answered that reads a window.
fn read<R: BitRegister, O: BitOrder<R>, W: Bits>(
    alloc: Global,
    words: &[R],
    case: &Case<'_>,
    other: &W,
) -> Result<Option<String>, AllocError>
    requires near { case.now.from ≤ 2048 }
    requires short { case.now.len ≤ 2048 }
    requires fits { case.now.from + case.now.len ≤ length words.now * R.BITS }
{
    if let "made" = case.call {
        return Ok(Some(make::<R, O>(alloc, words, case)?));
    }
    let view = BitSlice::<R, O>::from_place(words, case.from, case.len);
    if let "texts" = case.call {
        return Ok(Some(show(alloc, &view)?));
    }
    let mut text = String::new(alloc);
    if look(alloc, &mut text, &view, case, other)? {
        return Ok(Some(text));
    }
    let answer = share(alloc, &view, case, other)?;
    if answer.is_some() {
        return Ok(answer);
    }
    let answer = cut(alloc, &view, case)?;
    if answer.is_some() {
        return Ok(answer);
    }
    split(alloc, &view, case)
}

// Makes a call that writes a window; what it answers goes into the text.
fn write_window<V: BitsWindow, W: Bits>(
    text: &mut String,
    view: &mut V,
    case: &Case<'_>,
    other: &W,
) -> Result<(), AllocError> {
    let is_known = write(view, case, other)
        || lend_halves(view, case)
        || lend_bits(view, case)
        || edit(text, view, case, other)?
        || exchange(text, view, case)?
        || write_pieces(text, view, case, other)?;
    if is_known {
        Ok(())
    } else {
        text.push_str("refused ")
    }
}
