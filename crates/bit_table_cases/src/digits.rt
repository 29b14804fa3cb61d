//! Numbers in windows of a memory, rows of them, and the bits of an image.

ghost use Rattle.std.specs.Prelude.{◌≡◌, ◌+◌, ◌≤◌, length};
ghost use Rattle.bit_table_script.specs.Layouts.{row_width};

use crate::memory::{WORDS, push_words, read_words};
use crate::text::{cut, push_bits, whole_number};
use bit_addressing_sample_orders::texts::number;
use bit_table_fields::{load_row, store_row};
use bit_table_script::image::{read, write};
use bit_table_script::{
    BitOrder, BitRegister, BitSlice, BitSliceMut, BitStore, Bits, Digits, Layout, Steps,
};
use std::alloc::{AllocError, Global};

/// The numbers that a window of a memory holds, by both rules without a sign and with one, and the memory after another
/// number was stored in it, by the rule `low` and then by `high`; with the word steps of all loads and of both stores.
pub fn digits_case<R: BitRegister, O: Digits<R>>(
    alloc: Global,
    rest: &str,
) -> Result<String, AllocError> {
    let mut args = rest.split_whitespace();
    let (mut words, count) = read_words::<R>(alloc, args.next().unwrap_or(""))?;
    let place = number(args.next().unwrap_or(""));
    let width = number(args.next().unwrap_or(""));
    let value = whole_number(args.next().unwrap_or(""));
    if words.len() != WORDS || place > 100 || width == 0 || width > 64 {
        return "no such window".to_string(alloc);
    }
    let mut text = String::new(alloc);
    let width = width as u32;
    push_loaded::<R, O>(&mut text, words.as_slice(), place, width)?;
    let mut steps = Steps::new();
    for high in [false, true] {
        stored::<R, O>(words.as_mut_slice(), place, width, value, high, &mut steps);
        text.push(' ')?;
        push_words(&mut text, words.as_slice(), count)?;
    }
    let taken = steps.taken();
    write!(text, " {taken}")?;
    Ok(text)
}

// Writes the numbers of a window by both rules, without a sign and with one, and how many steps that took.
fn push_loaded<R: BitRegister, O: Digits<R>>(
    text: &mut String,
    words: &[R],
    place: usize,
    width: u32,
) -> Result<(), AllocError>
    requires room { length words.now ≡ 24 }
    requires place { place ≤ 100 }
    requires some { 1 ≤ width }
    requires narrow { width ≤ 64 }
{
    let view = BitSlice::<R, O>::from_place(words, place, width as usize);
    let mut steps = Steps::new();
    for signed in [false, true] {
        let low = O::load_low(view, signed, &mut steps);
        let high = O::load_high(view, signed, &mut steps);
        write!(text, "{low} {high} ")?;
    }
    let taken = steps.taken();
    write!(text, "{taken}")
}

// Stores a number in a window.
fn stored<R: BitRegister, O: Digits<R>>(
    words: &mut [R],
    place: usize,
    width: u32,
    value: i128,
    high: bool,
    steps: &mut Steps,
)
    requires room { length words.old ≡ 24 }
    requires place { place ≤ 100 }
    requires some { 1 ≤ width }
    requires narrow { width ≤ 64 }
{
    let mut view = BitSliceMut::<R, O>::from_place_mut(words, place, width as usize);
    if high {
        O::store_high(&mut view, value, steps);
    } else {
        O::store_low(&mut view, value, steps);
    }
}

/// The numbers of a row that was stored in a window of 150 bits of a memory, as they are loaded again, and the memory. The
/// window begins at one place of the memory, and the row at one of the window.
pub fn row_case<R: BitRegister, O: Digits<R>>(
    alloc: Global,
    rest: &str,
) -> Result<String, AllocError> {
    let (memory, rest) = cut(rest);
    let (place, rest) = cut(rest);
    let (at, rest) = cut(rest);
    let mut parts = rest.split(';');
    let line = parts.next().unwrap_or("");
    let Ok(layout) = Layout::parse(alloc, line.as_bytes()) else {
        return "no layout line".to_string(alloc);
    };
    let mut values = Vec::new(alloc);
    for word in parts.next().unwrap_or("").split_whitespace() {
        values.push(whole_number(word))?;
    }
    let (mut words, count) = read_words::<R>(alloc, memory)?;
    let (place, at, bits) = (number(place), number(at), layout.row_bits());
    let is_here = words.len() == WORDS && place <= 40 && bits <= 150 && at <= 150 - bits;
    if !is_here || values.len() != layout.fields().len() {
        return "no such row".to_string(alloc);
    }
    let numbers = stored_row::<R, O>(
        alloc,
        words.as_mut_slice(),
        place,
        at,
        &layout,
        values.as_slice(),
    )?;
    let mut text = format!(in alloc; "{numbers:?} ")?;
    push_words(&mut text, words.as_slice(), count)?;
    Ok(text)
}

// Stores a row in a window, and answers the numbers of the row that it holds then.
fn stored_row<R: BitRegister, O: Digits<R>>(
    alloc: Global,
    words: &mut [R],
    place: usize,
    at: usize,
    layout: &Layout,
    values: &[i128],
) -> Result<Vec<i128>, AllocError>
    requires room { length words.old ≡ 24 }
    requires place { place ≤ 40 }
    requires within { at + row_width layout.now.fields ≤ 150 }
    requires count { length values.now ≡ length layout.now.fields }
{
    let mut view = BitSliceMut::<R, O>::from_place_mut(words, place, 150);
    let mut steps = Steps::new();
    store_row(&mut view, at, layout, values, &mut steps);
    load_row(alloc, &view, at, layout, &mut steps)
}

/// The bytes that are written for the bits that image bytes are read as, and these bits; or why the bytes are refused.
pub fn image_case<T: BitStore, O: BitOrder<T>>(
    alloc: Global,
    rest: &str,
) -> Result<String, AllocError> {
    let (rows, rest) = cut(rest);
    let (bytes, line) = cut(rest);
    let Ok(layout) = Layout::parse(alloc, line.as_bytes()) else {
        return "no layout line".to_string(alloc);
    };
    let Ok(bytes) = hex::decode(alloc, bytes) else {
        return "no bytes".to_string(alloc);
    };
    let mut text = String::new(alloc);
    match read::<T, O>(alloc, &layout, number(rows) as u64, bytes.as_slice()) {
        Ok(bits) => {
            let written = write(alloc, &layout, bits.as_bitslice())?;
            text.push_str(hex::encode(alloc, written.as_slice())?.as_str())?;
            push_bits(&mut text, &bits)?;
        }
        Err(fault) => write!(text, "{fault}")?,
    }
    Ok(text)
}
