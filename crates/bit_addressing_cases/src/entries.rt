//! Entries, copies, exchanges and moves inside one memory, by places and by pointers.

ghost use Rattle.std.specs.Prelude.{◌≡◌, ◌+◌, ◌*◌, ◌^◌, ◌<◌, ◌≤◌, length, pos, ◌≤ℤ◌};
ghost use Rattle.bit_addressing.specs.Pointer.{memory_place};

use crate::text::{has_stretch, next_number, push_bit};
use bit_addressing::entries::{
    copy_within, read_entry, replace_entry, swap_entries, swap_within, write_entry,
};
use bit_addressing::{BitIdx, BitOrder, BitPtr, BitRegister, Sweep, move_in, way_for};
use bit_addressing_sample_orders::texts::push_words;
use std::alloc::{AllocError, Global};
use std::str::SplitWhitespace;

/// The pointer to a place of a memory.
pub fn pointer_to<R: BitRegister, O: BitOrder<R>>(place: usize) -> BitPtr<R, O>
    requires { place < 2 ^ 63 }
    ensures from { pos 0 ≤ℤ result.word }
    ensures place { memory_place R.BITS result ≡ place }
{
    let bits = R::BITS as usize;
    let index = BitIdx::new_unchecked((place % bits) as u8);
    BitPtr::new((place / bits) as isize, index)
}

/// `entry PLACE BIT`: the bit, read by its place and by a pointer; the memory with the other one, and what was replaced by
/// the old one; and the same by a pointer.
pub fn entry_case<R: BitRegister, O: BitOrder<R>>(
    alloc: Global,
    words: &mut [R],
    mut args: SplitWhitespace<'_>,
) -> Result<String, AllocError> {
    let place = next_number(&mut args);
    let bit = next_number(&mut args) == 1;
    if !has_stretch(words, place, 1) {
        return "no such place".to_string(alloc);
    }
    let mut text = String::new(alloc);
    let was = read_entry::<R, O>(words, place);
    push_bit(&mut text, was)?;
    push_bit(&mut text, pointer_to::<R, O>(place).read(words))?;
    write_entry::<R, O>(words, place, bit);
    push_words(&mut text, words)?;
    push_bit(&mut text, replace_entry::<R, O>(words, place, was))?;
    pointer_to::<R, O>(place).write(words, bit);
    push_words(&mut text, words)?;
    push_bit(&mut text, pointer_to::<R, O>(place).replace(words, was))?;
    push_words(&mut text, words)?;
    Ok(text)
}

/// `swap FIRST SECOND`: the memory with two bits exchanged, and exchanged back by pointers.
pub fn swap_case<R: BitRegister, O: BitOrder<R>>(
    alloc: Global,
    words: &mut [R],
    mut args: SplitWhitespace<'_>,
) -> Result<String, AllocError> {
    let first = next_number(&mut args);
    let second = next_number(&mut args);
    if !has_stretch(words, first, 1) || !has_stretch(words, second, 1) {
        return "no such place".to_string(alloc);
    }
    let mut text = String::new(alloc);
    swap_entries::<R, O>(words, first, second);
    push_words(&mut text, words)?;
    text.push(' ')?;
    pointer_to::<R, O>(first).swap_within(words, pointer_to(second));
    push_words(&mut text, words)?;
    Ok(text)
}

/// `copy FROM TO LEN`: the memory with a stretch copied, and then back by pointers.
pub fn copy_case<R: BitRegister, O: BitOrder<R>>(
    alloc: Global,
    words: &mut [R],
    mut args: SplitWhitespace<'_>,
) -> Result<String, AllocError> {
    let (from, to, len) = three(&mut args);
    if !has_stretch(words, from, len) || !has_stretch(words, to, len) {
        return "no such place".to_string(alloc);
    }
    let mut text = String::new(alloc);
    copy_within::<R, O>(words, from, to, len);
    push_words(&mut text, words)?;
    text.push(' ')?;
    pointer_to::<R, O>(to).copy_within(words, pointer_to(from), len);
    push_words(&mut text, words)?;
    Ok(text)
}

/// `exchange FIRST SECOND LEN`: the memory with two stretches exchanged, of which the first ends before the second.
pub fn exchange_case<R: BitRegister, O: BitOrder<R>>(
    alloc: Global,
    words: &mut [R],
    mut args: SplitWhitespace<'_>,
) -> Result<String, AllocError> {
    let (first, second, len) = three(&mut args);
    if !has_stretch(words, first, len) || !has_stretch(words, second, len) || first + len > second {
        return "no such places".to_string(alloc);
    }
    swap_within::<R, O>(words, first, second, len);
    let mut text = String::new(alloc);
    push_words(&mut text, words)?;
    Ok(text)
}

/// `move FROM TO LEN READS WRITES`: the memory with a stretch moved by a sweep, and whether that took no more reads and no
/// more writes than these.
pub fn move_case<R: BitRegister, O: BitOrder<R>>(
    alloc: Global,
    words: &mut [R],
    mut args: SplitWhitespace<'_>,
) -> Result<String, AllocError> {
    let (from, to, len) = three(&mut args);
    if !has_stretch(words, from, len) || !has_stretch(words, to, len) {
        return "no such place".to_string(alloc);
    }
    let (reads, writes) = moved::<R, O>(words, from, to, len);
    let is_within = reads <= next_number(&mut args) as u64 && writes <= next_number(&mut args);
    let mut text = String::new(alloc);
    push_words(&mut text, words)?;
    text.push_str(if is_within { " yes" } else { " no" })?;
    Ok(text)
}

// Moves bits by a sweep, and answers how many words it read and wrote.
fn moved<R: BitRegister, O: BitOrder<R>>(
    words: &mut [R],
    from: usize,
    to: usize,
    len: usize,
) -> (u64, usize)
    requires from { from + len ≤ length words.old * R.BITS }
    requires to { to + len ≤ length words.old * R.BITS }
    requires from_ends { from + len < 2 ^ 64 }
    requires to_ends { to + len < 2 ^ 64 }
{
    let mut sweep = Sweep::new(words, way_for(from, to));
    move_in::<R, O>(&mut sweep, from, to, len);
    (sweep.reads(), sweep.writes())
}

// The next three words as numbers.
fn three(args: &mut SplitWhitespace<'_>) -> (usize, usize, usize) {
    let first = next_number(args);
    let second = next_number(args);
    (first, second, next_number(args))
}
