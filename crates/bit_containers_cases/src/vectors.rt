//! Cases of vectors.

use crate::call::{Call, put_bits, read_word};
use crate::grown::{grow, grow_by_words};
use crate::looks::look;
use crate::made::{make, remake};
use crate::ranges::repeat_by_kind;
use crate::shown::{push_bit, push_list, push_ref, push_texts, push_words};
use crate::taken::take;
use crate::writes::{on_lent, put_swept, put_word, write};
use bit_addressing_sample_orders::texts::number;
use bit_containers::{BitOrder, BitSlice, BitStore, BitVec, Bits, BitsMut, Msb0, way_for};
use bit_slice_views_mut::MayWriteBeside;
use std::alloc::{AllocError, Global};
use std::str::SplitWhitespace;

/// What the calls of a case answer on the vector of a window; and then its list, its head and how many words are visible.
pub fn vector_case<T: BitStore, O: BitOrder<T>>(
    alloc: Global,
    window: BitSlice<'_, T, O>,
    mut words: SplitWhitespace<'_>,
) -> Result<String, AllocError> {
    let mut vector = BitVec::<T, O>::from_bitslice(alloc, window)?;
    let mut text = String::new(alloc);
    for _ in 0..40u32 {
        let Some(call) = Call::read(&mut words) else {
            break
        };
        if !step(alloc, &mut text, &mut vector, &call)? {
            text.push_str("refused ")?;
        }
    }
    push_list(&mut text, &vector)?;
    let head = vector.first_place();
    let shown = vector.as_raw_slice().len();
    text.push_str(format!(in alloc; " {head} {shown}")?.as_str())?;
    Ok(text)
}

// Makes a call, and says whether it could be made.
fn step<T: BitStore, O: BitOrder<T>>(
    alloc: Global,
    text: &mut String,
    vector: &mut BitVec<T, O>,
    call: &Call<'_>,
) -> Result<bool, AllocError> {
    let mut room = [0u16; 16];
    let count = put_bits(&mut room, call.first);
    let other = BitSlice::<u16, Msb0>::from_place(&room, 5, count);
    if !call.lent_by.is_empty() {
        return write_lent(alloc, text, vector, call, &other);
    }
    if look(alloc, text, &*vector, call, &other)? || write(text, &mut *vector, call, &other)? {
        return Ok(true);
    }
    if edit(text, vector, call)? || fit(alloc, text, vector, call)? {
        return Ok(true);
    }
    if grow(alloc, text, vector, call, other)? || grow_by_words(alloc, vector, call)? {
        return Ok(true);
    }
    if take(alloc, text, vector, call, other)? || make(alloc, vector, call)? {
        return Ok(true);
    }
    remake(alloc, text, vector, call)
}

// Makes a call on the window that a vector lends.
fn write_lent<T: BitStore, O: BitOrder<T>, W: Bits>(
    alloc: Global,
    text: &mut String,
    vector: &mut BitVec<T, O>,
    call: &Call<'_>,
    other: &W,
) -> Result<bool, AllocError> {
    if call.lent_by == "window" {
        let mut lent = vector.as_mut_bitslice();
        return on_lent(alloc, text, &mut lent, call, other);
    }
    let mut lent = vector.as_mut_slice();
    on_lent(alloc, text, &mut lent, call, other)
}

// Makes a call that puts bits in or takes them off.
fn edit<T: BitStore, O: BitOrder<T>>(
    text: &mut String,
    vector: &mut BitVec<T, O>,
    call: &Call<'_>,
) -> Result<bool, AllocError> {
    let (a, b) = (number(call.first), number(call.second));
    let len = vector.len();
    if len > 2000 {
        return Ok(false);
    }
    match call.name {
        "push" => vector.push(a == 1)?,
        "pop" => push_bit(text, vector.pop())?,
        "insert" if a <= len => vector.insert(a, b == 1)?,
        "remove" if a < len => push_bit(text, Some(vector.remove(a)))?,
        "swap_remove" if a < len => push_bit(text, Some(vector.swap_remove(a)))?,
        "truncate" => vector.truncate(a),
        "clear" => vector.clear(),
        "resize" if a <= 2000 => vector.resize(a, b == 1)?,
        "resize_thirds" if a <= 2000 => vector.resize_with(a, is_third)?,
        _ => return repeat_by_kind(vector, call),
    }
    Ok(true)
}

// Whether an index is a multiple of three.
fn is_third(index: usize) -> bool {
    index % 3 == 0
}

// Makes a call of the words and the memory of a vector.
fn fit<T: BitStore, O: BitOrder<T>>(
    alloc: Global,
    text: &mut String,
    vector: &mut BitVec<T, O>,
    call: &Call<'_>,
) -> Result<bool, AllocError> {
    let a = number(call.first);
    let word = read_word::<T>(call.second);
    let most = vector.as_raw_slice().len().saturating_mul(T::BITS as usize);
    if vector.len() > 2000 {
        return Ok(false);
    }
    match call.name {
        "reserve" if a <= 2000 => vector.reserve(a)?,
        "reserve_exact" if a <= 2000 => vector.reserve_exact(a)?,
        "shrink" => vector.shrink_to_fit()?,
        "align" => vector.force_align(),
        "dead" => vector.set_uninitialized(a == 1),
        "set_len" if a <= 2000 && vector.first_place() + a <= most => vector.set_len(a),
        "elements" => vector.set_elements(read_word::<T>(call.first)),
        "put" => put_word::<T>(vector.as_raw_mut_slice(), a, word),
        "with" => vector.with_words(MayWriteBeside, |words| put_word::<T>(words, a, word)),
        "swept" if a < vector.as_raw_slice().len() => {
            vector.sweep(way_for(a, a), |sweep| put_swept::<T>(sweep, a, word))
        }
        "at" if a < vector.len() => push_bit(text, Some(vector[a]))?,
        "raw" => push_words(text, vector.as_raw_slice())?,
        "text" => push_texts(alloc, text, &*vector)?,
        "each" => {
            for bit in &*vector {
                push_ref(text, Some(bit))?;
            }
        }
        _ => return Ok(false),
    }
    Ok(true)
}
