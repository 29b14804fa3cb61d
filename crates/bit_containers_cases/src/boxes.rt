//! Cases of boxes.

use crate::call::{Call, put_bits, read_word};
use crate::looks::look;
use crate::shown::{
    push_bit, push_list, push_number, push_ref, push_texts, push_turns, push_words,
};
use crate::writes::{on_lent, put_word, write};
use bit_addressing_sample_orders::texts::{number, read_words};
use bit_containers::boxed::IntoIter;
use bit_containers::{BitBox, BitOrder, BitSlice, BitStore, BitVec, Bits, BitsMut, Msb0};
use bit_slice_views_mut::MayWriteBeside;
use std::alloc::{AllocError, Global};
use std::boxed::BoxedSlice;
use std::str::SplitWhitespace;

/// What the calls of a case answer on the box of a window; and then its list, its head and how many words are visible.
pub fn box_case<T: BitStore, O: BitOrder<T>>(
    alloc: Global,
    window: BitSlice<'_, T, O>,
    mut words: SplitWhitespace<'_>,
) -> Result<String, AllocError> {
    let mut boxed = BitBox::<T, O>::from_bitslice(alloc, window)?;
    let mut text = String::new(alloc);
    for _ in 0..40u32 {
        let Some(call) = Call::read(&mut words) else {
            break
        };
        if !step(alloc, &mut text, &mut boxed, &call)? {
            text.push_str("refused ")?;
        }
    }
    push_list(&mut text, &boxed)?;
    let head = boxed.first_place();
    let shown = boxed.as_raw_slice().len();
    text.push_str(format!(in alloc; " {head} {shown}")?.as_str())?;
    Ok(text)
}

// Makes a call, and says whether it could be made.
fn step<T: BitStore, O: BitOrder<T>>(
    alloc: Global,
    text: &mut String,
    boxed: &mut BitBox<T, O>,
    call: &Call<'_>,
) -> Result<bool, AllocError> {
    let mut room = [0u16; 16];
    let count = put_bits(&mut room, call.first);
    let other = BitSlice::<u16, Msb0>::from_place(&room, 5, count);
    if !call.lent_by.is_empty() {
        return write_lent(alloc, text, boxed, call, &other);
    }
    if look(alloc, text, &*boxed, call, &other)? || write(text, &mut *boxed, call, &other)? {
        return Ok(true);
    }
    if fit(alloc, text, boxed, call)? || make(alloc, boxed, call)? {
        return Ok(true);
    }
    remake(alloc, text, boxed, call)
}

// Makes a call on the window that a box lends.
fn write_lent<T: BitStore, O: BitOrder<T>, W: Bits>(
    alloc: Global,
    text: &mut String,
    boxed: &mut BitBox<T, O>,
    call: &Call<'_>,
    other: &W,
) -> Result<bool, AllocError> {
    if call.lent_by == "window" {
        let mut lent = boxed.as_mut_bitslice();
        return on_lent(alloc, text, &mut lent, call, other);
    }
    let mut lent = boxed.as_mut_slice();
    on_lent(alloc, text, &mut lent, call, other)
}

// Makes a call of the words of a box.
fn fit<T: BitStore, O: BitOrder<T>>(
    alloc: Global,
    text: &mut String,
    boxed: &mut BitBox<T, O>,
    call: &Call<'_>,
) -> Result<bool, AllocError> {
    let a = number(call.first);
    let word = read_word::<T>(call.second);
    match call.name {
        "dead" => boxed.fill_uninitialized(a == 1),
        "align" => boxed.force_align(),
        "put" => put_word::<T>(boxed.as_raw_mut_slice(), a, word),
        "with" => boxed.with_words(MayWriteBeside, |words| put_word::<T>(words, a, word)),
        "at" if a < boxed.len() => push_bit(text, Some(boxed[a]))?,
        "raw" => push_words(text, boxed.as_raw_slice())?,
        "text" => push_texts(alloc, text, &*boxed)?,
        "each" => {
            for bit in &*boxed {
                push_ref(text, Some(bit))?;
            }
        }
        _ => return Ok(false),
    }
    Ok(true)
}

// Makes a box of words, and says whether it could be made.
fn make<T: BitStore, O: BitOrder<T>>(
    alloc: Global,
    boxed: &mut BitBox<T, O>,
    call: &Call<'_>,
) -> Result<bool, AllocError> {
    let words = read_words::<T>(alloc, call.first)?;
    if words.len().saturating_mul(T::BITS as usize) > 1000 {
        return Ok(false);
    }
    *boxed = match call.name {
        "from_element" if words.len() == 1 => {
            let word = Box::new(alloc, words[0])?;
            BitBox::from_element_box(word).map_err(AllocError::from)?
        }
        "from_array" if words.len() == 1 => BitBox::from_array(alloc, &[words[0]])?,
        "from_array" if words.len() == 2 => BitBox::from_array(alloc, &[words[0], words[1]])?,
        "from_boxed_slice" => BitBox::from_boxed_slice(words.into_boxed_slice()),
        "try_from_boxed_slice" => match BitBox::try_from(words.into_boxed_slice()) {
            Ok(made) => made,
            Err(_) => return Ok(false),
        },
        _ => return Ok(false),
    };
    Ok(true)
}

// Makes a box of the old one, or takes it apart, and says whether it could be made.
fn remake<T: BitStore, O: BitOrder<T>>(
    alloc: Global,
    text: &mut String,
    boxed: &mut BitBox<T, O>,
    call: &Call<'_>,
) -> Result<bool, AllocError> {
    let whole = std::mem::replace(boxed, BitBox::empty(alloc));
    match call.name {
        "not" => *boxed = !whole,
        "clone" => *boxed = whole.clone()?,
        "vector" => *boxed = BitBox::from_vec(whole.into_vec()).map_err(AllocError::from)?,
        "vec" => *boxed = BitBox::from_vec(BitVec::from(whole)).map_err(AllocError::from)?,
        "collect" if whole.len() <= 2000 => *boxed = BitBox::collect(alloc, whole.into_iter())?,
        "iter" => push_turns(text, whole.into_iter())?,
        "left" => push_left(text, whole.into_iter())?,
        "own_nth" => {
            let mut bits = whole.into_iter();
            push_bit(text, bits.nth(number(call.first)))?;
            push_bit(text, bits.nth_back(number(call.second)))?;
            push_list(text, &bits.as_slice())?;
        }
        "size" => push_number(alloc, text, Some(whole.into_boxed_slice().len()))?,
        "words" => push_words(text, BoxedSlice::from(whole).as_slice())?,
        _ => {
            *boxed = whole;
            return Ok(false);
        }
    }
    Ok(true)
}

// Writes the bits between the first and the last one, and what is given once these are flipped; a copy gives it too.
fn push_left<T: BitStore, O: BitOrder<T>>(
    text: &mut String,
    bits: IntoIter<T, O>,
) -> Result<(), AllocError> {
    let mut bits = bits;
    push_bit(text, bits.next())?;
    push_bit(text, bits.next_back())?;
    push_list(text, &bits.as_slice())?;
    bits.as_mut_slice().invert();
    push_turns(text, bits.clone()?)?;
    push_turns(text, bits)
}
