//! Cases of arrays.

use crate::call::{Call, put_bits, read_word};
use crate::looks::look;
use crate::shown::{push_bit, push_list, push_ref, push_texts, push_turns, push_words};
use crate::writes::{on_lent, put_word, write};
use bit_addressing_sample_orders::texts::number;
use bit_containers::array::IntoIter;
use bit_containers::{
    BitArray, BitArrayZero, BitOrder, BitSlice, BitViewSized, Bits, BitsMut, BitsOwned, Msb0,
};
use bit_slice_views_mut::MayWriteBeside;
use std::alloc::{AllocError, Global};
use std::str::SplitWhitespace;

/// What the calls of a case answer on the array of a window, or why the window is no array; and then its list and how many
/// words it has.
pub fn array_case<A: BitViewSized, O: BitOrder<A::Store>>(
    alloc: Global,
    window: BitSlice<'_, A::Store, O>,
    mut words: SplitWhitespace<'_>,
) -> Result<String, AllocError> {
    let mut array = match BitArray::<A, O>::try_from(window) {
        Ok(array) => array,
        Err(error) => return format!(in alloc; "{error}: {error:?}"),
    };
    let mut text = String::new(alloc);
    for _ in 0..40u32 {
        let Some(call) = Call::read(&mut words) else {
            break
        };
        if !step(alloc, &mut text, &mut array, &call)? {
            text.push_str("refused ")?;
        }
    }
    push_list(&mut text, &array)?;
    let shown = array.as_raw_slice().len();
    text.push_str(format!(in alloc; " {shown}")?.as_str())?;
    Ok(text)
}

// Makes a call, and says whether it could be made.
fn step<A: BitViewSized, O: BitOrder<A::Store>>(
    alloc: Global,
    text: &mut String,
    array: &mut BitArray<A, O>,
    call: &Call<'_>,
) -> Result<bool, AllocError> {
    let mut room = [0u16; 16];
    let count = put_bits(&mut room, call.first);
    let other = BitSlice::<u16, Msb0>::from_place(&room, 5, count);
    if call.lent_by == "window" {
        let mut lent = array.as_mut_bitslice();
        return on_lent(alloc, text, &mut lent, call, &other);
    }
    if call.lent_by == "lent" {
        let mut lent = array.as_mut_slice();
        return on_lent(alloc, text, &mut lent, call, &other);
    }
    if look(alloc, text, &*array, call, &other)? || write(text, &mut *array, call, &other)? {
        return Ok(true);
    }
    change(alloc, text, array, call)
}

// Makes a call of an array as a whole, or of its words.
fn change<A: BitViewSized, O: BitOrder<A::Store>>(
    alloc: Global,
    text: &mut String,
    array: &mut BitArray<A, O>,
    call: &Call<'_>,
) -> Result<bool, AllocError> {
    let word = read_word::<A::Store>(call.second);
    match call.name {
        "not" => *array = !*array,
        "zero" => *array = BitArray::<A, O>::ZERO,
        "default" => *array = BitArray::<A, O>::default(),
        "inner" => *array = BitArray::<A, O>::from(array.into_inner()),
        "put" => put_word::<A::Store>(array.as_raw_mut_slice(), number(call.first), word),
        "with" => array.with_words(
            MayWriteBeside,
            |words| put_word::<A::Store>(words, number(call.first), word),
        ),
        "at" => {
            let at = number(call.first);
            if at >= array.len() {
                return Ok(false);
            }
            push_bit(text, Some(array[at]))?;
        }
        "raw" => push_words(text, array.as_raw_slice())?,
        "text" => push_texts(alloc, text, &*array)?,
        "iter" => push_turns(text, IntoIter::new(*array))?,
        "left" => push_left(text, IntoIter::new(*array))?,
        "each" => {
            for bit in &*array {
                push_ref(text, Some(bit))?;
            }
        }
        "by_value" => {
            for bit in *array {
                push_bit(text, Some(bit))?;
            }
        }
        _ => return Ok(false),
    }
    Ok(true)
}

// Writes the bits between the first and the last one, and what is given once these are flipped; a copy gives it too.
fn push_left<A: BitViewSized, O: BitOrder<A::Store>>(
    text: &mut String,
    bits: IntoIter<A, O>,
) -> Result<(), AllocError> {
    let mut bits = bits;
    push_bit(text, bits.next())?;
    push_bit(text, bits.next_back())?;
    push_list(text, &bits.as_slice())?;
    bits.as_mut_slice().invert();
    push_turns(text, bits.clone()?)?;
    push_turns(text, bits)
}
