//! Calls that put another vector in the place of one.

use crate::call::Call;
use crate::shown::{push_turns, push_words};
use bit_addressing_sample_orders::texts::{number, read_words};
use bit_containers::{BitOrder, BitStore, BitVec, IntoBoxed};
use std::alloc::{AllocError, Global};

/// Makes a vector of words or of one bit, and says whether it could be made.
pub fn make<T: BitStore, O: BitOrder<T>>(
    alloc: Global,
    vector: &mut BitVec<T, O>,
    call: &Call<'_>,
) -> Result<bool, AllocError> {
    let len = number(call.first);
    let words = read_words::<T>(alloc, call.first)?;
    if words.len().saturating_mul(T::BITS as usize) > 1000 {
        return Ok(false);
    }
    *vector = match call.name {
        "new" => BitVec::new(alloc),
        "with_capacity" if len <= 2000 => BitVec::with_capacity(alloc, len)?,
        "repeat" if len <= 2000 => BitVec::repeat(alloc, call.second == "1", len)?,
        "from_vec" => BitVec::from_vec(words),
        "from_place" => return place(vector, words, number(call.second), number(call.third)),
        "try_from_vec" => match BitVec::try_from(words) {
            Ok(made) => made,
            Err(_) => return Ok(false),
        },
        "from_slice" => BitVec::from_slice(alloc, words.as_slice())?,
        "try_from_slice" => match BitVec::try_from_slice(alloc, words.as_slice()) {
            Ok(made) => made,
            Err(_) => return Ok(false),
        },
        "from_element" if words.len() == 1 => BitVec::from_element(alloc, words[0])?,
        "from_array" if words.len() == 1 => BitVec::from_array(alloc, &[words[0]])?,
        "from_array" if words.len() == 2 => BitVec::from_array(alloc, &[words[0], words[1]])?,
        "collect_elements" => BitVec::collect_elements(alloc, words.into_iter())?,
        _ => return Ok(false),
    };
    Ok(true)
}

/// Makes a vector of the old one, or takes it apart, and says whether it could be made.
pub fn remake<T: BitStore, O: BitOrder<T>>(
    alloc: Global,
    text: &mut String,
    vector: &mut BitVec<T, O>,
    call: &Call<'_>,
) -> Result<bool, AllocError> {
    let whole = std::mem::replace(vector, BitVec::new(alloc));
    match call.name {
        "not" => *vector = !whole,
        "clone" => *vector = whole.clone()?,
        "boxed" => {
            let boxed = whole.into_boxed_slice().map_err(AllocError::from)?;
            *vector = boxed.into_bitvec();
        }
        "iter" => push_turns(text, whole.into_iter().map_err(AllocError::from)?)?,
        "given" => push_words(text, Vec::from(whole).as_slice())?,
        "held" => push_words(text, whole.into_words().as_slice())?,
        _ => {
            *vector = whole;
            return Ok(false);
        }
    }
    Ok(true)
}

// Makes a vector of some bits of words, and says whether these have them.
fn place<T: BitStore, O: BitOrder<T>>(
    vector: &mut BitVec<T, O>,
    words: Vec<T>,
    head: usize,
    len: usize,
) -> Result<bool, AllocError> {
    let most = words.len().saturating_mul(T::BITS as usize);
    if head >= T::BITS as usize || len > 2000 || head + len > most {
        return Ok(false);
    }
    *vector = BitVec::from_place(words, head, len);
    Ok(true)
}
