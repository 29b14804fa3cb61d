//! Calls that make a box, or an iterator of one.

use crate::given::Given;
use crate::shown::{
    begin, end, no_such_call, show, show_after, show_made, show_nothing, show_whole, words_text,
};
use bit_table::containers::{BitBox, BitOrder, BitStore, Bits, BitsIter, IntoBoxed};
use std::alloc::AllocError;
use std::io;

/// A box of a list, of words, or of a box.
pub fn box_case<T: BitStore, O: BitOrder<T>>(
    rt: &HostRuntime,
    given: &Given<'_, T>,
) -> io::Result<()> {
    let alloc = rt.alloc();
    let window = given.window::<O>();
    let boxed = BitBox::from_bitslice(alloc, window)?;
    let others = given.others(alloc)?;
    let words = given.more_words(alloc)?;
    if others.len() > 2000 || words.len() < 2 || T::BITS as usize > 128 {
        return no_such_call(rt);
    }
    show(rt, "before", &window)?;
    begin(rt)?;
    let outcome = match given.call {
        "from_bitslice" => BitBox::<T, O>::from_bitslice(alloc, window),
        "from_array" => BitBox::from_array(alloc, &[words[0], words[1]]),
        "collect" => BitBox::collect(alloc, others.iter().by_vals()),
        "clone" => boxed.clone(),
        _ => return no_such_call(rt),
    };
    end(rt, outcome.is_ok())?;
    show(rt, "after", &boxed)?;
    show_made(rt, outcome.ok())
}

/// A box of a word that lies in a box, which a refusal hands back.
pub fn word_box_case<T: BitStore, O: BitOrder<T>>(
    rt: &HostRuntime,
    given: &Given<'_, T>,
) -> io::Result<()> {
    let alloc = rt.alloc();
    let words = given.more_words(alloc)?;
    if words.is_empty() {
        return no_such_call(rt);
    }
    let word = Box::new(alloc, words[0])?;
    begin(rt)?;
    let outcome = BitBox::<T, O>::from_element_box(word);
    end(rt, outcome.is_ok())?;
    match outcome {
        Ok(made) => show(rt, "made", &made),
        Err(refused) => {
            let text = words_text(alloc, &[*refused.value])?;
            println!(rt; "back {text}")
        }
    }
}

/// A vector becomes a box, or a refusal hands it back.
pub fn into_box_case<T: BitStore, O: BitOrder<T>>(
    rt: &HostRuntime,
    given: &Given<'_, T>,
) -> io::Result<()> {
    let vector = given.vector::<O>(rt.alloc())?;
    show_whole(rt, "before", &vector)?;
    begin(rt)?;
    let outcome = match given.call {
        "into_boxed_bitslice" => vector.into_boxed_bitslice(),
        "into_boxed_slice" => vector.into_boxed_slice(),
        _ => BitBox::from_vec(vector),
    };
    end(rt, outcome.is_ok())?;
    match outcome {
        Ok(made) => show(rt, "made", &made),
        Err(refused) => show_whole(rt, "back", &refused.value),
    }
}

/// A vector or a box becomes an iterator, which is copied once two of its bits are read.
pub fn iter_case<T: BitStore, O: BitOrder<T>>(
    rt: &HostRuntime,
    given: &Given<'_, T>,
) -> io::Result<()> {
    let vector = given.vector::<O>(rt.alloc())?;
    show_whole(rt, "before", &vector)?;
    if given.call == "into_iter" {
        begin(rt)?;
        let outcome = vector.into_iter();
        end(rt, outcome.is_ok())?;
        return match outcome {
            Ok(made) => show(rt, "made", &made.as_bitslice()),
            Err(refused) => show_after(rt, false, &refused.value),
        };
    }
    let boxed = vector.into_boxed_bitslice().map_err(AllocError::from)?;
    let mut iter = boxed.into_iter();
    let _ = iter.next();
    let _ = iter.next_back();
    begin(rt)?;
    let outcome = iter.clone();
    end(rt, outcome.is_ok())?;
    show(rt, "after", &iter.as_bitslice())?;
    match outcome {
        Ok(made) => show(rt, "made", &made.as_bitslice()),
        Err(_) => show_nothing(rt),
    }
}
