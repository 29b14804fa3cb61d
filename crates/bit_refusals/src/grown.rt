//! Calls that make a vector longer, or give it room.

use crate::given::Given;
use crate::shown::{begin, end, no_such_call, show_after, show_whole};
use bit_table::containers::{BitOrder, BitStore, BitVec, Bits, BitsIter, IntoBoxed};
use std::alloc::AllocError;
use std::io;

// More bits than a list has in these cases.
const MOST: usize = 2000;

/// A call that answers nothing but whether there was memory.
pub fn grow_case<T: BitStore, O: BitOrder<T>>(
    rt: &HostRuntime,
    given: &Given<'_, T>,
) -> io::Result<()> {
    let mut vector = given.vector::<O>(rt.alloc())?;
    let others = given.others(rt.alloc())?;
    let len = vector.len();
    let half = len / 2;
    if len > MOST || others.len() > MOST || half > len {
        return no_such_call(rt);
    }
    show_whole(rt, "before", &vector)?;
    let room = vector.capacity();
    begin(rt)?;
    let outcome = match given.call {
        "reserve" => vector.reserve(500),
        "reserve_exact" => vector.reserve_exact(500),
        "shrink_to_fit" => vector.shrink_to_fit(),
        "resize" => vector.resize(len + 300, true),
        "push" => vector.push(true),
        "insert" => vector.insert(half, true),
        "extend_from_bitslice" => vector.extend_from_bitslice(&others),
        "extend_from_slice" => vector.extend_from_slice(&others),
        "extend_from_within" => vector.extend_from_within(..),
        "extend" => vector.extend(others.iter().by_vals()),
        _ => return no_such_call(rt),
    };
    end(rt, outcome.is_ok())?;
    show_after(rt, outcome.is_ok(), &vector)?;
    if given.call == "shrink_to_fit" && outcome.is_ok() {
        return Ok(());
    }
    show_room(rt, &vector, room)
}

/// `finish` of a splice, which puts other bits in the place of some.
pub fn finish_case<T: BitStore, O: BitOrder<T>>(
    rt: &HostRuntime,
    given: &Given<'_, T>,
) -> io::Result<()> {
    let mut vector = given.vector::<O>(rt.alloc())?;
    let others = given.others(rt.alloc())?;
    let items = others.into_boxed_bitslice().map_err(AllocError::from)?;
    let (third, half) = (vector.len() / 3, vector.len() / 2);
    if vector.len() > MOST || items.len() > MOST || third > half || half > vector.len() {
        return no_such_call(rt);
    }
    show_whole(rt, "before", &vector)?;
    let room = vector.capacity();
    begin(rt)?;
    let gone = vector.splice(third..half, items.into_iter());
    let outcome = gone.finish();
    end(rt, outcome.is_ok())?;
    show_after(rt, outcome.is_ok(), &vector)?;
    show_room(rt, &vector, room)
}

/// A call that adds the bits of words.
pub fn grow_by_words_case<T: BitStore, O: BitOrder<T>>(
    rt: &HostRuntime,
    given: &Given<'_, T>,
) -> io::Result<()> {
    let mut vector = given.vector::<O>(rt.alloc())?;
    let words = given.more_words(rt.alloc())?;
    if vector.len() > MOST || words.len().saturating_mul(T::BITS as usize) > MOST {
        return no_such_call(rt);
    }
    show_whole(rt, "before", &vector)?;
    let room = vector.capacity();
    begin(rt)?;
    let outcome = match given.call {
        "extend_from_raw_slice" => vector.extend_from_raw_slice(words.as_slice()),
        "extend_elements" => vector.extend_elements(words.into_iter()),
        _ => return no_such_call(rt),
    };
    end(rt, outcome.is_ok())?;
    show_after(rt, outcome.is_ok(), &vector)?;
    show_room(rt, &vector, room)
}

/// `append`, which empties the other list.
pub fn append_case<T: BitStore, O: BitOrder<T>>(
    rt: &HostRuntime,
    given: &Given<'_, T>,
) -> io::Result<()> {
    let mut vector = given.vector::<O>(rt.alloc())?;
    let mut others = given.others(rt.alloc())?;
    if vector.len() > MOST || others.len() > MOST {
        return no_such_call(rt);
    }
    show_whole(rt, "before", &vector)?;
    show_whole(rt, "other", &others)?;
    let room = vector.capacity();
    begin(rt)?;
    let outcome = vector.append(&mut others);
    end(rt, outcome.is_ok())?;
    show_after(rt, outcome.is_ok(), &vector)?;
    show_room(rt, &vector, room)?;
    show_whole(rt, "other", &others)
}

/// `resize_with`, with a closure that counts how often it is called: ones at indices that three divides.
pub fn resize_case<T: BitStore, O: BitOrder<T>>(
    rt: &HostRuntime,
    given: &Given<'_, T>,
) -> io::Result<()> {
    let mut vector = given.vector::<O>(rt.alloc())?;
    if vector.len() > MOST {
        return no_such_call(rt);
    }
    show_whole(rt, "before", &vector)?;
    let room = vector.capacity();
    let len = vector.len() + 300;
    let mut calls = 0usize;
    begin(rt)?;
    let outcome = vector.resize_with(len, |index| {
        calls = calls.wrapping_add(1);
        index % 3 == 0
    });
    end(rt, outcome.is_ok())?;
    show_after(rt, outcome.is_ok(), &vector)?;
    show_room(rt, &vector, room)?;
    println!(rt; "asked {calls}")
}

// Whether a vector has as much room as before.
fn show_room<T: BitStore, O: BitOrder<T>>(
    rt: &HostRuntime,
    vector: &BitVec<T, O>,
    room: usize,
) -> io::Result<()> {
    let word = if vector.capacity() >= room {
        "no less"
    } else {
        "less"
    };
    println!(rt; "room {word}")
}
