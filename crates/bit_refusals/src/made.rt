//! Calls that make a vector of a list, of words, or of nothing.

use crate::given::Given;
use crate::shown::{begin, end, no_such_call, show, show_made, words_text};
use bit_table::containers::{BitOrder, BitStore, BitVec, Bits, BitsIter, SliceFault, ToBits};
use std::io;

/// A vector of nothing, or of the bits of a list.
pub fn make_case<T: BitStore, O: BitOrder<T>>(
    rt: &HostRuntime,
    given: &Given<'_, T>,
) -> io::Result<()> {
    let alloc = rt.alloc();
    let window = given.window::<O>();
    let others = given.others(alloc)?;
    if others.len() > 2000 {
        return no_such_call(rt);
    }
    show(rt, "before", &window)?;
    begin(rt)?;
    let outcome = match given.call {
        "with_capacity" => BitVec::<T, O>::with_capacity(alloc, 100),
        "repeat" => BitVec::repeat(alloc, true, 70),
        "from_bitslice" => BitVec::from_bitslice(alloc, window),
        "collect" => BitVec::collect(alloc, others.iter().by_vals()),
        _ => return no_such_call(rt),
    };
    end(rt, outcome.is_ok())?;
    show_made(rt, outcome.ok())
}

/// A vector of the bits of words.
pub fn make_of_words_case<T: BitStore, O: BitOrder<T>>(
    rt: &HostRuntime,
    given: &Given<'_, T>,
) -> io::Result<()> {
    let alloc = rt.alloc();
    let words = given.more_words(alloc)?;
    let bits = T::BITS as usize;
    if bits > 128 || words.len() < 2 || words.len().saturating_mul(bits) > 2000 {
        return no_such_call(rt);
    }
    begin(rt)?;
    let outcome = match given.call {
        "from_element" => BitVec::<T, O>::from_element(alloc, words[0]),
        "from_slice" => BitVec::from_slice(alloc, words.as_slice()),
        "from_array" => BitVec::from_array(alloc, &[words[0], words[1]]),
        "collect_elements" => BitVec::collect_elements(alloc, words.into_iter()),
        _ => return no_such_call(rt),
    };
    end(rt, outcome.is_ok())?;
    show_made(rt, outcome.ok())
}

/// `try_from_slice`, whose fault is want of memory here.
pub fn try_case<T: BitStore, O: BitOrder<T>>(
    rt: &HostRuntime,
    given: &Given<'_, T>,
) -> io::Result<()> {
    let alloc = rt.alloc();
    let words = given.more_words(alloc)?;
    begin(rt)?;
    let outcome = BitVec::<T, O>::try_from_slice(alloc, words.as_slice());
    end(rt, outcome.is_ok())?;
    if let Err(SliceFault::Span(_)) = &outcome {
        println!(rt; "too long")?;
    }
    show_made(rt, outcome.ok())
}

/// What a window makes of itself.
pub fn view_case<T: BitStore, O: BitOrder<T>>(
    rt: &HostRuntime,
    given: &Given<'_, T>,
) -> io::Result<()> {
    let alloc = rt.alloc();
    let window = given.window::<O>();
    if window.len() > 1000 {
        return no_such_call(rt);
    }
    show(rt, "before", &window)?;
    begin(rt)?;
    let outcome = match given.call {
        "to_bitvec" => window.to_bitvec(alloc),
        "to_vec" => window.to_vec(alloc),
        "repeat" => window.repeat(alloc, 3),
        _ => return no_such_call(rt),
    };
    end(rt, outcome.is_ok())?;
    let words = words_text(alloc, given.words.as_slice())?;
    println!(rt; "words {words}")?;
    show_made(rt, outcome.ok())
}
