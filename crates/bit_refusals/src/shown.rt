//! What is written around a call.

use bit_addressing_sample_orders::texts::push_words;
use bit_table::containers::{BitOrder, BitStore, BitVec, Bits, BitsMut};
use std::alloc::{AllocError, Global};
use std::io;
use std::io::Write;

/// Says that the call comes now.
pub fn begin(rt: &HostRuntime) -> io::Result<()> {
    rt.stdout().write_all(b"call\n")
}

/// Says what became of the call.
pub fn end(rt: &HostRuntime, done: bool) -> io::Result<()> {
    rt.stdout()
        .write_all(if done { b"done\n" } else { b"refused\n" })
}

/// Says that the call refuses what it was given, whatever the memory, and why.
pub fn decline(rt: &HostRuntime, cause: &str) -> io::Result<()> {
    println!(rt; "declined for {cause}")
}

/// Says that a call made nothing.
pub fn show_nothing(rt: &HostRuntime) -> io::Result<()> {
    println!(rt; "made nothing")
}

/// Says that a line names no call.
pub fn no_such_call(rt: &HostRuntime) -> io::Result<()> {
    println!(rt; "no such call")
}

/// Writes a list and its head behind a word.
pub fn show<V: Bits>(rt: &HostRuntime, word: &str, list: &V) -> io::Result<()> {
    let mut text = String::new(rt.alloc());
    push_list(&mut text, list)?;
    let head = list.as_bitslice().head().into_inner();
    println!(rt; "{word} {text} {head}")
}

/// Writes a vector and its visible words behind a word.
pub fn show_whole<T: BitStore, O: BitOrder<T>>(
    rt: &HostRuntime,
    word: &str,
    vector: &BitVec<T, O>,
) -> io::Result<()> {
    let mut text = String::new(rt.alloc());
    push_list(&mut text, vector)?;
    let head = vector.first_place();
    let words = words_text(rt.alloc(), vector.as_raw_slice())?;
    println!(rt; "{word} {text} {head} {words}")
}

/// Writes a vector after a call: its visible words too where the call was refused.
pub fn show_after<T: BitStore, O: BitOrder<T>>(
    rt: &HostRuntime,
    done: bool,
    vector: &BitVec<T, O>,
) -> io::Result<()> {
    if done {
        show(rt, "after", vector)
    } else {
        show_whole(rt, "after", vector)
    }
}

/// Writes what a call made, and nothing where it was refused.
pub fn show_made<V: Bits + Drop>(rt: &HostRuntime, made: Option<V>) -> io::Result<()> {
    match made {
        Some(made) => show(rt, "made", &made),
        None => show_nothing(rt),
    }
}

/// The text of words in hexadecimal.
pub fn words_text<T: BitStore>(alloc: Global, words: &[T]) -> Result<String, AllocError> {
    let mut text = String::new(alloc);
    push_words(&mut text, words)?;
    Ok(text)
}

/// Writes the bits of a list.
pub fn push_list<V: Bits>(text: &mut String, list: &V) -> Result<(), AllocError> {
    text.push('[')?;
    for i in 0..list.len() {
        text.push(if list.bit(i) { '1' } else { '0' })?;
    }
    text.push(']')
}
