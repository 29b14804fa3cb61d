//! A part of one word, read and written.

ghost use Rattle.std.specs.Prelude.{◌≡◌, ◌<◌, ◌≤◌, length};

use crate::text::{next_number, push_number};
use bit_addressing::{BitEnd, BitIdx, BitOrder, BitRegister, PartialElementMut};
use bit_addressing_sample_orders::texts::{push_word, read_words};
use std::alloc::{AllocError, Global};
use std::str::SplitWhitespace;

/// `part NAME FROM UPTO VALUE`: what a part of the memory's only word says of itself; what it answers to the call of this
/// name, and the word then; and where the part's bits lie, and the word once the value is written there whole.
pub fn part_case<R: BitRegister, O: BitOrder<R>>(
    alloc: Global,
    memory: &mut [R],
    mut args: SplitWhitespace<'_>,
) -> Result<String, AllocError> {
    let name = args.next().unwrap_or("");
    let from = next_number(&mut args);
    let upto = next_number(&mut args);
    let values = read_words::<R>(alloc, args.next().unwrap_or(""))?;
    if memory.len() != 1 || values.len() != 1 || from > upto || upto > R::BITS as usize {
        return "no such part".to_string(alloc);
    }
    if from >= R::BITS as usize {
        return "no such part".to_string(alloc);
    }
    let mut text = String::new(alloc);
    write_part::<R, O>(
        alloc, &mut text, memory, from as u8, upto as u8, name, values[0],
    )?;
    push_word(&mut text, memory[0])?;
    text.push(' ')?;
    give_part::<R, O>(alloc, &mut text, memory, from as u8, upto as u8, values[0])?;
    push_word(&mut text, memory[0])?;
    Ok(text)
}

// Writes what a part says of itself, and what it answers to a call.
fn write_part<R: BitRegister, O: BitOrder<R>>(
    alloc: Global,
    text: &mut String,
    words: &mut [R],
    from: u8,
    upto: u8,
    name: &str,
    value: R,
) -> Result<(), AllocError>
    requires single { length words.old ≡ 1 }
    requires from { from < R.BITS }
    requires upto { upto ≤ R.BITS }
    requires ordered { from ≤ upto }
    ensures { length words.new ≡ 1 }
{
    let (head, tail) = (BitIdx::new_unchecked(from), BitEnd::new_unchecked(upto));
    let mut part = PartialElementMut::<R, O>::new(words, head, tail);
    let (head, tail) = part.bounds();
    push_number(alloc, text, part.head().into_inner() as usize, ',')?;
    push_number(alloc, text, part.tail().into_inner() as usize, ',')?;
    push_number(alloc, text, head.into_inner() as usize, ',')?;
    push_number(alloc, text, tail.into_inner() as usize, ' ')?;
    push_word(text, part.mask().into_inner())?;
    text.push(',')?;
    push_word(text, part.load_value())?;
    text.push(',')?;
    let answer = match name {
        "store" => part.store_value(value),
        "invert" => part.invert(),
        "clear" => part.clear(),
        _ => part.set(),
    };
    push_word(text, answer)?;
    text.push(' ')
}

// Writes where a part's bits lie, and writes the word whole.
fn give_part<R: BitRegister, O: BitOrder<R>>(
    alloc: Global,
    text: &mut String,
    words: &mut [R],
    from: u8,
    upto: u8,
    value: R,
) -> Result<(), AllocError>
    requires single { length words.old ≡ 1 }
    requires from { from < R.BITS }
    requires upto { upto ≤ R.BITS }
    requires ordered { from ≤ upto }
    ensures { length words.new ≡ 1 }
{
    let (head, tail) = (BitIdx::new_unchecked(from), BitEnd::new_unchecked(upto));
    let part = PartialElementMut::<R, O>::new(words, head, tail);
    let (lent, index, count) = part.into_bitslice();
    push_number(alloc, text, index.into_inner() as usize, ',')?;
    push_number(alloc, text, count, ' ')?;
    lent[0] = value;
    Ok(())
}
