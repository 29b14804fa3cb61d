//! One command, carried out at one span of a memory.
//!
//! Each command has a function of its own, which tests the command's numbers before it touches a bit.

ghost use Rattle.std.specs.Prelude.{◌≡◌, ℕ, ◌+◌, ◌*◌, ◌^◌, ◌<◌, ◌≤◌, length, pos, ◌≤ℤ◌};
ghost use Rattle.bit_addressing_memory.specs.Memory.{read_by};
ghost use Rattle.bit_addressing.specs.Pointer.{memory_place, LiesIn};
ghost use Rattle.bit_addressing_span.specs.Span.{span_place, FitsIn};
ghost use Rattle.bit_addressing.specs.Runs.{CarriesOut};
ghost use Rattle.bit_addressing.specs.WordEdits.{word_command};

use crate::command::{SpanCommand, SpanReply};
use crate::pointer::BitPtr;
use bit_addressing_order::{BitIdx, BitOrder, BitRegister};
use bit_addressing_span::BitSpan;

// What becomes of the bits of a word.
#[derive(Clone, Copy)]
enum WordEdit<R> {
    Value(R),
    Ones,
    Zeros,
    Inverted,
}

/// Carries one command out at one span of the memory. The span fits.
pub(crate) fn run_one<R: BitRegister, O: BitOrder<R>>(
    memory: &mut [R],
    span: BitSpan<R, O>,
    command: SpanCommand<R>,
) -> SpanReply<R>
    requires fits { FitsIn R.BITS span (length memory.old) }
    ensures carried { CarriesOut (read_by R.BitRegister O.position) memory.old memory.new span command result }
{
    match command {
        SpanCommand::Load(k) => load(memory, span, k),
        SpanCommand::Store(k, word) => write_word(memory, span, k, WordEdit::Value(word)),
        SpanCommand::Set(k) => write_word(memory, span, k, WordEdit::Ones),
        SpanCommand::Clear(k) => write_word(memory, span, k, WordEdit::Zeros),
        SpanCommand::Invert(k) => write_word(memory, span, k, WordEdit::Inverted),
        SpanCommand::Read(i) => read(memory, span, i),
        SpanCommand::Replace(i, bit) => replace(memory, span, i, bit),
        SpanCommand::Swap(i, j) => swap(memory, span, i, j),
        SpanCommand::Copy(from, to, count) => copy(memory, span, from, to, count),
    }
}

// Words.

// Reads a word.
fn load<R: BitRegister, O: BitOrder<R>>(memory: &[R], span: BitSpan<R, O>, k: usize) -> SpanReply<R>
    requires fits { FitsIn R.BITS span (length memory.now) }
    ensures carried { CarriesOut (read_by R.BitRegister O.position) memory.now memory.now span
        (SpanCommand.Load k) result }
{
    // (the type's invariant is known once a part of it is read)
    let (_, _, _) = span.raw_parts();
    if k >= span.elements() {
        return SpanReply::Refused;
    }
    SpanReply::Word(span.load_value(memory, k))
}

// Writes the bits of a word.
fn write_word<R: BitRegister, O: BitOrder<R>>(
    memory: &mut [R],
    span: BitSpan<R, O>,
    k: usize,
    edit: WordEdit<R>,
) -> SpanReply<R>
    requires fits { FitsIn R.BITS span (length memory.old) }
    ensures carried { CarriesOut (read_by R.BitRegister O.position) memory.old memory.new span
        (word_command k edit) result }
{
    let mut words = span.domain_mut(memory);
    if k >= words.len() {
        return SpanReply::Refused;
    }
    SpanReply::Word(match edit {
        WordEdit::Value(word) => words.store_value(k, word),
        WordEdit::Ones => words.set(k),
        WordEdit::Zeros => words.clear(k),
        WordEdit::Inverted => words.invert(k),
    })
}

// Bits.

// Reads a bit.
fn read<R: BitRegister, O: BitOrder<R>>(memory: &[R], span: BitSpan<R, O>, i: usize) -> SpanReply<R>
    requires fits { FitsIn R.BITS span (length memory.now) }
    ensures carried { CarriesOut (read_by R.BitRegister O.position) memory.now memory.now span
        (SpanCommand.Read i) result }
{
    let (_, _, len) = span.raw_parts();
    if i >= len {
        return SpanReply::Refused;
    }
    SpanReply::Bit(bit_at::<R, O>(span, i).read(memory))
}

// Writes a bit.
fn replace<R: BitRegister, O: BitOrder<R>>(
    memory: &mut [R],
    span: BitSpan<R, O>,
    i: usize,
    bit: bool,
) -> SpanReply<R>
    requires fits { FitsIn R.BITS span (length memory.old) }
    ensures carried { CarriesOut (read_by R.BitRegister O.position) memory.old memory.new span
        (SpanCommand.Replace i bit) result }
{
    let (_, _, len) = span.raw_parts();
    if i >= len {
        return SpanReply::Refused;
    }
    SpanReply::Bit(bit_at::<R, O>(span, i).replace(memory, bit))
}

// Exchanges two bits.
fn swap<R: BitRegister, O: BitOrder<R>>(
    memory: &mut [R],
    span: BitSpan<R, O>,
    i: usize,
    j: usize,
) -> SpanReply<R>
    requires fits { FitsIn R.BITS span (length memory.old) }
    ensures carried { CarriesOut (read_by R.BitRegister O.position) memory.old memory.new span
        (SpanCommand.Swap i j) result }
{
    let (_, _, len) = span.raw_parts();
    if i >= len || j >= len {
        return SpanReply::Refused;
    }
    let other = bit_at::<R, O>(span, j);
    bit_at::<R, O>(span, i).swap_within(memory, other);
    SpanReply::Done
}

// Copies bits.
fn copy<R: BitRegister, O: BitOrder<R>>(
    memory: &mut [R],
    span: BitSpan<R, O>,
    from: usize,
    to: usize,
    count: usize,
) -> SpanReply<R>
    requires fits { FitsIn R.BITS span (length memory.old) }
    ensures carried { CarriesOut (read_by R.BitRegister O.position) memory.old memory.new span
        (SpanCommand.Copy from to count) result }
{
    let (_, _, len) = span.raw_parts();
    if count > len || from > len - count || to > len - count {
        return SpanReply::Refused;
    }
    // A span without bits may begin past the memory, where nothing can be pointed to.
    if count == 0 {
        return SpanReply::Done;
    }
    let target = bit_at::<R, O>(span, to);
    bit_at::<R, O>(span, from).copy_within(memory, target, count);
    SpanReply::Done
}

// The pointer to bit `i` of a span.
fn bit_at<R: BitRegister, O: BitOrder<R>>(span: BitSpan<R, O>, i: usize) -> BitPtr<R, O>
    requires { i < span.len }
    ensures place { memory_place R.BITS result ≡ span_place R.BITS span + i }
    ensures lies { (n words : ℕ) → FitsIn R.BITS span words → 0 < n → i + n ≤ span.len
        → LiesIn R.BITS result n words }
{
    let (word, head, _len) = span.raw_parts();
    bit_from(word, head, i)
}

// The pointer to the bit `i` bits on from index `head` of a word.
fn bit_from<R: BitRegister, O: BitOrder<R>>(word: usize, head: BitIdx<R>, i: usize) -> BitPtr<R, O>
    requires { word * R.BITS + head + i < 2 ^ 63 * R.BITS }
    ensures word { pos 0 ≤ℤ result.word }
    ensures place { memory_place R.BITS result ≡ word * R.BITS + head + i }
{
    BitPtr::new(word as isize, head).add(i)
}
