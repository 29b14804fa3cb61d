//! Spans and their domains, to read.

ghost use Rattle.std.specs.Prelude.{◌^◌, ◌<◌, length};
ghost use Rattle.bit_addressing.specs.Domain.{domain_numbers};

use crate::text::{next_number, push_bit, push_number, push_some};
use bit_addressing::{BitIdx, BitOrder, BitRegister, BitSpan, Domain, PartialElement};
use bit_addressing_sample_orders::texts::{push_word, push_words};
use std::alloc::{AllocError, Global};
use std::str::SplitWhitespace;

/// The span of so many bits from a place on, where it is one.
pub fn span_at<R: BitRegister, O: BitOrder<R>>(start: usize, len: usize) -> Option<BitSpan<R, O>> {
    let bits = R::BITS as usize;
    let head = BitIdx::<R>::new_unchecked((start % bits) as u8);
    BitSpan::<R, O>::new(start / bits, head, len).ok()
}

/// `span START LEN`: the span's own numbers, and in how many of one to eight words it fits; how its domain is cut, with each
/// part; and the domain's words from the front, from the back, and from both ends by turns.
pub fn span_case<R: BitRegister, O: BitOrder<R>>(
    alloc: Global,
    memory: &[R],
    mut args: SplitWhitespace<'_>,
) -> Result<String, AllocError> {
    let start = next_number(&mut args);
    let len = next_number(&mut args);
    let Some(span) = span_at::<R, O>(start, len) else {
        return "no span".to_string(alloc);
    };
    let mut text = String::new(alloc);
    let (word, head, count) = span.raw_parts();
    push_number(alloc, &mut text, span.elements(), ',')?;
    push_number(alloc, &mut text, span.tail().into_inner() as usize, ',')?;
    push_number(alloc, &mut text, word, ',')?;
    push_number(alloc, &mut text, head.into_inner() as usize, ',')?;
    push_number(alloc, &mut text, count, ' ')?;
    for words in 1..9usize {
        push_bit(&mut text, span.fits(words))?;
    }
    if !span.fits(memory.len()) {
        return Ok(text);
    }
    let domain = span.domain(memory);
    push_cut(alloc, &mut text, domain)?;
    if domain.is_counted() {
        push_front(&mut text, domain)?;
        push_back(&mut text, domain)?;
        push_turns(alloc, &mut text, domain)?;
    }
    Ok(text)
}

// Writes how a domain is cut.
fn push_cut<'a, R: BitRegister, O: BitOrder<R>>(
    alloc: Global,
    text: &mut String,
    domain: Domain<'a, R, O>,
) -> Result<(), AllocError> {
    if let Some(part) = domain.enclave() {
        text.push_str(" in")?;
        push_part(alloc, text, Some(part))?;
    }
    if let Some((head, body, tail)) = domain.region() {
        push_part(alloc, text, head)?;
        text.push('[')?;
        push_words(text, body)?;
        text.push(']')?;
        push_part(alloc, text, tail)?;
    }
    Ok(())
}

// Writes a part of a word: its value, its bounds twice, its mask, and its bits by word, index and number.
fn push_part<'a, R: BitRegister, O: BitOrder<R>>(
    alloc: Global,
    text: &mut String,
    part: Option<PartialElement<'a, R, O>>,
) -> Result<(), AllocError> {
    let Some(part) = part else {
        return text.push_str(" - ");
    };
    text.push(' ')?;
    push_word(text, part.load_value())?;
    let (head, tail) = part.bounds();
    for bound in [
        part.head().into_inner(),
        part.tail().into_inner(),
        head.into_inner(),
        tail.into_inner(),
    ] {
        text.push(',')?;
        push_number(alloc, text, bound as usize, ' ')?;
    }
    push_word(text, part.mask().into_inner())?;
    let (words, index, count) = part.into_bitslice();
    text.push('=')?;
    push_words(text, words)?;
    text.push(',')?;
    push_number(alloc, text, index.into_inner() as usize, ',')?;
    push_number(alloc, text, count, ' ')
}

// Writes the masked words from the front.
fn push_front<'a, R: BitRegister, O: BitOrder<R>>(
    text: &mut String,
    domain: Domain<'a, R, O>,
) -> Result<(), AllocError>
    requires { length (domain_numbers R.number O.masked domain) < 2 ^ 64 }
{
    for word in domain.words() {
        push_some(text, Some(word))?;
    }
    text.push(' ')?;
    for word in domain {
        push_some(text, Some(word))?;
    }
    text.push(' ')
}

// Writes them from the back.
fn push_back<'a, R: BitRegister, O: BitOrder<R>>(
    text: &mut String,
    domain: Domain<'a, R, O>,
) -> Result<(), AllocError>
    requires { length (domain_numbers R.number O.masked domain) < 2 ^ 64 }
{
    for word in domain.words().rev() {
        push_some(text, Some(word))?;
    }
    text.push(' ')
}

// Writes how many are left, and one from the front or the back by turns, until none is left, and twice what comes then.
fn push_turns<'a, R: BitRegister, O: BitOrder<R>>(
    alloc: Global,
    text: &mut String,
    domain: Domain<'a, R, O>,
) -> Result<(), AllocError>
    requires { length (domain_numbers R.number O.masked domain) < 2 ^ 64 }
{
    let mut words = domain.words();
    let held = words.len();
    for k in 0..held {
        push_number(alloc, text, words.len(), ':')?;
        let word = if k % 2 == 0 {
            words.next()
        } else {
            words.next_back()
        };
        push_some(text, word)?;
    }
    let (least, _) = words.size_hint();
    push_number(alloc, text, least, ':')?;
    push_some(text, words.next())?;
    push_some(text, words.next_back())?;
    push_some(text, words.next())
}
