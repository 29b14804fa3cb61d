//! Words of a span, written.

use crate::spans::span_at;
use crate::text::{next_number, push_bit, push_number};
use bit_addressing::{BitOrder, BitRegister, DomainMut};
use bit_addressing_sample_orders::texts::{push_word, push_words, read_words};
use std::alloc::{AllocError, Global};
use std::str::SplitWhitespace;

/// `act NAME START LEN VALUES`: what the writable domain of a span says of itself; what each of its words answers to the
/// call of this name, with one of the values; and the memory then.
pub fn act_case<R: BitRegister, O: BitOrder<R>>(
    alloc: Global,
    memory: &mut [R],
    mut args: SplitWhitespace<'_>,
) -> Result<String, AllocError> {
    let name = args.next().unwrap_or("");
    let start = next_number(&mut args);
    let len = next_number(&mut args);
    let values = read_words::<R>(alloc, args.next().unwrap_or(""))?;
    let Some(span) = span_at::<R, O>(start, len) else {
        return "no span".to_string(alloc);
    };
    if !span.fits(memory.len()) {
        return "no such span".to_string(alloc);
    }
    let mut text = String::new(alloc);
    {
        let mut domain = span.domain_mut(memory);
        push_domain(alloc, &mut text, &domain)?;
        for k in 0..values.len() {
            if k < domain.len() {
                push_word(&mut text, act(&mut domain, k, name, values[k]))?;
                text.push(',')?;
            }
        }
    }
    text.push(' ')?;
    push_words(&mut text, memory)?;
    Ok(text)
}

// Writes how many words a domain has, whether it has none and is an enclave, and the bounds in each.
fn push_domain<'a, R: BitRegister, O: BitOrder<R>>(
    alloc: Global,
    text: &mut String,
    domain: &DomainMut<'a, R, O>,
) -> Result<(), AllocError> {
    push_number(alloc, text, domain.len(), ',')?;
    push_bit(text, domain.is_empty())?;
    push_bit(text, domain.is_enclave())?;
    text.push(' ')?;
    for k in 0..domain.len() {
        let (head, tail) = domain.bounds(k);
        push_number(alloc, text, head.into_inner() as usize, '-')?;
        push_number(alloc, text, tail.into_inner() as usize, ' ')?;
    }
    Ok(())
}

// Makes the call at one word, and answers what it answers.
fn act<'a, R: BitRegister, O: BitOrder<R>>(
    domain: &mut DomainMut<'a, R, O>,
    k: usize,
    name: &str,
    value: R,
) -> R {
    if k >= domain.len() {
        return value;
    }
    match name {
        "store" => domain.store_value(k, value),
        "invert" => domain.invert(k),
        "clear" => domain.clear(k),
        "set" => domain.set(k),
        _ => domain.load_value(k),
    }
}
