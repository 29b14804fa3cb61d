//! The number texts of domains.

use crate::spans::span_at;
use crate::text::next_number;
use bit_addressing::{BitOrder, BitRegister, Domain, DomainMut};
use bit_addressing_sample_orders::texts::number;
use std::alloc::{AllocError, Global};
use std::fmt;
use std::str::SplitWhitespace;

/// `texts START LEN`: what the domain of a span is written as in binary, in octal, and in hexadecimal with small and with
/// capital letters; and its writable one. `texts none`: the same of the domains that no span has.
pub fn text_case<R: BitRegister, O: BitOrder<R>>(
    alloc: Global,
    memory: &mut [R],
    mut args: SplitWhitespace<'_>,
) -> Result<String, AllocError> {
    let mut text = String::new(alloc);
    let start = args.next().unwrap_or("");
    if start == "none" {
        push_texts(alloc, &mut text, &Domain::<R, O>::default())?;
        let none: DomainMut<R, O> = Default::default();
        push_texts(alloc, &mut text, &none)?;
        return Ok(text);
    }
    let Some(span) = span_at::<R, O>(number(start), next_number(&mut args)) else {
        return "no span".to_string(alloc);
    };
    if !span.fits(memory.len()) {
        return "no such span".to_string(alloc);
    }
    push_texts(alloc, &mut text, &span.domain(memory))?;
    push_texts(alloc, &mut text, &span.domain_mut(memory))?;
    Ok(text)
}

// Writes a domain in its four forms.
fn push_texts<T: fmt::Binary + fmt::Octal + fmt::LowerHex + fmt::UpperHex>(
    alloc: Global,
    text: &mut String,
    domain: &T,
) -> Result<(), AllocError> {
    let (in_binary, in_octal) = (InBinary(domain), InOctal(domain));
    let (in_lower, in_upper) = (InLowerHex(domain), InUpperHex(domain));
    let forms = format!(in alloc; "{in_binary} {in_octal} {in_lower} {in_upper} ")?;
    text.push_str(forms.as_str())
}

// What a domain writes in one of its four forms: the holes of a format string take integers alone.
#[derive(Drop)]
struct InBinary<'a, T>(&'a T);

impl<'a, T: fmt::Binary> fmt::Display for InBinary<'a, T> {
    fn fmt<W: fmt::Write>(&self, f: &mut fmt::Formatter<W>) -> fmt::Result {
        fmt::Binary::fmt(self.0, f)
    }
}

#[derive(Drop)]
struct InOctal<'a, T>(&'a T);

impl<'a, T: fmt::Octal> fmt::Display for InOctal<'a, T> {
    fn fmt<W: fmt::Write>(&self, f: &mut fmt::Formatter<W>) -> fmt::Result {
        fmt::Octal::fmt(self.0, f)
    }
}

#[derive(Drop)]
struct InLowerHex<'a, T>(&'a T);

impl<'a, T: fmt::LowerHex> fmt::Display for InLowerHex<'a, T> {
    fn fmt<W: fmt::Write>(&self, f: &mut fmt::Formatter<W>) -> fmt::Result {
        fmt::LowerHex::fmt(self.0, f)
    }
}

#[derive(Drop)]
struct InUpperHex<'a, T>(&'a T);

impl<'a, T: fmt::UpperHex> fmt::Display for InUpperHex<'a, T> {
    fn fmt<W: fmt::Write>(&self, f: &mut fmt::Formatter<W>) -> fmt::Result {
        fmt::UpperHex::fmt(self.0, f)
    }
}
