//! What is written of lists, words and iterators.

use bit_addressing_sample_orders::texts;
use bit_containers::{BitRef, BitRegister, Bits};
use std::alloc::{AllocError, Global};
use std::fmt;

/// Writes the bits of a list.
pub fn push_list<V: Bits>(text: &mut String, list: &V) -> Result<(), AllocError> {
    text.push('[')?;
    for i in 0..list.len() {
        text.push(if list.bit(i) { '1' } else { '0' })?;
    }
    text.push(']')
}

/// Writes a bit, or that there is none.
pub fn push_bit(text: &mut String, bit: Option<bool>) -> Result<(), AllocError> {
    text.push(match bit {
        Some(true) => '1',
        Some(false) => '0',
        None => '-',
    })
}

/// The same of a bit of a window.
pub fn push_ref(text: &mut String, bit: Option<BitRef>) -> Result<(), AllocError> {
    match bit {
        Some(bit) => push_bit(text, Some(*bit)),
        None => push_bit(text, None),
    }
}

/// Writes a number, or that there is none.
pub fn push_number(
    alloc: Global,
    text: &mut String,
    number: Option<usize>,
) -> Result<(), AllocError> {
    match number {
        Some(number) => text.push_str(format!(in alloc; "{number},")?.as_str()),
        None => text.push_str("-,"),
    }
}

/// Writes words in hexadecimal, each with as many digits as it has.
pub fn push_words<R: BitRegister>(text: &mut String, words: &[R]) -> Result<(), AllocError> {
    texts::push_words(text, words)?;
    text.push(' ')
}

/// Writes the bits that an iterator gives, two from the front for each from the back, and what comes at its end.
pub fn push_turns<I: DoubleEndedIterator<Item = bool> + ExactSizeIterator>(
    text: &mut String,
    bits: I,
) -> Result<(), AllocError>
    requires next { (i : I) → I.can_next i }
    requires next_back { (i : I) → I.can_next_back i }
{
    let mut bits = bits;
    for k in 0..bits.len() {
        let left = bits.len();
        if bits.size_hint() != (left, Some(left)) {
            text.push('!')?;
        }
        let bit = if k % 3 == 2 {
            bits.next_back()
        } else {
            bits.next()
        };
        push_bit(text, bit)?;
    }
    push_bit(text, bits.next())?;
    push_bit(text, bits.next_back())
}

// What is written bit by bit, and in groups of three and of four: the holes of a format string take no other form.
#[derive(Drop)]
struct InGroups<'a, T>(&'a T);

impl<'a, T: fmt::Binary + fmt::Octal + fmt::LowerHex + fmt::UpperHex> fmt::Display
    for InGroups<'a, T> {
    fn fmt<W: fmt::Write>(&self, f: &mut fmt::Formatter<W>) -> fmt::Result {
        fmt::Binary::fmt(self.0, f)?;
        fmt::Octal::fmt(self.0, f)?;
        fmt::LowerHex::fmt(self.0, f)?;
        fmt::UpperHex::fmt(self.0, f)
    }
}

/// Writes the six texts of a list.
pub fn push_texts<
    V: fmt::Display + fmt::Debug + fmt::Binary + fmt::Octal + fmt::LowerHex + fmt::UpperHex,
>(alloc: Global, text: &mut String, list: &V) -> Result<(), AllocError> {
    let groups = InGroups(list);
    text.push_str(format!(in alloc; "{list}{list:?}{groups}")?.as_str())
}
