//! Field words, read without memory.
ghost use Rattle.std.specs.Prelude.{◌≡◌, ◌&&◌, IsTrue, IfSome};
ghost use Rattle.std.specs.List.{list_all};
ghost use Rattle.bit_table_layout.specs.Fields.{is_field, is_name, is_name_byte, is_width};
ghost use Rattle.bit_table_layout.specs.Fields.{field_of, name_part, kind_part};
ghost use Rattle.bit_table_layout.specs.Steps.{name_number};

use super::numerals::{is_number, number_up_to};
use std::marker::Model;

// The field that a word spells, while its name still lies in the line.
#[derive(Drop)]
pub(crate) struct FieldWord<'a> {
    name: &'a [u8],
    width: u32,
    signed: bool,
}

impl<'a> Model for FieldWord<'a> {
    ghost use Rattle.bit_table_layout.specs.Fields.{FieldShape};

    ghost Value = { FieldShape };

    ghost view = { λ f. record { name = f.name.now; width = f.width; signed = f.signed } };
}

impl<'a> FieldWord<'a> {
    // The field that a word spells as `name:uN` or `name:iN`, where it spells one.
    pub(crate) fn parse(word: &'a [u8]) -> Option<FieldWord<'a>>
        ensures value { result ≡ field_of word.now }
        ensures lawful { IfSome result (λ field. IsTrue (is_field field)) }
    {
        let (name, kind) = parts(word);
        let (sign, digits) = kind.split_first()?;
        if is_name(name) && (*sign == b'u' || *sign == b'i') && is_width(digits) {
            Some(FieldWord {
                name,
                width: number_up_to(digits, 64) as u32,
                signed: *sign == b'i',
            })
        } else {
            None
        }
    }

    // The name.
    pub(crate) fn name(&self) -> &'a [u8]
        ensures { result.now ≡ self.now.name }
    {
        self.name
    }

    // How many bits a number of the field has.
    pub(crate) fn width(&self) -> u32
        ensures { result ≡ self.now.width }
    {
        self.width
    }

    // Whether the numbers have a sign.
    pub(crate) fn signed(&self) -> bool
        ensures { result ≡ self.now.signed }
    {
        self.signed
    }
}

// A field word's part before its first colon and the part behind it, which has no byte where there is no colon.
pub(crate) fn parts(word: &[u8]) -> (&[u8], &[u8])
    ensures name { result.0.now ≡ name_part word.now }
    ensures kind { result.1.now ≡ kind_part word.now }
{
    match word.iter().position(|byte| *byte == b':') {
        Some(colon) => (&word[..colon], &word[colon + 1..]),
        None => (word, &[]),
    }
}

/// Whether a word is a name: 1 to 16 bytes, a letter `a` to `z` followed by `a` to `z`, `0` to `9` or `_`.
pub fn is_name(word: &[u8]) -> bool
    ensures { result ≡ is_name word.now }
{
    !word.is_empty() && word.len() <= 16 && word[0].is_ascii_lowercase() && are_name_bytes(word)
}

// A name as a number: its bytes are the digits to the base 256, the first of them the lowest.
pub(crate) fn name_number(name: &[u8]) -> u128
    requires { IsTrue (is_name name.now) }
    ensures { result ≡ name_number name.now }
{
    let mut number = 0u128;
    for place in 0..name.len() {
        let byte = name[name.len() - 1 - place];
        number = 256 * number + u128::from(byte);
    }
    number
}

// Whether a name may have each of the bytes behind its first.
fn are_name_bytes(bytes: &[u8]) -> bool
    ensures { result ≡ list_all is_name_byte bytes.now }
{
    bytes.iter().all(|byte| is_name_byte(*byte))
}

// Whether a name may have a byte behind its first.
fn is_name_byte(byte: u8) -> bool
    ensures { result ≡ is_name_byte byte }
{
    byte.is_ascii_lowercase() || byte.is_ascii_digit() || byte == b'_'
}

// Whether digits spell a width.
fn is_width(digits: &[u8]) -> bool
    ensures { result ≡ is_width digits.now }
{
    is_number(digits) && digits[0] != b'0' && number_up_to(digits, 65) <= 64
}
