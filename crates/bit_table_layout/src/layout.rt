//! Layouts.
ghost use Rattle.std.specs.Prelude.{◌≡◌, ◌↔◌, ◌++◌, IfOk, IsErrOf, IsSome, Some, None};
ghost use Rattle.bit_table_layout.specs.Layouts.{rule_of, fields_of};
ghost use Rattle.bit_table_layout.specs.LineWordsLeft.{words_left};
ghost use Rattle.bit_table_layout.specs.Steps.{words_fit};

use super::field::Field;
use super::field_word::{FieldWord, name_number};
use super::line_words::Words;
use std::alloc::{AllocError, Global};
use std::marker::Model;
use thiserror::Error;

/// The greatest number of bits that a table has.
pub const MAX_BITS: usize = 2_305_843_009_213_693_951;

const _: () = prove!(MAX_BITS == usize::MAX >> 3);

/// The greatest number of bits that a row has.
pub const MAX_ROW_BITS: usize = 1_024;

const _: () = prove!(MAX_ROW_BITS == 16 * 64);

/// In which order a field's digits lie.
#[derive(Clone, Copy, Debug, PartialEq, Eq)]
pub enum Rule {
    /// The lowest digit first.
    Low,
    /// The highest digit first.
    High,
}

/// Why there is no layout.
#[derive(Clone, Copy, Debug, PartialEq, Eq, Error)]
pub enum LayoutError {
    /// The line is no layout line.
    #[error("no layout line")]
    Refused,
    /// No memory was found.
    #[error("no memory")]
    Memory,
}

/// The layout of a row: a digit rule and the fields in order.
#[derive(Debug, Drop)]
pub struct Layout {
    rule: Rule,
    fields: Vec<Field>,
}

impl Model for Layout {
    ghost use Rattle.std.specs.Prelude.{IsTrue};
    ghost use Rattle.bit_table_layout.specs.Layouts.{LayoutShape, make_layout};

    ghost Value = { LayoutShape };

    ghost view = { λ l. record { rule = l.rule; fields = l.fields.items } };

    ghost invariant = { λ l. IsTrue (make_layout l.fields.items) };
}

impl Layout {
    ghost use Rattle.bit_table_layout.specs.Layouts.{row_width, is_layout, layout_of};
    ghost use Rattle.std.specs.Prelude.{IsTrue};

    /// Reads a layout line: the word `low` or `high`, then one or more words `name:uN` or `name:iN`.
    ///
    /// Words stand apart by spaces, tabs and carriage returns; every other byte belongs to a word, a line feed too.
    /// A name has 1 to 16 bytes, a letter `a` to `z` followed by `a` to `z`, `0` to `9` or `_`, and no two fields
    /// have one name. N is 1 to 64 in decimal without a leading zero, and all N together are at most
    /// `MAX_ROW_BITS`.
    ///
    /// Any other line is `LayoutError::Refused`, which is decided before memory is taken. `LayoutError::Memory` says
    /// that the line is a layout line, and that there was no memory for its fields.
    pub fn parse(alloc: Global, line: &[u8]) -> Result<Layout, LayoutError>
        ensures ok { IfOk result (λ layout. layout_of line.now ≡ Some layout) }
        ensures refused { IsErrOf result LayoutError.Refused ↔ (layout_of line.now ≡ None) }
    {
        let mut words = Words::new(line);
        let Some(first) = words.next() else {
            return Err(LayoutError::Refused);
        };
        let Some(rule) = rule_of(first) else {
            return Err(LayoutError::Refused);
        };
        if !spell_fields(words) {
            return Err(LayoutError::Refused);
        }
        let Ok(fields) = fields_of(alloc, words) else {
            return Err(LayoutError::Memory);
        };
        Ok(Layout { rule, fields })
    }

    /// The fields in order.
    pub fn fields(&self) -> &[Field]
        ensures fields { result.now ≡ self.now.fields }
        ensures lawful { IsTrue (is_layout self.now) }
    {
        self.fields.as_slice()
    }

    /// How many bits a row has: 1 to `MAX_ROW_BITS`.
    pub fn row_bits(&self) -> usize
        ensures bits { result ≡ row_width self.now.fields }
        ensures lawful { IsTrue (is_layout self.now) }
    {
        self.fields.iter().map(|field| field.width() as usize).sum()
    }

    /// The digit rule.
    pub fn rule(&self) -> Rule
        ensures { result ≡ self.now.rule }
    {
        self.rule
    }
}

// The digit rule that a word names.
fn rule_of(word: &[u8]) -> Option<Rule>
    ensures { result ≡ rule_of word.now }
{
    if word == b"low".as_slice() {
        Some(Rule::Low)
    } else if word == b"high".as_slice() {
        Some(Rule::High)
    } else {
        None
    }
}

// Whether the words that are left spell the fields of a layout. It stops at the first fault.
#[inline(never)]
fn spell_fields(mut words: Words) -> bool
    ensures { result ≡ words_fit 0 (words_left words.entry) }
{
    let mut numbers = [0u128; MAX_ROW_BITS];
    let mut count = 0;
    let mut width = 0;
    while let Some(word) = words.next() {
        let Some(field) = FieldWord::parse(word) else {
            return false;
        };
        width += field.width() as usize;
        if width > MAX_ROW_BITS {
            return false;
        }
        let number = name_number(field.name());
        if numbers[..count].contains(&number) {
            return false;
        }
        numbers[count] = number;
        count += 1;
    }
    width > 0
}

// The fields that the words that are left spell.
fn fields_of(alloc: Global, mut words: Words) -> Result<Vec<Field>, AllocError>
    requires { IsSome (fields_of (words_left words)) }
    ensures { IfOk result (λ fields. fields_of (words_left words.entry) ≡ Some fields.items) }
{
    let mut fields = Vec::new(alloc);
    while let Some(word) = words.next() {
        let word = FieldWord::parse(word).unwrap();
        fields.push(Field::new(alloc, word)?)?;
    }
    Ok(fields)
}

/// The same layout, in memory of its own.
impl Clone for Layout {
    ghost is_clone = { λ layout other. other ≡ layout };

    fn clone(&self) -> Result<Layout, AllocError> {
        Ok(Layout {
            rule: self.rule,
            fields: self.fields.clone()?,
        })
    }
}
