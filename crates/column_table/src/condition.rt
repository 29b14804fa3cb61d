//! Conditions on the rows of a table.

ghost use Rattle.std.specs.Prelude.{◌<◌, length, IfOk};
ghost use Rattle.std.specs.List.{All};

use crate::number::number_of_64_bits;
use bit_table::{Layout, Test};
use std::alloc::{AllocError, Global};
use thiserror::Error;

/// A condition: a row's number of a field compares so with a value.
#[derive(Clone, Copy)]
pub struct Condition {
    /// The place of the field in the layout.
    pub field: usize,
    /// How its number compares.
    pub test: Test,
    /// With what.
    pub value: i128,
}

/// Why a word is no condition on a table. Conditions are counted from 1.
#[derive(Clone, Copy, Debug, PartialEq, Eq, Error)]
pub enum ConditionError {
    /// The word has no `<`, `=` or `>`.
    #[error("condition {number}: no <, = or >")]
    NoTest { number: usize },
    /// The table has no column of this name.
    #[error("condition {number}: no column has this name")]
    NoColumn { number: usize },
    /// What stands behind the test is no whole number.
    #[error("condition {number}: no whole number that 64 bits hold behind <, = or >")]
    NoNumber { number: usize },
    /// No memory was found.
    #[error("no memory")]
    Memory(#[from(alloc)] AllocError),
}

/// The conditions that words spell as `name<value`, `name=value` or `name>value`.
pub fn conditions(
    alloc: Global,
    layout: &Layout,
    words: &[&str],
) -> Result<Vec<Condition>, ConditionError>
    ensures { IfOk result (λ conditions.
        All (λ condition. condition.field < length layout.now.fields) conditions.items) }
{
    let mut conditions = Vec::with_capacity(alloc, words.len())?;
    for (index, word) in words.iter().enumerate() {
        conditions.push(condition_of(layout, word.as_bytes(), index + 1)?)?;
    }
    Ok(conditions)
}

// The condition that a word spells.
fn condition_of(layout: &Layout, word: &[u8], number: usize) -> Result<Condition, ConditionError>
    ensures { IfOk result (λ condition. condition.field < length layout.now.fields) }
{
    let Some(place) = word.iter().position(|byte| test_of(*byte).is_some()) else {
        return Err(ConditionError::NoTest { number });
    };
    let Some(test) = test_of(word[place]) else {
        return Err(ConditionError::NoTest { number });
    };
    let name = &word[..place];
    let Some(field) = layout
        .fields()
        .iter()
        .position(|field| field.name().as_bytes() == name)
    else {
        return Err(ConditionError::NoColumn { number });
    };
    match number_of_64_bits(&word[place + 1..]) {
        Some(value) => Ok(Condition { field, test, value }),
        None => Err(ConditionError::NoNumber { number }),
    }
}

// The test that a byte spells.
fn test_of(byte: u8) -> Option<Test> {
    match byte {
        b'<' => Some(Test::Below),
        b'=' => Some(Test::Equal),
        b'>' => Some(Test::Above),
        _ => None,
    }
}
