//! The names of the storage words and the orders, as the program's options take them.

ghost use Rattle.std.specs.Prelude.{◌≡◌, ◌∷◌, [], map, option_map, IfOk};
ghost use Rattle.clap.specs.Walk.{texts};
ghost use Rattle.bit_table_command_line.specs.Storages.{named, order_names, order_of, rows_of_names, value_of, word_names, word_of};

use bit_table_layout::{Order, Word};
use std::alloc::{AllocError, Global};

/// The storage words by their names, in the order of their widths: the only list of them.
pub const WORDS: [(&str, Word); 5] = [
    ("u8", Word::U8),
    ("u16", Word::U16),
    ("u32", Word::U32),
    ("u64", Word::U64),
    ("u128", Word::U128),
];

/// The orders by their names: the only list of them.
pub const ORDERS: [(&str, Order); 3] = [
    ("lsb0", Order::Lsb0),
    ("msb0", Order::Msb0),
    ("hilo", Order::HiLo),
];

// The word of this name, `u64` where there is none.
pub(crate) fn word_named(name: Option<&str>) -> Word
    ensures { result ≡ word_of (option_map (λ s. s.now) name.entry) }
{
    value_named(&WORDS, name, Word::U64)
}

// The order of this name, `lsb0` where there is none.
pub(crate) fn order_named(name: Option<&str>) -> Order
    ensures { result ≡ order_of (option_map (λ s. s.now) name.entry) }
{
    value_named(&ORDERS, name, Order::Lsb0)
}

// The names of the words.
pub(crate) fn word_names(alloc: Global) -> Result<Vec<&'static str>, AllocError>
    ensures { IfOk result (λ names. texts names.items ≡ word_names) }
{
    names(alloc, &WORDS)
}

// The names of the orders.
pub(crate) fn order_names(alloc: Global) -> Result<Vec<&'static str>, AllocError>
    ensures { IfOk result (λ names. texts names.items ≡ order_names) }
{
    names(alloc, &ORDERS)
}

// The names of such a list.
fn names<'a, W: Copy>(alloc: Global, mut rows: &[(&'a str, W)]) -> Result<Vec<&'a str>, AllocError>
    ensures { IfOk result (λ names. texts names.items ≡ map (λ row. row.0) (rows_of_names rows.entry.now)) }
{
    let mut names = Vec::new(alloc);
    while let [row, rest @ ..] = rows {
        names.push(row.0)?;
        rows = rest;
    }
    Ok(names)
}

// The value of the row that has this name, `other` where there is no name or none has it.
fn value_named<W: Copy>(rows: &[(&str, W)], name: Option<&str>, other: W) -> W
    ensures { result ≡ value_of (rows_of_names rows.now) other (option_map (λ s. s.now) name.entry) }
{
    match name {
        Some(name) => value_by(rows, name, other),
        None => other,
    }
}

// The value of the row that has this name, `other` where none has it.
fn value_by<W: Copy>(mut rows: &[(&str, W)], name: &str, other: W) -> W
    ensures { result ≡ named (rows_of_names rows.entry.now) other name.now }
{
    while let [row, rest @ ..] = rows {
        if row.0 == name {
            return row.1;
        }
        rows = rest;
    }
    other
}
