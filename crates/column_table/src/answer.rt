//! What is answered of a packed table.

ghost use Rattle.std.specs.Prelude.{◌≡◌, ◌++◌, List, map, string_bytes, IfOk, OnOk};
ghost use Rattle.bit_table.specs.Edits.{numbers_at, reply_to};
ghost use Rattle.bit_table.specs.Replies.{reply_text};
ghost use Rattle.column_table.specs.declared.condition.Condition.{Condition};
ghost use Rattle.column_table.specs.Answers.{answer_text, csv_line, row_line, selected_text};
ghost use Rattle.column_table.specs.Selections.{AreSelected};

use crate::select::selected;
use crate::store::Store;
use bit_table::{BitViewSized, Command, Digits, Field, Table, WordPaths};
use itoa::Buffer;
use std::alloc::{AllocError, Global};

/// What is asked of a table.
#[derive(Clone, Copy, Debug, PartialEq, Eq)]
pub enum Question {
    /// How many rows are selected.
    Count,
    /// Which rows are selected.
    List,
    /// The selected rows, as CSV with the header.
    Rows,
    /// The image line of all rows.
    Image,
    /// The layout line.
    Layout,
}

/// The answer, with its line ends. It tells of the rows that bear the letter `selected()`.
pub fn answer<A: BitViewSized, O: WordPaths<A::Store> + Digits<A::Store>>(
    alloc: Global,
    store: &mut Store<A, O>,
    question: Question,
) -> Result<Vec<u8>, AllocError>
    ensures { (conditions : List Condition) → AreSelected conditions store.old.table.shape
        → IfOk result (λ text. text.items
        ≡ answer_text (string_bytes store.old.line) store.old.table.shape conditions question) }
{
    match question {
        Question::Count => reply_line(alloc, &mut store.table, &Command::Count(selected())),
        Question::List => reply_line(alloc, &mut store.table, &Command::List(selected())),
        Question::Rows => selected_rows(alloc, &store.table),
        Question::Image => reply_line(alloc, &mut store.table, &Command::Image),
        Question::Layout => {
            let mut text = Vec::from_slice(alloc, store.line.as_bytes())?;
            text.push(b'\n')?;
            Ok(text)
        }
    }
}

// The line of the table's reply to a command that asks.
fn reply_line<A: BitViewSized, O: WordPaths<A::Store> + Digits<A::Store>>(
    alloc: Global,
    table: &mut Table<A, O>,
    command: &Command,
) -> Result<Vec<u8>, AllocError>
    ensures { IfOk result (λ text. text.items ≡ reply_text (reply_to table.old.shape command.now)) }
{
    match table.apply(command) {
        Ok(reply) => reply.line(alloc),
        Err(_) => Err(AllocError),
    }
}

// The selected rows as CSV with the header.
fn selected_rows<A: BitViewSized, O: WordPaths<A::Store> + Digits<A::Store>>(
    alloc: Global,
    table: &Table<A, O>,
) -> Result<Vec<u8>, AllocError>
    ensures { IfOk result (λ text. text.items ≡ selected_text table.now.shape) }
{
    let mut text = Vec::new(alloc);
    push_names(&mut text, table.layout().fields())?;
    let places = table.marked(selected())?;
    for place in places.as_slice() {
        push_row(&mut text, table, *place as u64)?;
    }
    Ok(text)
}

// Adds the line of a row.
fn push_row<A: BitViewSized, O: WordPaths<A::Store> + Digits<A::Store>>(
    text: &mut Vec<u8>,
    table: &Table<A, O>,
    row: u64,
) -> Result<(), AllocError>
    ensures { OnOk result (text.new.items ≡ text.old.items ++ row_line (numbers_at row table.now.shape.rows)) }
{
    match table.row(row)? {
        Some(numbers) => push_numbers(text, numbers.as_slice()),
        None => push_numbers(text, &[]),
    }
}

// Adds the line of the names.
fn push_names(text: &mut Vec<u8>, fields: &[Field]) -> Result<(), AllocError>
    ensures { OnOk result (text.new.items ≡ text.old.items ++ csv_line (map (λ field. field.name) fields.now)) }
{
    let Some((first, rest)) = fields.split_first() else {
        text.push(b'\n')?;
        return Ok(());
    };
    text.extend_from_slice(first.name().as_bytes())?;
    for field in rest {
        text.push(b',')?;
        text.extend_from_slice(field.name().as_bytes())?;
    }
    text.push(b'\n')?;
    Ok(())
}

// Adds the line of numbers.
fn push_numbers(text: &mut Vec<u8>, numbers: &[i128]) -> Result<(), AllocError>
    ensures { OnOk result (text.new.items ≡ text.old.items ++ row_line numbers.now) }
{
    let mut buffer = Buffer::new();
    let Some((first, rest)) = numbers.split_first() else {
        text.push(b'\n')?;
        return Ok(());
    };
    text.extend_from_slice(buffer.format(*first).as_bytes())?;
    for number in rest {
        text.push(b',')?;
        text.extend_from_slice(buffer.format(*number).as_bytes())?;
    }
    text.push(b'\n')?;
    Ok(())
}
