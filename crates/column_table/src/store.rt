//! A table of numbers, packed.

ghost use Rattle.std.specs.Prelude.{◌≡◌, ◌*◌, ◌≤◌, Some, pos, map, get_or, string_bytes, [], ◌∷◌, ◌++◌, IfOk, OnOk};
ghost use Rattle.bit_table.specs.LayoutLimits.{MAX_ROW_BITS};
ghost use Rattle.bit_table.specs.Layouts.{layout_of};
ghost use Rattle.bit_table.specs.Rows.{all_numbers};
ghost use Rattle.column_table.specs.Packed.{HasRows};

use crate::condition::ConditionError;
use crate::csv_table::{CsvError, CsvTable};
use crate::width::narrowest;
use bit_table::{
    BitViewSized, Cause, Command, Digits, Fault, Layout, LayoutError, MAX_BITS, Table, Values,
    WordPaths,
};
use std::alloc::{AllocError, Global};
use thiserror::Error;

/// A packed table, and the line of its layout.
#[derive(Drop)]
pub struct Store<A: BitViewSized, O: WordPaths<A::Store> + Digits<A::Store>> {
    /// The layout line: a field for each column.
    pub line: String,
    /// The rows.
    pub table: Table<A, O>,
}

/// Why there is no answer.
#[derive(Clone, Copy, Debug, PartialEq, Eq, Error)]
pub enum StoreError {
    /// The input is no table of whole numbers.
    #[error(transparent)]
    Csv(#[from] CsvError),
    /// A word is no condition on the table.
    #[error(transparent)]
    Condition(#[from] ConditionError),
    /// No field of 64 bits takes all numbers of a column.
    #[error("column {column}: it has a number below 0 and one above 9223372036854775807")]
    Wide { column: usize },
    /// The columns together have more bits than a row.
    #[error("a row would have more than 1024 bits")]
    WideRow,
    /// The table refuses a row.
    #[error("row {row}: refused, {cause}")]
    Row { row: usize, cause: Cause },
    /// The answer could not be written.
    #[error("the answer cannot be written")]
    Write,
    /// No memory was found.
    #[error("no memory")]
    Memory(#[from(alloc)] AllocError),
}

/// Packs a table: the narrowest field for each column, and the rows in order.
pub fn pack<A: BitViewSized, O: WordPaths<A::Store> + Digits<A::Store>>(
    alloc: Global,
    table: CsvTable,
) -> Result<Store<A, O>, StoreError>
    requires { MAX_ROW_BITS ≤ A.COUNT * A.Store.BITS }
    ensures line { IfOk result (λ store. layout_of (string_bytes store.line) ≡ Some store.table.shape.layout) }
    ensures rows { IfOk result (λ store. all_numbers store.table.shape.rows ≡ map (λ row. row.items) table.rows.items) }
{
    let CsvTable { names, rows } = table;
    let line = layout_line(alloc, names.as_slice(), rows.as_slice())?;
    let layout = match Layout::parse(alloc, line.as_bytes()) {
        Ok(layout) => layout,
        Err(LayoutError::Refused) => return Err(StoreError::WideRow),
        Err(LayoutError::Memory) => return Err(StoreError::Memory(AllocError)),
    };
    let table = filled(alloc, layout, rows)?;
    Ok(Store { line, table })
}

// The layout line of columns with these names.
fn layout_line(alloc: Global, names: &[String], rows: &[Vec<i128>]) -> Result<String, StoreError> {
    let mut line = String::new(alloc);
    line.push_str("low")?;
    for (index, name) in names.iter().enumerate() {
        let numbers = column(alloc, rows, index)?;
        let Some(kind) = narrowest(numbers.as_slice()) else {
            return Err(StoreError::Wide { column: index + 1 });
        };
        let name = name.as_str();
        write!(line, " {name}:{kind}")?;
    }
    Ok(line)
}

// The numbers of a column, row by row, 0 where a row has none.
fn column(alloc: Global, rows: &[Vec<i128>], index: usize) -> Result<Vec<i128>, AllocError>
    ensures { IfOk result (λ numbers. numbers.items ≡ map (λ row. get_or row.items index (pos 0)) rows.now) }
{
    rows.iter()
        .map(|row| row.get(index).copied().unwrap_or(0))
        .collect(alloc)
}

/// A table of the layout with these rows, in order. Refused for the first row that has not one number a field, each taken
/// by its field.
pub fn filled<A: BitViewSized, O: WordPaths<A::Store> + Digits<A::Store>>(
    alloc: Global,
    layout: Layout,
    rows: Vec<Vec<i128>>,
) -> Result<Table<A, O>, StoreError>
    requires { MAX_ROW_BITS ≤ A.COUNT * A.Store.BITS }
    ensures { IfOk result (λ table. HasRows layout (map (λ row. row.items) rows.items) table.shape) }
{
    let most = MAX_BITS / layout.row_bits();
    let mut table = Table::<A, O>::new(alloc, layout);
    if rows.len() > most {
        return Err(StoreError::Row {
            row: most + 1,
            cause: Cause::Full,
        });
    }
    table.reserve(rows.len())?;
    for row in rows {
        push(&mut table, row)?;
    }
    Ok(table)
}

// Puts a row behind the last.
fn push<A: BitViewSized, O: WordPaths<A::Store> + Digits<A::Store>>(
    table: &mut Table<A, O>,
    row: Vec<i128>,
) -> Result<(), StoreError>
    ensures { OnOk result (HasRows table.old.shape.layout (all_numbers table.old.shape.rows ++ row.items ∷ [])
        table.new.shape) }
{
    let place = table.rows() as u64;
    let values = Values::new(row);
    match table.apply(&Command::Insert { place, values }) {
        Ok(_) => Ok(()),
        Err(Fault::Refused(cause)) => Err(StoreError::Row {
            row: table.rows() + 1,
            cause,
        }),
        Err(Fault::Memory) => Err(StoreError::Memory(AllocError)),
    }
}
