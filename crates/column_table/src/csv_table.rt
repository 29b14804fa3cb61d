//! A table of whole numbers, read from CSV.

use crate::number::number_of_64_bits;
use bit_table::{MAX_ROW_BITS, is_name};
use csv::{ByteRecord, ErrorKind, Reader, ReaderBuilder};
use std::alloc::{AllocError, Global};
use std::io::Read;
use thiserror::Error;

// What may stand before a text in UTF-8.
const BYTE_ORDER_MARK: [u8; 3] = [0xef, 0xbb, 0xbf];

/// A table: the names of its columns, and its rows, of one number a column.
#[derive(Drop)]
pub struct CsvTable {
    /// The names, in order.
    pub names: Vec<String>,
    /// The rows, in order.
    pub rows: Vec<Vec<i128>>,
}

/// Why a text is no table of whole numbers. Lines and columns are counted from 1.
#[derive(Clone, Copy, Debug, PartialEq, Eq, Error)]
pub enum CsvError {
    /// The text has no record.
    #[error("no header line")]
    NoHeader,
    /// The header has more columns than a row has bits.
    #[error("{columns} columns, and a row has at most {MAX_ROW_BITS} bits")]
    TooMany {
        columns: usize,
    },
    /// A name of the header is no field name.
    #[error("column {column}: its name is not 1 to 16 of a to z, 0 to 9 and _ with a letter first")]
    Name {
        column: usize,
    },
    /// Two columns have one name.
    #[error("column {column}: its name is that of column {earlier}")]
    Twice {
        column: usize,
        earlier: usize,
    },
    /// A row has not one cell a column.
    #[error("line {line}: {cells} cells under {columns} names")]
    Cells {
        line: usize,
        cells: usize,
        columns: usize,
    },
    /// A cell is no whole number that 64 bits hold.
    #[error("line {line}, column {column}: no whole number that 64 bits hold")]
    Cell {
        line: usize,
        column: usize,
    },
    /// The input failed.
    #[error("the input cannot be read")]
    Read,
    /// No memory was found.
    #[error("no memory")]
    Memory(#[from(alloc)] AllocError),
}

/// Reads a table: a header of field names that differ, and records of as many whole numbers.
pub fn read_csv(alloc: Global, text: &[u8]) -> Result<CsvTable, CsvError> {
    // Taken off here, so that the reader's places are those of `text`.
    let text = text.strip_prefix(&BYTE_ORDER_MARK).unwrap_or(text);
    let mut reader = ReaderBuilder::new()
        .has_headers(false)
        .flexible(true)
        .from_reader(alloc, text);
    let mut record = ByteRecord::new(alloc);
    if !next_record(&mut reader, &mut record)? {
        return Err(CsvError::NoHeader);
    }
    let names = names_of(alloc, &record)?;
    let mut rows = Vec::new(alloc);
    for _ in 0..u64::MAX {
        if !next_record(&mut reader, &mut record)? {
            break;
        }
        let row = row_of(alloc, text, &record, names.len())?;
        rows.push(row)?;
    }
    Ok(CsvTable { names, rows })
}

// Reads the next record, if there is one.
fn next_record<R: Read>(reader: &mut Reader<R>, record: &mut ByteRecord) -> Result<bool, CsvError> {
    reader
        .read_byte_record(record)
        .map_err(|error| match error.kind() {
            ErrorKind::OutOfMemory => CsvError::Memory(AllocError),
            _ => CsvError::Read,
        })
}

// The names of a header.
fn names_of(alloc: Global, header: &ByteRecord) -> Result<Vec<String>, CsvError> {
    if header.len() > MAX_ROW_BITS {
        return Err(CsvError::TooMany {
            columns: header.len(),
        });
    }
    let mut names = Vec::<String>::with_capacity(alloc, header.len())?;
    for (index, name) in header.into_iter().enumerate() {
        let column = index + 1;
        if !is_name(name) {
            return Err(CsvError::Name { column });
        }
        if let Some(place) = names.iter().position(|earlier| earlier.as_bytes() == name) {
            return Err(CsvError::Twice {
                column,
                earlier: place + 1,
            });
        }
        let mut text = String::new(alloc);
        for byte in name {
            text.push(char::from(*byte))?;
        }
        names.push(text)?;
    }
    Ok(names)
}

// The numbers of a record, which has to have so many.
fn row_of(
    alloc: Global,
    text: &[u8],
    record: &ByteRecord,
    columns: usize,
) -> Result<Vec<i128>, CsvError> {
    if record.len() != columns {
        return Err(CsvError::Cells {
            line: line_of(text, record),
            cells: record.len(),
            columns,
        });
    }
    let mut row = Vec::with_capacity(alloc, columns)?;
    for (index, cell) in record.into_iter().enumerate() {
        match number_of_64_bits(cell) {
            Some(number) => row.push(number)?,
            None => {
                return Err(CsvError::Cell {
                    line: line_of(text, record),
                    column: index + 1,
                });
            }
        }
    }
    Ok(row)
}

// The line of a record of the text. The reader's own count stands at the blank lines before it, and does not yet have
// the line feed of a carriage return.
fn line_of(text: &[u8], record: &ByteRecord) -> usize {
    let start = match record.position() {
        Some(position) => text.len().min(position.byte() as usize),
        None => 0,
    };
    let blank = text[start..]
        .iter()
        .take_while(|byte| **byte == b'\n' || **byte == b'\r')
        .count();
    let before = text[..start].iter().chain(&text[start..start + blank]);
    before.filter(|byte| **byte == b'\n').count() + 1
}
