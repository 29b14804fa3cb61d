//! A column store with selection bitmaps: it reads a table of whole numbers as CSV, packs each column into the narrowest
//! field that takes its numbers, and answers one question about the rows that meet some conditions. The table is read
//! again at each run.
#![tactic(auto)]

mod command_line;

use column_table::condition::conditions;
use column_table::csv_table::{CsvError, read_csv};
use column_table::store::StoreError;
use column_table::{Lsb0, answer, select, store};
use command_line::{Asked, Request, read_words};
use std::alloc::{AllocError, AllocGlobal};
use std::env::Env;
use std::io::{Read, Write};
use std::process::ExitCode;
use std::{env, io};

// The exit status after a bad command line.
const BAD_COMMAND_LINE: u8 = 2;

// The status is 0, or 1 where the table or a condition is refused, and 2 after a bad command line.
fn main(rt: HostRuntime) -> ExitCode {
    let words = match words(&rt) {
        Ok(words) => words,
        Err(error) => {
            let _ = eprintln!(rt; "error: {error}");
            return ExitCode::from(BAD_COMMAND_LINE);
        }
    };
    match read_words(rt.alloc(), words.as_slice()) {
        Asked::Answer(request) => ended(&rt, answered(&rt, &request)),
        Asked::Help(text) => ended(&rt, written(&rt, text.as_bytes())),
        Asked::Bad(text) => refused(&rt, text.as_str()),
        Asked::NoMemory => ended(&rt, Err(StoreError::Memory(AllocError))),
    }
}

// The words of the command line behind the program's name.
fn words<R: Env + AllocGlobal>(rt: &R) -> io::Result<Vec<String>> {
    let mut words = Vec::new(rt.alloc());
    for word in env::args(rt)?.skip(1) {
        words.push(word)?;
    }
    Ok(words)
}

// Reads the table on standard input, and writes what is asked for to standard output.
fn answered(rt: &HostRuntime, request: &Request) -> Result<(), StoreError> {
    let table = read_csv(rt.alloc(), text_of(rt)?.as_slice())?;
    let mut store = store::pack::<[u64; 16], Lsb0>(rt.alloc(), table)?;
    let conditions = conditions(rt.alloc(), store.table.layout(), request.conditions())?;
    select::select(&mut store.table, conditions.as_slice());
    let text = answer::answer(rt.alloc(), &mut store, request.question())?;
    written(rt, text.as_slice())
}

// All of standard input.
fn text_of(rt: &HostRuntime) -> Result<Vec<u8>, CsvError> {
    let mut text = Vec::new(rt.alloc());
    match rt.stdin().read_to_end(&mut text) {
        Ok(_) => Ok(text),
        Err(error) if error.kind() == io::ErrorKind::OutOfMemory => Err(CsvError::Memory(
            AllocError,
        )),
        Err(_) => Err(CsvError::Read),
    }
}

// Writes a text to standard output.
fn written(rt: &HostRuntime, text: &[u8]) -> Result<(), StoreError> {
    let mut output = rt.stdout();
    let written = output.write_all(text).is_ok();
    if output.flush().is_ok() && written {
        Ok(())
    } else {
        Err(StoreError::Write)
    }
}

// The exit status of a run; what was refused is told in a line on standard error.
fn ended(rt: &HostRuntime, outcome: Result<(), StoreError>) -> ExitCode {
    match outcome {
        Ok(()) => ExitCode::SUCCESS,
        Err(error) => {
            let _ = eprintln!(rt; "column_store: {error}");
            ExitCode::FAILURE
        }
    }
}

// The exit status after a bad command line; what is amiss is told on standard error.
fn refused(rt: &HostRuntime, text: &str) -> ExitCode {
    let _ = eprint!(rt; "{text}");
    ExitCode::from(BAD_COMMAND_LINE)
}
