//! The program `bit-table`: it runs the script on standard input over the storage that its options name, and writes the
//! answers to standard output.
#![tactic(auto)]

ghost use Rattle.std.specs.Prelude.{◌≡◌, OnOk, OnErr, true, false};

mod storages;

use bit_table_command_line::{Choice, Order, Word, choose};
use bit_table_script::{Input, Output, RunError};
use std::alloc::AllocGlobal;
use std::env::Env;
use std::io::{ErrorKind, Write};
use std::process::ExitCode;
use std::{env, io};
use storages::run_over;

// The exit status after a bad command line.
const BAD_COMMAND_LINE: u8 = 2;

// What is said of a word of the command line that is not UTF-8, which clap does not see.
const NOT_UTF_8: &str = "error: a word of the command line is not UTF-8\n";

// Does what the command line asks for. The status is 0, or 1 after a fault and 2 after a bad command line, which are
// told on standard error.
fn main(rt: HostRuntime) -> ExitCode {
    let words = match words(&rt) {
        Ok(words) => words,
        Err(error) if error.kind() == ErrorKind::OutOfMemory => {
            return ended(&rt, Err(RunError::Memory));
        }
        Err(_) => return refused(&rt, NOT_UTF_8),
    };
    match choose(rt.alloc(), words.as_slice()) {
        Choice::Run(word, order) => {
            let outcome = run_script(&rt, word, order);
            ended(&rt, outcome)
        }
        Choice::Help(text) => {
            let outcome = shown(&rt, text.as_str());
            ended(&rt, outcome)
        }
        Choice::Bad(text) => refused(&rt, text.as_str()),
        Choice::NoMemory => ended(&rt, Err(RunError::Memory)),
    }
}

// The words of the command line behind the program's name.
fn words<R: Env + AllocGlobal>(rt: &R) -> io::Result<Vec<String>> {
    let mut words = Vec::new(rt.alloc());
    for word in env::args(rt)?.skip(1) {
        words.push(word)?;
    }
    Ok(words)
}

// Runs the script on standard input over this storage, and flushes the answers whatever became of it.
fn run_script(rt: &HostRuntime, word: Word, order: Order) -> Result<(), RunError> {
    let mut input = Input::new(rt.stdin());
    let mut output = Output::new(rt.stdout());
    let outcome = run_over(rt.alloc(), word, order, &mut input, &mut output);
    let flushed = output.into_inner().flush().is_ok();
    told(outcome, flushed)
}

// Writes a text to standard output.
fn shown(rt: &HostRuntime, text: &str) -> Result<(), RunError> {
    let mut output = rt.stdout();
    let written = output.write_all(text.as_bytes()).is_ok();
    told(Ok(()), output.flush().is_ok() && written)
}

// What is told of a run: its fault, or a write fault where it had none and the answers could not be flushed.
fn told(outcome: Result<(), RunError>, flushed: bool) -> Result<(), RunError>
    ensures fault { OnErr outcome (result ≡ outcome) }
    ensures flushed { flushed ≡ true → result ≡ outcome }
    ensures unflushed { flushed ≡ false → OnOk outcome (result ≡ Err RunError.Write) }
{
    if flushed {
        outcome
    } else {
        outcome.and(Err(RunError::Write))
    }
}

// The exit status of a run; a fault is told in a line on standard error.
fn ended(rt: &HostRuntime, outcome: Result<(), RunError>) -> ExitCode {
    match outcome {
        Ok(()) => ExitCode::SUCCESS,
        Err(fault) => {
            let _ = eprintln!(rt; "bit-table: {fault}");
            ExitCode::FAILURE
        }
    }
}

// The exit status after a bad command line; what is amiss is told on standard error.
fn refused(rt: &HostRuntime, text: &str) -> ExitCode {
    let _ = eprint!(rt; "{text}");
    ExitCode::from(BAD_COMMAND_LINE)
}
