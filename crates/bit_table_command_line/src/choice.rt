//! What a command line asks for.

ghost use Rattle.std.specs.Prelude.{◌≡◌, map};
ghost use Rattle.clap.specs.Words.{kind_of};
ghost use Rattle.clap.specs.Walk.{texts};
ghost use Rattle.bit_table_command_line.specs.Choices.{ChoosesFor, Refuses};
ghost use Rattle.bit_table_command_line.specs.Storages.{order_names, word_names};

use crate::command::command;
use crate::storage::{order_named, order_names, word_named, word_names};
use bit_table_layout::{Order, Word};
use clap::Error;
use clap::error::ErrorKind;
use std::alloc::Global;
use std::convert::AsStr;

/// What a command line asks for.
#[derive(Drop)]
pub enum Choice {
    /// A run of the script on standard input, over this storage.
    Run(Word, Order),
    /// Help: the text is for standard output.
    Help(String),
    /// Nothing, since it is no command line of the program: the text, for standard error, says why.
    Bad(String),
    /// Nothing, for want of memory.
    NoMemory,
}

/// What the words of a command line ask for, without the program's name.
///
/// `--word` and `--order` name the storage, by `WORDS` and `ORDERS`; it is `u64` and `lsb0` where they are not given.
/// Where clap takes the words the answer is `Run` or `NoMemory`, and where it finds a fault in them it is no `Run`.
#[tactic(auto, using(crate::proofs::ChoiceLemmas::out_of_memory))]
pub fn choose<'a, S: AsStr>(alloc: Global, words: &'a [S]) -> Choice
    ensures { ChoosesFor (map S.text words.entry.now) result }
{
    let Ok(named) = word_names(alloc) else {
        return Choice::NoMemory;
    };
    let Ok(ordered) = order_names(alloc) else {
        return Choice::NoMemory;
    };
    choose_by(alloc, words, named.as_slice(), ordered.as_slice())
}

// The same, by the names of the storage words and of the orders.
fn choose_by<'a, S: AsStr>(
    alloc: Global,
    words: &'a [S],
    named: &'a [&'a str],
    ordered: &'a [&'a str],
) -> Choice
    requires words { texts named.now ≡ word_names }
    requires orders { texts ordered.now ≡ order_names }
    ensures { ChoosesFor (map S.text words.entry.now) result }
{
    let command = match command(alloc, named, ordered) {
        Ok(command) => command,
        Err(_) => return Choice::NoMemory,
    };
    match command.try_get_matches_from(words) {
        Ok(matches) => Choice::Run(
            word_named(matches.get_str("word")),
            order_named(matches.get_str("order")),
        ),
        Err(error) => refused(alloc, &error),
    }
}

// What is said where clap does not take the words.
fn refused(alloc: Global, error: &Error) -> Choice
    ensures { Refuses (kind_of error.now) result }
{
    if error.kind() == ErrorKind::OutOfMemory {
        return Choice::NoMemory;
    }
    match format!(in alloc; "{error}") {
        Ok(text) if error.kind() == ErrorKind::DisplayHelp => Choice::Help(text),
        Ok(text) => Choice::Bad(text),
        Err(_) => Choice::NoMemory,
    }
}
