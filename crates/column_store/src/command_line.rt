//! The command line, as clap reads it.

use clap::error::ErrorKind;
use clap::{Arg, ArgAction, ArgGroup, ArgMatches, Command, Error};
use column_table::answer::Question;
use std::alloc::{AllocError, Global};

// The options of which exactly one is given.
const QUESTIONS: [&str; 5] = ["count", "list", "rows", "image", "layout"];

// What help says below the options.
const AFTER_HELP: &str = "\
The table comes on standard input, as CSV: a header line of names, and lines of whole numbers of 64
bits. A condition is a name, one of < = >, and a number; rows have to meet all of them:

  column_store --where 'age<30' --where 'city=7' --rows < people.csv";

/// What a command line asks for.
#[derive(Drop)]
pub enum Asked<'a> {
    /// An answer of the table on standard input.
    Answer(Request<'a>),
    /// Help: the text is for standard output.
    Help(String),
    /// Nothing, since it is no command line of the program: the text, for standard error, says why.
    Bad(String),
    /// Nothing, for want of memory.
    NoMemory,
}

/// A question, and the conditions on the rows that it is of.
#[derive(Drop)]
pub struct Request<'a> {
    question: Question,
    conditions: Vec<&'a str>,
}

impl<'a> Request<'a> {
    /// What is asked.
    pub fn question(&self) -> Question {
        self.question
    }

    /// The words of the conditions.
    pub fn conditions(&self) -> &[&'a str] {
        self.conditions.as_slice()
    }
}

/// What the words of a command line ask for, without the program's name.
pub fn read_words<'a>(alloc: Global, words: &'a [String]) -> Asked<'a> {
    let Ok(command) = command(alloc, &QUESTIONS) else {
        return Asked::NoMemory;
    };
    match command.try_get_matches_from(words) {
        Ok(matches) => match request_of(alloc, &matches) {
            Ok(request) => Asked::Answer(request),
            Err(_) => Asked::NoMemory,
        },
        Err(error) => refused(alloc, &error),
    }
}

// The request that matches tell.
fn request_of<'a>(alloc: Global, matches: &ArgMatches<'a>) -> Result<Request<'a>, AllocError> {
    let mut conditions = Vec::new(alloc);
    if let Some(words) = matches.get_strs("where") {
        for word in words {
            conditions.push(*word)?;
        }
    }
    let question = if matches.get_flag("count") {
        Question::Count
    } else if matches.get_flag("list") {
        Question::List
    } else if matches.get_flag("rows") {
        Question::Rows
    } else if matches.get_flag("image") {
        Question::Image
    } else {
        Question::Layout
    };
    Ok(Request {
        question,
        conditions,
    })
}

// What is said where clap does not take the words.
fn refused<'a>(alloc: Global, error: &Error) -> Asked<'a> {
    if error.kind() == ErrorKind::OutOfMemory {
        return Asked::NoMemory;
    }
    match format!(in alloc; "{error}") {
        Ok(text) if error.kind() == ErrorKind::DisplayHelp => Asked::Help(text),
        Ok(text) => Asked::Bad(text),
        Err(_) => Asked::NoMemory,
    }
}

// The program's options.
fn command<'a>(alloc: Global, questions: &'a [&'a str]) -> Result<Command<'a>, AllocError> {
    let wanted = Arg::new(alloc, "where")
        .long("where")
        .value_name("CONDITION")
        .action(ArgAction::Append)
        .help("Only rows that meet it, as age<30, city=7 or id>0");
    let question = ArgGroup::new(alloc, "question")
        .args(questions)?
        .required(true);
    Command::new(alloc, "column_store")
        .no_binary_name(true)
        .about("Packs a table of whole numbers and answers conditions on its rows")
        .after_help(AFTER_HELP)
        .arg(wanted)?
        .arg(flag(alloc, "count", "How many rows there are"))?
        .arg(flag(alloc, "list", "The numbers of the rows, from 0"))?
        .arg(flag(alloc, "rows", "The rows, as CSV with the header"))?
        .arg(flag(alloc, "image", "The image line of all rows"))?
        .arg(flag(alloc, "layout", "The layout line"))?
        .group(question)
}

// An option without a value.
fn flag<'a>(alloc: Global, name: &'a str, help: &'a str) -> Arg<'a> {
    Arg::new(alloc, name)
        .long(name)
        .action(ArgAction::SetTrue)
        .help(help)
}
