//! Calls that read a line: of a layout, of a command, and the words of a command line.

use crate::shown::{begin, decline, end, no_such_call, show_nothing};
use bit_table::{Choice, Command, Fault, Layout, LayoutError, Order, Rule, Word, choose};
use std::alloc::AllocError;
use std::io;

/// `Layout::parse`.
pub fn layout_case(rt: &HostRuntime, line: &str) -> io::Result<()> {
    begin(rt)?;
    let outcome = Layout::parse(rt.alloc(), line.as_bytes());
    if let Err(LayoutError::Refused) = &outcome {
        return decline(rt, "layout");
    }
    end(rt, outcome.is_ok())?;
    match outcome {
        Ok(layout) => show_layout(rt, &layout),
        Err(_) => show_nothing(rt),
    }
}

/// The copy of a layout.
pub fn copied_layout_case(rt: &HostRuntime, line: &str) -> io::Result<()> {
    let Ok(layout) = Layout::parse(rt.alloc(), line.as_bytes()) else {
        return no_such_call(rt);
    };
    begin(rt)?;
    let outcome: Result<Layout, AllocError> = layout.clone();
    end(rt, outcome.is_ok())?;
    match outcome {
        Ok(layout) => show_layout(rt, &layout),
        Err(_) => show_nothing(rt),
    }
}

/// `Command::parse`, of what stands behind the layout line.
pub fn command_case(rt: &HostRuntime, script: &str) -> io::Result<()> {
    let (first, line) = script.split_once(';').unwrap_or((script, ""));
    let Ok(layout) = Layout::parse(rt.alloc(), first.as_bytes()) else {
        return no_such_call(rt);
    };
    begin(rt)?;
    let outcome = Command::parse(rt.alloc(), &layout, line.as_bytes());
    if let Err(Fault::Refused(cause)) = &outcome {
        return decline(rt, cause.word());
    }
    end(rt, outcome.is_ok())?;
    match outcome {
        Ok(command) => println!(rt; "made {command:?}"),
        Err(_) => show_nothing(rt),
    }
}

/// `choose`, of the words of a command line.
pub fn choose_case(rt: &HostRuntime, text: &str) -> io::Result<()> {
    let mut words = Vec::new(rt.alloc());
    for word in text.split_whitespace() {
        words.push(word)?;
    }
    begin(rt)?;
    let choice = choose(rt.alloc(), words.as_slice());
    let is_done = !matches!(&choice, Choice::NoMemory);
    end(rt, is_done)?;
    match choice {
        Choice::Run(word, order) => show_storage(rt, word, order),
        Choice::Help(text) => show_first_line(rt, "help", text.as_str()),
        Choice::Bad(text) => show_first_line(rt, "bad", text.as_str()),
        Choice::NoMemory => show_nothing(rt),
    }
}

// Writes the first line of a text.
fn show_first_line(rt: &HostRuntime, kind: &str, text: &str) -> io::Result<()> {
    let (line, _) = text.split_once('\n').unwrap_or((text, ""));
    println!(rt; "made {kind}: {line}")
}

// Writes a storage.
fn show_storage(rt: &HostRuntime, word: Word, order: Order) -> io::Result<()> {
    let word = match word {
        Word::U8 => "u8",
        Word::U16 => "u16",
        Word::U32 => "u32",
        Word::U64 => "u64",
        Word::U128 => "u128",
    };
    let order = match order {
        Order::Lsb0 => "lsb0",
        Order::Msb0 => "msb0",
        Order::HiLo => "hilo",
    };
    println!(rt; "made {word} {order}")
}

// Writes a layout.
fn show_layout(rt: &HostRuntime, layout: &Layout) -> io::Result<()> {
    let rule = match layout.rule() {
        Rule::Low => "low",
        Rule::High => "high",
    };
    let mut text = String::new(rt.alloc());
    for field in layout.fields() {
        let (name, width) = (field.name(), field.width());
        let sign = if field.signed() { 'i' } else { 'u' };
        write!(text, " {name}:{sign}{width}")?;
    }
    println!(rt; "made {rule}{text}")
}
