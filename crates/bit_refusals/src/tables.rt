//! Calls of a table: a layout line and lines that are carried out on it, and then the line of the call.

ghost use Rattle.std.specs.Prelude.{◌*◌, ◌≤◌};
ghost use Rattle.bit_table.specs.LayoutLimits.{MAX_ROW_BITS};

use crate::shown::{begin, decline, end, no_such_call, push_list, show_nothing};
use bit_table::{
    BitViewSized, Bits, Command, Digits, Fault, Layout, Letter, Msb0, Reply, Table, WordPaths,
};
use std::alloc::{AllocError, Global};
use std::io;

/// A call of the table that the lines before it make.
pub fn table_case<A: BitViewSized, O: WordPaths<A::Store> + Digits<A::Store>>(
    rt: &HostRuntime,
    script: &str,
) -> io::Result<()>
    requires { MAX_ROW_BITS ≤ A.COUNT * A.Store.BITS }
{
    let (lines, call) = script.rsplit_once(';').unwrap_or(("", ""));
    let Some(mut twin) = table_of::<A, O>(rt.alloc(), lines)? else {
        return no_such_call(rt);
    };
    let Some(mut table) = table_of::<A, O>(rt.alloc(), lines)? else {
        return no_such_call(rt);
    };
    show_table(rt, "before", &twin)?;
    show_kept(rt, "before", &mut twin)?;
    call_on(rt, &mut table, call)?;
    show_table(rt, "after", &table)?;
    show_kept(rt, "after", &mut table)
}

// Makes a call: a command, or one that is told by a `!`.
fn call_on<A: BitViewSized, O: WordPaths<A::Store> + Digits<A::Store>>(
    rt: &HostRuntime,
    table: &mut Table<A, O>,
    call: &str,
) -> io::Result<()> {
    match call {
        "!keep" => keep(rt, table),
        "!back" => back(rt, table),
        "!relay" => relay::<A, O, [u64; 16], Msb0>(rt, table),
        _ => told_call(rt, table, call),
    }
}

// A command, or a call that has words before or behind its `!`.
fn told_call<A: BitViewSized, O: WordPaths<A::Store> + Digits<A::Store>>(
    rt: &HostRuntime,
    table: &mut Table<A, O>,
    call: &str,
) -> io::Result<()> {
    match call.split_once('!') {
        Some(("reserve ", rows)) => reserve(rt, table, rows),
        Some(("row ", row)) => numbers_of(rt, table, row),
        Some(("marked ", letter)) => marked(rt, table, letter),
        Some((lines, rows)) => apply_within(rt, table, lines, rows),
        None => apply(rt, table, call),
    }
}

// The table that lines make.
fn table_of<A: BitViewSized, O: WordPaths<A::Store> + Digits<A::Store>>(
    alloc: Global,
    script: &str,
) -> Result<Option<Table<A, O>>, AllocError>
    requires { MAX_ROW_BITS ≤ A.COUNT * A.Store.BITS }
{
    let mut lines = script.split(';');
    let Ok(layout) = Layout::parse(alloc, lines.next().unwrap_or("").as_bytes()) else {
        return Ok(None);
    };
    let mut table = Table::<A, O>::new(alloc, layout);
    for line in lines {
        let Ok(command) = Command::parse(alloc, table.layout(), line.as_bytes()) else {
            return Ok(None);
        };
        if table.apply(&command).is_err() {
            return Ok(None);
        }
    }
    Ok(Some(table))
}

// Carries a command out, and writes the reply to it.
fn apply<A: BitViewSized, O: WordPaths<A::Store> + Digits<A::Store>>(
    rt: &HostRuntime,
    table: &mut Table<A, O>,
    line: &str,
) -> io::Result<()> {
    let Ok(command) = Command::parse(rt.alloc(), table.layout(), line.as_bytes()) else {
        return no_such_call(rt);
    };
    begin(rt)?;
    let outcome = table.apply(&command);
    if let Err(Fault::Refused(cause)) = &outcome {
        return decline(rt, cause.word());
    }
    end(rt, outcome.is_ok())?;
    match outcome {
        Ok(reply) => show_reply(rt, &reply),
        Err(_) => show_nothing(rt),
    }
}

// `Table::row`.
fn numbers_of<A: BitViewSized, O: WordPaths<A::Store> + Digits<A::Store>>(
    rt: &HostRuntime,
    table: &Table<A, O>,
    row: &str,
) -> io::Result<()> {
    let row = row.parse::<u64>().unwrap_or(u64::MAX);
    begin(rt)?;
    let outcome = table.row(row);
    end(rt, outcome.is_ok())?;
    match outcome {
        Ok(Some(numbers)) => show_reply(rt, &Reply::Numbers(numbers)),
        Ok(None) => println!(rt; "made no row"),
        Err(_) => show_nothing(rt),
    }
}

// `Table::marked`.
fn marked<A: BitViewSized, O: WordPaths<A::Store> + Digits<A::Store>>(
    rt: &HostRuntime,
    table: &Table<A, O>,
    letter: &str,
) -> io::Result<()> {
    let Some(letter) = letter.bytes().next().and_then(Letter::new) else {
        return no_such_call(rt);
    };
    begin(rt)?;
    let outcome = table.marked(letter);
    end(rt, outcome.is_ok())?;
    match outcome {
        Ok(rows) => show_reply(rt, &Reply::Rows(rows)),
        Err(_) => show_nothing(rt),
    }
}

// Makes room for some rows more, and answers whether it is there. It is asked for where the table has few rows, and few are
// wanted.
fn reserve_few<A: BitViewSized, O: WordPaths<A::Store> + Digits<A::Store>>(
    table: &mut Table<A, O>,
    rows: usize,
) -> Option<Result<(), AllocError>> {
    let width = table.layout().row_bits();
    if width > 1024 || rows > 1000 || table.rows() > 1000 {
        return None;
    }
    Some(table.reserve(rows))
}

// `Table::reserve`.
fn reserve<A: BitViewSized, O: WordPaths<A::Store> + Digits<A::Store>>(
    rt: &HostRuntime,
    table: &mut Table<A, O>,
    rows: &str,
) -> io::Result<()> {
    let rows = rows.parse::<usize>().unwrap_or(usize::MAX);
    let room = table.room();
    begin(rt)?;
    let Some(outcome) = reserve_few(table, rows) else {
        return no_such_call(rt);
    };
    end(rt, outcome.is_ok())?;
    let (is_made, is_less) = (table.room() >= rows, table.room() < room);
    println!(rt; "room made {is_made} less {is_less}")
}

// Lines that are carried out one behind the other, in room for so many rows that is made before.
fn apply_within<A: BitViewSized, O: WordPaths<A::Store> + Digits<A::Store>>(
    rt: &HostRuntime,
    table: &mut Table<A, O>,
    lines: &str,
    rows: &str,
) -> io::Result<()> {
    let mut commands = Vec::new(rt.alloc());
    for line in lines.split(',') {
        let Ok(command) = Command::parse(rt.alloc(), table.layout(), line.as_bytes()) else {
            return no_such_call(rt);
        };
        commands.push(command)?;
    }
    match reserve_few(table, rows.parse::<usize>().unwrap_or(usize::MAX)) {
        Some(outcome) => outcome?,
        None => return no_such_call(rt),
    }
    begin(rt)?;
    let mut done = true;
    for command in commands.as_slice() {
        done = table.apply(command).is_ok() && done;
    }
    end(rt, done)
}

// `Table::keep`.
fn keep<A: BitViewSized, O: WordPaths<A::Store> + Digits<A::Store>>(
    rt: &HostRuntime,
    table: &mut Table<A, O>,
) -> io::Result<()> {
    begin(rt)?;
    let outcome = table.keep();
    end(rt, outcome.is_ok())
}

// `Table::back`.
fn back<A: BitViewSized, O: WordPaths<A::Store> + Digits<A::Store>>(
    rt: &HostRuntime,
    table: &mut Table<A, O>,
) -> io::Result<()> {
    begin(rt)?;
    let brought = table.back();
    end(rt, true)?;
    println!(rt; "made {brought}")
}

// `Table::relay`, to another storage.
fn relay<A, O, A2, O2>(rt: &HostRuntime, table: &Table<A, O>) -> io::Result<()>
where
    A: BitViewSized,
    O: WordPaths<A::Store> + Digits<A::Store>,
    A2: BitViewSized,
    O2: WordPaths<A2::Store> + Digits<A2::Store>,
    requires { MAX_ROW_BITS ≤ A2.COUNT * A2.Store.BITS }
{
    begin(rt)?;
    let outcome = table.relay::<A2, O2>();
    end(rt, outcome.is_ok())?;
    match outcome {
        Ok(mut other) => {
            show_table(rt, "made", &other)?;
            show_kept(rt, "made", &mut other)
        }
        Err(_) => show_nothing(rt),
    }
}

/// `Reply::line`, or `Cause::line`, of what the last line of a script is answered.
pub fn answer_line_case<A: BitViewSized, O: WordPaths<A::Store> + Digits<A::Store>>(
    rt: &HostRuntime,
    script: &str,
) -> io::Result<()>
    requires { MAX_ROW_BITS ≤ A.COUNT * A.Store.BITS }
{
    let (lines, call) = script.rsplit_once(';').unwrap_or(("", ""));
    let Some(mut table) = table_of::<A, O>(rt.alloc(), lines)? else {
        return no_such_call(rt);
    };
    let Ok(command) = Command::parse(rt.alloc(), table.layout(), call.as_bytes()) else {
        return no_such_call(rt);
    };
    let answer = table.apply(&command);
    begin(rt)?;
    let outcome = match &answer {
        Ok(reply) => reply.line(rt.alloc()),
        Err(Fault::Refused(cause)) => cause.line(rt.alloc()),
        Err(Fault::Memory) => return no_such_call(rt),
    };
    end(rt, outcome.is_ok())?;
    match outcome {
        Ok(line) => show_line(rt, line.as_slice()),
        Err(_) => show_nothing(rt),
    }
}

// Writes a reply.
fn show_reply(rt: &HostRuntime, reply: &Reply) -> io::Result<()> {
    let line = reply.line(rt.alloc())?;
    show_line(rt, line.as_slice())
}

// Writes a line that has its line end.
fn show_line(rt: &HostRuntime, line: &[u8]) -> io::Result<()> {
    let mut text = String::new(rt.alloc());
    for byte in line {
        if *byte != b'\n' {
            text.push(char::from(*byte))?;
        }
    }
    println!(rt; "made {text}")
}

// Writes a table behind a word: how many rows it has, their bits, the letters that they bear, and the words that moves
// wrote.
fn show_table<A: BitViewSized, O: WordPaths<A::Store> + Digits<A::Store>>(
    rt: &HostRuntime,
    word: &str,
    table: &Table<A, O>,
) -> io::Result<()> {
    let mut text = String::new(rt.alloc());
    push_list(&mut text, &table.row_bits())?;
    text.push_str(" letters")?;
    for byte in b'a'..=b'z' {
        if let Some(letter) = Letter::new(byte) {
            let bits = table.letter_bits(letter);
            if bits.any() {
                text.push(' ')?;
                text.push(char::from(byte))?;
                push_list(&mut text, &bits)?;
            }
        }
    }
    text.push_str(" moved")?;
    for count in &table.moved() {
        write!(text, " {count}")?;
    }
    let rows = table.rows();
    println!(rt; "{word} {rows} {text}")
}

// Writes what a table keeps, which it does not after that.
fn show_kept<A: BitViewSized, O: WordPaths<A::Store> + Digits<A::Store>>(
    rt: &HostRuntime,
    word: &str,
    table: &mut Table<A, O>,
) -> io::Result<()> {
    if !table.back() {
        return println!(rt; "{word} nothing kept");
    }
    show_table(rt, word, table)
}
