//! Scripts carried out on a table line by line, with lines of this program's own, which begin with `!`.

ghost use Rattle.std.specs.Prelude.{◌*◌, ◌≤◌};
ghost use Rattle.bit_table_script.specs.LayoutLimits.{MAX_ROW_BITS};

use crate::text::{cut, meant, push_answer, push_bits};
use bit_table_script::{
    BitViewSized, Bits, BoolOp, Command, Digits, Fault, HiLo, Layout, Letter, Lsb0, Msb0, Steps,
    Table, WordPaths,
};
use std::alloc::{AllocError, Global};

/// What a table answers to the lines behind its layout line.
pub fn table_case<A: BitViewSized, O: WordPaths<A::Store> + Digits<A::Store>>(
    alloc: Global,
    script: &str,
) -> Result<String, AllocError>
    requires { MAX_ROW_BITS ≤ A.COUNT * A.Store.BITS }
{
    let mut text = String::new(alloc);
    let mut lines = script.split(';');
    let line = meant(alloc, lines.next().unwrap_or(""))?;
    let Ok(layout) = Layout::parse(alloc, line.as_slice()) else {
        return "no layout line".to_string(alloc);
    };
    let mut table = Table::<A, O>::new(alloc, layout);
    text.push_str("ok /")?;
    for line in lines {
        match line.strip_prefix('!') {
            Some(own) => own_line(&mut text, &mut table, own)?,
            None => {
                let answer = told(alloc, &mut table, line)?;
                push_answer(&mut text, answer.as_slice())?;
            }
        }
    }
    Ok(text)
}

// What a table answers to a line.
fn told<A: BitViewSized, O: WordPaths<A::Store> + Digits<A::Store>>(
    alloc: Global,
    table: &mut Table<A, O>,
    line: &str,
) -> Result<Vec<u8>, AllocError> {
    let line = meant(alloc, line)?;
    let command = match Command::parse(alloc, table.layout(), line.as_slice()) {
        Ok(command) => command,
        Err(fault) => return fault_line(alloc, fault),
    };
    match table.apply(&command) {
        Ok(reply) => reply.line(alloc),
        Err(fault) => fault_line(alloc, fault),
    }
}

fn fault_line(alloc: Global, fault: Fault) -> Result<Vec<u8>, AllocError> {
    let mut line = Vec::from_slice(alloc, format!(in alloc; "{fault}")?.as_bytes())?;
    line.push(b'\n')?;
    Ok(line)
}

// Carries out a line of this program's own, and writes what it answers.
fn own_line<A: BitViewSized, O: WordPaths<A::Store> + Digits<A::Store>>(
    text: &mut String,
    table: &mut Table<A, O>,
    line: &str,
) -> Result<(), AllocError>
    requires { MAX_ROW_BITS ≤ A.COUNT * A.Store.BITS }
{
    text.push(' ')?;
    let (name, rest) = cut(line);
    match name {
        "bits" => push_bits(text, &table.row_bits())?,
        "letters" => push_letters(text, table)?,
        "moved" => push_moved(text, &table.moved())?,
        "relay" => relay(text, table, rest)?,
        _ => combine(text, table, name, rest)?,
    }
    text.push_str(" /")
}

// Hands the table on to another storage and takes it back from there, and writes the bits of the rows in between.
fn relay<A: BitViewSized, O: WordPaths<A::Store> + Digits<A::Store>>(
    text: &mut String,
    table: &mut Table<A, O>,
    storage: &str,
) -> Result<(), AllocError>
    requires { MAX_ROW_BITS ≤ A.COUNT * A.Store.BITS }
{
    match storage {
        "u8 msb0" => through::<A, O, [u8; 128], Msb0>(text, table),
        "u16 hilo" => through::<A, O, [u16; 64], HiLo>(text, table),
        "u32 lsb0" => through::<A, O, [u32; 32], Lsb0>(text, table),
        "u64 msb0" => through::<A, O, [u64; 16], Msb0>(text, table),
        _ => text.push_str("no such storage"),
    }
}

fn through<A, O, A2, O2>(text: &mut String, table: &mut Table<A, O>) -> Result<(), AllocError>
where
    A: BitViewSized,
    O: WordPaths<A::Store> + Digits<A::Store>,
    A2: BitViewSized,
    O2: WordPaths<A2::Store> + Digits<A2::Store>,
    requires own { MAX_ROW_BITS ≤ A.COUNT * A.Store.BITS }
    requires other { MAX_ROW_BITS ≤ A2.COUNT * A2.Store.BITS }
{
    let other = table.relay::<A2, O2>()?;
    push_bits(text, &other.row_bits())?;
    *table = other.relay::<A, O>()?;
    Ok(())
}

// Combines two letters, and writes how many word steps it took.
fn combine<A: BitViewSized, O: WordPaths<A::Store> + Digits<A::Store>>(
    text: &mut String,
    table: &mut Table<A, O>,
    name: &str,
    letters: &str,
) -> Result<(), AllocError> {
    let op = match name {
        "and" => BoolOp::And,
        "or" => BoolOp::Or,
        "xor" => BoolOp::Xor,
        _ => return text.push_str("no such line"),
    };
    let (first, second) = cut(letters);
    let (Some(x), Some(y)) = (letter(first), letter(second)) else {
        return text.push_str("no such letter");
    };
    let mut steps = Steps::new();
    table.combine(op, x, y, &mut steps);
    let taken = steps.taken();
    write!(text, "{taken}")
}

// The letter that a word begins with.
fn letter(word: &str) -> Option<Letter> {
    match word.as_bytes() {
        [byte, ..] => Letter::new(*byte),
        [] => None,
    }
}

// Writes the letters that rows bear, each with a bit for each row.
fn push_letters<A: BitViewSized, O: WordPaths<A::Store> + Digits<A::Store>>(
    text: &mut String,
    table: &Table<A, O>,
) -> Result<(), AllocError> {
    text.push_str("letters")?;
    for byte in b'a'..=b'z' {
        if let Some(letter) = Letter::new(byte) {
            let bits = table.letter_bits(letter);
            if bits.any() {
                text.push(' ')?;
                text.push(char::from(byte))?;
                push_bits(text, &bits)?;
            }
        }
    }
    Ok(())
}

// Writes how many words the last move of rows wrote, that of the rows first and then that of each letter.
fn push_moved(text: &mut String, moved: &[usize; 27]) -> Result<(), AllocError> {
    text.push_str("moved")?;
    for count in moved {
        write!(text, " {count}")?;
    }
    Ok(())
}
