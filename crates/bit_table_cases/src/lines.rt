//! Lines over a layout: which command each spells, and what refuses it.

use crate::text::{cut, meant};
use bit_addressing_sample_orders::texts::number;
use bit_table_script::{Command, Layout, Rule};
use std::alloc::{AllocError, Global};

/// The layout of a text's first line, told, and the commands that its other lines spell.
pub fn commands(alloc: Global, script: &str) -> Result<String, AllocError> {
    let mut text = String::new(alloc);
    let mut lines = script.split(';');
    let line = meant(alloc, lines.next().unwrap_or(""))?;
    match Layout::parse(alloc, line.as_slice()) {
        Ok(layout) => {
            push_layout(&mut text, &layout)?;
            for line in lines {
                let line = meant(alloc, line)?;
                match Command::parse(alloc, &layout, line.as_slice()) {
                    Ok(command) => write!(text, " / {command:?}")?,
                    Err(fault) => write!(text, " / {fault}")?,
                }
            }
        }
        Err(error) => write!(text, "{error}")?,
    }
    Ok(text)
}

// Writes a layout: its rule, how many bits a row has, and its fields.
fn push_layout(text: &mut String, layout: &Layout) -> Result<(), AllocError> {
    let rule = match layout.rule() {
        Rule::Low => "low",
        Rule::High => "high",
    };
    let bits = layout.row_bits();
    write!(text, "{rule} {bits}")?;
    for field in layout.fields() {
        let (name, width) = (field.name(), field.width());
        let sign = if field.signed() { 'i' } else { 'u' };
        write!(text, " {name}:{sign}{width}")?;
    }
    Ok(())
}

/// What refuses the lines behind a layout line, in a table of so many rows, where rows are kept or not.
pub fn causes(alloc: Global, rest: &str) -> Result<String, AllocError> {
    let (rows, rest) = cut(rest);
    let (kept, script) = cut(rest);
    let mut text = String::new(alloc);
    let mut lines = script.split(';');
    let line = meant(alloc, lines.next().unwrap_or(""))?;
    let Ok(layout) = Layout::parse(alloc, line.as_slice()) else {
        return "no layout line".to_string(alloc);
    };
    for line in lines {
        let line = meant(alloc, line)?;
        let word = match Command::parse(alloc, &layout, line.as_slice()) {
            Ok(command) => match command.cause(&layout, number(rows), kept == "kept") {
                Some(cause) => cause.word(),
                None => "none",
            },
            Err(_) => "no command",
        };
        if !text.is_empty() {
            text.push_str(" / ")?;
        }
        text.push_str(word)?;
    }
    Ok(text)
}
