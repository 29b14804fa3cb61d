//! Commands, read without memory.
ghost use Rattle.std.specs.Prelude.{◌≡◌, IfOk, map, option_map};
ghost use Rattle.bit_table_layout.specs.LineWordsLeft.{words_left};
ghost use Rattle.bit_table_commands.specs.Commands.{alone, command_named, command_of, cut_off, field_and_value};
ghost use Rattle.bit_table_commands.specs.Commands.{field_in, field_place, field_test_value, insert_in, load_in};
ghost use Rattle.bit_table_commands.specs.Commands.{mark_in, set_in, two_letters};
ghost use Rattle.bit_table_commands.specs.CommandSteps.{are_values, bytes_of_digits, command_read, cut_field};
ghost use Rattle.bit_table_commands.specs.CommandSteps.{cut_field_test, value_in};
ghost use Rattle.bit_table_commands.specs.declared.command.Command.TheVariants.{Combine};

use super::command::{Command, Values};
use super::mark_words::{digits_of_bytes, letter, one_letter, test_and_value, two_letters};
use super::name::Name;
use super::number_words::{
    one_number, one_value, row_number, three_numbers, two_numbers, whole_number,
};
use super::reply::ImageBytes;
use super::test::Test;
use bit_table_layout::{BoolOp, Layout, Words, is_name};
use std::alloc::{AllocError, Global};

// A command that a line spells, while the list that it is to hold, if any, still lies in the line.
#[derive(Drop)]
pub(crate) enum Reading<'a> {
    Insert { place: u64, values: Words<'a> },
    Load { rows: u64, digits: &'a [u8] },
    Ready(Command),
}

impl<'a> Reading<'a> {
    // The command, with its list in memory of its own.
    pub(crate) fn into_command(self, alloc: Global) -> Result<Command, AllocError>
        ensures { IfOk result (λ command. command ≡ command_read self.entry) }
    {
        match self {
            Reading::Insert { place, values } => Ok(Command::Insert {
                place,
                values: Values::new(read_values(alloc, values)?),
            }),
            Reading::Load { rows, digits } => Ok(Command::Load {
                rows,
                bytes: ImageBytes::new(read_bytes(alloc, digits)?),
            }),
            Reading::Ready(command) => Ok(command),
        }
    }
}

// Reads the command that a line spells.
#[tactic(auto, unfolding(crate::specs::Commands::command_of))]
pub(crate) fn read<'a>(layout: &Layout, line: &'a [u8]) -> Option<Reading<'a>>
    ensures { option_map command_read result ≡ option_map cut_off (command_of layout.now line.now) }
{
    let mut words = Words::new(line);
    let name = Name::of(words.next()?)?;
    read_named(layout, name, words)
}

// Reads a command of this name behind its first word.
fn read_named<'a>(layout: &Layout, name: Name, words: Words<'a>) -> Option<Reading<'a>>
    ensures { option_map command_read result
        ≡ option_map cut_off (command_named layout.now name (words_left words.entry)) }
{
    let command = match name {
        Name::Insert => return read_insert(layout, words),
        Name::Set => return read_set(layout, words),
        Name::Load => return read_load(words),
        Name::Mark => return read_mark(layout, words),
        Name::Image => return read_alone(Command::Image, words),
        Name::Keep => return read_alone(Command::Keep, words),
        Name::Back => return read_alone(Command::Back, words),
        Name::Get => {
            let row = one_number(words)?;
            Command::Get { row }
        }
        Name::And => read_combine(BoolOp::And, words)?,
        Name::Or => read_combine(BoolOp::Or, words)?,
        Name::Xor => read_combine(BoolOp::Xor, words)?,
        Name::Not => Command::Not(one_letter(words)?),
        Name::Count => Command::Count(one_letter(words)?),
        Name::List => Command::List(one_letter(words)?),
        Name::Drop => Command::Drop(one_letter(words)?),
        Name::Delete => {
            let (start, upto) = two_numbers(words)?;
            Command::Delete { start, upto }
        }
        Name::Swap => {
            let (row, other) = two_numbers(words)?;
            Command::Swap { row, other }
        }
        Name::Dup => {
            let (start, upto) = two_numbers(words)?;
            Command::Dup { start, upto }
        }
        Name::Copy => {
            let (start, upto, place) = three_numbers(words)?;
            Command::Copy { start, upto, place }
        }
        Name::Rotate => {
            let (start, upto, amount) = three_numbers(words)?;
            Command::Rotate {
                start,
                upto,
                amount,
            }
        }
    };
    Some(Reading::Ready(command))
}

// Reads a command behind whose first word no word may follow.
fn read_alone<'a>(command: Command, mut words: Words<'a>) -> Option<Reading<'a>>
    ensures { option_map command_read result ≡ alone command (words_left words.entry) }
{
    match words.next() {
        None => Some(Reading::Ready(command)),
        Some(_) => None,
    }
}

// Reads an insertion behind its first word: a row number and one value a field.
fn read_insert<'a>(layout: &Layout, mut words: Words<'a>) -> Option<Reading<'a>>
    ensures { option_map command_read result ≡ option_map cut_off (insert_in layout.now (words_left words.entry)) }
{
    let place = row_number(words.next()?)?;
    if are_values(layout.fields().len(), words) {
        Some(Reading::Insert {
            place,
            values: words,
        })
    } else {
        None
    }
}

// Reads a change of a number behind its first word: a row number, a field's name and a value.
fn read_set<'a>(layout: &Layout, mut words: Words<'a>) -> Option<Reading<'a>>
    ensures { option_map command_read result ≡ option_map cut_off (set_in layout.now (words_left words.entry)) }
{
    let row = row_number(words.next()?)?;
    let (field, value) = field_and_value(layout, words)?;
    Some(Reading::Ready(Command::Set { row, field, value }))
}

// Reads a load behind its first word: a row count, and bytes.
fn read_load<'a>(mut words: Words<'a>) -> Option<Reading<'a>>
    ensures { option_map command_read result ≡ option_map cut_off (load_in (words_left words.entry)) }
{
    let rows = row_number(words.next()?)?;
    let digits = digits_of_bytes(words)?;
    Some(Reading::Load { rows, digits })
}

// Reads a mark behind its first word: a letter, a field's name, a test and a value.
fn read_mark<'a>(layout: &Layout, mut words: Words<'a>) -> Option<Reading<'a>>
    ensures { option_map command_read result ≡ option_map cut_off (mark_in layout.now (words_left words.entry)) }
{
    let letter = letter(words.next()?)?;
    let (field, test, value) = field_test_value(layout, words)?;
    Some(Reading::Ready(Command::Mark {
        letter,
        field,
        test,
        value,
    }))
}

// Reads a combination behind its first word: two letters.
fn read_combine(op: BoolOp, words: Words) -> Option<Command>
    ensures { result ≡ option_map (λ xy. Combine op xy.0 xy.1) (two_letters (words_left words.entry)) }
{
    let (letter, other) = two_letters(words)?;
    Some(Command::Combine { op, letter, other })
}

// A field's name, as the place of the field if there is one, a test and a value, and nothing more.
fn field_test_value(layout: &Layout, mut words: Words) -> Option<(Option<usize>, Test, i128)>
    ensures { result ≡ option_map cut_field_test (field_test_value layout.now (words_left words.entry)) }
{
    let field = field_in(layout, words.next()?)?;
    let (test, value) = test_and_value(words)?;
    Some((field, test, value))
}

// A field's name, as the place of the field if there is one, and a value, and nothing more.
fn field_and_value(layout: &Layout, mut words: Words) -> Option<(Option<usize>, i128)>
    ensures { result ≡ option_map cut_field (field_and_value layout.now (words_left words.entry)) }
{
    let field = field_in(layout, words.next()?)?;
    let value = one_value(words)?;
    Some((field, value))
}

// What a word of the shape of a name is to the layout: the place of its field, if there is one.
fn field_in(layout: &Layout, word: &[u8]) -> Option<Option<usize>>
    ensures { result ≡ field_in layout.now word.now }
{
    if is_name(word) {
        Some(field_place(layout, word))
    } else {
        None
    }
}

// The place of the field of this name, if the layout has one.
fn field_place(layout: &Layout, name: &[u8]) -> Option<usize>
    ensures { result ≡ field_place layout.now name.now }
{
    layout
        .fields()
        .iter()
        .position(|field| field.name().as_bytes() == name)
}

// Whether so many words are left, each of which spells a value.
fn are_values(count: usize, mut words: Words) -> bool
    ensures { result ≡ are_values count (words_left words.entry) }
{
    let mut left = count;
    while let Some(word) = words.next() {
        if left == 0 || whole_number(word).is_none() {
            return false;
        }
        left -= 1;
    }
    left == 0
}

// The values that the words that are left spell.
fn read_values(alloc: Global, mut words: Words) -> Result<Vec<i128>, AllocError>
    ensures { IfOk result (λ values. values.items ≡ map value_in (words_left words.entry)) }
{
    let mut values = Vec::new(alloc);
    while let Some(word) = words.next() {
        values.push(whole_number(word).unwrap_or(0))?;
    }
    Ok(values)
}

// The bytes of hexadecimal digits.
fn read_bytes(alloc: Global, digits: &[u8]) -> Result<Vec<u8>, AllocError>
    ensures { IfOk result (λ bytes. bytes.items ≡ bytes_of_digits digits.now) }
{
    match hex::decode(alloc, digits) {
        Ok(bytes) => Ok(bytes),
        Err(_) => Err(AllocError),
    }
}
