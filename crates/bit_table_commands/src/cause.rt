//! What refuses a command.
ghost use Rattle.std.specs.Prelude.{◌≡◌, ◌*◌, ◌≤◌, ◌^◌};
ghost use Rattle.std.specs.Option.{option_copied};
ghost use Rattle.bit_table_layout.specs.Layouts.{row_width};
ghost use Rattle.bit_table_layout.specs.Rows.{take_all};
ghost use Rattle.bit_table_commands.specs.Causes.{cause_in, field_at, is_in_range, is_taken, nothing_kept};
ghost use Rattle.bit_table_commands.specs.Causes.{wrong_field, wrong_form, wrong_image, wrong_value};
ghost use Rattle.bit_table_commands.specs.CauseSteps.{rows_counted, rows_loaded};
ghost use Rattle.bit_table_commands.specs.CuttingOff.{CuttingOffChangesNothing};
ghost use Rattle.bit_table_commands.specs.Tables.{TableShape, IsTableOf};

use super::command::Command;
use bit_table_layout::{Cause, Field, Layout, MAX_BITS, image};

impl Command {
    /// The first cause that refuses the command in a table of this layout with so many rows, where rows are kept or
    /// not: `Form` for an insertion that has not one value a field, `Field` for a field that the layout lacks, `Row`
    /// for a row number out of range, `Value` for a number that its field does not take, `Full` where the rows after
    /// the command would have more than `MAX_BITS` bits, `Image` for bytes that are no image of so many rows, `Kept`
    /// where the command wants kept rows and none are kept.
    pub fn cause(&self, layout: &Layout, rows: usize, kept: bool) -> Option<Cause>
        ensures { (t : TableShape) → IsTableOf layout.now rows kept t → result ≡ cause_in t self.now }
    {
        if self.has_wrong_form(layout) {
            return Some(Cause::Form);
        }
        if self.has_wrong_field(layout) {
            return Some(Cause::Field);
        }
        if !self.is_in_range(rows as u64) {
            return Some(Cause::Row);
        }
        if self.has_wrong_value(layout) {
            return Some(Cause::Value);
        }
        if self.rows_counted(rows as u64) * layout.row_bits() as u128 > MAX_BITS as u128 {
            return Some(Cause::Full);
        }
        if self.has_wrong_image(layout) {
            return Some(Cause::Image);
        }
        if self.lacks_kept(kept) {
            return Some(Cause::Kept);
        }
        None
    }

    // Whether an insertion has not one value a field.
    fn has_wrong_form(&self, layout: &Layout) -> bool
        ensures { result ≡ wrong_form layout.now self.now }
    {
        match self {
            Command::Insert { values, .. } => values.as_slice().len() != layout.fields().len(),
            _ => false,
        }
    }

    // Whether the layout lacks the field.
    fn has_wrong_field(&self, layout: &Layout) -> bool
        ensures { result ≡ wrong_field layout.now self.now }
    {
        match self {
            Command::Set { field, .. } | Command::Mark { field, .. } => {
                field_at(layout, *field).is_none()
            }
            _ => false,
        }
    }

    // Whether the row numbers are in range, where there are so many rows.
    fn is_in_range(&self, rows: u64) -> bool
        ensures { result ≡ is_in_range rows self.now }
    {
        match self {
            Command::Insert { place, .. } => *place <= rows,
            Command::Set { row, .. } | Command::Get { row } => *row < rows,
            Command::Swap { row, other } => *row < rows && *other < rows,
            Command::Delete { start, upto } | Command::Dup { start, upto } => {
                *start <= *upto && *upto <= rows
            }
            Command::Copy { start, upto, place } => {
                *start <= *upto && *upto <= rows && *place <= rows - (*upto - *start)
            }
            Command::Rotate {
                start,
                upto,
                amount,
            } => *start <= *upto && *upto <= rows && *amount <= *upto - *start,
            _ => true,
        }
    }

    // Whether a field does not take its number.
    fn has_wrong_value(&self, layout: &Layout) -> bool
        ensures { result ≡ wrong_value layout.now self.now }
    {
        match self {
            Command::Insert { values, .. } => !take_all(layout.fields(), values.as_slice()),
            Command::Set { field, value, .. } | Command::Mark { field, value, .. } => {
                !is_taken(layout, *field, *value)
            }
            _ => false,
        }
    }

    // Whether bytes are no image of so many rows.
    fn has_wrong_image(&self, layout: &Layout) -> bool
        requires { rows_loaded self.now * row_width layout.now.fields ≤ MAX_BITS }
        ensures { result ≡ wrong_image layout.now self.now }
    {
        match self {
            Command::Load { rows, bytes } => {
                !image::is_image(layout, *rows as usize, bytes.as_slice())
            }
            _ => false,
        }
    }

    // Whether the command wants kept rows, and none are kept.
    fn lacks_kept(&self, kept: bool) -> bool
        ensures { result ≡ nothing_kept kept self.now }
    {
        match self {
            Command::Back => !kept,
            _ => false,
        }
    }

    // How many rows need room, where there are so many before the command.
    fn rows_counted(&self, rows: u64) -> u128
        ensures value { result ≡ rows_counted rows self.now }
        ensures few { result ≤ 2 ^ 65 }
    {
        match self {
            Command::Insert { .. } => u128::from(rows) + 1,
            Command::Dup { start, upto } => {
                u128::from(rows) + u128::from(upto.saturating_sub(*start))
            }
            Command::Load { rows, .. } => u128::from(*rows),
            _ => u128::from(rows),
        }
    }
}

// The field of this place, if the layout has one.
fn field_at<'a>(layout: &'a Layout, place: Option<usize>) -> Option<&'a Field>
    ensures { option_copied result ≡ field_at layout.now place }
{
    layout.fields().get(place?)
}

// Whether a field of the layout takes the number.
fn is_taken(layout: &Layout, place: Option<usize>, value: i128) -> bool
    ensures { result ≡ is_taken layout.now place value }
{
    match field_at(layout, place) {
        Some(field) => field.takes(value),
        None => false,
    }
}

// Whether there is one number a field, and each field takes its number.
fn take_all(fields: &[Field], values: &[i128]) -> bool
    ensures { result ≡ take_all fields.now values.now }
{
    fields.len() == values.len()
        && fields
            .iter()
            .zip(values)
            .all(|(field, value)| field.takes(*value))
}

/// Cutting off a command's numbers, as `Command` keeps them, changes neither the cause that refuses it nor, where none
/// does, its edit and its reply: a law, which the contract states.
pub fn cutting_off_changes_nothing()
    ensures { CuttingOffChangesNothing }
{}
