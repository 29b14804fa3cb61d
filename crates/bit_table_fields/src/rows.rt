//! A row of numbers in bits of whatever shows them, by the fields of a layout.

ghost use Rattle.std.specs.Prelude.{◌≡◌, ◌+◌, ◌≤◌, length, take, IfOk, OnOk};
ghost use Rattle.bit_addressing_memory.specs.Memory.{piece, with_piece};
ghost use Rattle.bit_slice_words.specs.Steps.{Takes};
ghost use Rattle.bit_table_layout.specs.Layouts.{row_width};
ghost use Rattle.bit_table_layout.specs.Readings.{numbers_from};
ghost use Rattle.bit_table_layout.specs.Rows.{numbers_bits};

use crate::digits::Digits;
use crate::numbers::{load_number, store_number};
use bit_slice_views::Bits;
use bit_slice_views_mut::BitsMut;
use bit_slice_words::Steps;
use bit_table_layout::Layout;
use std::alloc::{AllocError, Global};

/// Makes the bits from `at` on, as many as a row has, those of a row of these numbers, one a field. Of each number its
/// lowest digits are stored, as many as its field has. Every other bit stays.
///
/// The word steps that this takes are counted: one a field at least.
pub fn store_row<V: BitsMut>(
    view: &mut V,
    at: usize,
    layout: &Layout,
    values: &[i128],
    steps: &mut Steps,
)
where
    V::Order: Digits<V::Store>,
    requires count { length values.now ≡ length layout.now.fields }
    requires within { at + row_width layout.now.fields ≤ length (V.bits view.old) }
    ensures bits { V.bits view.new
        ≡ with_piece (V.bits view.old) at (numbers_bits layout.now.rule layout.now.fields values.now) }
    ensures len { length (V.bits view.new) ≡ length (V.bits view.old) }
    ensures frame { V.frame view.new ≡ V.frame view.old }
    ensures steps { Takes steps.old steps.new (length layout.now.fields) (row_width layout.now.fields) }
{
    // As many bits as a `usize` counts, and so each field's place is one.
    let _bits = view.len();
    let rule = layout.rule();
    let fields = layout.fields();
    let mut place = at;
    for index in 0..fields.len() {
        let width = fields[index].width();
        store_number(view, place, rule, width, values[index], steps);
        place += width as usize;
    }
}

/// The numbers of the row whose bits stand from `at` on, one a field.
///
/// The word steps that this takes are counted: one a field at least.
pub fn load_row<V: Bits>(
    alloc: Global,
    view: &V,
    at: usize,
    layout: &Layout,
    steps: &mut Steps,
) -> Result<Vec<i128>, AllocError>
where
    V::Order: Digits<V::Store>,
    requires { at + row_width layout.now.fields ≤ length (V.bits view.now) }
    ensures value { IfOk result (λ numbers. numbers.items ≡ numbers_from layout.now.rule layout.now.fields
        (piece (V.bits view.now) at (row_width layout.now.fields))) }
    ensures steps { OnOk result (Takes steps.old steps.new (length layout.now.fields) (row_width layout.now.fields)) }
{
    // As many bits as a `usize` counts, and so each field's place is one.
    let _bits = view.len();
    let rule = layout.rule();
    let fields = layout.fields();
    let mut numbers = Vec::new(alloc);
    let mut place = at;
    for index in 0..fields.len() {
        let field = &fields[index];
        let width = field.width();
        let signed = field.signed();
        numbers.push(load_number(view, place, rule, width, signed, steps))?;
        place += width as usize;
    }
    Ok(numbers)
}

/// How many bits of a row lie before those of a field, or, for the number of fields, how many a row has.
pub fn bits_before(layout: &Layout, field: usize) -> usize
    requires { field ≤ length layout.now.fields }
    ensures { result ≡ row_width (take field layout.now.fields) }
{
    let fields = layout.fields();
    let mut bits = 0;
    for index in 0..field {
        bits += fields[index].width() as usize;
    }
    bits
}
