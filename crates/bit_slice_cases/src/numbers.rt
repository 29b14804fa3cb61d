//! Whole numbers in a window.

ghost use Rattle.std.specs.Prelude.{◌+◌, ◌*◌, ◌≤◌, length};

use crate::case::Case;
use crate::memory::has_window;
use bit_addressing_sample_orders::texts::{push_words, read_words};
use bit_slice::{
    BitFieldMut, BitRegister, BitSliceMut, Bits, BitsWindow, FieldOrder, Integral, Part,
    store_load_be, store_load_le,
};
use std::alloc::{AllocError, Global};
use std::fmt;

/// What a call of a number is answered: the number that is loaded, and the memory. Its first word is the number's type, the
/// next a number that is stored and then loaded; `part` behind them makes the window a part of another.
pub fn hold_number<R: BitRegister, O: FieldOrder<R>>(
    alloc: Global,
    case: &Case<'_>,
) -> Result<String, AllocError> {
    let mut words = read_words::<R>(alloc, case.memory)?;
    if !has_window(&words, case.from, case.len) {
        return "no such window".to_string(alloc);
    }
    let mut text = String::new(alloc);
    if let "part" = case.third {
        let end = case.from + case.len;
        let mut whole = BitSliceMut::<R, O>::from_place_mut(&mut words, 0, end);
        hold_in_part(alloc, &mut text, &mut whole, case)?;
    } else {
        let mut view = BitSliceMut::<R, O>::from_place_mut(&mut words, case.from, case.len);
        hold_by_type(alloc, &mut text, &mut view, case)?;
    }
    push_words(&mut text, &words)?;
    Ok(text)
}

// The same in the last bits of a window.
fn hold_in_part<V: BitFieldMut + BitsWindow>(
    alloc: Global,
    text: &mut String,
    whole: &mut V,
    case: &Case<'_>,
) -> Result<(), AllocError>
    requires { case.now.from + case.now.len ≤ length (V.bits whole.old) }
{
    let mut part = Part::new(whole, case.from, case.len);
    hold_by_type(alloc, text, &mut part, case)
}

// The same by the type of the number.
fn hold_by_type<V: BitFieldMut>(
    alloc: Global,
    text: &mut String,
    view: &mut V,
    case: &Case<'_>,
) -> Result<(), AllocError> {
    let (call, value) = (case.call, case.second);
    match case.first {
        "u8" => hold::<V, u8>(alloc, text, view, call, value.parse::<u8>().ok()),
        "u16" => hold::<V, u16>(alloc, text, view, call, value.parse::<u16>().ok()),
        "u32" => hold::<V, u32>(alloc, text, view, call, value.parse::<u32>().ok()),
        "u64" => hold::<V, u64>(alloc, text, view, call, value.parse::<u64>().ok()),
        "u128" => hold::<V, u128>(alloc, text, view, call, value.parse::<u128>().ok()),
        "usize" => hold::<V, usize>(alloc, text, view, call, value.parse::<usize>().ok()),
        "i8" => hold::<V, i8>(alloc, text, view, call, value.parse::<i8>().ok()),
        "i16" => hold::<V, i16>(alloc, text, view, call, value.parse::<i16>().ok()),
        "i32" => hold::<V, i32>(alloc, text, view, call, value.parse::<i32>().ok()),
        "i64" => hold::<V, i64>(alloc, text, view, call, value.parse::<i64>().ok()),
        "i128" => hold::<V, i128>(alloc, text, view, call, value.parse::<i128>().ok()),
        "isize" => hold::<V, isize>(alloc, text, view, call, value.parse::<isize>().ok()),
        _ => text.push_str("no such type "),
    }
}

// The same at one type.
fn hold<V: BitFieldMut, M: Integral + fmt::Display>(
    alloc: Global,
    text: &mut String,
    view: &mut V,
    call: &str,
    value: Option<M>,
) -> Result<(), AllocError> {
    if view.is_empty() || view.len() > M::BITS as usize {
        return text.push_str("refused ");
    }
    let number = match (call, value) {
        ("load", _) => view.load::<M>(),
        ("load_le", _) => view.load_le::<M>(),
        ("load_be", _) => view.load_be::<M>(),
        ("store", Some(value)) => {
            view.store(value);
            view.load::<M>()
        }
        ("store_le", Some(value)) => store_load_le(view, value),
        ("store_be", Some(value)) => store_load_be(view, value),
        _ => return text.push_str("refused "),
    };
    text.push_str(format!(in alloc; "{number} ")?.as_str())
}
