//! Calls that write bits and parts of a window.

ghost use Rattle.std.specs.Prelude.{◌+◌, ◌*◌, ◌≤◌, length};

use crate::case::Case;
use crate::memory::{has_window, push_bit};
use bit_addressing_sample_orders::texts::{number, push_words};
use bit_slice::words::move_words;
use bit_slice::{
    BitOrder, BitRegister, Bits, BitsAccess, BitsCopy, BitsCut, BitsEdits, BitsMut, BitsWindow,
};
use std::alloc::{AllocError, Global};

/// Makes the call of a case, and answers whether it is one of these; what it tells goes into the text.
pub fn edit<V: BitsMut, W: Bits>(
    text: &mut String,
    view: &mut V,
    case: &Case<'_>,
    other: &W,
) -> Result<bool, AllocError> {
    let (a, b, c) = (number(case.first), number(case.second), number(case.third));
    let len = view.len();
    let is_within = c <= len && a <= len - c;
    match case.call {
        "set" if a < len => view.set(a, b == 1),
        "replace" if a < len => {
            let was = view.replace(a, b == 1);
            push_bit(text, was)?;
            text.push(' ')?;
        }
        "swap" if a < len && b < len => view.swap(a, b),
        "move" if is_within && b <= len - c => {
            let writes = view.move_within(a, b, c);
            text.push_str(amount(writes, case.fourth))?;
        }
        "copy_within" if a <= b && b <= len && c <= len && b - a <= len - c => {
            view.copy_within(a..b, c);
        }
        "write_part" if b <= len && other.len() <= len - b => view.write_part(b, other),
        "swap_parts" if is_within && b <= len - c && a + c <= b => view.swap_parts(a, b, c),
        "rotate_part" if is_within && b <= c => view.rotate_part(a, c, b),
        _ => return Ok(false),
    }
    Ok(true)
}

// Whether so many writes are no more than a word of the case says.
fn amount(writes: usize, most: &str) -> &'static str {
    if writes <= number(most) {
        "few "
    } else {
        "many "
    }
}

/// Moves the bits of a window to the place that the first word of the call says, in no more writes than the next one says,
/// and tells the memory.
pub fn move_stretch<R: BitRegister, O: BitOrder<R>>(
    alloc: Global,
    words: &mut [R],
    case: &Case<'_>,
) -> Result<String, AllocError>
    requires near { case.now.from ≤ 2048 }
    requires short { case.now.len ≤ 2048 }
    requires fits { case.now.from + case.now.len ≤ length words.old * R.BITS }
{
    let to = number(case.first);
    if !has_window(words, to, case.len) {
        return "no such window".to_string(alloc);
    }
    let writes = move_words::<R, O>(words, case.from, to, case.len);
    let mut text = amount(writes, case.second).to_string(alloc)?;
    push_words(&mut text, words)?;
    Ok(text)
}

/// Writes a bit or a part that a window lends, and answers whether the call is one of these.
pub fn lend_bits<V: BitsWindow>(view: &mut V, case: &Case<'_>) -> bool {
    let (a, b) = (number(case.first), number(case.second));
    match case.call {
        "first_mut" => {
            if let Some(bit) = view.first_mut() {
                bit.commit(a == 1);
            }
        }
        "last_mut" => {
            if let Some(bit) = view.last_mut() {
                bit.commit(a == 1);
            }
        }
        "get_mut" => {
            if let Some(mut bit) = view.get_mut(a) {
                bit.set(b == 1);
            }
        }
        "get_range_mut" => {
            if let Some(mut part) = view.get_mut(a..b) {
                part.fill(true);
            }
        }
        "range_mut" if a <= b && b <= view.len() => view.index_mut(a..b).invert(),
        _ => return false,
    }
    true
}

/// Writes both parts of a window: the first is flipped, the other turned round.
pub fn lend_halves<V: BitsWindow>(view: &mut V, case: &Case<'_>) -> bool {
    let a = number(case.first);
    match case.call {
        "split_at_mut" if a <= view.len() => {
            let mut pair = view.split_at_mut(a);
            pair.left_mut().invert();
            pair.right_mut().reverse();
        }
        "split_first_mut" => {
            if let Some(mut pair) = view.split_first_mut() {
                pair.left_mut().invert();
                pair.right_mut().reverse();
            }
        }
        "split_last_mut" => {
            if let Some(mut pair) = view.split_last_mut() {
                pair.left_mut().invert();
                pair.right_mut().reverse();
            }
        }
        _ => return false,
    }
    true
}
