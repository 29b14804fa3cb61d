//! Calls that write a list in place, and words of it.

ghost use Rattle.std.specs.Prelude.{◌≡◌, ◌<◌, length};
ghost use Rattle.bit_containers.specs.Sweep.{IsFresh, sweep_lender, sweep_words};
ghost use Rattle.bit_containers.specs.SweepWays.{way_for};

use crate::call::Call;
use crate::looks::look;
use crate::shown::push_bit;
use bit_addressing_sample_orders::texts::number;
use bit_containers::{BitRegister, Bits, BitsAccess, BitsFill, BitsMut, Sweep};
use std::alloc::{AllocError, Global};

/// Makes a call that reads or writes a window that is lent; whether it is one of these.
pub fn on_lent<V: BitsMut, W: Bits>(
    alloc: Global,
    text: &mut String,
    lent: &mut V,
    call: &Call<'_>,
    other: &W,
) -> Result<bool, AllocError> {
    if look(alloc, text, &*lent, call, other)? {
        return Ok(true);
    }
    write(text, lent, call, other)
}

/// Makes a call that writes a list in place, with another list perhaps; whether the call is one of these.
pub fn write<V: BitsMut, W: Bits>(
    text: &mut String,
    view: &mut V,
    call: &Call<'_>,
    other: &W,
) -> Result<bool, AllocError> {
    let (a, b, c) = (number(call.first), number(call.second), number(call.third));
    let len = view.len();
    match call.name {
        "fill" => view.fill(a == 1),
        "fill_odd" => view.fill_with(is_odd),
        "invert" => view.invert(),
        "reverse" => view.reverse(),
        "rotate" if a <= len => view.rotate_left(a),
        "rotate_right" if a <= len => view.rotate_right(a),
        "shift_left" => view.shift_left(a),
        "shift_right" => view.shift_right(a),
        "set" if a < len => view.set(a, b == 1),
        "set_lent" => return Ok(set_lent(view, a, b == 1)),
        "replace" if a < len => push_bit(text, Some(view.replace(a, b == 1)))?,
        "swap" if a < len && b < len => view.swap(a, b),
        "move" if c <= len && a <= len - c && b <= len - c => {
            view.move_within(a, b, c);
        }
        "and" => view.and_bits(other),
        "or" => view.or_bits(other),
        "xor" => view.xor_bits(other),
        "take" if other.len() == len => view.clone_from_bitslice(other),
        _ => return Ok(false),
    }
    Ok(true)
}

// Sets a bit through what is lent of it, and says whether there is one.
fn set_lent<V: BitsMut>(view: &mut V, i: usize, bit: bool) -> bool {
    match view.get_mut(i) {
        Some(mut lent) => {
            lent.set(bit);
            true
        }
        None => false,
    }
}

// Whether an index is odd.
fn is_odd(index: usize) -> bool {
    index % 2 == 1
}

/// Writes one of some words.
pub fn put_word<R: BitRegister>(words: &mut [R], k: usize, word: R)
    ensures { length words.new ≡ length words.old }
{
    if k < words.len() {
        words[k] = word;
    }
}

/// Writes one of the words of a sweep.
pub fn put_swept<R: BitRegister>(sweep: &mut Sweep<'_, R>, k: usize, word: R)
    requires fresh { IsFresh sweep.old (way_for k k) }
    requires within { k < length (sweep_words sweep.old) }
    ensures lender { sweep_lender sweep.new ≡ sweep_lender sweep.old }
    ensures len { length (sweep_words sweep.new) ≡ length (sweep_words sweep.old) }
{
    sweep.put(k, word);
}
