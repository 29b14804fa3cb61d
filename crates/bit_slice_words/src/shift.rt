//! Bits shifted: those that leave a stretch at one end are gone, and zeros come in at the other.

ghost use Rattle.std.specs.Prelude.{◌+◌, ◌-◌, false, nat_lt, if◌then◌else◌};
ghost use Rattle.bit_addressing_memory.specs.Prelude.{Lies, entry, read_by, Overwrites};

use crate::fill::fill_in;
use crate::moves::move_words;
use bit_addressing_memory::{BitOrder, BitRegister};

/// Moves each of `len` bits of a memory, those from `place` on, `by` places towards the first of them; the
/// first `by` are gone, and the last `by` are zeros. They lie in the memory, and `place + len` fits a `usize`.
/// Every other bit of the memory stays.
///
/// What `shift_left` of a bitvec slice does. That all bits become zeros where `by` is `len` or more is this
/// port's rule.
#[tactic(auto, using(crate::proofs::ShiftLemmas::shift_steps))]
pub fn shift_left_in<R: BitRegister, O: BitOrder<R>>(
    words: &mut [R],
    place: usize,
    len: usize,
    by: usize,
)
    requires lies { Lies R.BITS words.old place len }
    ensures shifted { Overwrites (read_by R.BitRegister O.position) words.old words.new place len
        (λ k. if nat_lt (k + by) len
        then entry (read_by R.BitRegister O.position) words.old (place + (k + by)) else false) }
{
    if by >= len {
        fill_in::<R, O>(words, place, len, false);
        return;
    }
    let kept = len - by;
    move_words::<R, O>(words, place + by, place, kept);
    fill_in::<R, O>(words, place + kept, by, false);
}

/// Moves each of `len` bits of a memory, those from `place` on, `by` places towards the last of them; the
/// last `by` are gone, and the first `by` are zeros. They lie in the memory, and `place + len` fits a `usize`.
/// Every other bit of the memory stays.
///
/// What `shift_right` of a bitvec slice does. That all bits become zeros where `by` is `len` or more is this
/// port's rule.
#[tactic(auto, using(crate::proofs::ShiftLemmas::shift_steps))]
pub fn shift_right_in<R: BitRegister, O: BitOrder<R>>(
    words: &mut [R],
    place: usize,
    len: usize,
    by: usize,
)
    requires lies { Lies R.BITS words.old place len }
    ensures shifted { Overwrites (read_by R.BitRegister O.position) words.old words.new place len
        (λ k. if nat_lt k by
        then false else entry (read_by R.BitRegister O.position) words.old (place + (k - by))) }
{
    if by >= len {
        fill_in::<R, O>(words, place, len, false);
        return;
    }
    move_words::<R, O>(words, place, place + by, len - by);
    fill_in::<R, O>(words, place, by, false);
}
