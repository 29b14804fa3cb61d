//! Bits rotated: those that leave a stretch at one end come in at the other.

ghost use Rattle.std.specs.Prelude.{◌+◌, ◌-◌, ◌≤◌};
ghost use Rattle.bit_addressing_memory.specs.Prelude.{Lies, entry, read_by, Overwrites};
ghost use Rattle.bit_slice_paths.specs.Rotations.{rotated_from};

use crate::reverse::reverse_in;
use bit_addressing_memory::{BitOrder, BitRegister, BulkOp, bit_loop_limit};
use bit_slice_paths::rotation;

/// Moves each of `len` bits of a memory, those from `place` on, `by` places towards the first of them; the
/// first `by` become the last. They lie in the memory, `place + len` fits a `usize`, and `by` is at most `len`.
/// Every other bit of the memory stays.
///
/// What `rotate_left` of a bitvec slice does.
pub fn rotate_left_in<R: BitRegister, O: BitOrder<R>>(
    words: &mut [R],
    place: usize,
    len: usize,
    by: usize,
)
    requires lies { Lies R.BITS words.old place len }
    requires most { by ≤ len }
    ensures rotated { Overwrites (read_by R.BitRegister O.position) words.old words.new place len
        (λ k. entry (read_by R.BitRegister O.position) words.old (place + rotated_from len by k)) }
{
    if len <= bit_loop_limit::<R, O>(BulkOp::Rotate) {
        rotate_by_turns::<R, O>(words, place, len, by);
        return;
    }
    rotation::rotate::<R, O>(words, place, len, by);
}

// The same, by reversals. Each of the two parts is turned round, and then the whole:
//
//     a b c | d e f g     c b a | g f e d     d e f g | a b c
fn rotate_by_turns<R: BitRegister, O: BitOrder<R>>(
    words: &mut [R],
    place: usize,
    len: usize,
    by: usize,
)
    requires lies { Lies R.BITS words.old place len }
    requires most { by ≤ len }
    ensures rotated { Overwrites (read_by R.BitRegister O.position) words.old words.new place len
        (λ k. entry (read_by R.BitRegister O.position) words.old (place + rotated_from len by k)) }
{
    reverse_in::<R, O>(words, place, by);
    reverse_in::<R, O>(words, place + by, len - by);
    reverse_in::<R, O>(words, place, len);
}

/// Moves each of `len` bits of a memory, those from `place` on, `by` places towards the last of them; the last
/// `by` become the first. They lie in the memory, `place + len` fits a `usize`, and `by` is at most `len`.
/// Every other bit of the memory stays.
///
/// What `rotate_right` of a bitvec slice does: a rotation to the left by the other `len - by` places.
pub fn rotate_right_in<R: BitRegister, O: BitOrder<R>>(
    words: &mut [R],
    place: usize,
    len: usize,
    by: usize,
)
    requires lies { Lies R.BITS words.old place len }
    requires most { by ≤ len }
    ensures rotated { Overwrites (read_by R.BitRegister O.position) words.old words.new place len
        (λ k. entry (read_by R.BitRegister O.position) words.old (place + rotated_from len (len - by) k)) }
{
    rotate_left_in::<R, O>(words, place, len, len - by);
}
