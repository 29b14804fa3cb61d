//! Bits of one memory rotated: those that leave a stretch at one end come in at the other. Up to 64 are held aside while the
//! others are moved, and so again until all have left; of many more the shorter part is first exchanged with as many at the
//! other end, and is in place.

ghost use Rattle.std.specs.Prelude.{◌≡◌, ◌+◌, ◌-◌, ◌<◌, ◌≤◌, true};
ghost use Rattle.bit_addressing_memory.specs.Prelude.{Lies, entry, read_by, Copies, Overwrites};
ghost use Rattle.bit_slice_paths.specs.Rotations.{rotated_from, to_start};

use crate::exchange::exchange;
use bit_addressing_memory::{
    BitOrder, BitRegister, Direction, ROTATED_BY_MOVES, Sweep, move_in, way_for,
};
use bit_slice_chunks::any_order::{direction_for, read_bits, write_bits};

// Moves bits to another place of the same memory. The two stretches may overlap. Out of line, so that a rotation is short.
#[inline(never)]
fn move_bits<R: BitRegister, O: BitOrder<R>>(
    words: &mut [R],
    source: usize,
    target: usize,
    len: usize,
)
    requires source_lies { Lies R.BITS words.old source len }
    requires target_lies { Lies R.BITS words.old target len }
    ensures { Copies (read_by R.BitRegister O.position) words.old words.new
        (read_by R.BitRegister O.position) words.old source target len }
{
    let mut sweep = Sweep::new(words, way_for(source, target));
    move_in::<R, O>(&mut sweep, source, target, len);
}

// The end of a stretch at which bits leave it, to come in at the other.
#[derive(Clone, Copy)]
enum End {
    First,
    Last,
}

// Moves each of `len` bits towards an end by up to 64 places; those that leave come in at the other.
#[inline(always)]
fn hold<R: BitRegister, O: BitOrder<R>>(
    end: End,
    direction: Direction,
    words: &mut [R],
    place: usize,
    len: usize,
    by: usize,
)
    requires some { 0 < by }
    requires few { by ≤ 64 }
    requires most { by ≤ len }
    requires lies { Lies R.BITS words.old place len }
    ensures { Overwrites (read_by R.BitRegister O.position) words.old words.new place len
        (λ k. entry (read_by R.BitRegister O.position) words.old (place + rotated_from len (to_start end len by) k)) }
{
    let left = len - by;
    match end {
        End::First => {
            let held = read_bits::<R, O>(direction, words, place, by);
            move_bits::<R, O>(words, place + by, place, left);
            write_bits::<R, O>(direction, words, place + left, by, held);
        }
        End::Last => {
            let held = read_bits::<R, O>(direction, words, place + left, by);
            move_bits::<R, O>(words, place, place + by, left);
            write_bits::<R, O>(direction, words, place, by, held);
        }
    }
}

// How many bits are held aside at most.
const HELD: usize = 64;

// Whether the shorter of two parts of a rotation is exchanged. Else all bits are moved, once for each 64 that it has, which
// takes less time where the other is over twice as long.
#[inline(always)]
fn are_exchanged(left: usize, right: usize) -> bool
    ensures some_left { result ≡ true → 0 < left }
    ensures some_right { result ≡ true → 0 < right }
{
    let few = left.min(right);
    let many = left.max(right);
    few > ROTATED_BY_MOVES || few > HELD && many <= 2 * few
}

// Moves each of `len` bits towards an end; those that leave come in at the other.
#[inline(always)]
#[tactic(auto, using(crate::proofs::RotationLemmas::rotated_none))]
fn move_towards<R: BitRegister, O: BitOrder<R>>(
    end: End,
    direction: Direction,
    words: &mut [R],
    place: usize,
    len: usize,
    by: usize,
)
    requires lies { Lies R.BITS words.old place len }
    requires most { by ≤ len }
    ensures { Overwrites (read_by R.BitRegister O.position) words.old words.new place len
        (λ k. entry (read_by R.BitRegister O.position) words.old (place + rotated_from len (to_start end len by) k)) }
{
    let moves = by / HELD;
    let rest = by % HELD;
    for k in 0..moves {
        hold::<R, O>(end, direction, words, place, len, HELD);
    }
    if rest > 0 {
        hold::<R, O>(end, direction, words, place, len, rest);
    }
}

/// Moves each of `len` bits of a memory `by` places towards the first of them; the first `by` become the last. Out of line,
/// so that a caller that rotates few is short.
#[inline(never)]
pub fn rotate<R: BitRegister, O: BitOrder<R>>(words: &mut [R], place: usize, len: usize, by: usize)
    requires lies { Lies R.BITS words.old place len }
    requires most { by ≤ len }
    ensures { Overwrites (read_by R.BitRegister O.position) words.old words.new place len
        (λ k. entry (read_by R.BitRegister O.position) words.old (place + rotated_from len by k)) }
{
    let direction = direction_for::<R, O>();
    let mut first = place;
    let mut left = by;
    let mut right = len - by;
    while are_exchanged(left, right) {
        if left <= right {
            right -= left;
            exchange::<R, O>(words, first, first + left + right, left);
        } else {
            exchange::<R, O>(words, first, first + left, right);
            first += right;
            left -= right;
        }
    }
    if left <= right {
        move_towards::<R, O>(End::First, direction, words, first, left + right, left);
    } else {
        move_towards::<R, O>(End::Last, direction, words, first, left + right, right);
    }
}
