//! Bits of one memory in reverse, by chunks of 64: one from each end at a time, each of them turned round.

ghost use Rattle.std.specs.Prelude.{◌+◌, ◌-◌, ◌<◌, ◌≤◌};
ghost use Rattle.bit_addressing_memory.specs.Prelude.{Lies, entry, read_by, Overwrites};
ghost use Rattle.bit_slice_paths.specs.Mirrored.{Mirrored};

use bit_addressing_memory::{BitOrder, BitRegister, Direction};
use bit_slice_chunks::any_order::{direction_for, read_bits, read_chunk, write_bits, write_chunk};
use bit_slice_chunks::turned;

// Exchanges 64 bits with 64 behind them, both in reverse.
#[inline(always)]
fn turn_wholes<R: BitRegister, O: BitOrder<R>>(
    direction: Direction,
    words: &mut [R],
    first: usize,
    second: usize,
)
    requires apart { first + 64 ≤ second }
    requires lies { Lies R.BITS words.old second 64 }
    ensures { Mirrored (read_by R.BitRegister O.position) words.old words.new first
        (second + 64 - first) 64 }
{
    let front = read_chunk::<R, O>(direction, words, first);
    let back = read_chunk::<R, O>(direction, words, second);
    write_chunk::<R, O>(direction, words, first, turned(direction, back, 64));
    write_chunk::<R, O>(direction, words, second, turned(direction, front, 64));
}

// Exchanges up to 64 bits with as many behind them, both in reverse.
#[inline(never)]
#[tactic(auto, using(crate::proofs::MirrorLemmas::mirrored_chunks))]
fn turn_ends<R: BitRegister, O: BitOrder<R>>(
    direction: Direction,
    words: &mut [R],
    first: usize,
    second: usize,
    count: usize,
)
    requires some { 0 < count }
    requires few { count ≤ 64 }
    requires apart { first + count ≤ second }
    requires lies { Lies R.BITS words.old second count }
    ensures { Mirrored (read_by R.BitRegister O.position) words.old words.new first
        (second + count - first) count }
{
    let front = read_bits::<R, O>(direction, words, first, count);
    let back = read_bits::<R, O>(direction, words, second, count);
    let new_front = turned(direction, back, count as u8);
    let new_back = turned(direction, front, count as u8);
    write_bits::<R, O>(direction, words, first, count, new_front);
    write_bits::<R, O>(direction, words, second, count, new_back);
}

// Turns up to 64 bits round.
#[inline(never)]
#[tactic(auto, using(crate::proofs::MirrorLemmas::turned_chunk))]
fn turn_rest<R: BitRegister, O: BitOrder<R>>(
    direction: Direction,
    words: &mut [R],
    place: usize,
    count: usize,
)
    requires some { 0 < count }
    requires few { count ≤ 64 }
    requires lies { Lies R.BITS words.old place count }
    ensures { Overwrites (read_by R.BitRegister O.position) words.old words.new place count
        (λ k. entry (read_by R.BitRegister O.position) words.old (place + (count - 1 - k))) }
{
    let chunk = read_bits::<R, O>(direction, words, place, count);
    let round = turned(direction, chunk, count as u8);
    write_bits::<R, O>(direction, words, place, count, round);
}

/// Turns `len` bits round: the last comes first. Out of line, so that a caller that turns few is short.
#[inline(never)]
pub fn reverse<R: BitRegister, O: BitOrder<R>>(words: &mut [R], place: usize, len: usize)
    requires lies { Lies R.BITS words.old place len }
    ensures { Overwrites (read_by R.BitRegister O.position) words.old words.new place len
        (λ k. entry (read_by R.BitRegister O.position) words.old (place + (len - 1 - k))) }
{
    let direction = direction_for::<R, O>();
    let whole = len / 128;
    for k in 0..whole {
        let done = 64 * k;
        turn_wholes::<R, O>(direction, words, place + done, place + (len - done - 64));
    }
    let done = 64 * whole;
    let left = len % 128;
    if left > 64 {
        let half = left / 2;
        turn_ends::<R, O>(
            direction,
            words,
            place + done,
            place + (len - done - half),
            half,
        );
    } else if left > 1 {
        turn_rest::<R, O>(direction, words, place + done, left);
    }
}
