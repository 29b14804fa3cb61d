//! Word paths, a step for each 64 bits: what an order calls whose positions go straight with the indices.
//!
//! `combine` and `equal` count the bits that the loops of `across` report. `copy_over` and `swap` count a step in the loop
//! that moves, once for each chunk, and the count goes through the loop as a value, so that it stays in a register.

ghost use Rattle.std.specs.Prelude.{◌≡◌, ℕ, ◌+◌, ◌-◌, ◌*◌, ◌/◌, ◌<◌, ◌≤◌, ◌↔◌, IsTrue, true, false};
ghost use Rattle.bit_addressing_memory.specs.Prelude.{Lies, entry, read_by, Copies};
ghost use Rattle.bit_slice_chunks.specs.Combined.{combined_bit, Combines};
ghost use Rattle.bit_slice_paths.specs.Steps.{groups, Takes};

use crate::across;
use crate::combining::Combining;
use crate::steps::Steps;
use bit_addressing_memory::{BitOrder, BitRegister, Straight};
use bit_slice_chunks::{read_bits, read_chunk, write_bits, write_chunk};
use std::mem;

/// Combines each of `len` bits with one of another memory, a step for each 64.
#[inline(always)]
pub fn combine<H: Combining, R: BitRegister, O: BitOrder<R>>(
    words: &mut [R],
    place: usize,
    others: &[R],
    other_place: usize,
    len: usize,
    steps: &mut Steps,
)
    requires lies { Lies R.BITS words.old place len }
    requires other_lies { Lies R.BITS others.now other_place len }
    ensures combined { Combines (read_by R.BitRegister O.position) words.old words.new place len
        (combined_bit H.HOW) (read_by R.BitRegister O.position) others.now other_place }
    ensures steps { Takes steps.old steps.new (groups len 64) (groups len 64) }
{
    let done = across::combine::<H, R, O, R, O>(words, place, others, other_place, len);
    steps.bits(done);
}

// Copies up to 64 bits to another place of the same memory.
#[inline(never)]
#[tactic(auto, using(crate::proofs::WalkLemmas::copies_chunk))]
fn move_rest<R: BitRegister, O: BitOrder<R>>(
    straight: Straight<R, O>,
    words: &mut [R],
    source: usize,
    target: usize,
    count: usize,
)
    requires some { 0 < count }
    requires few { count ≤ 64 }
    requires source_lies { Lies R.BITS words.old source count }
    requires target_lies { Lies R.BITS words.old target count }
    ensures { Copies (read_by R.BitRegister O.position) words.old words.new
        (read_by R.BitRegister O.position) words.old source target count }
{
    let chunk = read_bits::<R, O>(straight.direction, words, source, count);
    write_bits::<R, O>(straight.direction, words, target, count, chunk);
}

// Copies 64 bits to another place of the same memory.
#[inline(always)]
#[tactic(auto, using(crate::proofs::WalkLemmas::copies_chunk))]
fn move_chunk<R: BitRegister, O: BitOrder<R>>(
    straight: Straight<R, O>,
    words: &mut [R],
    source: usize,
    target: usize,
)
    requires source_lies { Lies R.BITS words.old source 64 }
    requires target_lies { Lies R.BITS words.old target 64 }
    ensures { Copies (read_by R.BitRegister O.position) words.old words.new
        (read_by R.BitRegister O.position) words.old source target 64 }
{
    let chunk = read_chunk::<R, O>(straight.direction, words, source);
    write_chunk::<R, O>(straight.direction, words, target, chunk);
}

// Copies the bits behind the whole chunks.
#[inline(always)]
fn copy_last<R: BitRegister, O: BitOrder<R>>(
    straight: Straight<R, O>,
    words: &mut [R],
    source: usize,
    target: usize,
    len: usize,
    counted: Steps,
) -> Steps
    requires source_lies { Lies R.BITS words.old source len }
    requires target_lies { Lies R.BITS words.old target len }
    ensures copied { Copies (read_by R.BitRegister O.position) words.old words.new
        (read_by R.BitRegister O.position) words.old (source + 64 * (len / 64)) (target + 64 * (len / 64))
        (len - 64 * (len / 64)) }
    ensures steps { Takes counted result (groups (len - 64 * (len / 64)) 64)
        (groups (len - 64 * (len / 64)) 64) }
{
    let mut steps = counted;
    let done = 64 * (len / 64);
    let rest = len - done;
    if rest > 0 {
        move_rest::<R, O>(straight, words, source + done, target + done, rest);
        steps.step();
    }
    steps
}

/// Copies bits to another place of the same memory, a step for each 64. The two stretches may overlap: towards lower places
/// the lowest bits are copied first, and towards higher ones the highest.
#[inline(always)]
pub fn copy_over<R: BitRegister, O: BitOrder<R>>(
    straight: Straight<R, O>,
    words: &mut [R],
    source: usize,
    target: usize,
    len: usize,
    steps: &mut Steps,
)
    requires source_lies { Lies R.BITS words.old source len }
    requires target_lies { Lies R.BITS words.old target len }
    ensures copied { Copies (read_by R.BitRegister O.position) words.old words.new
        (read_by R.BitRegister O.position) words.old source target len }
    ensures steps { Takes steps.old steps.new (groups len 64) (groups len 64) }
{
    let mut counted = mem::replace(steps, Steps::new());
    let whole = len / 64;
    if target <= source {
        'up: for k in 0..whole {
            let done = 64 * k;
            move_chunk::<R, O>(straight, words, source + done, target + done);
            counted.step();
        }
        *steps = copy_last::<R, O>(straight, words, source, target, len, counted);
    } else {
        counted = copy_last::<R, O>(straight, words, source, target, len, counted);
        'down: for k in (0..whole).rev() {
            let before = 64 * k;
            move_chunk::<R, O>(straight, words, source + before, target + before);
            counted.step();
        }
        *steps = counted;
    }
}

// Exchanges up to 64 bits.
#[inline(never)]
#[tactic(auto, using(crate::proofs::WalkLemmas::copies_chunk))]
fn swap_rest<R: BitRegister, O: BitOrder<R>>(
    straight: Straight<R, O>,
    words: &mut [R],
    place: usize,
    others: &mut [R],
    other_place: usize,
    count: usize,
)
    requires some { 0 < count }
    requires few { count ≤ 64 }
    requires lies { Lies R.BITS words.old place count }
    requires other_lies { Lies R.BITS others.old other_place count }
    ensures to_words { Copies (read_by R.BitRegister O.position) words.old words.new
        (read_by R.BitRegister O.position) others.old other_place place count }
    ensures to_others { Copies (read_by R.BitRegister O.position) others.old others.new
        (read_by R.BitRegister O.position) words.old place other_place count }
{
    let chunk = read_bits::<R, O>(straight.direction, words, place, count);
    let other = read_bits::<R, O>(straight.direction, others, other_place, count);
    write_bits::<R, O>(straight.direction, words, place, count, other);
    write_bits::<R, O>(straight.direction, others, other_place, count, chunk);
}

// Exchanges 64 bits.
#[inline(always)]
#[tactic(auto, using(crate::proofs::WalkLemmas::copies_chunk))]
fn swap_chunk<R: BitRegister, O: BitOrder<R>>(
    straight: Straight<R, O>,
    words: &mut [R],
    place: usize,
    others: &mut [R],
    other_place: usize,
)
    requires lies { Lies R.BITS words.old place 64 }
    requires other_lies { Lies R.BITS others.old other_place 64 }
    ensures to_words { Copies (read_by R.BitRegister O.position) words.old words.new
        (read_by R.BitRegister O.position) others.old other_place place 64 }
    ensures to_others { Copies (read_by R.BitRegister O.position) others.old others.new
        (read_by R.BitRegister O.position) words.old place other_place 64 }
{
    let chunk = read_chunk::<R, O>(straight.direction, words, place);
    let other = read_chunk::<R, O>(straight.direction, others, other_place);
    write_chunk::<R, O>(straight.direction, words, place, other);
    write_chunk::<R, O>(straight.direction, others, other_place, chunk);
}

/// Exchanges the bits of two stretches, a step for each 64.
#[inline(always)]
pub fn swap<R: BitRegister, O: BitOrder<R>>(
    straight: Straight<R, O>,
    words: &mut [R],
    place: usize,
    others: &mut [R],
    other_place: usize,
    len: usize,
    steps: &mut Steps,
)
    requires lies { Lies R.BITS words.old place len }
    requires other_lies { Lies R.BITS others.old other_place len }
    ensures to_words { Copies (read_by R.BitRegister O.position) words.old words.new
        (read_by R.BitRegister O.position) others.old other_place place len }
    ensures to_others { Copies (read_by R.BitRegister O.position) others.old others.new
        (read_by R.BitRegister O.position) words.old place other_place len }
    ensures steps { Takes steps.old steps.new (groups len 64) (groups len 64) }
{
    let mut counted = mem::replace(steps, Steps::new());
    let whole = len / 64;
    let rest = len % 64;
    for k in 0..whole {
        let done = 64 * k;
        swap_chunk::<R, O>(straight, words, place + done, others, other_place + done);
        counted.step();
    }
    if rest > 0 {
        let done = 64 * whole;
        let (at, other_at) = (place + done, other_place + done);
        swap_rest::<R, O>(straight, words, at, others, other_at, rest);
        counted.step();
    }
    *steps = counted;
}

/// Whether two stretches have the same bits, a step for each 64 up to the first that differ.
#[inline(always)]
#[tactic(auto, using(crate::proofs::AcrossLemmas::matches_test))]
pub fn equal<R: BitRegister, O: BitOrder<R>>(
    words: &[R],
    place: usize,
    others: &[R],
    other_place: usize,
    len: usize,
    steps: &mut Steps,
) -> bool
    requires lies { Lies R.BITS words.now place len }
    requires other_lies { Lies R.BITS others.now other_place len }
    ensures value { IsTrue result ↔ ((k : ℕ) → k < len
        → entry (read_by R.BitRegister O.position) words.now (place + k)
        ≡ entry (read_by R.BitRegister O.position) others.now (other_place + k)) }
    ensures same { result ≡ true → Takes steps.old steps.new (groups len 64) (groups len 64) }
    ensures other { result ≡ false → Takes steps.old steps.new 1 (groups len 64) }
{
    let reached = across::match_bits::<R, O, R, O>(words, place, others, other_place, len);
    steps.bits(reached.seen);
    reached.done == len
}
