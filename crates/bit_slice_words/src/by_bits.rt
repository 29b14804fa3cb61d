//! Word paths of at most one step a bit: what an order whose `SPAN` is 1 calls. A few bits go bit by bit, and all where the
//! order turns no word quickly, one step for each; others are compared or combined as by `by_words`.

ghost use Rattle.std.specs.Prelude.{◌≡◌, ℕ, ◌+◌, ◌*◌, ◌^◌, ◌<◌, ◌≤◌, ◌↔◌, ◌&&◌, ◌||◌, length, IsTrue, true, false};
ghost use Rattle.bit_addressing_memory.specs.Prelude.{Lies, entry, read_by, Copies, Overwrites};
ghost use Rattle.std.specs.Bool.{xor};
ghost use Rattle.bit_slice_paths.specs.Combined.{combined_bit, Combines};
ghost use Rattle.bit_slice_paths.specs.Steps.{groups, Takes};

use crate::agree::few_to_compare;
use crate::combine::combined;
use bit_addressing_memory::{
    BitOrder, BitRegister, BulkOp, bit_loop_limit, read_entry, write_entry,
};
use bit_slice_paths::combining::{AndOp, Combining, CopyOp, OrOp, XorOp};
use bit_slice_paths::{Steps, by_words};

/// `WordPaths::equal`, in at most one step a bit.
#[tactic(auto, using(crate::proofs::PathLemmas::takes_behind))]
pub fn equal<R: BitRegister, O: BitOrder<R>>(
    words: &[R],
    place: usize,
    others: &[R],
    other_place: usize,
    len: usize,
    steps: &mut Steps,
) -> bool
    requires within { place + len ≤ length words.now * R.BITS }
    requires ends { place + len < 2 ^ 64 }
    requires other_within { other_place + len ≤ length others.now * R.BITS }
    requires other_ends { other_place + len < 2 ^ 64 }
    ensures value { IsTrue result ↔ ((k : ℕ) → k < len
        → entry (read_by R.BitRegister O.position) words.now (place + k)
        ≡ entry (read_by R.BitRegister O.position) others.now (other_place + k)) }
    ensures same { result ≡ true → Takes steps.old steps.new (groups len 64) (groups len 1) }
    ensures other { result ≡ false → Takes steps.old steps.new 1 (groups len 1) }
{
    let few = few_to_compare::<R, O, R, O>(len);
    for k in 0..few {
        steps.step();
        let bit = read_entry::<R, O>(words, place + k);
        let other = read_entry::<R, O>(others, other_place + k);
        if bit != other {
            return false;
        }
    }
    if few == len {
        return true;
    }
    by_words::equal::<R, O>(
        words,
        place + few,
        others,
        other_place + few,
        len - few,
        steps,
    )
}

/// `WordPaths::copy`, in at most one step a bit.
pub fn copy<R: BitRegister, O: BitOrder<R>>(
    words: &mut [R],
    place: usize,
    others: &[R],
    other_place: usize,
    len: usize,
    steps: &mut Steps,
)
    requires within { place + len ≤ length words.old * R.BITS }
    requires ends { place + len < 2 ^ 64 }
    requires other_within { other_place + len ≤ length others.now * R.BITS }
    requires other_ends { other_place + len < 2 ^ 64 }
    ensures copied { Copies (read_by R.BitRegister O.position) words.old words.new
        (read_by R.BitRegister O.position) others.now other_place place len }
    ensures steps { Takes steps.old steps.new (groups len 64) (groups len 1) }
{
    combine::<CopyOp, R, O>(words, place, others, other_place, len, steps);
}

/// `WordPaths::swap`, in one step a bit.
#[tactic(auto, using(bit_addressing_memory::proofs::CopyLemmas::between_steps, crate::proofs::PathLemmas::count_steps))]
pub fn swap<R: BitRegister, O: BitOrder<R>>(
    words: &mut [R],
    place: usize,
    others: &mut [R],
    other_place: usize,
    len: usize,
    steps: &mut Steps,
)
    requires within { place + len ≤ length words.old * R.BITS }
    requires ends { place + len < 2 ^ 64 }
    requires other_within { other_place + len ≤ length others.old * R.BITS }
    requires other_ends { other_place + len < 2 ^ 64 }
    ensures to_words { Copies (read_by R.BitRegister O.position) words.old words.new
        (read_by R.BitRegister O.position) others.old other_place place len }
    ensures to_others { Copies (read_by R.BitRegister O.position) others.old others.new
        (read_by R.BitRegister O.position) words.old place other_place len }
    ensures steps { Takes steps.old steps.new (groups len 64) (groups len 1) }
{
    for k in 0..len {
        let bit = read_entry::<R, O>(words, place + k);
        let other = read_entry::<R, O>(others, other_place + k);
        write_entry::<R, O>(words, place + k, other);
        write_entry::<R, O>(others, other_place + k, bit);
        steps.step();
    }
}

/// `WordPaths::copy_over`, in one step a bit.
#[tactic(auto, using(bit_addressing_memory::proofs::CopyLemmas::within_steps, crate::proofs::PathLemmas::count_steps))]
pub fn copy_over<R: BitRegister, O: BitOrder<R>>(
    words: &mut [R],
    source: usize,
    target: usize,
    len: usize,
    steps: &mut Steps,
)
    requires source_within { source + len ≤ length words.old * R.BITS }
    requires source_ends { source + len < 2 ^ 64 }
    requires target_within { target + len ≤ length words.old * R.BITS }
    requires target_ends { target + len < 2 ^ 64 }
    ensures copied { Copies (read_by R.BitRegister O.position) words.old words.new
        (read_by R.BitRegister O.position) words.old source target len }
    ensures steps { Takes steps.old steps.new (groups len 64) (groups len 1) }
{
    if target <= source {
        'up: for k in 0..len {
            let bit = read_entry::<R, O>(words, source + k);
            write_entry::<R, O>(words, target + k, bit);
            steps.step();
        }
    } else {
        'down: for k in (0..len).rev() {
            let bit = read_entry::<R, O>(words, source + k);
            write_entry::<R, O>(words, target + k, bit);
            steps.step();
        }
    }
}

/// `WordPaths::and`, in at most one step a bit.
pub fn and<R: BitRegister, O: BitOrder<R>>(
    words: &mut [R],
    place: usize,
    others: &[R],
    other_place: usize,
    len: usize,
    steps: &mut Steps,
)
    requires within { place + len ≤ length words.old * R.BITS }
    requires ends { place + len < 2 ^ 64 }
    requires other_within { other_place + len ≤ length others.now * R.BITS }
    requires other_ends { other_place + len < 2 ^ 64 }
    ensures combined { Overwrites (read_by R.BitRegister O.position) words.old words.new place len
        (λ k. entry (read_by R.BitRegister O.position) words.old (place + k)
        && entry (read_by R.BitRegister O.position) others.now (other_place + k)) }
    ensures steps { Takes steps.old steps.new (groups len 64) (groups len 1) }
{
    combine::<AndOp, R, O>(words, place, others, other_place, len, steps);
}

/// `WordPaths::or`, in at most one step a bit.
pub fn or<R: BitRegister, O: BitOrder<R>>(
    words: &mut [R],
    place: usize,
    others: &[R],
    other_place: usize,
    len: usize,
    steps: &mut Steps,
)
    requires within { place + len ≤ length words.old * R.BITS }
    requires ends { place + len < 2 ^ 64 }
    requires other_within { other_place + len ≤ length others.now * R.BITS }
    requires other_ends { other_place + len < 2 ^ 64 }
    ensures combined { Overwrites (read_by R.BitRegister O.position) words.old words.new place len
        (λ k. entry (read_by R.BitRegister O.position) words.old (place + k)
        || entry (read_by R.BitRegister O.position) others.now (other_place + k)) }
    ensures steps { Takes steps.old steps.new (groups len 64) (groups len 1) }
{
    combine::<OrOp, R, O>(words, place, others, other_place, len, steps);
}

/// `WordPaths::xor`, in at most one step a bit.
pub fn xor<R: BitRegister, O: BitOrder<R>>(
    words: &mut [R],
    place: usize,
    others: &[R],
    other_place: usize,
    len: usize,
    steps: &mut Steps,
)
    requires within { place + len ≤ length words.old * R.BITS }
    requires ends { place + len < 2 ^ 64 }
    requires other_within { other_place + len ≤ length others.now * R.BITS }
    requires other_ends { other_place + len < 2 ^ 64 }
    ensures combined { Overwrites (read_by R.BitRegister O.position) words.old words.new place len
        (λ k. xor (entry (read_by R.BitRegister O.position) words.old (place + k))
        (entry (read_by R.BitRegister O.position) others.now (other_place + k))) }
    ensures steps { Takes steps.old steps.new (groups len 64) (groups len 1) }
{
    combine::<XorOp, R, O>(words, place, others, other_place, len, steps);
}

// Makes each of `len` bits what a combination makes of it and of one of another memory.
#[tactic(auto, using(crate::proofs::PathLemmas::count_each, crate::proofs::PathLemmas::takes_bits, crate::proofs::PathLemmas::takes_no_more, crate::proofs::ChangedStretchLemmas::stretch_none))]
fn combine<H: Combining, R: BitRegister, O: BitOrder<R>>(
    words: &mut [R],
    place: usize,
    others: &[R],
    other_place: usize,
    len: usize,
    steps: &mut Steps,
)
    requires lies { Lies R.BITS words.old place len }
    requires other_lies { Lies R.BITS others.now other_place len }
    ensures combined { Combines (read_by R.BitRegister O.position) words.old words.new place len
        (combined_bit H.HOW) (read_by R.BitRegister O.position) others.now other_place }
    ensures steps { Takes steps.old steps.new (groups len 64) (groups len 1) }
{
    if len > bit_loop_limit::<R, O>(BulkOp::Copy) {
        by_words::combine::<H, R, O>(words, place, others, other_place, len, steps);
        return;
    }
    for k in 0..len {
        let bit = read_entry::<R, O>(words, place + k);
        let other = read_entry::<R, O>(others, other_place + k);
        write_entry::<R, O>(words, place + k, combined(H::HOW, bit, other));
        steps.step();
    }
}
