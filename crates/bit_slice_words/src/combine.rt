//! Bits combined with those of another memory, or copied from it.

ghost use Rattle.std.specs.Prelude.{◌≡◌, ◌+◌, ◌*◌, ◌^◌, ◌<◌, ◌≤◌, ◌&&◌, ◌||◌, length};
ghost use Rattle.bit_addressing_memory.specs.Prelude.{Lies, entry, read_by, Copies, Overwrites};
ghost use Rattle.std.specs.Bool.{xor};
ghost use Rattle.bit_slice_paths.specs.Combined.{combined_bit, Combines};

use bit_addressing_memory::{
    BitOrder, BitRegister, BulkOp, bit_loop_limit_of_two, read_entry, write_entry,
};
use bit_slice_paths::combining::{AndOp, Combining, CopyOp, OrOp, XorOp};
use bit_slice_paths::{Combination, across};

// The bit that two make.
pub(crate) fn combined(how: Combination, bit: bool, other: bool) -> bool
    ensures { result ≡ combined_bit how bit other }
{
    match how {
        Combination::Take => other,
        Combination::And => bit && other,
        Combination::Or => bit || other,
        Combination::Xor => bit != other,
    }
}

// Combines each of `len` bits with one of another memory.
#[inline(always)]
pub(crate) fn combine_in<
    H: Combining,
    R: BitRegister,
    O: BitOrder<R>,
    Q: BitRegister,
    P: BitOrder<Q>,
>(words: &mut [R], place: usize, others: &[Q], other_place: usize, len: usize)
    requires lies { Lies R.BITS words.old place len }
    requires other_lies { Lies Q.BITS others.now other_place len }
    ensures { Combines (read_by R.BitRegister O.position) words.old words.new place len
        (combined_bit H.HOW) (read_by Q.BitRegister P.position) others.now other_place }
{
    if len <= bit_loop_limit_of_two::<R, O, Q, P>(BulkOp::Copy) {
        combine_singly::<H, R, O, Q, P>(words, place, others, other_place, len);
        return;
    }
    combine_by_chunks::<H, R, O, Q, P>(words, place, others, other_place, len);
}

// The same, by chunks. Out of line, so that a few bits are combined by a short function.
#[inline(never)]
fn combine_by_chunks<H: Combining, R: BitRegister, O: BitOrder<R>, Q: BitRegister, P: BitOrder<Q>>(
    words: &mut [R],
    place: usize,
    others: &[Q],
    other_place: usize,
    len: usize,
)
    requires lies { Lies R.BITS words.old place len }
    requires other_lies { Lies Q.BITS others.now other_place len }
    ensures { Combines (read_by R.BitRegister O.position) words.old words.new place len
        (combined_bit H.HOW) (read_by Q.BitRegister P.position) others.now other_place }
{
    across::combine::<H, R, O, Q, P>(words, place, others, other_place, len);
}

// The same, bit by bit.
#[inline(always)]
#[tactic(auto, using(crate::proofs::ChangedStretchLemmas::stretch_steps))]
fn combine_singly<H: Combining, R: BitRegister, O: BitOrder<R>, Q: BitRegister, P: BitOrder<Q>>(
    words: &mut [R],
    place: usize,
    others: &[Q],
    other_place: usize,
    len: usize,
)
    requires lies { Lies R.BITS words.old place len }
    requires other_lies { Lies Q.BITS others.now other_place len }
    ensures { Combines (read_by R.BitRegister O.position) words.old words.new place len
        (combined_bit H.HOW) (read_by Q.BitRegister P.position) others.now other_place }
{
    for k in 0..len {
        let bit = read_entry::<R, O>(words, place + k);
        let other = read_entry::<Q, P>(others, other_place + k);
        write_entry::<R, O>(words, place + k, combined(H::HOW, bit, other));
    }
}

/// Clears each of `len` bits of a memory, from `place` on, where the memory `others` has a zero, from
/// `other_place` on. Both stretches lie in their memories, and their ends fit a `usize`;
/// the two may have different words and orders. Every other bit of the memory stays.
///
/// What `&=` of a bitvec slice does with as many bits of another.
pub fn and_in<R: BitRegister, O: BitOrder<R>, Q: BitRegister, P: BitOrder<Q>>(
    words: &mut [R],
    place: usize,
    others: &[Q],
    other_place: usize,
    len: usize,
)
    requires lies { Lies R.BITS words.old place len }
    requires other_lies { Lies Q.BITS others.now other_place len }
    ensures combined { Overwrites (read_by R.BitRegister O.position) words.old words.new place len
        (λ k. entry (read_by R.BitRegister O.position) words.old (place + k)
        && entry (read_by Q.BitRegister P.position) others.now (other_place + k)) }
{
    combine_in::<AndOp, R, O, Q, P>(words, place, others, other_place, len);
}

/// Sets each of `len` bits of a memory, from `place` on, where the memory `others` has a one, from `other_place`
/// on. Both stretches lie in their memories, and their ends fit a `usize`; the two may have different words and
/// orders. Every other bit of the memory stays.
///
/// What `|=` of a bitvec slice does with as many bits of another.
pub fn or_in<R: BitRegister, O: BitOrder<R>, Q: BitRegister, P: BitOrder<Q>>(
    words: &mut [R],
    place: usize,
    others: &[Q],
    other_place: usize,
    len: usize,
)
    requires lies { Lies R.BITS words.old place len }
    requires other_lies { Lies Q.BITS others.now other_place len }
    ensures combined { Overwrites (read_by R.BitRegister O.position) words.old words.new place len
        (λ k. entry (read_by R.BitRegister O.position) words.old (place + k)
        || entry (read_by Q.BitRegister P.position) others.now (other_place + k)) }
{
    combine_in::<OrOp, R, O, Q, P>(words, place, others, other_place, len);
}

/// Flips each of `len` bits of a memory, from `place` on, where the memory `others` has a one, from
/// `other_place` on. Both stretches lie in their memories, and their ends fit a `usize`; the two may have
/// different words and orders. Every other bit of the memory stays.
///
/// What `^=` of a bitvec slice does with as many bits of another.
pub fn xor_in<R: BitRegister, O: BitOrder<R>, Q: BitRegister, P: BitOrder<Q>>(
    words: &mut [R],
    place: usize,
    others: &[Q],
    other_place: usize,
    len: usize,
)
    requires lies { Lies R.BITS words.old place len }
    requires other_lies { Lies Q.BITS others.now other_place len }
    ensures combined { Overwrites (read_by R.BitRegister O.position) words.old words.new place len
        (λ k. xor (entry (read_by R.BitRegister O.position) words.old (place + k))
        (entry (read_by Q.BitRegister P.position) others.now (other_place + k))) }
{
    combine_in::<XorOp, R, O, Q, P>(words, place, others, other_place, len);
}

/// Copies `len` bits of the memory `from`, those from `source` on, to the places from `target` on of the memory
/// `words`. Both stretches lie in their memories, and their ends fit a `usize`; the two may have different words and
/// orders. Every other bit of `words` stays.
///
/// It does what `copy_between` of `bit_addressing_memory` does: a few bits one by one, as that call does, and more by
/// blocks of 64 bits or whole words, but for orders that reorder no word quickly.
pub fn copy_in<Q: BitRegister, P: BitOrder<Q>, R: BitRegister, O: BitOrder<R>>(
    from: &[Q],
    source: usize,
    words: &mut [R],
    target: usize,
    len: usize,
)
    requires source_in { source + len ≤ length from.now * Q.BITS }
    requires source_ends { source + len < 2 ^ 64 }
    requires target_in { target + len ≤ length words.old * R.BITS }
    requires target_ends { target + len < 2 ^ 64 }
    ensures copied { Copies (read_by R.BitRegister O.position) words.old words.new
        (read_by Q.BitRegister P.position) from.now source target len }
{
    combine_in::<CopyOp, R, O, Q, P>(words, target, from, source, len);
}
