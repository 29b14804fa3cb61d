//! Walks between two memories by chunks of 64 bits, each in any lawful order. Chunks of both are read in one direction,
//! that of the first: those of the other one are turned to it where their own is another. The loops count the bits that
//! they combine or read.

ghost use Rattle.std.specs.Prelude.{◌≡◌, ℕ, ◌+◌, ◌*◌, ◌<◌, ◌≤◌};
ghost use Rattle.bit_addressing_memory.specs.Prelude.{Lies, entry, read_by};
ghost use Rattle.bit_slice_chunks.specs.Chunk.{IsChunk};
ghost use Rattle.bit_slice_chunks.specs.Combined.{combined_bit, Combines};
ghost use Rattle.bit_slice_paths.specs.Agrees.{Agrees, Matches};

use crate::combining::Combining;
use crate::two_memories::{self, Reached, fit_of, match_behind};
use bit_addressing_memory::mem::bits_of;
use bit_addressing_memory::{BitOrder, BitRegister, Direction, FROM_BORDER, NEAR_BITS};
use bit_slice_chunks::any_order::{
    combine_bits, combine_chunk, direction_for, read_bits, read_chunk, read_nth_chunk,
};
use bit_slice_chunks::first_difference;

// 64 bits of a memory, read out of line.
#[inline(never)]
fn read_apart<R: BitRegister, O: BitOrder<R>>(
    direction: Direction,
    words: &[R],
    place: usize,
) -> u64
    requires lies { Lies R.BITS words.now place 64 }
    ensures { IsChunk (read_by R.BitRegister O.position) words.now place 64 direction result }
{
    read_chunk::<R, O>(direction, words, place)
}

// 64 bits that are to be written to words of the type `R`. Where both are narrow and the positions go down, a chunk has
// the bytes of either in reverse: of whole words, a compiler that saw it read and written would move them one by one.
#[inline(always)]
fn read_for<R: BitRegister, Q: BitRegister, P: BitOrder<Q>>(
    direction: Direction,
    others: &[Q],
    place: usize,
) -> u64
    requires lies { Lies Q.BITS others.now place 64 }
    ensures { IsChunk (read_by Q.BitRegister P.position) others.now place 64 direction result }
{
    let are_turned = R::BITS < 64 && Q::BITS < 64 && direction == Direction::Descending;
    if are_turned && place % bits_of::<Q>() == 0 {
        read_apart::<Q, P>(direction, others, place)
    } else {
        read_chunk::<Q, P>(direction, others, place)
    }
}

// Combines 64 bits.
#[inline(always)]
#[tactic(auto, using(crate::proofs::WalkLemmas::combines_chunk))]
fn combine_whole<H: Combining, R: BitRegister, O: BitOrder<R>, Q: BitRegister, P: BitOrder<Q>>(
    words: &mut [R],
    place: usize,
    others: &[Q],
    other_place: usize,
)
    requires lies { Lies R.BITS words.old place 64 }
    requires other_lies { Lies Q.BITS others.now other_place 64 }
    ensures { Combines (read_by R.BitRegister O.position) words.old words.new place 64
        (combined_bit H.HOW) (read_by Q.BitRegister P.position) others.now other_place }
{
    let direction = direction_for::<R, O>();
    let other = read_for::<R, Q, P>(direction, others, other_place);
    combine_chunk::<R, O>(direction, H::HOW, words, place, other);
}

// Combines up to 64 bits.
#[inline(never)]
#[tactic(auto, using(crate::proofs::WalkLemmas::combines_chunk))]
fn combine_rest<H: Combining, R: BitRegister, O: BitOrder<R>, Q: BitRegister, P: BitOrder<Q>>(
    words: &mut [R],
    place: usize,
    others: &[Q],
    other_place: usize,
    count: usize,
)
    requires some { 0 < count }
    requires few { count ≤ 64 }
    requires lies { Lies R.BITS words.old place count }
    requires other_lies { Lies Q.BITS others.now other_place count }
    ensures { Combines (read_by R.BitRegister O.position) words.old words.new place count
        (combined_bit H.HOW) (read_by Q.BitRegister P.position) others.now other_place }
{
    let direction = direction_for::<R, O>();
    let other = read_bits::<Q, P>(direction, others, other_place, count);
    combine_bits::<R, O>(direction, H::HOW, words, place, count, other);
}

// Combines up to 64 bits, or none.
#[inline(always)]
pub(crate) fn combine_part<
    H: Combining,
    R: BitRegister,
    O: BitOrder<R>,
    Q: BitRegister,
    P: BitOrder<Q>,
>(words: &mut [R], place: usize, others: &[Q], other_place: usize, count: usize)
    requires few { count ≤ 64 }
    requires lies { Lies R.BITS words.old place count }
    requires other_lies { Lies Q.BITS others.now other_place count }
    ensures { Combines (read_by R.BitRegister O.position) words.old words.new place count
        (combined_bit H.HOW) (read_by Q.BitRegister P.position) others.now other_place }
{
    if count > 0 {
        combine_rest::<H, R, O, Q, P>(words, place, others, other_place, count);
    }
}

// How many bits go before whole chunks: of many those before the next word, or half of one of 128 bits, so that each chunk
// of the first memory lies in as few words as it can.
#[inline(always)]
fn before_chunks<R: BitRegister>(place: usize, len: usize) -> usize
    ensures few { result ≤ 64 }
    ensures within { result ≤ len }
{
    if len <= FROM_BORDER {
        return 0;
    }
    let bits = bits_of::<R>().min(64);
    (bits - place % bits) % bits
}

/// Combines each of `len` bits with one of another memory, and returns how many; by `CopyOp` it is a copy.
#[inline(always)]
pub fn combine<H: Combining, R: BitRegister, O: BitOrder<R>, Q: BitRegister, P: BitOrder<Q>>(
    words: &mut [R],
    place: usize,
    others: &[Q],
    other_place: usize,
    len: usize,
) -> usize
    requires lies { Lies R.BITS words.old place len }
    requires other_lies { Lies Q.BITS others.now other_place len }
    ensures combined { Combines (read_by R.BitRegister O.position) words.old words.new place len
        (combined_bit H.HOW) (read_by Q.BitRegister P.position) others.now other_place }
    ensures all { result ≡ len }
{
    if let Some(fit) = fit_of::<R, O, Q, P>(place, other_place, len) {
        return two_memories::combine::<H, R, O, Q, P>(fit, words, place, others, other_place, len);
    }
    let before = before_chunks::<R>(place, len);
    combine_part::<H, R, O, Q, P>(words, place, others, other_place, before);
    let mut done = before;
    for _k in 0..(len - before) / 64 {
        combine_whole::<H, R, O, Q, P>(words, place + done, others, other_place + done);
        done += 64;
    }
    let rest = len - done;
    combine_part::<H, R, O, Q, P>(words, place + done, others, other_place + done, rest);
    done + rest
}

// The first of the 64 bits behind `64 * k` others that differs: 64 if none does.
#[inline(always)]
#[tactic(auto, using(crate::proofs::AcrossLemmas::agrees_chunk))]
fn difference_of_block<R: BitRegister, O: BitOrder<R>, Q: BitRegister, P: BitOrder<Q>>(
    words: &[R],
    place: usize,
    others: &[Q],
    other_place: usize,
    k: usize,
) -> usize
    requires lies { Lies R.BITS words.now (place + 64 * k) 64 }
    requires other_lies { Lies Q.BITS others.now (other_place + 64 * k) 64 }
    ensures { Agrees (read_by R.BitRegister O.position) words.now (place + 64 * k)
        (read_by Q.BitRegister P.position) others.now (other_place + 64 * k) 64 result }
{
    let direction = direction_for::<R, O>();
    let chunk = read_nth_chunk::<R, O>(direction, words, place, k);
    let other = read_nth_chunk::<Q, P>(direction, others, other_place, k);
    first_difference(direction, chunk, other)
}

/// The first of up to 64 bits that differs: `count` if none does.
#[inline(always)]
#[tactic(auto, using(crate::proofs::AcrossLemmas::agrees_chunk))]
pub fn difference_of_part<R: BitRegister, O: BitOrder<R>, Q: BitRegister, P: BitOrder<Q>>(
    words: &[R],
    place: usize,
    others: &[Q],
    other_place: usize,
    count: usize,
) -> usize
    requires few { count ≤ 64 }
    requires lies { Lies R.BITS words.now place count }
    requires other_lies { Lies Q.BITS others.now other_place count }
    ensures { Agrees (read_by R.BitRegister O.position) words.now place
        (read_by Q.BitRegister P.position) others.now other_place count result }
{
    if count == 0 {
        return count;
    }
    let direction = direction_for::<R, O>();
    let chunk = read_bits::<R, O>(direction, words, place, count);
    let other = read_bits::<Q, P>(direction, others, other_place, count);
    first_difference(direction, chunk, other).min(count)
}

/// The first of `len` bits that is not as that of another memory: `len` if none is.
#[inline(always)]
pub fn difference<R: BitRegister, O: BitOrder<R>, Q: BitRegister, P: BitOrder<Q>>(
    words: &[R],
    place: usize,
    others: &[Q],
    other_place: usize,
    len: usize,
) -> usize
    requires lies { Lies R.BITS words.now place len }
    requires other_lies { Lies Q.BITS others.now other_place len }
    ensures { Agrees (read_by R.BitRegister O.position) words.now place
        (read_by Q.BitRegister P.position) others.now other_place len result }
{
    if len < 2 * NEAR_BITS {
        return mismatch_by_blocks::<R, O, Q, P>(words, place, others, other_place, len).done;
    }
    difference_of_many::<R, O, Q, P>(words, place, others, other_place, len)
}

// `difference` of many bits: by blocks from the round of whole words on in which one differs. Out of line, so that few are
// compared by a short function.
#[inline(never)]
fn difference_of_many<R: BitRegister, O: BitOrder<R>, Q: BitRegister, P: BitOrder<Q>>(
    words: &[R],
    place: usize,
    others: &[Q],
    other_place: usize,
    len: usize,
) -> usize
    requires many { 2 * 8192 ≤ len }
    requires lies { Lies R.BITS words.now place len }
    requires other_lies { Lies Q.BITS others.now other_place len }
    ensures { Agrees (read_by R.BitRegister O.position) words.now place
        (read_by Q.BitRegister P.position) others.now other_place len result }
{
    let same = match_many::<R, O, Q, P>(words, place, others, other_place, len).done;
    let rest = mismatch_by_blocks::<R, O, Q, P>(
        words,
        place + same,
        others,
        other_place + same,
        len - same,
    );
    same + rest.done
}

/// How many of the first of `len` bits are found to be those of another memory: all, or those before the block or the round
/// of words in which one differs; and how many were read for it, none of them twice.
#[inline(always)]
pub fn match_bits<R: BitRegister, O: BitOrder<R>, Q: BitRegister, P: BitOrder<Q>>(
    words: &[R],
    place: usize,
    others: &[Q],
    other_place: usize,
    len: usize,
) -> Reached
    requires lies { Lies R.BITS words.now place len }
    requires other_lies { Lies Q.BITS others.now other_place len }
    ensures matches { Matches (read_by R.BitRegister O.position) words.now place
        (read_by Q.BitRegister P.position) others.now other_place len result.done }
    ensures order { result.done ≤ result.seen }
    ensures most { result.seen ≤ len }
    ensures some { result.done < len → 0 < result.seen }
{
    if len < 2 * NEAR_BITS {
        return mismatch_by_blocks::<R, O, Q, P>(words, place, others, other_place, len);
    }
    match_many::<R, O, Q, P>(words, place, others, other_place, len)
}

// `match_bits` of many bits: by blocks near the start, then by rounds of whole words. Out of line, so that few are compared by
// a short function.
#[inline(never)]
#[tactic(auto, using(crate::proofs::AcrossLemmas::matches_near))]
fn match_many<R: BitRegister, O: BitOrder<R>, Q: BitRegister, P: BitOrder<Q>>(
    words: &[R],
    place: usize,
    others: &[Q],
    other_place: usize,
    len: usize,
) -> Reached
    requires many { 2 * 8192 ≤ len }
    requires lies { Lies R.BITS words.now place len }
    requires other_lies { Lies Q.BITS others.now other_place len }
    ensures matches { Matches (read_by R.BitRegister O.position) words.now place
        (read_by Q.BitRegister P.position) others.now other_place len result.done }
    ensures order { result.done ≤ result.seen }
    ensures most { result.seen ≤ len }
    ensures some { result.done < len → 0 < result.seen }
{
    // Up to a border of words, so that no bit is read twice.
    let near_bits = NEAR_BITS - place % bits_of::<R>();
    let near = mismatch_by_blocks::<R, O, Q, P>(words, place, others, other_place, near_bits);
    if near.done < near_bits {
        return near;
    }
    let far = match_behind::<R, O, Q, P>(words, place, others, other_place, len, near_bits);
    if far.done < far.seen {
        return far;
    }
    let done = far.done;
    let (at, other_at) = (place + done, other_place + done);
    let rest = mismatch_by_blocks::<R, O, Q, P>(words, at, others, other_at, len - done);
    Reached {
        done: done + rest.done,
        seen: done + rest.seen,
    }
}

// The first of `len` bits that differs, `len` if none does, and how many were read for it, block by block.
#[inline(always)]
fn mismatch_by_blocks<R: BitRegister, O: BitOrder<R>, Q: BitRegister, P: BitOrder<Q>>(
    words: &[R],
    place: usize,
    others: &[Q],
    other_place: usize,
    len: usize,
) -> Reached
    requires lies { Lies R.BITS words.now place len }
    requires other_lies { Lies Q.BITS others.now other_place len }
    ensures agrees { Agrees (read_by R.BitRegister O.position) words.now place
        (read_by Q.BitRegister P.position) others.now other_place len result.done }
    ensures order { result.done ≤ result.seen }
    ensures most { result.seen ≤ len }
    ensures some { result.done < len → 0 < result.seen }
{
    let before = before_chunks::<R>(place, len);
    let same = difference_of_part::<R, O, Q, P>(words, place, others, other_place, before);
    if same < before {
        return Reached {
            done: same,
            seen: before,
        };
    }
    let (at, other_at) = (place + before, other_place + before);
    let mut done = before;
    for k in 0..(len - before) / 64 {
        let same = difference_of_block::<R, O, Q, P>(words, at, others, other_at, k);
        if same < 64 {
            return Reached {
                done: done + same,
                seen: done + 64,
            };
        }
        done += 64;
    }
    let rest = len - done;
    let same = difference_of_part::<R, O, Q, P>(
        words,
        place + done,
        others,
        other_place + done,
        rest,
    );
    Reached {
        done: done + same,
        seen: done + rest,
    }
}
