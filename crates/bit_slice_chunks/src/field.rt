//! Up to 64 bits of a memory, by the words that make one chunk, or two: for fields, where a call is not to cost more than the
//! bits.

ghost use Rattle.std.specs.Prelude.{◌≡◌, ◌+◌, ◌*◌, ◌%◌, ◌<◌, ◌≤◌, length, true};
ghost use Rattle.bit_addressing_memory.specs.Prelude.{Lies, read_by, Overwrites};
ghost use Rattle.bit_addressing_memory.specs.Chunk.{chunk_bit, IsChunk};

use crate::transfer::{has_chunk, write_own};
use crate::whole::{read_whole, read_within, write_within};
use bit_addressing_memory::chunk::{first_bits, lowered};
use bit_addressing_memory::mem::bits_of;
use bit_addressing_memory::{BitOrder, BitRegister, Straight, read_counted};

// Whether the words from one on make a chunk: they have up to 64 bits, and there are enough.
#[inline(always)]
fn has_block<R: BitRegister>(words: &[R], first: usize) -> bool
    requires { first < length words.now }
    ensures narrow { result ≡ true → R.BITS ≤ 64 }
    ensures within { result ≡ true → first * R.BITS + 64 ≤ length words.now * R.BITS }
{
    if R::BITS > 64 {
        return false;
    }
    let others = 64 / bits_of::<R>() - 1;
    others == 0 || others < words.len() - first
}

/// The `count` bits of a memory from a place on, as `read_bits` has them.
#[inline(always)]
#[tactic(auto, using(crate::proofs::WholeLemmas::chunk_cut))]
pub fn read_field<R: BitRegister, O: BitOrder<R>>(
    straight: Straight<R, O>,
    words: &[R],
    place: usize,
    count: usize,
) -> u64
    requires some { 0 < count }
    requires few { count ≤ 64 }
    requires lies { Lies R.BITS words.now place count }
    ensures { IsChunk (read_by R.BitRegister O.position) words.now place count straight.direction result }
{
    let bits = bits_of::<R>();
    let first = place / bits;
    let from = place % bits;
    if from + count <= 64 && has_block::<R>(words, first) {
        return read_within::<R, O>(straight, words, first, from as u8, count as u8);
    }
    if has_chunk::<R>(words, place) {
        let chunk = read_whole::<R, O>(straight, words, place, 0);
        return first_bits(straight.direction, chunk, count as u8);
    }
    read_last::<R, O>(straight, words, place, count)
}

// The same of the last bits of a memory. Out of line, so that the others are read by a short function.
#[inline(never)]
#[tactic(auto, using(bit_addressing_memory::proofs::TransferLemmas::own_goes))]
fn read_last<R: BitRegister, O: BitOrder<R>>(
    straight: Straight<R, O>,
    words: &[R],
    place: usize,
    count: usize,
) -> u64
    requires some { 0 < count }
    requires few { count ≤ 64 }
    requires lies { Lies R.BITS words.now place count }
    ensures { IsChunk (read_by R.BitRegister O.position) words.now place count straight.direction result }
{
    read_counted::<R, O>(straight.direction, words, place, count).0
}

// The first of the words that make the 64 bits in which a place lies.
#[inline(always)]
#[tactic(auto, using(crate::proofs::WholeLemmas::block_begins))]
fn block_of<R: BitRegister>(place: usize) -> usize
    requires { R.BITS ≤ 64 }
    ensures { result * R.BITS + place % 64 ≡ place }
{
    place / 64 * (64 / bits_of::<R>())
}

/// Makes the `count` bits of a memory from a place on those of a chunk, as `write_bits` does.
#[inline(always)]
#[tactic(auto, using(bit_addressing_memory::proofs::TransferLemmas::own_goes))]
pub fn write_field<R: BitRegister, O: BitOrder<R>>(
    straight: Straight<R, O>,
    words: &mut [R],
    place: usize,
    count: usize,
    chunk: u64,
)
    requires some { 0 < count }
    requires few { count ≤ 64 }
    requires lies { Lies R.BITS words.old place count }
    ensures { Overwrites (read_by R.BitRegister O.position) words.old words.new place count
        (chunk_bit straight.direction chunk) }
{
    if R::BITS > 64 {
        write_own::<R, O>(straight.direction, words, place, count, chunk);
        return;
    }
    let first = block_of::<R>(place);
    let from = place % 64;
    let inner = 64 - from;
    if count <= inner && has_block::<R>(words, first) {
        write_within::<R, O>(straight, words, first, from as u8, count as u8, chunk);
        return;
    }
    let behind = first + 64 / bits_of::<R>();
    if count > inner && has_block::<R>(words, behind) {
        write_within::<R, O>(straight, words, first, from as u8, inner as u8, chunk);
        let rest = lowered(straight.direction, chunk, inner as u8);
        write_within::<R, O>(straight, words, behind, 0, (count - inner) as u8, rest);
        return;
    }
    write_last::<R, O>(straight, words, place, count, chunk);
}

// The same of the last bits of a memory. Out of line, so that the others are written by a short function.
#[inline(never)]
#[tactic(auto, using(bit_addressing_memory::proofs::TransferLemmas::own_goes))]
fn write_last<R: BitRegister, O: BitOrder<R>>(
    straight: Straight<R, O>,
    words: &mut [R],
    place: usize,
    count: usize,
    chunk: u64,
)
    requires some { 0 < count }
    requires few { count ≤ 64 }
    requires lies { Lies R.BITS words.old place count }
    ensures { Overwrites (read_by R.BitRegister O.position) words.old words.new place count
        (chunk_bit straight.direction chunk) }
{
    write_own::<R, O>(straight.direction, words, place, count, chunk);
}
