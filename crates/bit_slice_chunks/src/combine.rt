//! Bits of a memory combined with those of a chunk, in the memory's own words: what two chunks make of a word that they
//! share is two masked writes, and neither waits for the other.

ghost use Rattle.std.specs.Prelude.{◌≡◌, ◌+◌, ◌<◌, ◌≤◌, length, slice_index_or};
ghost use Rattle.bit_addressing_memory.specs.Prelude.{Lies, entry, read_by, Overwrites};
ghost use Rattle.bit_addressing_memory.specs.Chunk.{chunk_bit};
ghost use Rattle.bit_slice_chunks.specs.Combined.{combined_bit};

use crate::combination::{Combination, combined};
use crate::transfer::write_part;
use bit_addressing_memory::chunk::{first_bits, last_bits, lowered, part, raised};
use bit_addressing_memory::mem::bits_of;
use bit_addressing_memory::{BitOrder, BitRegister, Straight, read_block, write_block};

// Makes each of the 64 bits of a memory from a place on what `how` makes of it and of a chunk's, where positions go straight
// and words have up to 64 bits.
#[inline(always)]
#[tactic(auto, using(bit_addressing_memory::proofs::PlaceLemmas::first_word, crate::proofs::CombineLemmas::combined_chunk, crate::proofs::CombineLemmas::combined_from))]
pub(crate) fn combine_words<R: BitRegister, O: BitOrder<R>>(
    straight: Straight<R, O>,
    how: Combination,
    words: &mut [R],
    place: usize,
    other: u64,
)
    requires narrow { R.BITS ≤ 64 }
    requires lies { Lies R.BITS words.old place 64 }
    ensures { Overwrites (read_by R.BitRegister O.position) words.old words.new place 64
        (λ k. combined_bit how (entry (read_by R.BitRegister O.position) words.old (place + k))
        (chunk_bit straight.direction other k)) }
{
    let bits = bits_of::<R>();
    let first = place / bits;
    let by = (place % bits) as u8;
    let low = read_block::<R, O>(straight, words, first);
    if by == 0 {
        write_block::<R, O>(straight, words, first, combined(how, low, other));
        return;
    }
    let behind = first + 64 / bits;
    let last = part::<R, O>(straight, word_at(words, behind), 0);
    let front = combined(how, low, raised(straight.direction, other, by));
    let back = combined(how, last, lowered(straight.direction, other, 64 - by));
    let kept = first_bits(straight.direction, low, by) | last_bits(straight.direction, front, by);
    write_block::<R, O>(straight, words, first, kept);
    write_part::<R, O>(straight, words, behind, 0, by, back);
}

// A word of a memory.
#[inline(always)]
fn word_at<R: BitRegister>(words: &[R], at: usize) -> R
    requires { at < length words.now }
    ensures { result ≡ slice_index_or words.now at result }
{
    words[at]
}
