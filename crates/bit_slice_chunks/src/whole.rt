//! 64 bits of a memory read as a chunk where positions go straight: of all words but the last a compiler makes one load.

ghost use Rattle.std.specs.Prelude.{◌≡◌, ◌+◌, ◌*◌, ◌<◌, ◌≤◌, length};
ghost use Rattle.bit_addressing_memory.specs.Prelude.{Lies, read_by, Overwrites};
ghost use Rattle.bit_addressing_memory.specs.Chunk.{chunk_bit, IsChunk};

use bit_addressing_memory::chunk::{first_bits, lowered, patched};
use bit_addressing_memory::mem::bits_of;
use bit_addressing_memory::{
    BitOrder, BitRegister, Straight, read_block, read_block_from, read_counted, write_block,
};

// The 64 bits `64 * k` behind a place. A loop over `k` finds the word and the index of the place once.
#[inline(always)]
#[tactic(auto, using(crate::proofs::WholeLemmas::nth_word, crate::proofs::WholeLemmas::chunk_as, bit_addressing_memory::proofs::TransferLemmas::own_goes))]
pub(crate) fn read_whole<R: BitRegister, O: BitOrder<R>>(
    straight: Straight<R, O>,
    words: &[R],
    place: usize,
    k: usize,
) -> u64
    requires lies { Lies R.BITS words.now (place + 64 * k) 64 }
    ensures { IsChunk (read_by R.BitRegister O.position) words.now (place + 64 * k) 64 straight.direction result }
{
    if R::BITS > 64 {
        return read_counted::<R, O>(straight.direction, words, place + 64 * k, 64).0;
    }
    let bits = bits_of::<R>();
    let first = place / bits + k * (64 / bits);
    read_block_from::<R, O>(straight, words, first, (place % bits) as u8)
}

/// Up to 64 bits from an index of the words from one on, of those that make a chunk, as `read_bits` has them.
#[inline(always)]
#[tactic(auto, using(crate::proofs::WholeLemmas::chunk_inside))]
pub(crate) fn read_within<R: BitRegister, O: BitOrder<R>>(
    straight: Straight<R, O>,
    words: &[R],
    first: usize,
    from: u8,
    count: u8,
) -> u64
    requires narrow { R.BITS ≤ 64 }
    requires some { 0 < count }
    requires within { from + count ≤ 64 }
    requires lies { first * R.BITS + 64 ≤ length words.now * R.BITS }
    ensures { IsChunk (read_by R.BitRegister O.position) words.now (first * R.BITS + from) count straight.direction result }
{
    let all = read_block::<R, O>(straight, words, first);
    let moved = lowered(straight.direction, all, from);
    first_bits(straight.direction, moved, count)
}

/// Makes these bits those of a chunk, as `write_bits` does: all words that make a chunk are put.
#[inline(always)]
#[tactic(auto, using(crate::proofs::WholeLemmas::patched_chunk))]
pub(crate) fn write_within<R: BitRegister, O: BitOrder<R>>(
    straight: Straight<R, O>,
    words: &mut [R],
    first: usize,
    from: u8,
    count: u8,
    chunk: u64,
)
    requires narrow { R.BITS ≤ 64 }
    requires some { 0 < count }
    requires within { from + count ≤ 64 }
    requires lies { first * R.BITS + 64 ≤ length words.old * R.BITS }
    ensures { Overwrites (read_by R.BitRegister O.position) words.old words.new (first * R.BITS + from) count
        (chunk_bit straight.direction chunk) }
{
    let all = read_block::<R, O>(straight, words, first);
    let now = patched(straight.direction, all, from, count, chunk);
    write_block::<R, O>(straight, words, first, now);
}
