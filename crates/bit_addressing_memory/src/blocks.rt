//! Blocks: chunks of 64 bits that are whole words, and those that begin anywhere, where positions go straight. A compiler makes
//! one load or one store of the words of a block.

ghost use Rattle.std.specs.Prelude.{◌≡◌, ℕ, List, ◌+◌, ◌*◌, ◌/◌, ◌<◌, ◌≤◌, length, slice_set};
ghost use Rattle.bit_addressing_memory.specs.Prelude.{read_by, Overwrites};
ghost use Rattle.bit_addressing_memory.specs.Chunk.{chunk_bit, IsChunk};
ghost use Rattle.bit_addressing_memory.specs.Moves.{Moves, changed};
ghost use Rattle.bit_addressing_memory.specs.Ways.{ReadsFirst};

use crate::chunk::{lowered, part, placed, raised};
use crate::direction::Straight;
use crate::sweep::Way;
use bit_addressing_order::mem::bits_of;
use bit_addressing_order::{BitOrder, BitRegister};

// How many words make a block.
#[inline(always)]
pub(crate) fn block_words<R: BitRegister>() -> u8
    requires { R.BITS ≤ 64 }
    ensures { result * R.BITS ≡ 64 }
{
    64 / R::BITS
}

/// The bits of the words from one on, as many as make a block.
#[inline(always)]
#[tactic(auto, using(crate::proofs::BlockLemmas::word_of_chunk))]
pub fn read_block<R: BitRegister, O: BitOrder<R>>(
    straight: Straight<R, O>,
    words: &[R],
    first: usize,
) -> u64
    requires narrow { R.BITS ≤ 64 }
    requires lies { first * R.BITS + 64 ≤ length words.now * R.BITS }
    ensures { IsChunk (read_by R.BitRegister O.position) words.now (first * R.BITS) 64 straight.direction result }
{
    let bits = bits_of::<R>();
    let mut chunk = 0u64;
    for k in 0..64 / bits {
        let next = part::<R, O>(straight, words[first + k], 0);
        chunk |= raised(straight.direction, next, (k * bits) as u8);
    }
    chunk
}

/// Makes the bits of the words from one on, as many as make a block, those of a chunk.
#[inline(always)]
pub fn write_block<R: BitRegister, O: BitOrder<R>>(
    straight: Straight<R, O>,
    words: &mut [R],
    first: usize,
    chunk: u64,
)
    requires narrow { R.BITS ≤ 64 }
    requires lies { first * R.BITS + 64 ≤ length words.old * R.BITS }
    ensures bits { Overwrites (read_by R.BitRegister O.position) words.old words.new (first * R.BITS) 64
        (chunk_bit straight.direction chunk) }
    ensures few { (number : R → ℕ) → (others : List R)
        → changed number others words.new ≤ changed number others words.old + 64 / R.BITS }
{
    let bits = bits_of::<R>();
    // As many words as a `usize` counts, and so each of their numbers is one.
    let _words = words.len();
    for k in 0..64 / bits {
        let rest = lowered(straight.direction, chunk, (k * bits) as u8);
        let word = placed::<R>(straight.direction, rest, 0);
        replace(words, first + k, word);
    }
}

// Puts a word.
#[inline(always)]
fn replace<R: BitRegister>(words: &mut [R], at: usize, word: R)
    requires { at < length words.old }
    ensures { words.new ≡ slice_set words.old at word }
{
    words[at] = word;
}

/// The 64 bits from an index of a word on.
#[inline(always)]
#[tactic(auto, using(crate::proofs::BlockLemmas::next_word))]
pub fn read_block_from<R: BitRegister, O: BitOrder<R>>(
    straight: Straight<R, O>,
    words: &[R],
    first: usize,
    by: u8,
) -> u64
    requires narrow { R.BITS ≤ 64 }
    requires index { by < R.BITS }
    requires lies { first * R.BITS + by + 64 ≤ length words.now * R.BITS }
    ensures { IsChunk (read_by R.BitRegister O.position) words.now (first * R.BITS + by) 64 straight.direction result }
{
    let low = read_block::<R, O>(straight, words, first);
    if by == 0 {
        return low;
    }
    let behind = first + 64 / bits_of::<R>();
    let next = part::<R, O>(straight, words[behind], 0);
    lowered(straight.direction, low, by) | raised(straight.direction, next, 64 - by)
}

// Moves bits by so many blocks, those from the index `by` of the word `from` on to the word `low` and those behind it.
#[inline(always)]
pub(crate) fn move_blocks<R: BitRegister, O: BitOrder<R>>(
    straight: Straight<R, O>,
    words: &mut [R],
    way: Way,
    from: usize,
    by: usize,
    low: usize,
    count: usize,
    size: u8,
)
    requires size { size * R.BITS ≡ 64 }
    requires order { ReadsFirst way (from * R.BITS + by) (low * R.BITS) }
    requires index { by < R.BITS }
    requires source { from * R.BITS + by + 64 * count ≤ length words.old * R.BITS }
    requires within { low + count * size ≤ length words.old }
    ensures moved { Moves (read_by R.BitRegister O.position) words.old words.new (from * R.BITS + by) (low * R.BITS)
        (64 * count) }
    ensures few { (number : R → ℕ) → (others : List R)
        → changed number others words.new ≤ changed number others words.old + count * size }
{
    let step = size as usize;
    match way {
        Way::Up => {
            'up: for m in 0..count {
                let block = read_block_from::<R, O>(straight, words, from + m * step, by as u8);
                write_block::<R, O>(straight, words, low + m * step, block);
            }
        }
        Way::Down => {
            'down: for m in (0..count).rev() {
                let block = read_block_from::<R, O>(straight, words, from + m * step, by as u8);
                write_block::<R, O>(straight, words, low + m * step, block);
            }
        }
    }
}
