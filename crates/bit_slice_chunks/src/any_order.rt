//! Chunks of a memory in any lawful order, counted in any direction: they are had in the order's own, and turned where that is
//! another one.

ghost use Rattle.std.specs.Prelude.{◌≡◌, ◌+◌, ◌*◌, ◌<◌, ◌≤◌};
ghost use Rattle.bit_addressing_memory.specs.Prelude.{Lies, entry, read_by, touched, Overwrites};
ghost use Rattle.bit_addressing_memory.specs.Chunk.{chunk_bit, IsChunk};
ghost use Rattle.bit_slice_chunks.specs.Combined.{combined_bit};

use crate::chunk::faced;
use crate::combination::{Combination, combined};
use crate::combine::combine_words;
use crate::transfer::{read_own, write_own};
use crate::whole::read_whole;
pub use bit_addressing_memory::direction_for;
use bit_addressing_memory::{BitOrder, BitRegister, Direction, Straight};

/// The `count` bits of a memory from a place on, 1 to 64, as a chunk of the direction: bit k of it is entry
/// `place + k`, and the bits behind them are zero.
#[inline(always)]
#[tactic(auto, using(crate::proofs::TurnLemmas::faced_chunk))]
pub fn read_bits<R: BitRegister, O: BitOrder<R>>(
    direction: Direction,
    words: &[R],
    place: usize,
    count: usize,
) -> u64
    requires some { 0 < count }
    requires few { count ≤ 64 }
    requires lies { Lies R.BITS words.now place count }
    ensures { IsChunk (read_by R.BitRegister O.position) words.now place count direction result }
{
    let own = direction_for::<R, O>();
    faced(own, direction, read_own::<R, O>(own, words, place, count))
}

/// The same by the words that the bits touch, each read once, with how many these are.
#[inline(always)]
#[tactic(auto, using(crate::proofs::TurnLemmas::faced_chunk))]
pub fn read_counted<R: BitRegister, O: BitOrder<R>>(
    direction: Direction,
    words: &[R],
    place: usize,
    count: usize,
) -> (u64, usize)
    requires some { 0 < count }
    requires few { count ≤ 64 }
    requires lies { Lies R.BITS words.now place count }
    ensures chunk { IsChunk (read_by R.BitRegister O.position) words.now place count direction result.0 }
    ensures reads { result.1 ≡ touched R.BITS place count }
{
    let own = direction_for::<R, O>();
    let (chunk, reads) = bit_addressing_memory::read_counted::<R, O>(own, words, place, count);
    (faced(own, direction, chunk), reads)
}

/// The same by the words that these bits touch and no others: quicker than `read_bits` where few words lie behind them.
#[inline(always)]
pub fn read_touched<R: BitRegister, O: BitOrder<R>>(
    direction: Direction,
    words: &[R],
    place: usize,
    count: usize,
) -> u64
    requires some { 0 < count }
    requires few { count ≤ 64 }
    requires lies { Lies R.BITS words.now place count }
    ensures { IsChunk (read_by R.BitRegister O.position) words.now place count direction result }
{
    read_counted::<R, O>(direction, words, place, count).0
}

/// The 64 bits of a memory from a place on, as `read_bits` has them.
#[inline(always)]
pub fn read_chunk<R: BitRegister, O: BitOrder<R>>(
    direction: Direction,
    words: &[R],
    place: usize,
) -> u64
    requires lies { Lies R.BITS words.now place 64 }
    ensures { IsChunk (read_by R.BitRegister O.position) words.now place 64 direction result }
{
    read_nth_chunk::<R, O>(direction, words, place, 0)
}

/// The 64 bits `64 * k` behind a place. A loop over `k` finds the word and the index of the place once.
#[inline(always)]
#[tactic(auto, using(crate::proofs::TurnLemmas::faced_chunk))]
pub fn read_nth_chunk<R: BitRegister, O: BitOrder<R>>(
    direction: Direction,
    words: &[R],
    place: usize,
    k: usize,
) -> u64
    requires lies { Lies R.BITS words.now (place + 64 * k) 64 }
    ensures { IsChunk (read_by R.BitRegister O.position) words.now (place + 64 * k) 64 direction result }
{
    match Straight::<R, O>::find() {
        Some(straight) => {
            let chunk = read_whole::<R, O>(straight, words, place, k);
            faced(straight.direction, direction, chunk)
        }
        None => read_bits::<R, O>(direction, words, place + 64 * k, 64),
    }
}

/// Makes the `count` bits of a memory from a place on, 1 to 64, those of a chunk of the direction: entry `place + k`
/// is bit k of it. Every other bit of the memory stays.
#[inline(always)]
#[tactic(auto, using(bit_addressing_memory::proofs::PartsLemmas::stores_as))]
pub fn write_bits<R: BitRegister, O: BitOrder<R>>(
    direction: Direction,
    words: &mut [R],
    place: usize,
    count: usize,
    chunk: u64,
)
    requires some { 0 < count }
    requires few { count ≤ 64 }
    requires lies { Lies R.BITS words.old place count }
    ensures { Overwrites (read_by R.BitRegister O.position) words.old words.new place count
        (chunk_bit direction chunk) }
{
    let own = direction_for::<R, O>();
    write_own::<R, O>(own, words, place, count, faced(direction, own, chunk));
}

/// The same, with how many words were put: each that the bits touch, once.
#[inline(always)]
#[tactic(auto, using(bit_addressing_memory::proofs::PartsLemmas::stores_as))]
pub fn write_counted<R: BitRegister, O: BitOrder<R>>(
    direction: Direction,
    words: &mut [R],
    place: usize,
    count: usize,
    chunk: u64,
) -> usize
    requires some { 0 < count }
    requires few { count ≤ 64 }
    requires lies { Lies R.BITS words.old place count }
    ensures bits { Overwrites (read_by R.BitRegister O.position) words.old words.new place count
        (chunk_bit direction chunk) }
    ensures writes { result ≡ touched R.BITS place count }
{
    let own = direction_for::<R, O>();
    let facing = faced(direction, own, chunk);
    bit_addressing_memory::write_counted::<R, O>(own, words, place, count, facing)
}

/// Makes the 64 bits of a memory from a place on those of a chunk, as `write_bits` does.
#[inline(always)]
pub fn write_chunk<R: BitRegister, O: BitOrder<R>>(
    direction: Direction,
    words: &mut [R],
    place: usize,
    chunk: u64,
)
    requires lies { Lies R.BITS words.old place 64 }
    ensures { Overwrites (read_by R.BitRegister O.position) words.old words.new place 64
        (chunk_bit direction chunk) }
{
    combine_chunk::<R, O>(direction, Combination::Take, words, place, chunk);
}

/// Makes each of the `count` bits of a memory from a place on, 1 to 64, what `how` makes of it and of a chunk's: entry
/// `place + k` by bit k. Every other bit of the memory stays.
#[inline(always)]
#[tactic(auto, using(crate::proofs::CombineLemmas::combined_chunk))]
pub fn combine_bits<R: BitRegister, O: BitOrder<R>>(
    direction: Direction,
    how: Combination,
    words: &mut [R],
    place: usize,
    count: usize,
    other: u64,
)
    requires some { 0 < count }
    requires few { count ≤ 64 }
    requires lies { Lies R.BITS words.old place count }
    ensures { Overwrites (read_by R.BitRegister O.position) words.old words.new place count
        (λ k. combined_bit how (entry (read_by R.BitRegister O.position) words.old (place + k))
        (chunk_bit direction other k)) }
{
    if let Combination::Take = how {
        write_bits::<R, O>(direction, words, place, count, other);
        return;
    }
    let chunk = read_bits::<R, O>(direction, words, place, count);
    write_bits::<R, O>(direction, words, place, count, combined(how, chunk, other));
}

/// Makes each of the 64 bits of a memory from a place on what `how` makes of it and of a chunk's, as `combine_bits`.
#[inline(always)]
#[tactic(auto, using(bit_addressing_memory::proofs::PartsLemmas::stores_as))]
pub fn combine_chunk<R: BitRegister, O: BitOrder<R>>(
    direction: Direction,
    how: Combination,
    words: &mut [R],
    place: usize,
    other: u64,
)
    requires lies { Lies R.BITS words.old place 64 }
    ensures { Overwrites (read_by R.BitRegister O.position) words.old words.new place 64
        (λ k. combined_bit how (entry (read_by R.BitRegister O.position) words.old (place + k))
        (chunk_bit direction other k)) }
{
    if let Some(straight) = Straight::<R, O>::find() {
        if R::BITS <= 64 {
            let facing = faced(direction, straight.direction, other);
            combine_words::<R, O>(straight, how, words, place, facing);
            return;
        }
    }
    combine_bits::<R, O>(direction, how, words, place, 64, other);
}
