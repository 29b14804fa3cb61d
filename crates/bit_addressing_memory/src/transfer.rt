//! Up to 64 bits of a memory read as a chunk, and written, in any lawful order and in its own direction. `part_of` and
//! `with_part` do so in one word, by a shift where the order goes straight and else by limbs; each word that the bits touch is
//! read once, or put once.

ghost use Rattle.std.specs.Prelude.{◌≡◌, ◌+◌, ◌-◌, ◌*◌, ◌<◌, ◌≤◌, length};
ghost use Rattle.bit_addressing_memory.specs.Prelude.{Lies, read_by, touched, IsStored, Overwrites};
ghost use Rattle.bit_addressing_memory.specs.Chunk.{chunk_bit, IsChunk, IsOwn, IsPart};

use crate::chunk::{first_bits, lowered, part, placed, raised};
use crate::direction::{Direction, Straight};
use crate::limbs::{spread_part, with_spread};
use crate::masking::stored;
use bit_addressing_order::mem::bits_of;
use bit_addressing_order::{BitEnd, BitIdx, BitOrder, BitRegister};

// The bits of a word at the indices from one up to before another, at most 64, as a chunk. Those of the word behind them may
// follow; behind its end are zeros.
#[inline(always)]
fn part_of<R: BitRegister, O: BitOrder<R>>(direction: Direction, word: R, from: u8, upto: u8) -> u64
    requires own { IsOwn R.BITS O.position direction }
    requires order { from < upto }
    requires within { upto ≤ R.BITS }
    requires few { upto ≤ from + 64 }
    ensures { IsPart (read_by R.BitRegister O.position) word from upto direction result }
{
    match Straight::<R, O>::find() {
        Some(straight) => part::<R, O>(straight, word, from),
        None => spread_part::<R, O>(word, from, upto),
    }
}

// A word with a chunk at its indices from one up to before another, at most 64. Its other bits stay.
#[inline(always)]
pub(crate) fn with_part<R: BitRegister, O: BitOrder<R>>(
    direction: Direction,
    word: R,
    from: u8,
    upto: u8,
    chunk: u64,
) -> R
    requires own { IsOwn R.BITS O.position direction }
    requires order { from < upto }
    requires within { upto ≤ R.BITS }
    requires few { upto ≤ from + 64 }
    ensures { IsStored (read_by R.BitRegister O.position) word result from upto
        (λ i. chunk_bit direction chunk (i - from)) }
{
    match Straight::<R, O>::find() {
        Some(straight) => with_placed::<R, O>(straight, word, from, upto, chunk),
        None => with_spread::<R, O>(word, from, upto, chunk),
    }
}

// The same where the order goes straight.
#[inline(always)]
fn with_placed<R: BitRegister, O: BitOrder<R>>(
    straight: Straight<R, O>,
    word: R,
    from: u8,
    upto: u8,
    chunk: u64,
) -> R
    requires order { from < upto }
    requires within { upto ≤ R.BITS }
    requires few { upto ≤ from + 64 }
    ensures { IsStored (read_by R.BitRegister O.position) word result from upto
        (λ i. chunk_bit straight.direction chunk (i - from)) }
{
    let value = placed::<R>(straight.direction, chunk, from);
    let head = BitIdx::new_unchecked(from);
    stored::<R, O>(word, value, head, BitEnd::new_unchecked(upto))
}

/// Writes the first bits of a chunk into a part of one word of a memory.
#[inline(always)]
pub fn put_part<R: BitRegister, O: BitOrder<R>>(
    direction: Direction,
    words: &mut [R],
    at: usize,
    from: u8,
    upto: u8,
    chunk: u64,
)
    requires own { IsOwn R.BITS O.position direction }
    requires inside { at < length words.old }
    requires order { from < upto }
    requires within { upto ≤ R.BITS }
    requires few { upto ≤ from + 64 }
    ensures { Overwrites (read_by R.BitRegister O.position) words.old words.new (at * R.BITS + from) (upto - from)
        (chunk_bit direction chunk) }
{
    let word = words[at];
    words[at] = with_part::<R, O>(direction, word, from, upto, chunk);
}

/// The `count` bits of a memory from a place on, 1 to 64, as a chunk: bit k of it is entry `place + k`, and the bits
/// behind them are zero. Each word that they touch is read once: with how many these are.
#[inline(always)]
#[tactic(auto, using(crate::proofs::TransferLemmas::reads_of_words))]
pub fn read_counted<R: BitRegister, O: BitOrder<R>>(
    direction: Direction,
    words: &[R],
    place: usize,
    count: usize,
) -> (u64, usize)
    requires own { IsOwn R.BITS O.position direction }
    requires some { 0 < count }
    requires few { count ≤ 64 }
    requires lies { Lies R.BITS words.now place count }
    ensures chunk { IsChunk (read_by R.BitRegister O.position) words.now place count direction result.0 }
    ensures reads { result.1 ≡ touched R.BITS place count }
{
    let bits = bits_of::<R>();
    let first = place / bits;
    let last = (place + count - 1) / bits;
    let head = place % bits;
    let inner = bits.min(head + count);
    let mut chunk = part_of::<R, O>(direction, words[first], head as u8, inner as u8);
    let mut reads = 1;
    for k in first + 1..last + 1 {
        let start = k * bits;
        let upto = bits.min(place + count - start);
        let next = part_of::<R, O>(direction, words[k], 0, upto as u8);
        chunk |= raised(direction, next, (start - place) as u8);
        reads += 1;
    }
    (first_bits(direction, chunk, count as u8), reads)
}

/// Makes the `count` bits of a memory from a place on, 1 to 64, those of a chunk: entry `place + k` is bit k of it. Every
/// other bit of the memory stays. Each word that the bits touch is put once: returns how many.
#[inline(always)]
#[tactic(auto, using(crate::proofs::TransferLemmas::writes_of_words))]
pub fn write_counted<R: BitRegister, O: BitOrder<R>>(
    direction: Direction,
    words: &mut [R],
    place: usize,
    count: usize,
    chunk: u64,
) -> usize
    requires own { IsOwn R.BITS O.position direction }
    requires some { 0 < count }
    requires few { count ≤ 64 }
    requires lies { Lies R.BITS words.old place count }
    ensures bits { Overwrites (read_by R.BitRegister O.position) words.old words.new place count
        (chunk_bit direction chunk) }
    ensures writes { result ≡ touched R.BITS place count }
{
    let bits = bits_of::<R>();
    let first = place / bits;
    let last = (place + count - 1) / bits;
    let head = place % bits;
    let inner = bits.min(head + count);
    put_part::<R, O>(direction, words, first, head as u8, inner as u8, chunk);
    let mut writes = 1;
    for k in first + 1..last + 1 {
        let start = k * bits;
        let upto = bits.min(place + count - start);
        let rest = lowered(direction, chunk, (start - place) as u8);
        put_part::<R, O>(direction, words, k, 0, upto as u8, rest);
        writes += 1;
    }
    writes
}
