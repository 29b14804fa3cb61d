//! Up to 64 bits of one word of a memory, where positions go straight, and of words in the order's own direction: a whole chunk is
//! read, where the memory has one, and cut off.

ghost use Rattle.std.specs.Prelude.{◌≡◌, ◌+◌, ◌-◌, ◌*◌, ◌^◌, ◌<◌, ◌≤◌, length, true};
ghost use Rattle.bit_addressing_memory.specs.Prelude.{Lies, read_by, Overwrites};
ghost use Rattle.bit_addressing_memory.specs.Straight.{straight};
ghost use Rattle.bit_addressing_memory.specs.Chunk.{chunk_bit, IsChunk, IsOwn, ReadsDigits};

use crate::chunk::digits_from;
use crate::whole::read_whole;
use bit_addressing_memory::chunk::{first_bits, part};
use bit_addressing_memory::mem::bits_of;
use bit_addressing_memory::{
    BitOrder, BitRegister, Direction, Straight, known_direction, put_part, read_counted,
    write_counted,
};

// Whether 64 bits from a place on are read at once: words have up to 64 bits, and there is one behind those that they fill.
#[inline(always)]
#[tactic(auto, using(crate::proofs::WholeLemmas::chunk_within))]
pub(crate) fn has_chunk<R: BitRegister>(words: &[R], place: usize) -> bool
    ensures within { result ≡ true → place + 64 ≤ length words.now * R.BITS }
    ensures ends { result ≡ true → place + 64 < 2 ^ 64 }
{
    if R::BITS > 64 || place >= usize::MAX - 64 {
        return false;
    }
    let bits = bits_of::<R>();
    place / bits + 64 / bits < words.len()
}

// The `count` bits of a memory from a place on, 1 to 64, as a chunk of the order's own direction.
#[tactic(auto, using(crate::proofs::WholeLemmas::chunk_cut))]
pub(crate) fn read_own<R: BitRegister, O: BitOrder<R>>(
    direction: Direction,
    words: &[R],
    place: usize,
    count: usize,
) -> u64
    requires own { IsOwn R.BITS O.position direction }
    requires some { 0 < count }
    requires few { count ≤ 64 }
    requires lies { Lies R.BITS words.now place count }
    ensures { IsChunk (read_by R.BitRegister O.position) words.now place count direction result }
{
    if let Some(straight) = Straight::<R, O>::find() {
        if has_chunk::<R>(words, place) {
            let chunk = read_whole::<R, O>(straight, words, place, 0);
            return first_bits(straight.direction, chunk, count as u8);
        }
    }
    read_counted::<R, O>(known_direction::<R, O>(direction), words, place, count).0
}

// Makes these bits those of such a chunk.
pub(crate) fn write_own<R: BitRegister, O: BitOrder<R>>(
    direction: Direction,
    words: &mut [R],
    place: usize,
    count: usize,
    chunk: u64,
)
    requires own { IsOwn R.BITS O.position direction }
    requires some { 0 < count }
    requires few { count ≤ 64 }
    requires lies { Lies R.BITS words.old place count }
    ensures { Overwrites (read_by R.BitRegister O.position) words.old words.new place count (chunk_bit direction chunk) }
{
    write_counted::<R, O>(
        known_direction::<R, O>(direction),
        words,
        place,
        count,
        chunk,
    );
}

/// The `count` bits of one word of a memory from an index on, 1 to 64, as a chunk, as `read_bits` has them.
#[inline(always)]
pub fn read_part<R: BitRegister, O: BitOrder<R>>(
    straight: Straight<R, O>,
    words: &[R],
    word: usize,
    from: u8,
    count: u8,
) -> u64
    requires some { 0 < count }
    requires few { count ≤ 64 }
    requires inside { word < length words.now }
    requires within { from + count ≤ R.BITS }
    ensures { IsChunk (read_by R.BitRegister O.position) words.now (word * R.BITS + from) count straight.direction result }
{
    let chunk = part::<R, O>(straight, words[word], from);
    first_bits(straight.direction, chunk, count)
}

/// The number whose digits the `count` bits of one word of a memory are from an index on, 1 to 64: `digits_of` what
/// `read_part` returns, by one shift.
#[inline(always)]
pub fn read_digits<R: BitRegister, O: BitOrder<R>>(
    straight: Straight<R, O>,
    words: &[R],
    word: usize,
    from: u8,
    count: u8,
) -> u64
    requires some { 0 < count }
    requires few { count ≤ 64 }
    requires inside { word < length words.now }
    requires within { from + count ≤ R.BITS }
    ensures { ReadsDigits (read_by R.BitRegister O.position) words.now (word * R.BITS + from) count straight.direction
        result }
{
    let below = digits_below(straight.direction, R::BITS, from, count);
    let chunk = digits_from::<R>(words[word], below);
    first_bits(Direction::Ascending, chunk, count)
}

// How many digits of a word lie below those of `count` bits from an index on.
#[inline(always)]
fn digits_below(direction: Direction, bits: u8, from: u8, count: u8) -> u8
    requires some { 0 < count }
    requires within { from + count ≤ bits }
    ensures lowest { result + straight count direction 0 ≡ straight bits direction from }
    ensures within { result + count ≤ bits }
{
    match direction {
        Direction::Ascending => from,
        Direction::Descending => bits - from - count,
    }
}

/// Makes the `count` bits of one word of a memory from an index on, 1 to 64, those of a chunk, as `write_bits` does.
#[inline(always)]
#[tactic(auto, using(bit_addressing_memory::proofs::TransferLemmas::own_goes))]
pub fn write_part<R: BitRegister, O: BitOrder<R>>(
    straight: Straight<R, O>,
    words: &mut [R],
    word: usize,
    from: u8,
    count: u8,
    chunk: u64,
)
    requires some { 0 < count }
    requires few { count ≤ 64 }
    requires inside { word < length words.old }
    requires within { from + count ≤ R.BITS }
    ensures { Overwrites (read_by R.BitRegister O.position) words.old words.new (word * R.BITS + from) count
        (chunk_bit straight.direction chunk) }
{
    put_part::<R, O>(straight.direction, words, word, from, from + count, chunk);
}
