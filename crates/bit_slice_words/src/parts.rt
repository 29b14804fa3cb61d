//! The first and the last bit of a kind in a part of a word whose positions go straight, which is looked at as one number.

ghost use Rattle.std.specs.Prelude.{◌≡◌, ℕ, ◌+◌, ◌-◌, ◌*◌, ◌^◌, ◌<◌, ◌≤◌, false, length};
ghost use Rattle.bit_addressing_memory.specs.Prelude.{Lies, read_by};
ghost use Rattle.bit_addressing_memory.specs.declared.direction.Direction.{Direction};
ghost use Rattle.bit_addressing_memory.specs.Straight.{straight};
ghost use Rattle.bit_slice_paths.specs.Chunk.{chunk_bit};
ghost use Rattle.bit_slice_words.specs.Found.{is_bit};
ghost use Rattle.bit_slice_words.specs.Stretch.{bit_found, IsFirst, IsLast};

use bit_addressing_memory::mem::bits_of;
use bit_addressing_memory::{BitOrder, BitRegister, Direction, Straight};
use bit_slice_paths::{first_difference, raised, read_nth_chunk, read_part};

// The place of the first bit that is `bit` in a part of a word, of up to 64 bits.
#[inline(always)]
#[tactic(auto, using(crate::proofs::ChunkedLemmas::chunk_first, crate::proofs::ChunkedLemmas::none_before))]
pub(crate) fn first_in_part<R: BitRegister, O: BitOrder<R>>(
    straight: Straight<R, O>,
    words: &[R],
    word: usize,
    from: u8,
    upto: u8,
    bit: bool,
) -> Option<usize>
    requires inside { word < length words.now }
    requires order { from < upto }
    requires few { upto ≤ from + 64 }
    requires within { upto ≤ R.BITS }
    requires ends { word * R.BITS + upto < 2 ^ 64 }
    ensures { IsFirst (bit_found (read_by R.BitRegister O.position) words.now bit)
        (word * R.BITS + from) (word * R.BITS + upto) result }
{
    let count = upto - from;
    let chunk = read_part::<R, O>(straight, words, word, from, count);
    let before = first_difference(straight.direction, chunk, chunk_without(bit));
    if before < count as usize {
        Some(word * bits_of::<R>() + from as usize + before)
    } else {
        None
    }
}

// The place of the first bit that is `bit` in the 64 bits `64 * k` behind a place.
#[inline(always)]
#[tactic(auto, using(crate::proofs::ChunkedLemmas::chunk_first, crate::proofs::ChunkedLemmas::none_before))]
pub(crate) fn first_in_block<R: BitRegister, O: BitOrder<R>>(
    straight: Straight<R, O>,
    words: &[R],
    place: usize,
    k: usize,
    bit: bool,
) -> Option<usize>
    requires lies { Lies R.BITS words.now (place + 64 * k) 64 }
    ensures { IsFirst (bit_found (read_by R.BitRegister O.position) words.now bit)
        (place + 64 * k) (place + 64 * k + 64) result }
{
    let chunk = read_nth_chunk::<R, O>(straight.direction, words, place, k);
    let before = first_difference(straight.direction, chunk, chunk_without(bit));
    if before < 64 {
        Some(place + 64 * k + before)
    } else {
        None
    }
}

// The place of the last bit that is `bit` in a part of a word, of up to 64 bits.
#[inline(always)]
pub(crate) fn last_in_part<R: BitRegister, O: BitOrder<R>>(
    straight: Straight<R, O>,
    words: &[R],
    word: usize,
    from: u8,
    upto: u8,
    bit: bool,
) -> Option<usize>
    requires inside { word < length words.now }
    requires order { from < upto }
    requires few { upto ≤ from + 64 }
    requires within { upto ≤ R.BITS }
    requires ends { word * R.BITS + upto < 2 ^ 64 }
    ensures { IsLast (bit_found (read_by R.BitRegister O.position) words.now bit)
        (word * R.BITS + from) (word * R.BITS + upto) result }
{
    let count = upto - from;
    let read = read_part::<R, O>(straight, words, word, from, count);
    let chunk = raised(straight.direction, read, 64 - count);
    let behind = first_difference(opposite(straight.direction), chunk, chunk_without(bit));
    if behind < count as usize {
        Some(word * bits_of::<R>() + from as usize + (count as usize - 1 - behind))
    } else {
        None
    }
}

// The number no bit of which is `bit`.
#[inline(always)]
#[tactic(auto, using(crate::proofs::ChunkedLemmas::lacks_zeros))]
fn chunk_without(bit: bool) -> u64
    ensures { (direction : Direction) → (i : ℕ) → i < 64 → is_bit bit (chunk_bit direction result i) ≡ false }
{
    if bit { 0 } else { u64::MAX }
}

// The direction in which the bits of a chunk are met from the last on.
#[inline(always)]
fn opposite(direction: Direction) -> Direction
    ensures { (i : ℕ) → i < 64 → straight 64 result i ≡ straight 64 direction (63 - i) }
{
    match direction {
        Direction::Ascending => Direction::Descending,
        Direction::Descending => Direction::Ascending,
    }
}
