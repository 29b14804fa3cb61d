//! The work on the words of a box.

ghost use Rattle.std.specs.Prelude.{◌≡◌, ◌+◌, ◌*◌, ◌<◌, ◌≤◌, ◌^◌, length, map, not, replicate, take, drop};
ghost use Rattle.bit_addressing_memory.specs.Memory.{memory, piece, read_by, with_piece};
ghost use Rattle.bit_addressing_memory.specs.Moves.{Moves};
ghost use Rattle.bit_containers_vector.specs.Count.{words_for};

use bit_addressing_memory::{BitOrder, BitRegister, mem};
use bit_slice_views::BitStore;
use bit_slice_words::{fill_in, move_words, not_in};

// How many words so many bits take.
pub(crate) fn words_taken<T: BitRegister>(bits: usize) -> usize
    ensures { result ≡ words_for T.BITS bits }
{
    bits.div_ceil(mem::bits_of::<T>())
}

// Moves `len` bits from a place on to the first word's first bit.
#[tactic(auto, using(bit_containers_vector::proofs::CountLemmas::refilled))]
pub(crate) fn move_first<T: BitStore, O: BitOrder<T>>(words: &mut Vec<T>, place: usize, len: usize)
    requires within { place + len ≤ length words.old.items * T.BITS }
    requires ends { place + len < 2 ^ 64 }
    ensures { Moves (read_by T.BitRegister O.position) words.old.items words.new.items place 0 len }
{
    move_words::<T, O>(words.as_mut_slice(), place, 0, len);
}

// Makes each bit of the first `count` words that is not one of `len` bits from a place on `bit`.
#[tactic(auto, using(bit_containers_vector::proofs::CountLemmas::refilled))]
pub(crate) fn fill_first<T: BitStore, O: BitOrder<T>>(
    words: &mut Vec<T>,
    count: usize,
    place: usize,
    len: usize,
    bit: bool,
)
    requires held { count ≤ length words.old.items }
    requires within { place + len ≤ count * T.BITS }
    requires ends { count * T.BITS < 2 ^ 64 }
    ensures first { memory (read_by T.BitRegister O.position) (take count words.new.items)
        ≡ with_piece (replicate (count * T.BITS) bit) place
        (piece (memory (read_by T.BitRegister O.position) (take count words.old.items)) place len) }
    ensures rest { drop count words.new.items ≡ drop count words.old.items }
    ensures size { length words.new.items ≡ length words.old.items }
{
    fill_part::<T, O>(words.as_mut_slice(), count, place, len, bit);
}

#[tactic(auto, using(crate::proofs::PartLemmas::parts))]
fn fill_part<T: BitStore, O: BitOrder<T>>(
    words: &mut [T],
    count: usize,
    place: usize,
    len: usize,
    bit: bool,
)
    requires held { count ≤ length words.old }
    requires within { place + len ≤ count * T.BITS }
    requires ends { count * T.BITS < 2 ^ 64 }
    ensures first { memory (read_by T.BitRegister O.position) (take count words.new)
        ≡ with_piece (replicate (count * T.BITS) bit) place
        (piece (memory (read_by T.BitRegister O.position) (take count words.old)) place len) }
    ensures rest { drop count words.new ≡ drop count words.old }
    ensures size { length words.new ≡ length words.old }
{
    fill_beside::<T, O>(&mut words[..count], place, len, bit);
}

// Makes each bit of some words that is not one of `len` bits from a place on `bit`.
fn fill_beside<T: BitStore, O: BitOrder<T>>(words: &mut [T], place: usize, len: usize, bit: bool)
    requires within { place + len ≤ length words.old * T.BITS }
    requires ends { length words.old * T.BITS < 2 ^ 64 }
    ensures written { memory (read_by T.BitRegister O.position) words.new
        ≡ with_piece (replicate (length words.old * T.BITS) bit) place
        (piece (memory (read_by T.BitRegister O.position) words.old) place len) }
    ensures size { length words.new ≡ length words.old }
{
    let all = words.len() * mem::bits_of::<T>();
    let end = place + len;
    fill_in::<T, O>(words, 0, place, bit);
    fill_in::<T, O>(words, end, all - end, bit);
}

// Flips each bit of the first `count` words.
#[tactic(auto, using(bit_containers_vector::proofs::CountLemmas::refilled))]
pub(crate) fn flip_first<T: BitStore, O: BitOrder<T>>(words: &mut Vec<T>, count: usize)
    requires held { count ≤ length words.old.items }
    requires ends { count * T.BITS < 2 ^ 64 }
    ensures first { memory (read_by T.BitRegister O.position) (take count words.new.items)
        ≡ map not (memory (read_by T.BitRegister O.position) (take count words.old.items)) }
    ensures rest { drop count words.new.items ≡ drop count words.old.items }
    ensures size { length words.new.items ≡ length words.old.items }
{
    flip_part::<T, O>(words.as_mut_slice(), count);
}

#[tactic(auto, using(crate::proofs::PartLemmas::parts))]
fn flip_part<T: BitStore, O: BitOrder<T>>(words: &mut [T], count: usize)
    requires held { count ≤ length words.old }
    requires ends { count * T.BITS < 2 ^ 64 }
    ensures first { memory (read_by T.BitRegister O.position) (take count words.new)
        ≡ map not (memory (read_by T.BitRegister O.position) (take count words.old)) }
    ensures rest { drop count words.new ≡ drop count words.old }
    ensures size { length words.new ≡ length words.old }
{
    flip_all::<T, O>(&mut words[..count]);
}

// Flips each bit of some words.
fn flip_all<T: BitStore, O: BitOrder<T>>(words: &mut [T])
    requires ends { length words.old * T.BITS < 2 ^ 64 }
    ensures flipped { memory (read_by T.BitRegister O.position) words.new
        ≡ map not (memory (read_by T.BitRegister O.position) words.old) }
    ensures size { length words.new ≡ length words.old }
{
    let all = words.len() * mem::bits_of::<T>();
    not_in::<T, O>(words, 0, all);
}
