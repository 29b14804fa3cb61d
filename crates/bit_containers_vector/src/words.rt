//! Vectors of words that grow and shrink by bits.

ghost use Rattle.std.specs.Prelude.{◌≡◌, ◌+◌, ◌-◌, ◌*◌, ◌<◌, ◌≤◌, ◌^◌, ◌++◌, length, take, replicate, not, IsOk, OnOk, OnErr};
ghost use Rattle.std.specs.Prelude.{vec_capacity};
ghost use Rattle.bit_addressing_memory.specs.Memory.{entry, read_by, Copies, Overwrites, Writes};
ghost use Rattle.bit_addressing_memory.specs.Moves.{Moves};
ghost use Rattle.bit_slice_words.specs.Rotations.{rotated_from};
ghost use Rattle.bit_containers_vector.specs.Count.{words_for};

use bit_addressing_memory::{BitOrder, BitRegister, mem, write_entry};
use bit_slice_views::BitStore;
use bit_slice_words::{copy_in, fill_in, move_words, not_in, rotate_left_in};
use std::alloc::AllocError;

// How many words so many bits take.
pub(crate) fn words_taken<T: BitRegister>(bits: usize) -> usize
    ensures { result ≡ words_for T.BITS bits }
{
    bits.div_ceil(mem::bits_of::<T>())
}

// Leaves the words of the first `end` bits, and adds zeros up to those of `upto` bits.
pub(crate) fn extend_words<T: BitStore>(
    words: &mut Vec<T>,
    end: usize,
    upto: usize,
) -> Result<(), AllocError>
    requires held { words_for T.BITS end ≤ length words.old.items }
    requires order { end ≤ upto }
    ensures items { OnOk result (words.new.items ≡ take (words_for T.BITS end) words.old.items
        ++ replicate (words_for T.BITS upto - words_for T.BITS end) T.ZERO) }
    ensures err { OnErr result (words.new.items ≡ take (words_for T.BITS end) words.old.items) }
    ensures succeeds { words_for T.BITS upto ≤ vec_capacity words.old → IsOk result }
    ensures capacity { vec_capacity words.old ≤ vec_capacity words.new }
{
    let kept = words_taken::<T>(end);
    let wanted = words_taken::<T>(upto);

    // No word more is wanted, and none is to be cut off.
    if kept == wanted && kept == words.len() {
        return Ok(());
    }
    words.truncate(kept);
    words.resize(wanted, T::ZERO)
}

// Makes the bit at a place `bit`.
#[tactic(auto, using(crate::proofs::CountLemmas::refilled))]
pub(crate) fn put<T: BitStore, O: BitOrder<T>>(words: &mut Vec<T>, place: usize, bit: bool)
    requires { place < length words.old.items * T.BITS }
    ensures written { Writes (read_by T.BitRegister O.position) words.old.items words.new.items place bit }
    ensures capacity { vec_capacity words.new ≡ vec_capacity words.old }
{
    write_entry::<T, O>(words.as_mut_slice(), place, bit);
}

// Makes `len` bits from a place on `bit`.
#[tactic(auto, using(crate::proofs::CountLemmas::refilled))]
pub(crate) fn fill<T: BitStore, O: BitOrder<T>>(
    words: &mut Vec<T>,
    place: usize,
    len: usize,
    bit: bool,
)
    requires within { place + len ≤ length words.old.items * T.BITS }
    requires ends { place + len < 2 ^ 64 }
    ensures filled { Overwrites (read_by T.BitRegister O.position) words.old.items words.new.items place len (λ _. bit) }
    ensures capacity { vec_capacity words.new ≡ vec_capacity words.old }
{
    fill_in::<T, O>(words.as_mut_slice(), place, len, bit);
}

// Makes `len` bits from a place on those of another memory.
#[tactic(auto, using(crate::proofs::CountLemmas::refilled))]
pub(crate) fn copy<T: BitStore, O: BitOrder<T>, Q: BitRegister, P: BitOrder<Q>>(
    words: &mut Vec<T>,
    place: usize,
    others: &[Q],
    source: usize,
    len: usize,
)
    requires within { place + len ≤ length words.old.items * T.BITS }
    requires ends { place + len < 2 ^ 64 }
    requires source_within { source + len ≤ length others.now * Q.BITS }
    requires source_ends { source + len < 2 ^ 64 }
    ensures copied { Copies (read_by T.BitRegister O.position) words.old.items words.new.items
        (read_by Q.BitRegister P.position) others.now source place len }
    ensures capacity { vec_capacity words.new ≡ vec_capacity words.old }
{
    copy_in::<Q, P, T, O>(others, source, words.as_mut_slice(), place, len);
}

// Makes `len` bits from `target` on what those from `source` on were.
#[tactic(auto, using(crate::proofs::CountLemmas::refilled))]
pub(crate) fn shift<T: BitStore, O: BitOrder<T>>(
    words: &mut Vec<T>,
    source: usize,
    target: usize,
    len: usize,
)
    requires source_within { source + len ≤ length words.old.items * T.BITS }
    requires target_within { target + len ≤ length words.old.items * T.BITS }
    requires source_ends { source + len < 2 ^ 64 }
    requires target_ends { target + len < 2 ^ 64 }
    ensures moved { Moves (read_by T.BitRegister O.position) words.old.items words.new.items source target len }
    ensures capacity { vec_capacity words.new ≡ vec_capacity words.old }
{
    move_words::<T, O>(words.as_mut_slice(), source, target, len);
}

// Flips the first `len` bits.
#[tactic(auto, using(crate::proofs::CountLemmas::refilled))]
pub(crate) fn flip<T: BitStore, O: BitOrder<T>>(words: &mut Vec<T>, len: usize)
    requires within { len ≤ length words.old.items * T.BITS }
    requires ends { len < 2 ^ 64 }
    ensures flipped { Overwrites (read_by T.BitRegister O.position) words.old.items words.new.items 0 len
        (λ k. not (entry (read_by T.BitRegister O.position) words.old.items (0 + k))) }
    ensures capacity { vec_capacity words.new ≡ vec_capacity words.old }
{
    not_in::<T, O>(words.as_mut_slice(), 0, len);
}

// Makes each word this one.
#[tactic(auto, using(crate::proofs::SetLemmas::all_set))]
pub(crate) fn set_words<T: BitStore>(words: &mut Vec<T>, word: T)
    ensures items { words.new.items ≡ replicate (length words.old.items) word }
    ensures capacity { vec_capacity words.new ≡ vec_capacity words.old }
{
    for i in 0..words.len() {
        words[i] = word;
    }
}

// Rotates `len` bits from a place on to the left.
#[tactic(auto, using(crate::proofs::CountLemmas::refilled))]
pub(crate) fn turn<T: BitStore, O: BitOrder<T>>(
    words: &mut Vec<T>,
    place: usize,
    len: usize,
    by: usize,
)
    requires within { place + len ≤ length words.old.items * T.BITS }
    requires ends { place + len < 2 ^ 64 }
    requires most { by ≤ len }
    ensures rotated { Overwrites (read_by T.BitRegister O.position) words.old.items words.new.items place len
        (λ k. entry (read_by T.BitRegister O.position) words.old.items (place + rotated_from len by k)) }
    ensures capacity { vec_capacity words.new ≡ vec_capacity words.old }
{
    rotate_left_in::<T, O>(words.as_mut_slice(), place, len, by);
}
