//! Whole words of a memory combined with those of a source.

ghost use Rattle.std.specs.Prelude.{◌≡◌, ℕ, ◌+◌, ◌-◌, ◌*◌, ◌%◌, ◌^◌, ◌<◌, ◌≤◌, length};
ghost use Rattle.bit_addressing_memory.specs.Bits.{digit_at};
ghost use Rattle.bit_addressing_memory.specs.Prelude.{Lies, entry, read_by, Overwrites};
ghost use Rattle.bit_slice_chunks.specs.Combined.{combined_bit, Combines};
ghost use Rattle.bit_slice_paths.specs.WholeWords.{IsAlike};

use crate::combining::Combining;
use crate::kernel::{Kernel, drive};
use crate::word_source::{Joined, WordSource, converted};
use bit_addressing_memory::mem::bits_of;
use bit_addressing_memory::{BitEnd, BitIdx, BitOrder, BitRegister, Straight, store_in};
use bit_slice_chunks::Combination;
use std::marker::PhantomData;

/// The word whose digits those of two words make.
#[inline(always)]
#[tactic(auto, using(bit_slice_chunks::proofs::CombineLemmas::and_digit, bit_slice_chunks::proofs::CombineLemmas::or_digit, bit_slice_chunks::proofs::CombineLemmas::xor_digit))]
pub fn merged<H: Combining, R: BitRegister>(mine: R, its: R) -> R
    ensures { (p : ℕ) → digit_at (R.number result) p
        ≡ combined_bit H.HOW (digit_at (R.number mine) p) (digit_at (R.number its) p) }
{
    match H::HOW {
        Combination::Take => its,
        Combination::And => mine.and(its),
        Combination::Or => mine.or(its),
        Combination::Xor => mine.xor(its),
    }
}

/// Combines bits of one word with those at the same indices of a word of another memory that is alike.
#[inline(always)]
#[tactic(auto, using(bit_addressing_memory::proofs::TransferLemmas::first_in))]
pub fn merge_part<H: Combining, R: BitRegister, O: BitOrder<R>, Q: BitRegister, P: BitOrder<Q>>(
    words: &mut [R],
    place: usize,
    others: &[Q],
    other_place: usize,
    count: usize,
)
    requires narrow { R.BITS ≤ 64 }
    requires alike { IsAlike R.BITS O.position Q.BITS P.position }
    requires level { place % R.BITS ≡ other_place % R.BITS }
    requires some { 0 < count }
    requires one { place % R.BITS + count ≤ R.BITS }
    requires lies { Lies R.BITS words.old place count }
    requires other_lies { Lies Q.BITS others.now other_place count }
    ensures { Combines (read_by R.BitRegister O.position) words.old words.new place count
        (combined_bit H.HOW) (read_by Q.BitRegister P.position) others.now other_place }
{
    let bits = bits_of::<R>();
    let (at, other_at) = (place / bits, other_place / bits);
    let from = place % bits;
    let its = converted::<R, Q>(others[other_at]);
    let value = merged::<H, R>(words[at], its);
    let head = BitIdx::new_unchecked(from as u8);
    let tail = BitEnd::new_unchecked((from + count) as u8);
    store_in::<R, O>(words, at, value, head, tail);
}

#[derive(Drop)]
struct Merge<'a, H, R> {
    words: &'a mut [R],
    first: usize,
    how: PhantomData<H>,
}

impl<'a, H: Combining, R: BitRegister, O: BitOrder<R>> Kernel<R, O> for Merge<'a, H, R> {
    ghost use Rattle.bit_slice_paths.specs.WholeWords.{Merges, merges_none};

    ghost room = { λ s. length s.words.now - s.first };

    ghost Done = { λ s t n bits. Merges (read_by R.BitRegister O.position) (combined_bit H.HOW) s.words.now t.words.now
        s.first t.first s.words.ghost_name t.words.ghost_name n bits };

    #[inline(always)]
    fn word(&mut self, k: usize, its: R) {
        let at = self.first + k;
        self.words[at] = merged::<H, R>(self.words[at], its);
    }

    ghost none = { λ s bits. merges_none _ _ s.words.now s.first s.words.ghost_name bits };
}

/// Combines `n` words of a memory, those from the word `first` on, with those of a source.
///
/// The source is to be made where this is called: through a reference its numbers would be read again for each word,
/// since the words might overlap it.
#[inline(always)]
pub fn merge_words<H: Combining, R: BitRegister, O: BitOrder<R>, S: WordSource<R, O>>(
    words: &mut [R],
    first: usize,
    source: &S,
    n: usize,
)
    requires within { first + n ≤ length words.old }
    requires count { n ≤ S.count source.now }
    requires ends { first + n < 2 ^ 64 }
    ensures { Overwrites (read_by R.BitRegister O.position) words.old words.new (first * R.BITS) (n * R.BITS)
        (λ k. combined_bit H.HOW (entry (read_by R.BitRegister O.position) words.old (first * R.BITS + k))
        (S.bit source.now k)) }
{
    let mut kernel = Merge::<H, R> {
        words,
        first,
        how: PhantomData,
    };
    drive::<R, O, Merge<'_, H, R>, S>(&mut kernel, source, 0, n);
}

/// Combines `n` words of a memory with as many that begin at the index `by` of another memory's word.
///
/// Out of line: a compiler that knows `by` to be an index makes one instruction of each pair of shifts, and that one has
/// no vector form.
#[inline(never)]
pub fn merge_joined<H: Combining, R: BitRegister, O: BitOrder<R>, Q: BitRegister, P: BitOrder<Q>>(
    straight: Straight<Q, P>,
    words: &mut [R],
    first: usize,
    others: &[Q],
    other: usize,
    by: u8,
    n: usize,
)
    requires alike { IsAlike R.BITS O.position Q.BITS P.position }
    requires some { 0 < by }
    requires index { by < Q.BITS }
    requires within { first + n ≤ length words.old }
    requires ends { first + n < 2 ^ 64 }
    requires count { n ≤ length others.now - other - 1 }
    ensures { Overwrites (read_by R.BitRegister O.position) words.old words.new (first * R.BITS) (n * R.BITS)
        (λ k. combined_bit H.HOW (entry (read_by R.BitRegister O.position) words.old (first * R.BITS + k))
        (entry (read_by Q.BitRegister P.position) others.now (other * R.BITS + by + k))) }
{
    let source = Joined::<R, O, Q, P> {
        straight,
        words: others,
        first: other,
        by,
        types: PhantomData,
    };
    merge_words::<H, R, O, Joined<'_, R, O, Q, P>>(words, first, &source, n);
}
