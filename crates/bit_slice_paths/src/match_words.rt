//! Whole words of a memory compared with those of a source.

ghost use Rattle.std.specs.Prelude.{◌≡◌, ℕ, ◌+◌, ◌-◌, ◌*◌, ◌^◌, ◌<◌, ◌≤◌, ◌↔◌, length, IsTrue};
ghost use Rattle.bit_addressing_memory.specs.Memory.{entry, read_by};
ghost use Rattle.bit_slice_paths.specs.WholeWords.{IsAlike};

use crate::kernel::{Kernel, drive};
use crate::word_source::{Joined, WordSource};
use bit_addressing_memory::{BitOrder, BitRegister, Straight};
use std::marker::PhantomData;

/// How many words are compared at once, before it is asked whether one differs: 64 to 512 bytes.
#[inline(always)]
pub fn round_words<R: BitRegister>() -> usize
    ensures { 0 < result }
{
    if R::BITS == 8 { 128 } else { 32 }
}

#[derive(Drop)]
struct Compare<'a, R> {
    words: &'a [R],
    first: usize,
    // The digits at which words differ.
    differ: R,
}

impl<'a, R: BitRegister, O: BitOrder<R>> Kernel<R, O> for Compare<'a, R> {
    ghost use Rattle.bit_slice_paths.specs.WholeWords.{Compares, compares_none};

    ghost room = { λ s. length s.words.now - s.first };

    ghost Done = { λ s t n bits. Compares (read_by R.BitRegister O.position) s.words.now t.words.now
        s.first t.first (R.number s.differ) (R.number t.differ) n bits };

    #[inline(always)]
    fn word(&mut self, k: usize, its: R) {
        let mine = self.words[self.first + k];
        self.differ = self.differ.or(mine.xor(its));
    }

    ghost none = { λ s bits. compares_none _ s.words.now s.first (R.number s.differ) bits };
}

// Whether `n` words, those from the word `first` on, are those of a source from its word `from` on.
#[inline(always)]
fn same_words<R: BitRegister, O: BitOrder<R>, S: WordSource<R, O>>(
    words: &[R],
    first: usize,
    source: &S,
    from: usize,
    n: usize,
) -> bool
    requires within { first + n ≤ length words.now }
    requires count { from + n ≤ S.count source.now }
    requires ends { first + n < 2 ^ 64 }
    requires its_ends { from + n < 2 ^ 64 }
    ensures { IsTrue result ↔ ((k : ℕ) → k < n * R.BITS
        → entry (read_by R.BitRegister O.position) words.now (first * R.BITS + k)
        ≡ S.bit source.now (from * R.BITS + k)) }
{
    let mut kernel = Compare::<R> {
        words,
        first,
        differ: R::ZERO,
    };
    drive::<R, O, Compare<'_, R>, S>(&mut kernel, source, from, n);
    kernel.differ.equals(R::ZERO)
}

/// Up to which of `n` words, those from the word `first` on, all are those of a source: `n`, or the first word of a
/// round in which one differs.
#[inline(always)]
pub fn match_words<R: BitRegister, O: BitOrder<R>, S: WordSource<R, O>>(
    words: &[R],
    first: usize,
    source: &S,
    n: usize,
) -> usize
    requires within { first + n ≤ length words.now }
    requires count { n ≤ S.count source.now }
    requires ends { first + n < 2 ^ 64 }
    ensures most { result ≤ n }
    ensures same { (k : ℕ) → k < result * R.BITS
        → entry (read_by R.BitRegister O.position) words.now (first * R.BITS + k) ≡ S.bit source.now k }
    ensures differ { result < n → ((k : ℕ) → k < n * R.BITS
        → entry (read_by R.BitRegister O.position) words.now (first * R.BITS + k) ≡ S.bit source.now k) → ⊥ }
{
    let size = round_words::<R>();
    let rounds = n / size;
    for round in 0..rounds {
        let done = size * round;
        if !same_words::<R, O, S>(words, first + done, source, done, size) {
            return done;
        }
    }
    let done = size * rounds;
    if same_words::<R, O, S>(words, first + done, source, done, n - done) {
        n
    } else {
        done
    }
}

/// `match_words` with words that begin at the index `by` of another memory's word. Out of line, as `merge_joined` is.
#[inline(never)]
pub fn match_joined<R: BitRegister, O: BitOrder<R>, Q: BitRegister, P: BitOrder<Q>>(
    straight: Straight<Q, P>,
    words: &[R],
    first: usize,
    others: &[Q],
    other: usize,
    by: u8,
    n: usize,
) -> usize
    requires alike { IsAlike R.BITS O.position Q.BITS P.position }
    requires some { 0 < by }
    requires index { by < Q.BITS }
    requires within { first + n ≤ length words.now }
    requires ends { first + n < 2 ^ 64 }
    requires count { n ≤ length others.now - other - 1 }
    ensures most { result ≤ n }
    ensures same { (k : ℕ) → k < result * R.BITS
        → entry (read_by R.BitRegister O.position) words.now (first * R.BITS + k)
        ≡ entry (read_by Q.BitRegister P.position) others.now (other * R.BITS + by + k) }
    ensures differ { result < n → ((k : ℕ) → k < n * R.BITS
        → entry (read_by R.BitRegister O.position) words.now (first * R.BITS + k)
        ≡ entry (read_by Q.BitRegister P.position) others.now (other * R.BITS + by + k)) → ⊥ }
{
    let source = Joined::<R, O, Q, P> {
        straight,
        words: others,
        first: other,
        by,
        types: PhantomData,
    };
    match_words::<R, O, Joined<'_, R, O, Q, P>>(words, first, &source, n)
}
