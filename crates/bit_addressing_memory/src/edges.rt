//! Where a stretch of bits begins and ends in its words.

ghost use Rattle.std.specs.Prelude.{◌≡◌, ℕ, ◌+◌, ◌-◌, ◌*◌, ◌/◌, ◌^◌, ◌<◌, ◌≤◌, length, take, drop};

use bit_addressing_order::BitRegister;
use bit_addressing_order::mem::bits_of;

/// Where a stretch of bits begins and ends: in the word `first` at the index `from`, and in the word `last` up to
/// before the index `upto`.
#[derive(Clone, Copy)]
pub struct Edges {
    /// The word of the first bit.
    pub first: usize,
    /// The index of the first bit in that word.
    pub from: u8,
    /// The word of the last bit.
    pub last: usize,
    /// The index behind the last bit in that word: from 1 to `BITS`.
    pub upto: u8,
}

/// The edges of the `len` bits from a place on, which are some.
pub fn edges_of<R: BitRegister>(place: usize, len: usize) -> Edges
    requires some { 0 < len }
    requires ends { place + len < 2 ^ 64 }

    // The place of the first bit, and the place behind the last one.
    ensures start { result.first * R.BITS + result.from ≡ place }
    ensures end { result.last * R.BITS + result.upto ≡ place + len }

    // Both indices lie in their word, and the last word is one of any words that hold the bits.
    ensures index { result.from < R.BITS }
    ensures some { 0 < result.upto }
    ensures within { result.upto ≤ R.BITS }
    ensures order { result.first ≤ result.last }
    ensures least { result.first ≡ result.last → result.from ≤ result.upto }
    ensures fits { (n : ℕ) → place + len ≤ n * R.BITS → result.last < n }
{
    let bits = bits_of::<R>();
    let last = place + len - 1;
    Edges {
        first: place / bits,
        from: (place % bits) as u8,
        last: last / bits,
        upto: (last % bits) as u8 + 1,
    }
}

/// How many bits lie before the next word: none if a word begins at the place.
#[inline(always)]
pub fn bits_to_next_word<R: BitRegister>(place: usize) -> usize
    ensures few { result < R.BITS }
    ensures whole { (place + result) / R.BITS * R.BITS ≡ place + result }
{
    let bits = bits_of::<R>();
    let index = place % bits;
    if index == 0 { 0 } else { bits - index }
}

/// The words from one number up to before another.
pub fn between<R>(words: &[R], from: usize, upto: usize) -> &[R]
    requires order { from ≤ upto }
    requires within { upto ≤ length words.now }
    ensures { result.now ≡ take (upto - from) (drop from words.now) }
{
    &words[from..upto]
}
