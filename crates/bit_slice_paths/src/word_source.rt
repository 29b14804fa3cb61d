//! Where a loop over whole words has the other words from: a memory whose words lie level with them, one whose words
//! are joined of two, or one bit throughout.

ghost use Rattle.std.specs.Prelude.{◌≡◌, ℕ, Bool, ◌+◌, ◌-◌, ◌*◌, ◌<◌, true, length};
ghost use Rattle.bit_addressing_memory.specs.Memory.{entry, indexed, read_by};
ghost use Rattle.bit_slice_paths.specs.WholeWords.{IsAlike};

use bit_addressing_memory::{BitOrder, BitRegister, Straight, each_digit, joined, no_digits};
use std::marker::PhantomData;

/// Words that have the bits of a list, one word after another.
pub trait WordSource<R: BitRegister, O: BitOrder<R>> {
    ghost count: { Self → ℕ };

    ghost bit: { Self → ℕ → Bool };

    /// The word `k`.
    fn word(&self, k: usize) -> R
        requires { k < count self.now }
        ensures { (i : ℕ) → i < R.BITS
            → indexed R.number O.position result i ≡ bit self.now (k * R.BITS + i) };
}

/// Whether words of two types have the same bits if they hold the same number: both have as many bits, and each index
/// has the same position.
#[inline(always)]
pub fn are_alike<R: BitRegister, O: BitOrder<R>, Q: BitRegister, P: BitOrder<Q>>() -> bool
    ensures { result ≡ true → IsAlike R.BITS O.position Q.BITS P.position }
{
    if R::BITS != Q::BITS {
        return false;
    }
    for index in 0..R::BITS {
        if O::position_of(index) != P::position_of(index) {
            return false;
        }
    }
    true
}

/// The same number in a word of another type with as many bits.
#[inline(always)]
pub fn converted<R: BitRegister, Q: BitRegister>(word: Q) -> R
    requires { Q.BITS ≡ R.BITS }
    ensures { R.number result ≡ Q.number word }
{
    R::from_value(word.value())
}

/// The words of a memory from the word `first` on.
#[derive(Drop)]
pub struct Aligned<'a, R: BitRegister, O: BitOrder<R>, Q: BitRegister, P: BitOrder<Q>> {
    pub words: &'a [Q],
    pub first: usize,
    pub types: PhantomData<(R, O, P)>,
    ghost alike: { IsAlike R.BITS O.position Q.BITS P.position },
}

impl<'a, R: BitRegister, O: BitOrder<R>, Q: BitRegister, P: BitOrder<Q>> WordSource<R, O>
    for Aligned<'a, R, O, Q, P> {
    ghost count = { λ s. length s.words.now - s.first };

    ghost bit = { λ s i. entry (read_by Q.BitRegister P.position) s.words.now (s.first * R.BITS + i) };

    #[inline(always)]
    fn word(&self, k: usize) -> R {
        converted::<R, Q>(self.words[self.first + k])
    }
}

/// Words that begin at the index `by` of the word `first`, which is not 0: each is joined of two.
#[derive(Drop)]
pub struct Joined<'a, R: BitRegister, O: BitOrder<R>, Q: BitRegister, P: BitOrder<Q>> {
    pub straight: Straight<Q, P>,
    pub words: &'a [Q],
    pub first: usize,
    pub by: u8,
    pub types: PhantomData<(R, O)>,
    ghost alike: { IsAlike R.BITS O.position Q.BITS P.position },
    ghost some: { 0 < by },
    ghost index: { by < Q.BITS },
}

impl<'a, R: BitRegister, O: BitOrder<R>, Q: BitRegister, P: BitOrder<Q>> WordSource<R, O>
    for Joined<'a, R, O, Q, P> {
    ghost count = { λ s. length s.words.now - s.first - 1 };

    ghost bit = { λ s i. entry (read_by Q.BitRegister P.position) s.words.now (s.first * R.BITS + s.by + i) };

    #[inline(always)]
    fn word(&self, k: usize) -> R {
        let at = self.first + k;
        let direction = self.straight.direction;
        let its = joined::<Q, P>(direction, self.words[at], self.words[at + 1], self.by);
        converted::<R, Q>(its)
    }
}

/// Words whose bits are all the same, so many of them.
#[derive(Drop)]
pub struct Constant {
    pub bit: bool,
    pub count: usize,
}

impl<R: BitRegister, O: BitOrder<R>> WordSource<R, O> for Constant {
    ghost count = { λ s. s.count };

    ghost bit = { λ s i. s.bit };

    #[inline(always)]
    fn word(&self, k: usize) -> R {
        if self.bit {
            each_digit::<R, O>()
        } else {
            no_digits::<R, O>()
        }
    }
}
