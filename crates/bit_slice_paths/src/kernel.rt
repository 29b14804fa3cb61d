//! What is done with whole words, and the one loop that does it.

ghost use Rattle.std.specs.Prelude.{◌≡◌, ℕ, Bool, ◌+◌, ◌*◌, ◌^◌, ◌<◌, ◌≤◌};
ghost use Rattle.bit_addressing_memory.specs.Memory.{indexed};

use crate::word_source::WordSource;
use bit_addressing_memory::{BitOrder, BitRegister};

/// What is done with each of some words and one word of a source.
pub trait Kernel<R: BitRegister, O: BitOrder<R>> {
    ghost room: { Self → ℕ };

    ghost Done: { Self → Self → ℕ → (ℕ → Bool) → Type 0 };

    /// Does it with the word `k`.
    fn word(&mut self, k: usize, its: R)
        requires { k < room self.old }
        ensures room { room self.new ≡ room self.old }
        ensures done { (s : Self) (bits : ℕ → Bool)
            → ((i : ℕ) → i < R.BITS → indexed R.number O.position its i ≡ bits (k * R.BITS + i))
            → Done s self.old (k * R.BITS) bits → Done s self.new ((k + 1) * R.BITS) bits };

    ghost none: { (s : Self) (bits : ℕ → Bool) → Done s s 0 bits };
}

/// Does with the first `n` words, and those of a source from the word `from` on, what a kernel does.
#[inline(always)]
pub fn drive<R: BitRegister, O: BitOrder<R>, K: Kernel<R, O>, S: WordSource<R, O>>(
    kernel: &mut K,
    source: &S,
    from: usize,
    n: usize,
)
    requires room { n ≤ K.room kernel.old }
    requires count { from + n ≤ S.count source.now }
    requires ends { from + n < 2 ^ 64 }
    ensures { K.Done kernel.old kernel.new (n * R.BITS) (λ i. S.bit source.now (from * R.BITS + i)) }
{
    for k in 0..n {
        kernel.word(k, source.word(from + k));
    }
}
