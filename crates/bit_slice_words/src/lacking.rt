//! Whether a bit is in no place of a word.

ghost use Rattle.std.specs.Prelude.{◌≡◌, ℕ, ◌<◌, ◌↔◌, false, IsTrue};
ghost use Rattle.bit_addressing_memory.specs.Memory.{indexed};
ghost use Rattle.bit_slice_words.specs.Found.{is_bit};

use bit_addressing_memory::{BitOrder, BitRegister, each_digit, no_digits};

/// Whether no bit of the word is `bit`. One comparison of words tells it.
#[inline(always)]
pub fn lacks<R: BitRegister, O: BitOrder<R>>(word: R, bit: bool) -> bool
    ensures { IsTrue result ↔ ((i : ℕ) → i < R.BITS → is_bit bit (indexed R.number O.position word i) ≡ false) }
{
    word.equals(word_without::<R, O>(bit))
}

// The one word with no bit that is `bit`.
fn word_without<R: BitRegister, O: BitOrder<R>>(bit: bool) -> R
    ensures { (i : ℕ) → i < R.BITS → is_bit bit (indexed R.number O.position result i) ≡ false }
{
    if bit {
        no_digits::<R, O>()
    } else {
        each_digit::<R, O>()
    }
}
