//! A word read and written in a part of it: of its own, and of a memory.
//!
//! What works on a memory word by word, for any lawful order, is built from these.

ghost use Rattle.std.specs.Prelude.{◌≡◌, ℕ, ◌+◌, ◌-◌, ◌*◌, ◌^◌, ◌<◌, ◌≤◌, true, false, not, bit_and, bit_or, length};
ghost use Rattle.bit_addressing_memory.specs.Memory.{indexed, read_by, Overwrites};
ghost use Rattle.bit_addressing_memory.specs.Partial.{part_mask, IsMasked, IsStored, ReadsPart};

use bit_addressing_order::{BitEnd, BitIdx, BitOrder, BitRegister};

/// The word with each digit outside the part read as zero.
pub fn masked<R: BitRegister, O: BitOrder<R>>(word: R, head: BitIdx<R>, tail: BitEnd<R>) -> R
    requires { head ≤ tail }
    ensures number { R.number result ≡ bit_and (R.number word) (part_mask O.masked head tail) }
    ensures digits { IsMasked (read_by R.BitRegister O.position) word result head tail }
    ensures within { tail ≤ R.BITS }
{
    word.and(O::mask(Some(head), Some(tail)).into_inner())
}

/// The word with the digits of `value` in the part, and its own outside it.
pub fn stored<R: BitRegister, O: BitOrder<R>>(
    word: R,
    value: R,
    head: BitIdx<R>,
    tail: BitEnd<R>,
) -> R
    requires { head ≤ tail }
    ensures { IsStored (read_by R.BitRegister O.position) word result head tail
        (indexed R.number O.position value) }
{
    let mask = O::mask(Some(head), Some(tail)).into_inner();
    mixed(word, value, mask)
}

// The digits of `value` where a mask has ones, and those of `word` where it has none.
fn mixed<R: BitRegister>(word: R, value: R, mask: R) -> R
    ensures { R.number result ≡ bit_or (bit_and (R.number word) (2 ^ R.BITS - 1 - R.number mask))
        (bit_and (R.number value) (R.number mask)) }
{
    let kept = word.and(mask.not());
    kept.or(value.and(mask))
}

/// The word of a memory at a number, with each digit outside the part read as zero.
pub fn load_in<R: BitRegister, O: BitOrder<R>>(
    words: &[R],
    at: usize,
    head: BitIdx<R>,
    tail: BitEnd<R>,
) -> R
    requires inside { at < length words.now }
    requires order { head ≤ tail }
    ensures { ReadsPart (read_by R.BitRegister O.position) words.now at result head tail }
{
    masked::<R, O>(words[at], head, tail)
}

/// Writes the digits of `value` into the part of one word of a memory. Answers the word masked, as it was.
pub fn store_in<R: BitRegister, O: BitOrder<R>>(
    words: &mut [R],
    at: usize,
    value: R,
    head: BitIdx<R>,
    tail: BitEnd<R>,
) -> R
    requires inside { at < length words.old }
    requires order { head ≤ tail }
    ensures was { ReadsPart (read_by R.BitRegister O.position) words.old at result head tail }
    ensures now { Overwrites (read_by R.BitRegister O.position) words.old words.new (at * R.BITS + head) (tail - head)
        (λ i. indexed R.number O.position value (head + i)) }
{
    let word = words[at];
    words[at] = stored::<R, O>(word, value, head, tail);
    masked::<R, O>(word, head, tail)
}

/// The word with no digit at any index.
#[tactic(auto, using(crate::proofs::StoredLemmas::digit_none))]
pub fn no_digits<R: BitRegister, O: BitOrder<R>>() -> R
    ensures { (i : ℕ) → i < R.BITS → indexed R.number O.position result i ≡ false }
{
    R::ZERO
}

/// The word with a digit at each index.
#[tactic(auto, using(crate::proofs::StoredLemmas::digit_each))]
pub fn each_digit<R: BitRegister, O: BitOrder<R>>() -> R
    ensures { (i : ℕ) → i < R.BITS → indexed R.number O.position result i ≡ true }
{
    R::ALL
}

/// The word with the digit at each index flipped.
#[tactic(auto, using(crate::proofs::StoredLemmas::digit_flipped))]
pub fn flipped<R: BitRegister, O: BitOrder<R>>(word: R) -> R
    ensures { (i : ℕ) → i < R.BITS → indexed R.number O.position result i ≡ not (indexed R.number O.position word i) }
{
    word.not()
}
