//! The words of orders that go neither way, by limbs. A limb is a chunk, counted up, of a word's digits at 64 indices one behind
//! the other, or at all of a narrower word. Eight of them are put at a time, so that a compiler joins those whose positions
//! lie side by side. A limb costs the same however few of its bits are wanted.

ghost use Rattle.std.specs.Prelude.{◌≡◌, ℕ, ◌+◌, ◌-◌, ◌*◌, ◌<◌, ◌≤◌, min};
ghost use Rattle.bit_addressing_memory.specs.Prelude.{indexed, read_by, IsStored};
ghost use Rattle.bit_addressing_memory.specs.Chunk.{IsPart};
ghost use Rattle.bit_addressing_memory.specs.declared.direction.Direction.TheVariants.{Ascending};
ghost use Rattle.bit_addressing_order.specs.Bits.{digit_at};

use crate::chunk::{lowered, patched, raised};
use crate::direction::Direction;
use crate::masking::no_digits;
use crate::spreads::{spread, spread_on_zeros};
use bit_addressing_order::{BitOrder, BitRegister, Lsb0};

// The bits of a word at the indices from one up to before another, by the limbs that they lie in: `part_of` of an order that
// goes neither way.
#[inline(always)]
#[tactic(auto, using(crate::proofs::LimbLemmas::part_lowered))]
pub(crate) fn spread_part<R: BitRegister, O: BitOrder<R>>(word: R, from: u8, upto: u8) -> u64
    requires order { from < upto }
    requires within { upto ≤ R.BITS }
    requires few { upto ≤ from + 64 }
    ensures { IsPart (read_by R.BitRegister O.position) word from upto Ascending result }
{
    if from >= 64 {
        let high = limb_of::<R, O>(word, 64);
        return lowered(Direction::Ascending, high, from - 64);
    }
    let first = limb_of::<R, O>(word, 0);
    let low = lowered(Direction::Ascending, first, from);
    if upto <= 64 {
        return low;
    }
    let last = limb_of::<R, O>(word, 64);
    low | raised(Direction::Ascending, last, 64 - from)
}

// A word with a chunk at its indices from one up to before another, by the limbs that these are: `with_part` of an order that
// goes neither way.
#[inline(always)]
pub(crate) fn with_spread<R: BitRegister, O: BitOrder<R>>(
    word: R,
    from: u8,
    upto: u8,
    chunk: u64,
) -> R
    requires order { from < upto }
    requires within { upto ≤ R.BITS }
    requires few { upto ≤ from + 64 }
    ensures { IsStored (read_by R.BitRegister O.position) word result from upto (λ i. digit_at chunk (i - from)) }
{
    if upto <= 64 {
        return with_bits::<R, O>(word, 0, from, upto, chunk);
    }
    if from >= 64 {
        return with_bits::<R, O>(word, 64, from, upto, chunk);
    }
    let begun = with_bits::<R, O>(word, 0, from, 64, chunk);
    let rest = lowered(Direction::Ascending, chunk, 64 - from);
    with_bits::<R, O>(begun, 64, 64, upto, rest)
}

// The same of indices in one limb, that from the index `base` on.
#[inline(always)]
#[tactic(auto, using(crate::proofs::LimbLemmas::limb_whole))]
fn with_bits<R: BitRegister, O: BitOrder<R>>(word: R, base: u8, from: u8, upto: u8, chunk: u64) -> R
    requires limb { base + min 64 R.BITS ≤ R.BITS }
    requires low { base ≤ from }
    requires order { from < upto }
    requires high { upto ≤ base + min 64 R.BITS }
    ensures { IsStored (read_by R.BitRegister O.position) word result from upto (λ i. digit_at chunk (i - from)) }
{
    if upto - from == R::BITS.min(64) {
        return with_limb::<R, O>(word, base, chunk);
    }
    let own = limb_of::<R, O>(word, base);
    let limb = patched(Direction::Ascending, own, from - base, upto - from, chunk);
    with_limb::<R, O>(word, base, limb)
}

// A word with eight times `blocks` bits of another one, those from the index `first` on, at its own from `from` on.
#[inline(always)]
#[tactic(auto, using(crate::proofs::SpreadLemmas::stored_more))]
fn spread_blocks<R: BitRegister, O: BitOrder<R>, Q: BitRegister, P: BitOrder<Q>>(
    source: R,
    first: u8,
    target: Q,
    from: u8,
    blocks: u8,
) -> Q
    requires within { from + 8 * blocks ≤ Q.BITS }
    requires source { first + 8 * blocks ≤ R.BITS }
    ensures { IsStored (read_by Q.BitRegister P.position) target result from (from + 8 * blocks)
        (λ i. indexed R.number O.position source (first + (i - from))) }
{
    let mut made = target;
    for t in 0..blocks {
        let done = 8 * t;
        let start = from + done;
        made = spread::<R, O, Q, P>(source, first + done, made, start, start + 8);
    }
    made
}

// The limb of a word that begins at an index.
#[inline(always)]
fn limb_of<R: BitRegister, O: BitOrder<R>>(word: R, from: u8) -> u64
    requires { from + min 64 R.BITS ≤ R.BITS }
    ensures { IsPart (read_by R.BitRegister O.position) word from (from + min 64 R.BITS) Ascending result }
{
    spread_blocks::<R, O, u64, Lsb0>(word, from, 0, 0, R::BITS.min(64) / 8)
}

// The word of no more than 64 bits with the digits of a limb.
#[inline(always)]
fn word_of<R: BitRegister, O: BitOrder<R>>(limb: u64) -> R
    requires { R.BITS ≤ 64 }
    ensures { (i : ℕ) → i < R.BITS → indexed R.number O.position result i ≡ digit_at limb i }
{
    let mut made = no_digits::<R, O>();
    for t in 0..R::BITS / 8 {
        let start = 8 * t;
        made = spread_on_zeros::<u64, Lsb0, R, O>(limb, start, made, start, start + 8);
    }
    made
}

// The word with the digits of a limb at its indices from one on.
#[inline(always)]
#[tactic(auto, using(crate::proofs::LimbLemmas::blocks_are, crate::proofs::LimbLemmas::wrapped))]
fn with_limb<R: BitRegister, O: BitOrder<R>>(word: R, from: u8, limb: u64) -> R
    requires { from + min 64 R.BITS ≤ R.BITS }
    ensures { IsStored (read_by R.BitRegister O.position) word result from (from + min 64 R.BITS)
        (λ i. digit_at limb (i - from)) }
{
    if R::BITS <= 64 {
        return word_of::<R, O>(limb);
    }
    spread_blocks::<u64, Lsb0, R, O>(limb, 0, word, from, R::BITS.min(64) / 8)
}
