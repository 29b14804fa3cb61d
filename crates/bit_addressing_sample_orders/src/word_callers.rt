//! What a user of the orders proves from their contracts alone: parts of a word, under any register and lawful order.

ghost use Rattle.std.specs.Prelude.{◌≡◌, ◌≢◌, ℕ, ◌-◌, ◌<◌, ◌≤◌, ◌⊎◌, bit_and, not, false};
ghost use Rattle.bit_addressing_order.specs.Bits.{digit_at};

use bit_addressing_order::{
    BitEnd, BitIdx, BitOrder, BitRegister, Lsb0, Msb0, OrderCandidate, disjoint_masks,
};

/// The bits of the indices from one bound up to before another, where they lie, all others cleared.
pub fn field<R: BitRegister, O: BitOrder<R>>(word: R, from: BitIdx<R>, upto: BitEnd<R>) -> R
    requires { from ≤ upto }
    ensures kept { (i : ℕ) → from ≤ i → i < upto
        → digit_at (R.number result) (O.position i) ≡ digit_at (R.number word) (O.position i) }
    ensures cleared { (i : ℕ) → i < R.BITS → (i < from) ⊎ (upto ≤ i)
        → digit_at (R.number result) (O.position i) ≡ false }
{
    let mask = O::mask(Some(from), Some(upto));
    word.and(mask.into_inner())
}

/// The bits of the indices below one, and those from it on: two words with no digit in common.
pub fn parts<R: BitRegister, O: BitOrder<R>>(word: R, index: BitIdx<R>) -> (R, R)
    ensures { bit_and (R.number result.0) (R.number result.1) ≡ 0 }
{
    let upto = BitEnd::new_unchecked(index.into_inner());
    let (below, above) = disjoint_masks::<R, O>(None, Some(upto), Some(index), None);
    (word.and(below.into_inner()), word.and(above.into_inner()))
}

/// The word with the bit at an index flipped.
pub fn toggled<R: BitRegister, O: BitOrder<R>>(word: R, index: BitIdx<R>) -> R
    ensures here { digit_at (R.number result) (O.position index)
        ≡ not (digit_at (R.number word) (O.position index)) }
    ensures others { (i : ℕ) → i < R.BITS → i ≢ index
        → digit_at (R.number result) (O.position i) ≡ digit_at (R.number word) (O.position i) }
{
    word.xor(index.select::<O>().into_inner())
}

/// The index itself: up by one and down again, round the word.
pub fn there_and_back<R: BitRegister>(index: BitIdx<R>) -> BitIdx<R>
    ensures { result ≡ index }
{
    let (above, _) = index.next();
    let (back, _) = above.prev();
    back
}

/// The greatest index: the positions of an index from both ends of the word, together.
pub fn both_positions<R: BitRegister>(index: BitIdx<R>) -> u8
    ensures { result ≡ R.BITS - 1 }
{
    index.position::<Lsb0>().into_inner() + index.position::<Msb0>().into_inner()
}

// At a register and an order that are known, so is the number.

/// The first four indices of a byte, from the highest digit on.
pub fn highest_four() -> u8
    ensures { result ≡ 0xf0 }
{
    let upto = BitEnd::<u8>::new_unchecked(4);
    Msb0::mask(None, Some(upto)).into_inner()
}
