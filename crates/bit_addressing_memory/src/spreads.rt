//! Bits of one word put into another, whatever the order of each.

ghost use Rattle.std.specs.Prelude.{◌≡◌, ℕ, ◌+◌, ◌-◌, ◌<◌, ◌≤◌, false};
ghost use Rattle.bit_addressing_memory.specs.Prelude.{indexed, read_by, IsStored};

use crate::entry::{read_bit, write_bit};
use bit_addressing_order::{BitIdx, BitOrder, BitRegister};

/// The word `target` with the bits of the word `source`, those from the index `first` on, at its indices from one up to
/// before another. The two words may have different types and orders.
#[inline(always)]
pub fn spread<R: BitRegister, O: BitOrder<R>, Q: BitRegister, P: BitOrder<Q>>(
    source: R,
    first: u8,
    target: Q,
    from: u8,
    upto: u8,
) -> Q
    requires order { from ≤ upto }
    requires within { upto ≤ Q.BITS }
    requires source { first + (upto - from) ≤ R.BITS }
    ensures { IsStored (read_by Q.BitRegister P.position) target result from upto
        (λ i. indexed R.number O.position source (first + (i - from))) }
{
    let mut made = target;
    for i in from..upto {
        let bit = read_bit::<R, O>(source, BitIdx::new_unchecked(first + (i - from)));
        made = write_bit::<Q, P>(made, BitIdx::new_unchecked(i), bit);
    }
    made
}

// `spread` into a word that has zeros there: a bit that is 0 leaves it as it is.
#[inline(always)]
pub(crate) fn spread_on_zeros<R: BitRegister, O: BitOrder<R>, Q: BitRegister, P: BitOrder<Q>>(
    source: R,
    first: u8,
    target: Q,
    from: u8,
    upto: u8,
) -> Q
    requires order { from ≤ upto }
    requires within { upto ≤ Q.BITS }
    requires source { first + (upto - from) ≤ R.BITS }
    requires zeros { (i : ℕ) → from ≤ i → i < upto → indexed Q.number P.position target i ≡ false }
    ensures { IsStored (read_by Q.BitRegister P.position) target result from upto
        (λ i. indexed R.number O.position source (first + (i - from))) }
{
    let mut made = target;
    for i in from..upto {
        if read_bit::<R, O>(source, BitIdx::new_unchecked(first + (i - from))) {
            made = write_bit::<Q, P>(made, BitIdx::new_unchecked(i), true);
        }
    }
    made
}
