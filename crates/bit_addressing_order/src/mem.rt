//! How many bits a word holds, and how many words hold so many bits.

ghost use Rattle.std.specs.Prelude.{◌≡◌, ℕ, ◌*◌, ◌≤◌};

use crate::register::BitRegister;

/// How many bits a word of this register has.
///
/// In bitvec the call is over any type; here it is over the registers.
pub fn bits_of<R: BitRegister>() -> usize
    ensures { result ≡ R.BITS }
{
    R::BITS as usize
}

/// How many words hold `bits` bits: the least number of them. No step of it wraps, whatever `bits`
/// is.
#[tactic(auto, using(crate::proofs::ElementLemmas::rounded_up))]
pub fn elts<R: BitRegister>(bits: usize) -> usize
    ensures enough { bits ≤ result * R.BITS }
    ensures least { (words : ℕ) → bits ≤ words * R.BITS → result ≤ words }
{
    bits.div_ceil(bits_of::<R>())
}

/// One storage word, in a field of that name.
///
/// In bitvec it also holds cells and atomics; here it holds plain words.
#[derive(Clone, Copy, PartialEq, Eq, PartialOrd, Ord, Hash, Debug, Default)]
pub struct BitElement<R> {
    /// The word.
    pub elem: R,
}

impl<R: BitRegister> BitElement<R> {
    /// The element that holds this word.
    pub fn new(elem: R) -> BitElement<R>
        ensures { result.elem ≡ elem }
    {
        BitElement { elem }
    }
}
