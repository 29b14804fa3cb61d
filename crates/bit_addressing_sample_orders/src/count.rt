//! How the bits of a word are counted, with no order of the crates: for a second opinion.

ghost use Rattle.std.specs.Prelude.{◌≡◌, ◌<◌, ◌≤◌};
ghost use Rattle.bit_addressing_sample_orders.specs.Count.{counted};

/// How the bits of a word are counted.
#[derive(Clone, Copy)]
pub enum Count {
    /// From the lowest digit.
    Lowest,
    /// From the highest digit.
    Highest,
    /// By steps of five from the digit 3, round the word.
    Fifths,
}

impl Count {
    /// The digit of an index in a word of `bits` digits.
    pub fn digit(self, bits: usize, index: usize) -> usize
        requires index { index < bits }
        requires most { bits ≤ 128 }
        ensures digit { result ≡ counted self bits index }
        ensures within { result < bits }
    {
        match self {
            Count::Lowest => index,
            Count::Highest => bits - 1 - index,
            Count::Fifths => (5 * index + 3) % bits,
        }
    }
}
