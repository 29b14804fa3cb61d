//! A digest of numbers.

use std::fmt;

/// What a row of numbers comes to: each is joined with what came before, and the sum multiplied, as Fowler, Noll and Vo
/// do with bytes (FNV-1a, 64 bits).
#[derive(Drop)]
pub struct Digest {
    value: u64,
}

impl Digest {
    /// That of no numbers.
    pub fn new() -> Digest {
        Digest {
            value: 0xcbf2_9ce4_8422_2325,
        }
    }

    /// Takes a number in.
    pub fn push(&mut self, number: u64) {
        self.value = (self.value ^ number).wrapping_mul(0x0000_0100_0000_01b3);
    }

    /// Takes a count in.
    pub fn count(&mut self, count: usize) {
        self.push(count as u64);
    }

    /// Takes the answer of a question in.
    pub fn answer(&mut self, answer: bool) {
        self.push(u64::from(answer));
    }

    /// Takes a place in, or that there is none.
    pub fn place(&mut self, place: Option<usize>) {
        match place {
            Some(place) => self.push(place as u64),
            None => self.push(u64::MAX),
        }
    }
}

impl fmt::Display for Digest {
    fn fmt<W: fmt::Write>(&self, f: &mut fmt::Formatter<W>) -> fmt::Result {
        write!(f, "{:016x}", self.value)
    }
}
