//! Places in a memory as a word number and an index in that word, so that none is too large for its
//! type.

ghost use Rattle.std.specs.Prelude.{◌≡◌, ℕ, ◌+◌, ◌*◌, ◌^◌, ◌<◌, ◌↔◌, IsTrue};
ghost use Rattle.bit_addressing_memory.specs.Place.{place_of};

use bit_addressing_order::{BitIdx, BitRegister};
use std::marker::Model;

// A place: the index of a bit in the word of this number.
#[derive_where(Clone, Copy)]
pub struct Place<R: BitRegister> {
    word: usize,
    index: BitIdx<R>,
}

impl<R: BitRegister> Model for Place<R> {
    ghost Value = { ℕ × ℕ };

    ghost view = { λ place. (place.word, place.index) };

    ghost invariant = { λ place. (place.word < 2 ^ 64) × (place.index < R.BITS) };

    ghost inverse = { λ value. record { word = value.0; index = value.1 } };
}

impl<R: BitRegister> Place<R> {
    // The place of this index in the word of this number.
    pub fn at(word: usize, index: BitIdx<R>) -> Place<R>
        ensures word { result.0 ≡ word }
        ensures index { result.1 ≡ index }
    {
        Place { word, index }
    }

    // The place of this number.
    pub fn new(place: usize) -> Place<R>
        ensures { place_of R.BITS result ≡ place }
    {
        let bits = R::BITS as usize;
        let index = BitIdx::new_unchecked((place % bits) as u8);
        Place::at(place / bits, index)
    }

    // The number of the word.
    pub fn word(self) -> usize
        ensures { result ≡ self.0 }
    {
        self.word
    }

    // The index in the word.
    pub fn index(self) -> BitIdx<R>
        ensures value { result ≡ self.1 }
        ensures within { result < R.BITS }
    {
        self.index
    }

    // Whether the place lies before another.
    #[tactic(auto, using(crate::proofs::PlaceLemmas::place_order))]
    pub fn is_before(self, other: Place<R>) -> bool
        ensures { IsTrue result ↔ (place_of R.BITS self < place_of R.BITS other) }
    {
        if self.word() == other.word() {
            return self.index().into_inner() < other.index().into_inner();
        }
        if self.word() < other.word() {
            return true;
        }
        false
    }

    // The place so many bits on.
    #[tactic(auto, using(crate::proofs::PlaceLemmas::word_within, crate::proofs::PlaceLemmas::place_after_next))]
    pub fn after(self, by: usize) -> Place<R>
        requires { place_of R.BITS self + by < 2 ^ 64 * R.BITS }
        ensures { place_of R.BITS result ≡ place_of R.BITS self + by }
    {
        let bits = R::BITS as usize;
        let word = self.word() + by / bits;
        let index = self.index().into_inner() as usize + by % bits;
        if index < bits {
            return Place::at(word, BitIdx::new_unchecked(index as u8));
        }
        Place::at(word + 1, BitIdx::new_unchecked((index - bits) as u8))
    }
}
