//! What is written of all visible words, or beside the list.

ghost use Rattle.std.specs.Prelude.{◌≡◌, ◌+◌, ◌*◌, ◌^◌, ◌<◌, ◌≤◌, length, take};
ghost use Rattle.bit_addressing_memory.specs.Memory.{read_by};
ghost use Rattle.bit_containers_vector.specs.Count.{words_for};
ghost use Rattle.bit_containers_vector.specs.Fill.{Aligned, FillsBeside, FillsWords, Flips};
ghost use Rattle.bit_containers_vector.specs.Vector.{words_held};

use crate::vector::BitVec;
use crate::words::{fill, flip, set_words, shift, words_taken};
use bit_addressing_memory::{BitOrder, BitRegister, mem};
use bit_slice_views::BitStore;
use std::ops::Not;

impl<T: BitStore, O: BitOrder<T>> BitVec<T, O> {
    /// Makes each visible word `word`.
    pub fn set_elements(&mut self, word: T)
        ensures { FillsWords (read_by T.BitRegister O.position) self.old self.new word }
    {
        self.trim();
        set_words::<T>(&mut self.words, word);
    }

    /// Makes each dead bit `bit`, and no bit of the list.
    pub fn set_uninitialized(&mut self, bit: bool)
        ensures { FillsBeside (read_by T.BitRegister O.position) self.old self.new bit }
    {
        let end = self.head + self.len;
        let all = self.trim();
        fill::<T, O>(&mut self.words, 0, self.head, bit);
        fill::<T, O>(&mut self.words, end, all - end, bit);
    }

    /// Moves the list to the first word's first bit.
    pub fn force_align(&mut self)
        ensures { Aligned (read_by T.BitRegister O.position) self.old self.new }
    {
        shift::<T, O>(&mut self.words, self.head, 0, self.len);
        self.head = 0;
    }

    #[tactic(auto, using(crate::proofs::CountLemmas::words_below, crate::proofs::CountLemmas::words_hold))]
    // Leaves the visible words, and answers how many bits they have.
    fn trim(&mut self) -> usize
        ensures words { self.new.words.items ≡ take (words_for T.BITS (self.old.head + self.old.len))
            self.old.words.items }
        ensures all { result ≡ words_for T.BITS (self.old.head + self.old.len) * T.BITS }
        ensures holds { self.old.head + self.old.len ≤ result }
        ensures ends { result < 2 ^ 63 }
        ensures count { length self.new.words.items * T.BITS ≡ result }
        ensures capacity { words_held self.new ≡ words_held self.old }
        ensures head { self.new.head ≡ self.old.head }
        ensures len { self.new.len ≡ self.old.len }
    {
        let count = words_taken::<T>(self.head + self.len);
        self.words.truncate(count);
        count * mem::bits_of::<T>()
    }
}

/// Flips each bit of the visible words, dead bits too.
impl<T: BitStore, O: BitOrder<T>> Not for BitVec<T, O> {
    type Output = BitVec<T, O>;

    ghost not_gives = { λ vector flipped. Flips (read_by T.BitRegister O.position) vector flipped };

    fn not(self) -> BitVec<T, O> {
        let mut flipped = self;
        let all = flipped.trim();
        flip::<T, O>(&mut flipped.words, all);
        flipped
    }
}
