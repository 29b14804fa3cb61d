//! A part of one word, read and written.

ghost use Rattle.std.specs.Prelude.{◌≡◌, ◌+◌, ◌-◌, ◌<◌, ◌≤◌, Bool, true, false, not, length};
ghost use Rattle.bit_addressing_memory.specs.Memory.{indexed, read_by, entry, Overwrites};
ghost use Rattle.bit_addressing_memory.specs.Partial.{part_mask};
ghost use Rattle.bit_addressing_memory.specs.Partial.{ReadsPart};

use bit_addressing_memory::{
    BitEnd, BitIdx, BitMask, BitOrder, BitRegister, each_digit, flipped, load_in, no_digits,
    store_in,
};
use std::marker::PhantomData;

/// The bits of one word from an index up to before an end, in the order `O`, read and written.
///
/// Each write changes the digits of the part alone, and answers the word masked, as it was.
#[derive(Drop)]
pub struct PartialElementMut<'a, R: BitRegister, O> {
    words: &'a mut [R],
    head: u8,
    tail: u8,
    order: PhantomData<O>,

    ghost single: { length words.now ≡ 1 },
    ghost index: { head < R.BITS },
    ghost ordered: { head ≤ tail },
    ghost within: { tail ≤ R.BITS },
}

// Make and read.
impl<'a, R: BitRegister, O: BitOrder<R>> PartialElementMut<'a, R, O> {
    ghost use Rattle.bit_addressing_span.specs.PartialElementMut.{part_words, part_lender};
    ghost use Rattle.bit_addressing_span.specs.PartialElementMut.{part_head, part_tail, part_len};

    /// The part of the one word of a memory, from an index up to before an end that is not below it.
    pub fn new(words: &'a mut [R], head: BitIdx<R>, tail: BitEnd<R>) -> PartialElementMut<'a, R, O>
        requires single { length words.old ≡ 1 }
        requires ordered { head ≤ tail }
        ensures lender { (part_lender result).ghost_name ≡ words.entry.ghost_name }
        ensures words { part_words result ≡ words.old }
        ensures head { part_head result ≡ head }
        ensures tail { part_tail result ≡ tail }
    {
        PartialElementMut {
            words,
            head: head.into_inner(),
            tail: tail.into_inner(),
            order: PhantomData,
        }
    }

    /// The index of the first bit.
    pub fn head(&self) -> BitIdx<R>
        ensures { result ≡ part_head self.now }
    {
        BitIdx::new_unchecked(self.head)
    }

    /// The end of the bits.
    pub fn tail(&self) -> BitEnd<R>
        ensures { result ≡ part_tail self.now }
    {
        BitEnd::new_unchecked(self.tail)
    }

    /// The head and the tail.
    pub fn bounds(&self) -> (BitIdx<R>, BitEnd<R>)
        ensures head { result.0 ≡ part_head self.now }
        ensures tail { result.1 ≡ part_tail self.now }
        ensures order { result.0 ≤ result.1 }
    {
        (self.head(), self.tail())
    }

    /// The mask of the part, in the order `O`.
    pub fn mask(&self) -> BitMask<R>
        ensures { R.number result ≡ part_mask O.masked (part_head self.now) (part_tail self.now) }
    {
        O::mask(Some(self.head()), Some(self.tail()))
    }

    /// The word with each digit outside the part read as zero.
    pub fn load_value(&self) -> R
        ensures { ReadsPart (read_by R.BitRegister O.position) (part_words self.now) 0 result
            (part_head self.now) (part_tail self.now) }
    {
        let (head, tail) = self.bounds();
        load_in::<R, O>(self.words, 0, head, tail)
    }

    /// The part as bits of a memory of one word: that memory, the index of the first bit, and how many bits there are.
    pub fn into_bitslice(self) -> (&'a mut [R], BitIdx<R>, usize)
        ensures lender { result.0.ghost_name ≡ (part_lender self.entry).ghost_name }
        ensures words { result.0.now ≡ part_words self.entry }
        ensures single { length result.0.now ≡ 1 }
        ensures head { result.1 ≡ part_head self.entry }
        ensures len { result.2 ≡ part_len self.entry }
    {
        let PartialElementMut {
            words,
            head,
            tail,
            ..
        } = self;
        (words, BitIdx::new_unchecked(head), (tail - head) as usize)
    }
}

// Write.
impl<'a, R: BitRegister, O: BitOrder<R>> PartialElementMut<'a, R, O> {
    ghost use Rattle.bit_addressing_span.specs.PartialElementMut.{part_words, IsSamePart};
    ghost use Rattle.bit_addressing_span.specs.PartialElementMut.{part_head, part_tail, part_len};

    /// Writes the digits of `value` at the indices of the part. Answers the word masked, as it was.
    #[tactic(auto, using(bit_addressing_memory::proofs::PartsLemmas::first_part))]
    pub fn store_value(&mut self, value: R) -> R
        ensures same { IsSamePart self.old self.new }
        ensures was { ReadsPart (read_by R.BitRegister O.position) (part_words self.old) 0 result
            (part_head self.old) (part_tail self.old) }
        ensures now { Overwrites (read_by R.BitRegister O.position) (part_words self.old) (part_words self.new)
            (part_head self.old) (part_len self.old)
            (λ i. indexed R.number O.position value (part_head self.old + i)) }
    {
        let (head, tail) = self.bounds();
        store_in::<R, O>(self.words, 0, value, head, tail)
    }

    /// Flips each bit of the part. Answers the word masked, as it was.
    pub fn invert(&mut self) -> R
        ensures same { IsSamePart self.old self.new }
        ensures was { ReadsPart (read_by R.BitRegister O.position) (part_words self.old) 0 result
            (part_head self.old) (part_tail self.old) }
        ensures now { Overwrites (read_by R.BitRegister O.position) (part_words self.old) (part_words self.new)
            (part_head self.old) (part_len self.old)
            (λ i. not (entry (read_by R.BitRegister O.position) (part_words self.old) (part_head self.old + i))) }
    {
        let turned = flipped::<R, O>(self.words[0]);
        self.store_value(turned)
    }

    /// Makes each bit of the part 0. Answers the word masked, as it was.
    #[tactic(auto, using(bit_addressing_memory::proofs::PartsLemmas::stores_all))]
    pub fn clear(&mut self) -> R
        ensures same { IsSamePart self.old self.new }
        ensures was { ReadsPart (read_by R.BitRegister O.position) (part_words self.old) 0 result
            (part_head self.old) (part_tail self.old) }
        ensures now { Overwrites (read_by R.BitRegister O.position) (part_words self.old) (part_words self.new)
            (part_head self.old) (part_len self.old)
            (λ _. false) }
    {
        self.store_value(no_digits::<R, O>())
    }

    /// Makes each bit of the part 1. Answers the word masked, as it was.
    #[tactic(auto, using(bit_addressing_memory::proofs::PartsLemmas::stores_all))]
    pub fn set(&mut self) -> R
        ensures same { IsSamePart self.old self.new }
        ensures was { ReadsPart (read_by R.BitRegister O.position) (part_words self.old) 0 result
            (part_head self.old) (part_tail self.old) }
        ensures now { Overwrites (read_by R.BitRegister O.position) (part_words self.old) (part_words self.new)
            (part_head self.old) (part_len self.old)
            (λ _. true) }
    {
        self.store_value(each_digit::<R, O>())
    }
}
