//! A span of a memory, read and written by words.

ghost use Rattle.std.specs.Prelude.{◌≡◌, ℕ, ◌+◌, ◌-◌, ◌*◌, ◌<◌, ◌≤◌, ◌↔◌, ◌^◌};
ghost use Rattle.std.specs.Prelude.{not, true, false, length, slice_index_or, min, IsTrue};
ghost use Rattle.bit_addressing_span.specs.Domain.{IsCutOf, IsEnclave, domain_numbers};
ghost use Rattle.bit_addressing_memory.specs.Memory.{indexed, read_by, entry, touched, Overwrites};
ghost use Rattle.bit_addressing_span.specs.declared.span.TheConstants.{MAX_BITS};
ghost use Rattle.bit_addressing_span.specs.Parts.{AreMasked};
ghost use Rattle.bit_addressing_memory.specs.Partial.{ReadsPart};
ghost use Rattle.bit_addressing_span.specs.Span.{extent, FitsIn, LiesInside};
ghost use Rattle.bit_addressing_span.specs.Parts.{part_from, part_upto, part_place, part_count};

use crate::cut::cut_from;
use crate::domain::Domain;
use crate::span::{BitSpan, words_touched};
use bit_addressing_memory::{
    BitEnd, BitIdx, BitOrder, BitRegister, each_digit, flipped, load_in, no_digits, store_in,
};
use std::marker::PhantomData;

/// The words of a span of a memory, each read and written in the part of it that lies in the span.
///
/// Its calls name a word by its number in the span. No write changes a bit outside the span. In bitvec
/// it is an enum of writable parts; here it is one writable view, so that the memory is known after it.
#[derive(Drop)]
pub struct DomainMut<'a, R: BitRegister, O> {
    words: &'a mut [R],
    word: usize,
    head: u8,
    len: usize,
    order: PhantomData<O>,

    ghost index: { head < R.BITS },
    ghost short: { len ≤ MAX_BITS },
    ghost fits: { word + touched R.BITS head len ≤ length words.now },
}

/// No word, and a span without bits.
impl<'a, R: BitRegister, O: BitOrder<R>> Default for DomainMut<'a, R, O> {
    ghost use Rattle.std.specs.Prelude.{[]};
    ghost use Rattle.bit_addressing_span.specs.DomainMut.{domain_words, domain_span};

    ghost is_default = { λ domain. (domain_words domain ≡ []) × (domain_span domain ≡ extent 0 0 0) };

    fn default() -> Self {
        DomainMut {
            words: Default::default(),
            word: 0,
            head: 0,
            len: 0,
            order: PhantomData,
        }
    }
}

impl<R: BitRegister, O: BitOrder<R>> BitSpan<R, O> {
    /// Word `k` of the span in this memory, with each digit outside the span read as zero. The span fits.
    pub fn load_value(self, words: &[R], k: usize) -> R
        requires fits { FitsIn R.BITS self (length words.now) }
        requires some { k < touched R.BITS self.head self.len }
        ensures { ReadsPart (read_by R.BitRegister O.position) words.now (self.word + k) result
            (part_from R.BITS self k) (part_upto R.BITS self k) }
    {
        let (word, head, len) = self.raw_parts();
        let (head, tail) = bounds_of(head.into_inner(), len, k);
        load_in::<R, O>(words, word + k, head, tail)
    }
}

impl<R: BitRegister, O: BitOrder<R>> BitSpan<R, O> {
    ghost use Rattle.bit_addressing_span.specs.DomainMut.{domain_words, domain_lender, domain_span};

    /// The words of the span in this memory, to read and write. The span fits.
    pub fn domain_mut<'a>(self, words: &'a mut [R]) -> DomainMut<'a, R, O>
        requires { FitsIn R.BITS self (length words.old) }
        ensures lender { (domain_lender result).ghost_name ≡ words.entry.ghost_name }
        ensures words { domain_words result ≡ words.old }
        ensures span { domain_span result ≡ self }
    {
        let (word, head, len) = self.raw_parts();
        DomainMut {
            words,
            word,
            head: head.into_inner(),
            len,
            order: PhantomData,
        }
    }
}

// Read.
impl<'a, R: BitRegister, O: BitOrder<R>> DomainMut<'a, R, O> {
    ghost use Rattle.bit_addressing_span.specs.DomainMut.{domain_words, domain_span};

    /// The same bits to read alone, cut at the borders of words.
    pub fn as_domain(&self) -> Domain<'_, R, O>
        ensures cut { IsCutOf (read_by R.BitRegister O.position) (domain_words self.now) (domain_span self.now) result }
        ensures words { length (domain_numbers R.number O.masked result)
            ≡ touched R.BITS (domain_span self.now).head (domain_span self.now).len }
        ensures masked { AreMasked (read_by R.BitRegister O.position) O.position (domain_words self.now)
            (domain_span self.now) (domain_numbers R.number O.masked result) }
        ensures enclave { IsEnclave result ↔ LiesInside R.BITS (domain_span self.now) }
    {
        let head = BitIdx::new_unchecked(self.head);
        cut_from::<R, O>(self.words, self.word, head, self.len)
    }

    /// How many words the span has.
    pub fn len(&self) -> usize
        ensures { result ≡ touched R.BITS (domain_span self.now).head (domain_span self.now).len }
    {
        words_touched::<R>(BitIdx::new_unchecked(self.head), self.len)
    }

    /// Whether the span has no word.
    pub fn is_empty(&self) -> bool
        ensures { IsTrue result ↔ (touched R.BITS (domain_span self.now).head (domain_span self.now).len ≡ 0) }
    {
        self.len() == 0
    }

    /// Whether the span has bits, and lies in one word, touching neither edge of it.
    pub fn is_enclave(&self) -> bool
        ensures { IsTrue result ↔ LiesInside R.BITS (domain_span self.now) }
    {
        let end = self.head as usize + self.len;
        self.len > 0 && self.head > 0 && end < R::BITS as usize
    }

    /// The indices of word `k` that are in the span: from the first of them up to before an end.
    pub fn bounds(&self, k: usize) -> (BitIdx<R>, BitEnd<R>)
        requires { k < touched R.BITS (domain_span self.now).head (domain_span self.now).len }
        ensures head { result.0 ≡ part_from R.BITS (domain_span self.now) k }
        ensures tail { result.1 ≡ part_upto R.BITS (domain_span self.now) k }
        ensures order { result.0 < result.1 }
    {
        bounds_of(self.head, self.len, k)
    }

    /// Word `k` of the span, with each digit outside the span read as zero.
    pub fn load_value(&self, k: usize) -> R
        requires { k < touched R.BITS (domain_span self.now).head (domain_span self.now).len }
        ensures { ReadsPart (read_by R.BitRegister O.position) (domain_words self.now)
            ((domain_span self.now).word + k) result
            (part_from R.BITS (domain_span self.now) k) (part_upto R.BITS (domain_span self.now) k) }
    {
        let (head, tail) = self.bounds(k);
        load_in::<R, O>(self.words, self.word + k, head, tail)
    }
}

// Write.
impl<'a, R: BitRegister, O: BitOrder<R>> DomainMut<'a, R, O> {
    ghost use Rattle.bit_addressing_span.specs.DomainMut.{domain_words, domain_span, IsSameDomain};

    /// Writes the digits of `value` into the part of word `k` that is in the span. Answers the word masked, as
    /// it was.
    pub fn store_value(&mut self, k: usize, value: R) -> R
        requires { k < touched R.BITS (domain_span self.old).head (domain_span self.old).len }
        ensures same { IsSameDomain self.old self.new }
        ensures was { ReadsPart (read_by R.BitRegister O.position) (domain_words self.old)
            ((domain_span self.old).word + k) result
            (part_from R.BITS (domain_span self.old) k) (part_upto R.BITS (domain_span self.old) k) }
        ensures now { Overwrites (read_by R.BitRegister O.position) (domain_words self.old) (domain_words self.new)
            (part_place R.BITS (domain_span self.old) k) (part_count R.BITS (domain_span self.old) k)
            (λ i. indexed R.number O.position value (part_from R.BITS (domain_span self.old) k + i)) }
    {
        let (head, tail) = self.bounds(k);
        store_in::<R, O>(self.words, self.word + k, value, head, tail)
    }

    /// Flips each bit of the part of word `k` that is in the span. Answers the word masked, as it was.
    pub fn invert(&mut self, k: usize) -> R
        requires { k < touched R.BITS (domain_span self.old).head (domain_span self.old).len }
        ensures same { IsSameDomain self.old self.new }
        ensures was { ReadsPart (read_by R.BitRegister O.position) (domain_words self.old)
            ((domain_span self.old).word + k) result
            (part_from R.BITS (domain_span self.old) k) (part_upto R.BITS (domain_span self.old) k) }
        ensures now { Overwrites (read_by R.BitRegister O.position) (domain_words self.old) (domain_words self.new)
            (part_place R.BITS (domain_span self.old) k) (part_count R.BITS (domain_span self.old) k)
            (λ i. not (entry (read_by R.BitRegister O.position) (domain_words self.old)
            (part_place R.BITS (domain_span self.old) k + i))) }
    {
        let turned = flipped::<R, O>(self.words[self.word + k]);
        self.store_value(k, turned)
    }

    /// Makes each bit of the part of word `k` that is in the span 0. Answers the word masked, as it was.
    #[tactic(auto, using(bit_addressing_memory::proofs::PartsLemmas::stores_all))]
    pub fn clear(&mut self, k: usize) -> R
        requires { k < touched R.BITS (domain_span self.old).head (domain_span self.old).len }
        ensures same { IsSameDomain self.old self.new }
        ensures was { ReadsPart (read_by R.BitRegister O.position) (domain_words self.old)
            ((domain_span self.old).word + k) result
            (part_from R.BITS (domain_span self.old) k) (part_upto R.BITS (domain_span self.old) k) }
        ensures now { Overwrites (read_by R.BitRegister O.position) (domain_words self.old) (domain_words self.new)
            (part_place R.BITS (domain_span self.old) k) (part_count R.BITS (domain_span self.old) k)
            (λ _. false) }
    {
        self.store_value(k, no_digits::<R, O>())
    }

    /// Makes each bit of the part of word `k` that is in the span 1. Answers the word masked, as it was.
    #[tactic(auto, using(bit_addressing_memory::proofs::PartsLemmas::stores_all))]
    pub fn set(&mut self, k: usize) -> R
        requires { k < touched R.BITS (domain_span self.old).head (domain_span self.old).len }
        ensures same { IsSameDomain self.old self.new }
        ensures was { ReadsPart (read_by R.BitRegister O.position) (domain_words self.old)
            ((domain_span self.old).word + k) result
            (part_from R.BITS (domain_span self.old) k) (part_upto R.BITS (domain_span self.old) k) }
        ensures now { Overwrites (read_by R.BitRegister O.position) (domain_words self.old) (domain_words self.new)
            (part_place R.BITS (domain_span self.old) k) (part_count R.BITS (domain_span self.old) k)
            (λ _. true) }
    {
        self.store_value(k, each_digit::<R, O>())
    }
}

// The indices of word `k` of some bits that begin at index `head` of a word: from the first of them up to before
// an end.
fn bounds_of<R: BitRegister>(head: u8, len: usize, k: usize) -> (BitIdx<R>, BitEnd<R>)
    requires index { head < R.BITS }
    requires short { len ≤ MAX_BITS }
    requires some { k < touched R.BITS head len }
    ensures head { result.0 ≡ part_from R.BITS (extent 0 head len) k }
    ensures tail { result.1 ≡ part_upto R.BITS (extent 0 head len) k }
    ensures order { result.0 < result.1 }
{
    let bits = R::BITS as usize;
    let (head, tail) = part_between(head as usize, len, k * bits, bits);
    (
        BitIdx::new_unchecked(head as u8),
        BitEnd::new_unchecked(tail as u8),
    )
}

// What lies between two edges of some bits from `head` on: up to before which end, both counted from the
// first edge.
fn part_between(head: usize, len: usize, first: usize, bits: usize) -> (usize, usize)
    requires index { head < bits }
    requires some { 0 < len }
    requires before { first < head + len }
    requires short { head + len < 2 ^ 63 }
    ensures head { result.0 ≡ head - first }
    ensures tail { result.1 ≡ min (head + len - first) bits }
    ensures order { result.0 < result.1 }
    ensures within { result.1 ≤ bits }
{
    let rest = head + len - first;
    let tail = if rest < bits { rest } else { bits };
    (head.saturating_sub(first), tail)
}
