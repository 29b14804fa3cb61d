//! Spans: so many bits of a memory, from an index of a word on.

ghost use Rattle.std.specs.Prelude.{◌≡◌, ◌+◌, ◌*◌, ◌<◌, ◌≤◌, ◌^◌, ◌↔◌, IsOk, IsTrue, MatchResult, length, ⊤};
ghost use Rattle.bit_addressing_memory.specs.Memory.{touched};
ghost use Rattle.bit_addressing_span.specs.Span.{extent, end_inside, FitsIn, IsExtent, IsRefusal};

use crate::span_error::BitSpanError;
use bit_addressing_memory::{BitEnd, BitIdx, BitOrder, BitRegister, Limits};
use std::marker::{Model, PhantomData};

/// The greatest number of bits that a span has: `usize::MAX >> 3`.
pub const MAX_BITS: usize = 2305843009213693951;

const _: () = prove!(MAX_BITS == usize::MAX >> 3);

/// So many bits of a memory, from an index of a word on. A contract sees it as these three numbers.
///
/// It is numbers alone: its calls are handed the memory. In bitvec the type is private.
#[derive_where(Clone, Copy, PartialEq, Eq)]
pub struct BitSpan<R: BitRegister, O: BitOrder<R>> {
    word: usize,
    head: BitIdx<R>,
    len: usize,
    #[derive_where(skip)]
    order: PhantomData<O>,
}

impl<R: BitRegister, O: BitOrder<R>> Model for BitSpan<R, O> {
    ghost use Rattle.bit_addressing_span.specs.Span.{Extent, extent, IsExtent};
    ghost use Rattle.bit_addressing_span.specs.declared.span.TheConstants.{MAX_BITS};

    ghost Value = { Extent };

    ghost view = { λ span. extent span.word span.head span.len };

    ghost invariant = { λ span. IsExtent MAX_BITS R.BITS (extent span.word span.head span.len) };

    ghost inverse = { λ s. record { word = s.word; head = s.head; len = s.len; order = record {} } };
}

/// Word 0, index 0, no bits.
impl<R: BitRegister, O: BitOrder<R>> Default for BitSpan<R, O> {
    ghost is_default = { λ span. span ≡ extent 0 0 0 };

    fn default() -> Self {
        BitSpan {
            word: 0,
            head: BitIdx::MIN,
            len: 0,
            order: PhantomData,
        }
    }
}

// Make.
impl<R: BitRegister, O: BitOrder<R>> BitSpan<R, O> {
    /// The span of `len` bits from index `head` of a word on.
    ///
    /// Refuses a length above `MAX_BITS`, and then a span whose words don't end below `2 ^ 63`.
    pub fn new(word: usize, head: BitIdx<R>, len: usize) -> Result<BitSpan<R, O>, BitSpanError>
        ensures ok { IsOk result ↔ IsExtent MAX_BITS R.BITS (extent word head len) }
        ensures value { MatchResult result (λ span. span ≡ extent word head len)
            (IsRefusal MAX_BITS R.BITS (extent word head len)) }
    {
        if len > MAX_BITS {
            return Err(BitSpanError::TooLong(len));
        }
        let room = isize::MAX as usize - words_touched::<R>(head, len);
        if word > room {
            return Err(BitSpanError::TooHigh(word));
        }
        Ok(BitSpan {
            word,
            head,
            len,
            order: PhantomData,
        })
    }
}

// Read.
impl<R: BitRegister, O: BitOrder<R>> BitSpan<R, O> {
    /// How many words hold a bit of the span: none where it has no bits, whatever its head is.
    pub fn elements(self) -> usize
        ensures { result ≡ touched R.BITS self.head self.len }
    {
        words_touched::<R>(self.head, self.len)
    }

    /// The end of the span inside its last word: its head, where it has no bits.
    pub fn tail(self) -> BitEnd<R>
        ensures { result ≡ end_inside R.BITS self.head self.len }
    {
        end_in_word::<R>(self.head, self.len)
    }

    /// The word, the head and the length.
    pub fn raw_parts(self) -> (usize, BitIdx<R>, usize)
        ensures word { result.0 ≡ self.word }
        ensures head { result.1 ≡ self.head }
        ensures len { result.2 ≡ self.len }

        // What the type says.
        ensures index { self.head < R.BITS }
        ensures within { IsExtent MAX_BITS R.BITS self }
    {
        (self.word, self.head, self.len)
    }

    /// Whether each word of the span is one of the first `words`.
    pub fn fits(self, words: usize) -> bool
        ensures fit { IsTrue result ↔ FitsIn R.BITS self words }

        // What the type says.
        ensures index { self.head < R.BITS }
    {
        let word = self.word;
        word + words_touched::<R>(self.head, self.len) <= words
    }
}

// How many words hold one of `len` bits from an index on.
#[tactic(auto, using(crate::proofs::SpanLemmas::spans))]
pub(crate) fn words_touched<R: BitRegister>(head: BitIdx<R>, len: usize) -> usize
    requires { len ≤ MAX_BITS }
    ensures value { result ≡ touched R.BITS head len }
    ensures room { result < 2 ^ 62 }
{
    if len == 0 {
        return 0;
    }
    (head.into_inner() as usize + (len - 1)) / R::BITS as usize + 1
}

// The end inside its last word of `len` bits from an index on.
#[tactic(auto, using(crate::proofs::SpanLemmas::spans))]
fn end_in_word<R: BitRegister>(head: BitIdx<R>, len: usize) -> BitEnd<R>
    requires { len ≤ MAX_BITS }
    ensures { result ≡ end_inside R.BITS head len }
{
    if len == 0 {
        return BitEnd::new_unchecked(head.into_inner());
    }
    let last = (head.into_inner() as usize + (len - 1)) % R::BITS as usize;
    BitEnd::new_unchecked(last as u8 + 1)
}
