//! Where a span is cut.

ghost use Rattle.std.specs.Prelude.{◌≡◌, ℕ, ◌+◌, ◌-◌, ◌*◌, ◌/◌, ◌%◌, ◌^◌, ◌<◌, ◌≤◌, ◌↔◌};
ghost use Rattle.std.specs.Prelude.{length, take, drop, min, slice_index, IfSome};
ghost use Rattle.bit_addressing_memory.specs.Memory.{read_by, memory, piece, touched};
ghost use Rattle.bit_addressing_span.specs.Domain.{IsCut, IsEnclave, IsTail, domain_start, domain_bits};
ghost use Rattle.bit_addressing_span.specs.Domain.{domain_numbers, option_bits, option_numbers};
ghost use Rattle.bit_addressing_memory.specs.Bits.{digit_at};
ghost use Rattle.bit_addressing_span.specs.Parts.{AreMasked};
ghost use Rattle.bit_addressing_memory.specs.Partial.{ReadsDigits};
ghost use Rattle.bit_addressing_span.specs.Span.{extent, span_bits, FitsIn, LiesInside};
ghost use Rattle.bit_addressing_span.specs.PartialElement.{partial_head, partial_tail, partial_bits, partial_numbers};

use crate::domain::Domain;
use crate::partial::PartialElement;
use crate::span::{BitSpan, MAX_BITS};
use bit_addressing_memory::{BitEnd, BitIdx, BitOrder, BitRegister, Limits};

impl<R: BitRegister, O: BitOrder<R>> BitSpan<R, O> {
    /// The span's bits in these words, cut at the borders of words: each bit once, in order, and no
    /// other. The span fits.
    pub fn domain<'a>(self, words: &'a [R]) -> Domain<'a, R, O>
        requires { FitsIn R.BITS self (length words.now) }
        ensures bits { domain_bits (read_by R.BitRegister O.position) result
            ≡ span_bits (read_by R.BitRegister O.position) words.now self }
        ensures start { 0 < self.len → domain_start result ≡ self.head }
        ensures enclave { IsEnclave result ↔ LiesInside R.BITS self }
        ensures cut { IsCut R.BITS result }
        ensures words { length (domain_numbers R.number O.masked result) ≡ touched R.BITS self.head self.len }
        ensures masked { AreMasked (read_by R.BitRegister O.position) O.position words.now self
            (domain_numbers R.number O.masked result) }
    {
        let (word, head, len) = self.raw_parts();
        cut_from::<R, O>(words, word, head, len)
    }
}

// Some bits of a memory from an index of a word on, cut at the borders of words.
#[tactic(auto, using(crate::proofs::CutLemmas::bits_from_word))]
pub(crate) fn cut_from<'a, R: BitRegister, O: BitOrder<R>>(
    words: &'a [R],
    word: usize,
    head: BitIdx<R>,
    len: usize,
) -> Domain<'a, R, O>
    requires index { head < R.BITS }
    requires fits { word + touched R.BITS head len ≤ length words.now }
    requires short { len ≤ MAX_BITS }
    ensures bits { domain_bits (read_by R.BitRegister O.position) result
        ≡ piece (memory (read_by R.BitRegister O.position) words.now) (word * R.BITS + head) len }
    ensures start { 0 < len → domain_start result ≡ head }
    ensures enclave { IsEnclave result ↔ LiesInside R.BITS (extent 0 head len) }
    ensures cut { IsCut R.BITS result }
    ensures words { length (domain_numbers R.number O.masked result) ≡ touched R.BITS head len }
    ensures masked { AreMasked (read_by R.BitRegister O.position) O.position words.now (extent word head len)
        (domain_numbers R.number O.masked result) }
{
    let rest = words_from(words, word);
    if len == 0 {
        return Domain::Region {
            head: None,
            body: &rest[..0],
            tail: None,
        };
    }
    cut_words::<R, O>(rest, head, len)
}

// Some bits of a memory from an index of its first word on, cut at the borders of words.
fn cut_words<'a, R: BitRegister, O: BitOrder<R>>(
    words: &'a [R],
    head: BitIdx<R>,
    len: usize,
) -> Domain<'a, R, O>
    requires some { 0 < len }
    requires within { head + len ≤ length words.now * R.BITS }
    requires short { len ≤ MAX_BITS }
    ensures bits { domain_bits (read_by R.BitRegister O.position) result
        ≡ piece (memory (read_by R.BitRegister O.position) words.now) head len }
    ensures start { 0 < len → domain_start result ≡ head }
    ensures enclave { IsEnclave result ↔ LiesInside R.BITS (extent 0 head len) }
    ensures cut { IsCut R.BITS result }
    ensures words { length (domain_numbers R.number O.masked result) ≡ touched R.BITS head len }
    ensures masked { AreMasked (read_by R.BitRegister O.position) O.position words.now (extent 0 head len)
        (domain_numbers R.number O.masked result) }
{
    let bits = R::BITS as usize;
    let from = head.into_inner() as usize;
    let last = (from + len) / bits;
    let upto = (from + len) % bits;
    if from == 0 {
        return Domain::Region {
            head: None,
            body: words_between(words, 0, last),
            tail: part_before::<R, O>(words, last, upto),
        };
    }
    if last == 0 {
        let tail = BitEnd::new_unchecked(upto as u8);
        return Domain::Enclave(part_of(words, 0, head, tail));
    }
    Domain::Region {
        head: Some(part_of(words, 0, head, BitEnd::MAX)),
        body: words_between(words, 1, last),
        tail: part_before::<R, O>(words, last, upto),
    }
}

// The words from one number on.
fn words_from<R>(words: &[R], from: usize) -> &[R]
    requires { from ≤ length words.now }
    ensures { result.now ≡ drop from words.now }
{
    &words[from..]
}

// The words from one number up to before another.
fn words_between<R>(words: &[R], from: usize, upto: usize) -> &[R]
    requires order { from ≤ upto }
    requires within { upto ≤ length words.now }
    ensures words { result.now ≡ take (upto - from) (drop from words.now) }
    ensures len { length result.now ≡ upto - from }
{
    &words[from..upto]
}

// The first bits of a word, where there are any.
#[tactic(auto, using(crate::proofs::CutLemmas::no_bits))]
fn part_before<'a, R: BitRegister, O: BitOrder<R>>(
    words: &'a [R],
    word: usize,
    upto: usize,
) -> Option<PartialElement<'a, R, O>>
    requires inside { 0 < upto → word < length words.now }
    requires short { upto < R.BITS }
    ensures bits { option_bits (read_by R.BitRegister O.position) result
        ≡ piece (memory (read_by R.BitRegister O.position) words.now) (word * R.BITS) upto }
    ensures cut { IfSome result (IsTail R.BITS) }
    ensures words { length (option_numbers R.number O.masked result) ≡ min 1 upto }
    ensures masked { 0 < upto → ReadsDigits (read_by R.BitRegister O.position) words.now word
        (λ i. digit_at (slice_index (option_numbers R.number O.masked result) 0) (O.position i)) 0 upto }
{
    if upto == 0 {
        return None;
    }
    let tail = BitEnd::new_unchecked(upto as u8);
    Some(part_of(words, word, BitIdx::MIN, tail))
}

// The bits of a word from an index up to before an end.
fn part_of<'a, R: BitRegister, O: BitOrder<R>>(
    words: &'a [R],
    word: usize,
    head: BitIdx<R>,
    tail: BitEnd<R>,
) -> PartialElement<'a, R, O>
    requires inside { word < length words.now }
    requires ordered { head ≤ tail }
    ensures bits { partial_bits (read_by R.BitRegister O.position) result
        ≡ piece (memory (read_by R.BitRegister O.position) words.now) (word * R.BITS + head) (tail - head) }
    ensures head { partial_head result ≡ head }
    ensures tail { partial_tail result ≡ tail }
    ensures words { length (partial_numbers R.number O.masked result) ≡ 1 }
    ensures masked { ReadsDigits (read_by R.BitRegister O.position) words.now word
        (λ i. digit_at (slice_index (partial_numbers R.number O.masked result) 0) (O.position i)) head tail }
{
    PartialElement::new(&words[word..word + 1], head, tail)
}
