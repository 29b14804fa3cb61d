//! One word of the domain of some bits of words, read and written.

ghost use Rattle.std.specs.Prelude.{◌≡◌, ◌+◌, ◌*◌, ◌/◌, ◌%◌, ◌^◌, ◌<◌, ◌≤◌, length, not, true, false};
ghost use Rattle.bit_addressing_memory.specs.Memory.{entry, indexed, read_by, touched};
ghost use Rattle.bit_addressing_span.specs.Parts.{part_from, part_place, part_upto};
ghost use Rattle.bit_addressing_span.specs.Span.{extent};
ghost use Rattle.bit_addressing_span.specs.declared.span.TheConstants.{MAX_BITS};
ghost use Rattle.bit_slice_access.specs.Domain.{ReadsWord, WritesWord, window_span};
ghost use Rattle.bit_slice_views_mut.specs.Frame.{KeepsBeside};

use bit_addressing_memory::{BitEnd, BitIdx, BitOrder, BitRegister, mem};
use bit_addressing_span::BitSpan;

// The span of some bits of words.
#[tactic(auto, using(crate::proofs::SpanLemmas::spans))]
pub(crate) fn span_of<T: BitRegister, O: BitOrder<T>>(place: usize, len: usize) -> BitSpan<T, O>
    requires ends { place + len < 2 ^ 63 }
    requires short { len ≤ MAX_BITS }
    ensures { result ≡ window_span T.BITS place len }
{
    let bits = mem::bits_of::<T>();
    let head = BitIdx::new_unchecked((place % bits) as u8);
    BitSpan::<T, O>::new(place / bits, head, len).unwrap()
}

// The indices of word `k` that are in the window: from the first of them up to before an end.
pub(crate) fn bounds_in<T: BitRegister>(
    place: usize,
    len: usize,
    k: usize,
) -> (BitIdx<T>, BitEnd<T>)
    requires ends { place + len < 2 ^ 63 }
    requires some { k < touched T.BITS (place % T.BITS) len }
    ensures head { result.0 ≡ part_from T.BITS (window_span T.BITS place len) k }
    ensures tail { result.1 ≡ part_upto T.BITS (window_span T.BITS place len) k }
    ensures order { result.0 < result.1 }
{
    let bits = mem::bits_of::<T>();
    let head = place % bits;
    let first = k * bits;
    let rest = head + len - first;
    let end = if rest < bits { rest } else { bits };
    (
        BitIdx::new_unchecked(head.saturating_sub(first) as u8),
        BitEnd::new_unchecked(end as u8),
    )
}

// Reads word `k`.
#[tactic(auto, using(crate::proofs::SpanLemmas::spans))]
pub(crate) fn load_in<T: BitRegister, O: BitOrder<T>>(
    words: &[T],
    place: usize,
    len: usize,
    k: usize,
) -> T
    requires within { place + len ≤ length words.now * T.BITS }
    requires ends { place + len < 2 ^ 63 }
    requires short { len ≤ MAX_BITS }
    requires some { k < touched T.BITS (place % T.BITS) len }
    ensures { ReadsWord (read_by T.BitRegister O.position) words.now (window_span T.BITS place len) k result }
{
    span_of::<T, O>(place, len).load_value(words, k)
}

// Writes the digits of a value over the part of word `k`. Answers the word masked, as it was.
#[tactic(auto, using(crate::proofs::SpanLemmas::spans))]
pub(crate) fn store_in<T: BitRegister, O: BitOrder<T>>(
    words: &mut [T],
    place: usize,
    len: usize,
    k: usize,
    value: T,
) -> T
    requires within { place + len ≤ length words.old * T.BITS }
    requires ends { place + len < 2 ^ 63 }
    requires short { len ≤ MAX_BITS }
    requires some { k < touched T.BITS (place % T.BITS) len }
    ensures was { ReadsWord (read_by T.BitRegister O.position) words.old (window_span T.BITS place len) k result }
    ensures now { WritesWord (read_by T.BitRegister O.position) words.old words.new (window_span T.BITS place len) k
        (λ i. indexed T.number O.position value (part_from T.BITS (window_span T.BITS place len) k + i)) }
    ensures beside { KeepsBeside (read_by T.BitRegister O.position) words.old words.new place len }
{
    let mut domain = span_of::<T, O>(place, len).domain_mut(words);
    domain.store_value(k, value)
}

// Flips the bits of the part of word `k`. Answers the word masked, as it was.
#[tactic(auto, using(crate::proofs::SpanLemmas::spans))]
pub(crate) fn invert_in<T: BitRegister, O: BitOrder<T>>(
    words: &mut [T],
    place: usize,
    len: usize,
    k: usize,
) -> T
    requires within { place + len ≤ length words.old * T.BITS }
    requires ends { place + len < 2 ^ 63 }
    requires short { len ≤ MAX_BITS }
    requires some { k < touched T.BITS (place % T.BITS) len }
    ensures was { ReadsWord (read_by T.BitRegister O.position) words.old (window_span T.BITS place len) k result }
    ensures now { WritesWord (read_by T.BitRegister O.position) words.old words.new (window_span T.BITS place len) k
        (λ i. not (entry (read_by T.BitRegister O.position) words.old
        (part_place T.BITS (window_span T.BITS place len) k + i))) }
    ensures beside { KeepsBeside (read_by T.BitRegister O.position) words.old words.new place len }
{
    let mut domain = span_of::<T, O>(place, len).domain_mut(words);
    domain.invert(k)
}

// Makes each bit of the part of word `k` `bit`. Answers the word masked, as it was.
#[tactic(auto, using(crate::proofs::SpanLemmas::spans))]
pub(crate) fn make_in<T: BitRegister, O: BitOrder<T>>(
    words: &mut [T],
    place: usize,
    len: usize,
    k: usize,
    bit: bool,
) -> T
    requires within { place + len ≤ length words.old * T.BITS }
    requires ends { place + len < 2 ^ 63 }
    requires short { len ≤ MAX_BITS }
    requires some { k < touched T.BITS (place % T.BITS) len }
    ensures was { ReadsWord (read_by T.BitRegister O.position) words.old (window_span T.BITS place len) k result }
    ensures now { WritesWord (read_by T.BitRegister O.position) words.old words.new (window_span T.BITS place len) k
        (λ _. bit) }
    ensures beside { KeepsBeside (read_by T.BitRegister O.position) words.old words.new place len }
{
    let mut domain = span_of::<T, O>(place, len).domain_mut(words);
    if bit { domain.set(k) } else { domain.clear(k) }
}
