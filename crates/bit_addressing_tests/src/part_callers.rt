//! What callers know of parts of words and of spans, from their contracts alone.

ghost use Rattle.std.specs.Prelude.{◌≡◌, ℕ, ◌+◌, ◌<◌, ◌≤◌, ◌↔◌, length, IfSome, IsSome};
ghost use Rattle.bit_addressing.specs.Memory.{entry, indexed, read_by, touched};
ghost use Rattle.bit_addressing.specs.Partial.{IsMasked};
ghost use Rattle.bit_addressing.specs.PartialElementMut.{part_words, part_head, part_tail};
ghost use Rattle.bit_addressing.specs.Parts.{part_from, part_upto, part_place, part_count};
ghost use Rattle.bit_addressing.specs.Partial.{ReadsPart};
ghost use Rattle.bit_addressing.specs.Span.{FitsIn};

use bit_addressing::{BitOrder, BitRegister, BitSpan, PartialElementMut};

/// What is loaded after a store is the value, masked.
#[tactic(auto, using(bit_addressing::proofs::CallerLemmas::parts))]
pub fn store_and_load<'a, R: BitRegister, O: BitOrder<R>>(
    part: &mut PartialElementMut<'a, R, O>,
    value: R,
) -> R
    ensures { IsMasked (read_by R.BitRegister O.position) value result (part_head part.old) (part_tail part.old) }
{
    part.store_value(value);
    part.load_value()
}

/// What a store answered restores the word, stored again.
#[tactic(auto, using(bit_addressing::proofs::CallerLemmas::parts))]
pub fn store_and_restore<'a, R: BitRegister, O: BitOrder<R>>(
    part: &mut PartialElementMut<'a, R, O>,
    value: R,
)
    ensures { (p : ℕ) → entry (read_by R.BitRegister O.position) (part_words part.new) p
        ≡ entry (read_by R.BitRegister O.position) (part_words part.old) p }
{
    let was = part.store_value(value);
    part.store_value(was);
}

/// Two words of a span written, one after the other: both are known, and all else.
pub fn write_two<R: BitRegister, O: BitOrder<R>>(
    span: BitSpan<R, O>,
    words: &mut [R],
    first: R,
    second: R,
)
    requires two { touched R.BITS span.head span.len ≡ 2 }
    requires fits { span.word + 2 ≤ length words.old }
    requires index { span.head < R.BITS }
    ensures first { (k : ℕ) → k < part_count R.BITS span 0
        → entry (read_by R.BitRegister O.position) words.new (part_place R.BITS span 0 + k)
        ≡ indexed R.number O.position first (part_from R.BITS span 0 + k) }
    ensures second { (k : ℕ) → k < part_count R.BITS span 1
        → entry (read_by R.BitRegister O.position) words.new (part_place R.BITS span 1 + k)
        ≡ indexed R.number O.position second (part_from R.BITS span 1 + k) }
    ensures below { (p : ℕ) → p < part_place R.BITS span 0
        → entry (read_by R.BitRegister O.position) words.new p
        ≡ entry (read_by R.BitRegister O.position) words.old p }
    ensures above { (p : ℕ) → part_place R.BITS span 1 + part_count R.BITS span 1 ≤ p
        → entry (read_by R.BitRegister O.position) words.new p
        ≡ entry (read_by R.BitRegister O.position) words.old p }
{
    let mut domain = span.domain_mut(words);
    domain.store_value(0, first);
    domain.store_value(1, second);
}

/// The first masked word of a span, where it has bits, as its domain gives it: the entries of the memory that lie in the
/// span, and no other digit.
pub fn first_word<R: BitRegister, O: BitOrder<R>>(span: BitSpan<R, O>, words: &[R]) -> Option<R>
    requires { FitsIn R.BITS span (length words.now) }
    ensures some { IsSome result ↔ (0 < touched R.BITS span.head span.len) }
    ensures masked { IfSome result (λ word. ReadsPart (read_by R.BitRegister O.position) words.now span.word word
        (part_from R.BITS span 0) (part_upto R.BITS span 0)) }
{
    let mut domain = span.domain(words);
    domain.next()
}
