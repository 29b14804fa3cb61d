//! Commands at disjoint spans of one memory.

ghost use Rattle.std.specs.Prelude.{◌≡◌, ℕ, ◌+◌, ◌<◌, ◌≤◌, ◌↔◌, IsTrue, length};
ghost use Rattle.bit_addressing_memory.specs.Memory.{read_by};
ghost use Rattle.bit_addressing_span.specs.Span.{span_place};
ghost use Rattle.bit_addressing.specs.Runs.{AllFit, AreDisjoint, HeadsBelow, span_at};
ghost use Rattle.bit_addressing.specs.Runs.{CarriesOut, OrderOfSpansIsFree, Runs};

use crate::command::{SpanCommand, SpanReply};
use crate::one_command::run_one;
use bit_addressing_order::{BitOrder, BitRegister};
use bit_addressing_span::BitSpan;

/// Whether no bit is one of two spans'. Spans may share a word, and a span without bits shares none.
pub fn disjoint<R: BitRegister, O: BitOrder<R>>(spans: &[BitSpan<R, O>]) -> bool
    ensures disjoint { IsTrue result ↔ AreDisjoint R.BITS spans.now }

    // What the spans' type says, told where each was looked at.
    ensures heads { IsTrue result → HeadsBelow R.BITS spans.now }
{
    for later in 0..spans.len() {
        let place = places(spans[later]);
        for earlier in 0..later {
            if !are_apart(places(spans[earlier]), place) {
                return false;
            }
        }
    }
    true
}

/// Whether each word of each span is one of the first `words`.
pub fn all_fit<R: BitRegister, O: BitOrder<R>>(spans: &[BitSpan<R, O>], words: usize) -> bool
    ensures fit { IsTrue result ↔ AllFit R.BITS spans.now words }

    // What the spans' type says, told where each was looked at.
    ensures heads { IsTrue result → HeadsBelow R.BITS spans.now }
{
    for k in 0..spans.len() {
        if !spans[k].fits(words) {
            return false;
        }
    }
    true
}

/// Carries out commands, each at the span of its number, one after another.
///
/// A reply has what its command found. A command whose span or whose own numbers are out of range is refused,
/// and changes nothing. No memory is taken.
pub fn run<R: BitRegister, O: BitOrder<R>>(
    memory: &mut [R],
    spans: &[BitSpan<R, O>],
    commands: &[(usize, SpanCommand<R>)],
    replies: &mut [SpanReply<R>],
)
    requires disjoint { AreDisjoint R.BITS spans.now }
    requires fit { AllFit R.BITS spans.now (length memory.old) }
    requires places { length replies.old ≡ length commands.now }
    ensures run { Runs (read_by R.BitRegister O.position) memory.old memory.new spans.now commands.now replies.new }

    // What the spans' type says.
    ensures heads { HeadsBelow R.BITS spans.now }
{
    look_at(spans);
    for k in 0..commands.len() {
        let (number, command) = commands[k];
        replies[k] = run_at(memory, spans, number, command);
    }
}

/// Two lists of commands that keep each span's own commands in their order give each span the same replies and
/// end in the same memory: a law, which the contract states.
pub fn order_of_spans_is_free<R: BitRegister, O: BitOrder<R>>()
    ensures { OrderOfSpansIsFree (read_by R.BitRegister O.position) }
{}

// Carries one command out at the span of a number, where there is one.
fn run_at<R: BitRegister, O: BitOrder<R>>(
    memory: &mut [R],
    spans: &[BitSpan<R, O>],
    number: usize,
    command: SpanCommand<R>,
) -> SpanReply<R>
    requires fit { AllFit R.BITS spans.now (length memory.old) }
    ensures carried { number < length spans.now
        → CarriesOut (read_by R.BitRegister O.position) memory.old memory.new
        (span_at spans.now number) command result }
    ensures refused { length spans.now ≤ number → result ≡ SpanReply.Refused }
    ensures same { length spans.now ≤ number → memory.new ≡ memory.old }
{
    if number >= spans.len() {
        return SpanReply::Refused;
    }
    run_one(memory, spans[number], command)
}

// Looks at each span, so that what their type says of each is known.
fn look_at<R: BitRegister, O: BitOrder<R>>(spans: &[BitSpan<R, O>])
    ensures { HeadsBelow R.BITS spans.now }
{
    for span in spans {
        let (_, _, _) = span.raw_parts();
    }
}

// Whether no place is in both of two stretches, each from its first place up to before an end.
fn are_apart(one: (u128, u128), other: (u128, u128)) -> bool
    ensures { IsTrue result ↔ ((p : ℕ) → one.0 ≤ p → p < one.1 → other.0 ≤ p → other.1 ≤ p) }
{
    one.0.max(other.0) >= one.1.min(other.1)
}

// The place of a span's first bit and the place where it ends, which `usize` may not count.
fn places<R: BitRegister, O: BitOrder<R>>(span: BitSpan<R, O>) -> (u128, u128)
    ensures start { result.0 ≡ span_place R.BITS span }
    ensures end { result.1 ≡ span_place R.BITS span + span.len }

    // What the type says.
    ensures index { span.head < R.BITS }
{
    let (word, head, len) = span.raw_parts();
    let start = word as u128 * R::BITS as u128 + head.into_inner() as u128;
    (start, start + len as u128)
}
