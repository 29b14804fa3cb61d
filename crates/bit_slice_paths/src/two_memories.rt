//! Bits of two memories combined and compared by whole words: those of the first memory, and as many of the other one,
//! where words of both are alike.

ghost use Rattle.std.specs.Prelude.{◌≡◌, ℕ, ◌+◌, ◌*◌, ◌/◌, ◌%◌, ◌<◌, ◌≤◌, ◌↔◌, IfSome, IsTrue, length};
ghost use Rattle.bit_addressing_memory.specs.Prelude.{Lies, entry, read_by};
ghost use Rattle.bit_slice_chunks.specs.Combined.{combined_bit, Combines};
ghost use Rattle.bit_slice_paths.specs.Agrees.{AreSame};
ghost use Rattle.bit_slice_paths.specs.Fits.{IsFit};
ghost use Rattle.bit_slice_paths.specs.declared.two_memories.Fit.TheVariants.{Level};

use crate::across::combine_part;
use crate::combining::Combining;
use crate::match_words::{match_joined, match_words, round_words};
use crate::merge::{merge_joined, merge_part, merge_words};
use crate::word_source::{Aligned, are_alike};
use bit_addressing_memory::mem::bits_of;
use bit_addressing_memory::{
    BitOrder, BitRegister, FROM_BORDER, JOINED_WORDS, Straight, WHOLE_WORDS, bits_to_next_word,
    direction_of,
};
use std::marker::PhantomData;

/// How far a comparison came.
#[derive(Clone, Copy, Drop)]
pub struct Reached {
    /// How many bits are done.
    pub done: usize,
    /// How many bits were read, those of the part at which it stopped too.
    pub seen: usize,
}

/// How the words of another memory are found for those of the first.
#[derive(Clone, Copy)]
pub enum Fit<S> {
    /// Both stretches begin at the same index of a word: word by word.
    Level,
    /// They need not: each word is joined of two, whose positions go straight.
    Shifted(S),
}

/// How two stretches of `len` bits fit, if they are long enough for whole words, and words of both are alike and no wider
/// than 64 bits.
#[inline(always)]
#[tactic(auto, using(crate::proofs::FitLemmas::shifted_fit))]
pub fn fit_of<R: BitRegister, O: BitOrder<R>, Q: BitRegister, P: BitOrder<Q>>(
    place: usize,
    other_place: usize,
    len: usize,
) -> Option<Fit<Straight<Q, P>>>
    ensures fit { IfSome result (IsFit R.BITS O.position Q.BITS P.position place other_place) }
    ensures many { IfSome result (λ _. 64 ≤ len) }
{
    if len < WHOLE_WORDS || R::BITS > 64 || !are_alike::<R, O, Q, P>() {
        return None;
    }
    let bits = bits_of::<R>();
    if place % bits == other_place % bits {
        return Some(Fit::Level);
    }
    if len < JOINED_WORDS {
        return None;
    }
    match Straight::<Q, P>::find() {
        Some(straight) => Some(Fit::Shifted(straight)),
        None => None,
    }
}

// Whole words combined, from a place on at which a word begins.
#[inline(always)]
#[tactic(auto, using(crate::proofs::FitLemmas::words_behind))]
fn merge_middle<H: Combining, R: BitRegister, O: BitOrder<R>, Q: BitRegister, P: BitOrder<Q>>(
    fit: Fit<Straight<Q, P>>,
    words: &mut [R],
    place: usize,
    others: &[Q],
    other_place: usize,
    n: usize,
)
    requires fit { IsFit R.BITS O.position Q.BITS P.position place other_place fit }
    requires whole { place / R.BITS * R.BITS ≡ place }
    requires lies { Lies R.BITS words.old place (n * R.BITS) }
    requires other_lies { Lies Q.BITS others.now other_place (n * R.BITS) }
    ensures { Combines (read_by R.BitRegister O.position) words.old words.new place (n * R.BITS)
        (combined_bit H.HOW) (read_by Q.BitRegister P.position) others.now other_place }
{
    let bits = bits_of::<R>();
    let first = place / bits;
    let other = other_place / bits;
    let by = other_place % bits;
    if let Fit::Shifted(straight) = fit
        && by > 0
    {
        merge_joined::<H, R, O, Q, P>(straight, words, first, others, other, by as u8, n);
        return;
    }
    let source = Aligned::<R, O, Q, P> {
        words: others,
        first: other,
        types: PhantomData,
    };
    merge_words::<H, R, O, Aligned<'_, R, O, Q, P>>(words, first, &source, n);
}

// Up to 64 bits combined, those before whole words or behind them: in one word by a mask, where they lie level in it.
#[inline(always)]
fn merge_edge<H: Combining, R: BitRegister, O: BitOrder<R>, Q: BitRegister, P: BitOrder<Q>>(
    fit: Fit<Straight<Q, P>>,
    words: &mut [R],
    place: usize,
    others: &[Q],
    other_place: usize,
    count: usize,
)
    requires fit { IsFit R.BITS O.position Q.BITS P.position place other_place fit }
    requires few { count ≤ 64 }
    requires lies { Lies R.BITS words.old place count }
    requires other_lies { Lies Q.BITS others.now other_place count }
    ensures { Combines (read_by R.BitRegister O.position) words.old words.new place count
        (combined_bit H.HOW) (read_by Q.BitRegister P.position) others.now other_place }
{
    let bits = bits_of::<R>();
    // The mask of a part is made index by index where the positions don't go straight.
    if let Fit::Level = fit
        && direction_of::<R, O>().is_some()
        && count > 0
        && place % bits + count <= bits
    {
        merge_part::<H, R, O, Q, P>(words, place, others, other_place, count);
    } else {
        combine_part::<H, R, O, Q, P>(words, place, others, other_place, count);
    }
}

/// Combines each of `len` bits, 64 or more, with one of another memory, and returns how many: those before the next word,
/// whole words, and the rest.
#[inline(never)]
pub fn combine<H: Combining, R: BitRegister, O: BitOrder<R>, Q: BitRegister, P: BitOrder<Q>>(
    fit: Fit<Straight<Q, P>>,
    words: &mut [R],
    place: usize,
    others: &[Q],
    other_place: usize,
    len: usize,
) -> usize
    requires fit { IsFit R.BITS O.position Q.BITS P.position place other_place fit }
    requires many { 64 ≤ len }
    requires lies { Lies R.BITS words.old place len }
    requires other_lies { Lies Q.BITS others.now other_place len }
    ensures combined { Combines (read_by R.BitRegister O.position) words.old words.new place len
        (combined_bit H.HOW) (read_by Q.BitRegister P.position) others.now other_place }
    ensures all { result ≡ len }
{
    let bits = bits_of::<R>();
    let head = bits_to_next_word::<R>(place);
    merge_edge::<H, R, O, Q, P>(fit, words, place, others, other_place, head);
    let n = (len - head) / bits;
    let (at, other_at) = (place + head, other_place + head);
    merge_middle::<H, R, O, Q, P>(fit, words, at, others, other_at, n);
    let done = head + n * bits;
    let rest = len - done;
    let (at, other_at) = (place + done, other_place + done);
    merge_edge::<H, R, O, Q, P>(fit, words, at, others, other_at, rest);
    done + rest
}

// Up to which whole words two memories are the same, from a place on at which a word begins: `n`, or the first word of a
// round with a difference.
#[inline(always)]
#[tactic(auto, using(crate::proofs::FitLemmas::words_behind))]
fn match_middle<R: BitRegister, O: BitOrder<R>, Q: BitRegister, P: BitOrder<Q>>(
    fit: Fit<Straight<Q, P>>,
    words: &[R],
    place: usize,
    others: &[Q],
    other_place: usize,
    n: usize,
) -> usize
    requires fit { IsFit R.BITS O.position Q.BITS P.position place other_place fit }
    requires whole { place / R.BITS * R.BITS ≡ place }
    requires lies { Lies R.BITS words.now place (n * R.BITS) }
    requires other_lies { Lies Q.BITS others.now other_place (n * R.BITS) }
    ensures most { result ≤ n }
    ensures same { (k : ℕ) → k < result * R.BITS
        → entry (read_by R.BitRegister O.position) words.now (place + k)
        ≡ entry (read_by Q.BitRegister P.position) others.now (other_place + k) }
    ensures differ { result < n → ((k : ℕ) → k < n * R.BITS
        → entry (read_by R.BitRegister O.position) words.now (place + k)
        ≡ entry (read_by Q.BitRegister P.position) others.now (other_place + k)) → ⊥ }
{
    let bits = bits_of::<R>();
    let first = place / bits;
    let other = other_place / bits;
    let by = other_place % bits;
    if let Fit::Shifted(straight) = fit
        && by > 0
    {
        return match_joined::<R, O, Q, P>(straight, words, first, others, other, by as u8, n);
    }
    let source = Aligned::<R, O, Q, P> {
        words: others,
        first: other,
        types: PhantomData,
    };
    match_words::<R, O, Aligned<'_, R, O, Q, P>>(words, first, &source, n)
}

/// Words that go straight are compared so many bits at a time: vector instructions leave none over that go one by one.
pub const ROUND: usize = 256;

/// How many of the first bits are the same, if the first `few` are, and how many were read for it: by whole words behind the
/// last border in those, as far as they go, or up to the round in which one differs.
#[inline(always)]
#[tactic(auto, using(crate::proofs::FitLemmas::read_within))]
pub fn match_behind<R: BitRegister, O: BitOrder<R>, Q: BitRegister, P: BitOrder<Q>>(
    words: &[R],
    place: usize,
    others: &[Q],
    other_place: usize,
    len: usize,
    few: usize,
) -> Reached
    requires few { few ≤ len }
    requires lies { Lies R.BITS words.now place len }
    requires other_lies { Lies Q.BITS others.now other_place len }
    requires same { AreSame (read_by R.BitRegister O.position) words.now place
        (read_by Q.BitRegister P.position) others.now other_place few }
    ensures order { result.done ≤ result.seen }
    ensures most { result.seen ≤ len }
    ensures same { AreSame (read_by R.BitRegister O.position) words.now place
        (read_by Q.BitRegister P.position) others.now other_place result.done }
    ensures differ { result.done < result.seen → AreSame (read_by R.BitRegister O.position) words.now place
        (read_by Q.BitRegister P.position) others.now other_place len → ⊥ }
{
    let bits = bits_of::<R>();
    let again = (place + few) % bits;
    // Few bits go on where they are.
    if again > few || len < FROM_BORDER {
        return Reached {
            done: few,
            seen: few,
        };
    }
    let start = few - again;
    let (at, other_at, rest) = (place + start, other_place + start, len - start);
    let Some(fit) = fit_of::<R, O, Q, P>(at, other_at, rest) else {
        return Reached {
            done: start,
            seen: start,
        };
    };
    let over = if direction_of::<R, O>().is_some() {
        rest % ROUND
    } else {
        0
    };
    let n = (rest - over) / bits;
    let same = match_middle::<R, O, Q, P>(fit, words, at, others, other_at, n);
    let seen = same + (n - same).min(round_words::<R>());
    Reached {
        done: start + same * bits,
        seen: start + seen * bits,
    }
}
