//! The first bit of a kind, by words.

ghost use Rattle.std.specs.Prelude.{◌≡◌, ◌+◌, ◌*◌, ◌^◌, ◌<◌, ◌≤◌, length, position};
ghost use Rattle.bit_addressing_memory.specs.Prelude.{Lies, indexed, memory, piece, read_by};
ghost use Rattle.bit_slice_words.specs.Found.{is_bit};
ghost use Rattle.bit_slice_words.specs.Stretch.{bit_found, IsFirst, Nowhere};

use crate::lacking::lacks;
use crate::parts::{first_in_block, first_in_part};
use bit_addressing_memory::mem::bits_of;
use bit_addressing_memory::{
    BitIdx, BitOrder, BitRegister, NEAR_WORDS, Straight, edges_of, read_bit,
};
use bit_slice_paths::match_words::match_words;
use bit_slice_paths::word_source::Constant;

/// The index of the first of the `len` bits from a place on that is `bit`, counted from that place; `None` where
/// none is.
///
/// A whole word that has no such bit is passed over by one comparison; where the order's positions go straight, a part of
/// a word is one number, and so are 64 bits of narrow words. It answers as `first_one` of a slice in bitvec 1.1.1, and for
/// false as `first_zero`.
#[tactic(auto, using(crate::proofs::StretchLemmas::position_in))]
pub fn first_in<R: BitRegister, O: BitOrder<R>>(
    words: &[R],
    place: usize,
    len: usize,
    bit: bool,
) -> Option<usize>
    requires lies { Lies R.BITS words.now place len }
    ensures { result ≡ position (is_bit bit) (piece (memory (read_by R.BitRegister O.position) words.now) place len) }
{
    if R::BITS < 64 && len >= 64 {
        if let Some(straight) = Straight::<R, O>::find() {
            if let Some(at) = first_in_block::<R, O>(straight, words, place, 0, bit) {
                return Some(at - place);
            }
            return first_behind_block::<R, O>(words, place, len, bit);
        }
    }
    if len > NEAR_WORDS * bits_of::<R>() {
        return first_of_many::<R, O>(words, place, len, bit);
    }
    match first_place::<R, O>(words, place, len, bit, false) {
        Some(at) => Some(at - place),
        None => None,
    }
}

// `first_in` of bits in many words. Out of line, so that a search among few is a short function.
#[inline(never)]
#[tactic(auto, using(crate::proofs::ChunkedLemmas::position_behind, crate::proofs::StretchLemmas::position_in))]
fn first_of_many<R: BitRegister, O: BitOrder<R>>(
    words: &[R],
    place: usize,
    len: usize,
    bit: bool,
) -> Option<usize>
    requires many { NEAR_WORDS * R.BITS < len }
    requires lies { Lies R.BITS words.now place len }
    ensures { result ≡ position (is_bit bit) (piece (memory (read_by R.BitRegister O.position) words.now) place len) }
{
    let near = NEAR_WORDS * bits_of::<R>();
    match first_place::<R, O>(words, place, near, bit, false) {
        Some(at) => Some(at - place),
        None => first_behind::<R, O>(words, place, len, bit, near),
    }
}

// `first_in` where none of the first 64 bits is `bit`, in narrow words whose positions go straight: by blocks that begin
// at the last word border in those. Of a few words the last block ends with them. Out of line too, so it finds the
// direction for itself.
#[inline(never)]
#[tactic(auto, using(crate::proofs::ChunkedLemmas::position_within))]
fn first_behind_block<R: BitRegister, O: BitOrder<R>>(
    words: &[R],
    place: usize,
    len: usize,
    bit: bool,
) -> Option<usize>
    requires narrow { R.BITS ≤ 64 }
    requires many { 64 ≤ len }
    requires lies { Lies R.BITS words.now place len }
    requires none { Nowhere (bit_found (read_by R.BitRegister O.position) words.now bit) place (place + 64) }
    ensures { result ≡ position (is_bit bit) (piece (memory (read_by R.BitRegister O.position) words.now) place len) }
{
    let Some(straight) = Straight::<R, O>::find() else {
        return first_behind::<R, O>(words, place, len, bit, 64);
    };
    let near = len.min(NEAR_WORDS * bits_of::<R>());
    let done = 64 - place % bits_of::<R>();
    let blocks = (near - done) / 64;
    for k in 0..blocks {
        if let Some(at) = first_in_block::<R, O>(straight, words, place + done, k, bit) {
            return Some(at - place);
        }
    }
    if near < len {
        return first_behind::<R, O>(words, place, len, bit, done + 64 * blocks);
    }
    match first_in_block::<R, O>(straight, words, place + (len - 64), 0, bit) {
        Some(at) => Some(at - place),
        None => None,
    }
}

// `first_in` where none of the first `done` bits is `bit`: by rounds of words.
#[inline(always)]
#[tactic(auto, using(crate::proofs::ChunkedLemmas::position_behind))]
fn first_behind<R: BitRegister, O: BitOrder<R>>(
    words: &[R],
    place: usize,
    len: usize,
    bit: bool,
    done: usize,
) -> Option<usize>
    requires lies { Lies R.BITS words.now place len }
    requires done { done ≤ len }
    requires none { Nowhere (bit_found (read_by R.BitRegister O.position) words.now bit) place (place + done) }
    ensures { result ≡ position (is_bit bit) (piece (memory (read_by R.BitRegister O.position) words.now) place len) }
{
    match first_place::<R, O>(words, place + done, len - done, bit, true) {
        Some(at) => Some(at - place),
        None => None,
    }
}

// The place of the first of some bits that is `bit`: in the first word, in the words between, which go one by one or by
// rounds, or in the last word.
#[inline(always)]
fn first_place<R: BitRegister, O: BitOrder<R>>(
    words: &[R],
    place: usize,
    len: usize,
    bit: bool,
    by_rounds: bool,
) -> Option<usize>
    requires lies { Lies R.BITS words.now place len }
    ensures { IsFirst (bit_found (read_by R.BitRegister O.position) words.now bit) place (place + len) result }
{
    if len == 0 {
        return None;
    }
    let cut = edges_of::<R>(place, len);
    if cut.first == cut.last {
        return first_at::<R, O>(words, cut.first, cut.from, cut.upto, bit);
    }
    if let Some(at) = first_at::<R, O>(words, cut.first, cut.from, R::BITS, bit) {
        return Some(at);
    }
    let next = if by_rounds {
        next_far::<R, O>(words, cut.first + 1, cut.last, bit)
    } else {
        next_near::<R, O>(words, cut.first + 1, cut.last, bit)
    };
    let upto = if next == cut.last { cut.upto } else { R::BITS };
    first_at::<R, O>(words, next, 0, upto, bit)
}

// The first word from one number up to before another that has the bit, or the second number: word by word.
#[inline(always)]
#[tactic(auto, using(crate::proofs::StretchLemmas::nowhere_join, crate::proofs::StretchLemmas::nowhere_word))]
fn next_near<R: BitRegister, O: BitOrder<R>>(
    words: &[R],
    from: usize,
    upto: usize,
    bit: bool,
) -> usize
    requires order { from ≤ upto }
    requires within { upto ≤ length words.now }
    ensures least { from ≤ result }
    ensures most { result ≤ upto }
    ensures none { Nowhere (bit_found (read_by R.BitRegister O.position) words.now bit)
        (from * R.BITS) (result * R.BITS) }
    ensures some { result < upto → ¬ Nowhere (bit_found (read_by R.BitRegister O.position) words.now bit)
        (result * R.BITS) ((result + 1) * R.BITS) }
{
    // Counted from 0, a round takes two instructions less.
    for i in 0..upto - from {
        let k = from + i;
        if !lacks::<R, O>(words[k], bit) {
            return k;
        }
    }
    upto
}

// `next_near` by rounds of words.
#[inline(always)]
fn next_far<R: BitRegister, O: BitOrder<R>>(
    words: &[R],
    from: usize,
    upto: usize,
    bit: bool,
) -> usize
    requires order { from ≤ upto }
    requires within { upto ≤ length words.now }
    ensures least { from ≤ result }
    ensures most { result ≤ upto }
    ensures none { Nowhere (bit_found (read_by R.BitRegister O.position) words.now bit)
        (from * R.BITS) (result * R.BITS) }
    ensures some { result < upto → ¬ Nowhere (bit_found (read_by R.BitRegister O.position) words.now bit)
        (result * R.BITS) ((result + 1) * R.BITS) }
{
    let source = Constant {
        bit: !bit,
        count: upto - from,
    };
    let without = match_words::<R, O, Constant>(words, from, &source, upto - from);
    next_near::<R, O>(words, from + without, upto, bit)
}

// The place of the first bit that is `bit` in a part of a word.
#[inline(always)]
fn first_at<R: BitRegister, O: BitOrder<R>>(
    words: &[R],
    word: usize,
    from: u8,
    upto: u8,
    bit: bool,
) -> Option<usize>
    requires inside { word < length words.now }
    requires order { from ≤ upto }
    requires within { upto ≤ R.BITS }
    requires ends { word * R.BITS + upto < 2 ^ 64 }
    ensures { IsFirst (bit_found (read_by R.BitRegister O.position) words.now bit)
        (word * R.BITS + from) (word * R.BITS + upto) result }
{
    match Straight::<R, O>::find() {
        Some(straight) => first_straight::<R, O>(straight, words, word, from, upto, bit),
        None => first_singly::<R, O>(words, word, from, upto, bit),
    }
}

// `first_at` where the positions go straight: up to 64 bits are one number.
#[inline(always)]
fn first_straight<R: BitRegister, O: BitOrder<R>>(
    straight: Straight<R, O>,
    words: &[R],
    word: usize,
    from: u8,
    upto: u8,
    bit: bool,
) -> Option<usize>
    requires inside { word < length words.now }
    requires order { from ≤ upto }
    requires within { upto ≤ R.BITS }
    requires ends { word * R.BITS + upto < 2 ^ 64 }
    ensures { IsFirst (bit_found (read_by R.BitRegister O.position) words.now bit)
        (word * R.BITS + from) (word * R.BITS + upto) result }
{
    if from == upto {
        return None;
    }
    if lacks::<R, O>(words[word], bit) {
        return None;
    }
    if R::BITS <= 64 {
        return first_in_part::<R, O>(straight, words, word, from, upto, bit);
    }
    let middle = upto.min(from + 64);
    if let Some(at) = first_in_part::<R, O>(straight, words, word, from, middle, bit) {
        return Some(at);
    }
    if middle == upto {
        return None;
    }
    first_in_part::<R, O>(straight, words, word, middle, upto, bit)
}

// `first_at` bit by bit.
fn first_singly<R: BitRegister, O: BitOrder<R>>(
    words: &[R],
    word: usize,
    from: u8,
    upto: u8,
    bit: bool,
) -> Option<usize>
    requires inside { word < length words.now }
    requires within { upto ≤ R.BITS }
    requires ends { word * R.BITS + upto < 2 ^ 64 }
    ensures { IsFirst (bit_found (read_by R.BitRegister O.position) words.now bit)
        (word * R.BITS + from) (word * R.BITS + upto) result }
{
    match first_index::<R, O>(words[word], from, upto, bit) {
        Some(i) => Some(word * bits_of::<R>() + i as usize),
        None => None,
    }
}

// The first index of a part of a word whose bit is `bit`.
fn first_index<R: BitRegister, O: BitOrder<R>>(word: R, from: u8, upto: u8, bit: bool) -> Option<u8>
    requires { upto ≤ R.BITS }
    ensures { IsFirst (λ i. is_bit bit (indexed R.number O.position word i)) from upto result }
{
    if lacks::<R, O>(word, bit) {
        return None;
    }
    for i in from..upto {
        if read_bit::<R, O>(word, BitIdx::new_unchecked(i)) == bit {
            return Some(i);
        }
    }
    None
}
