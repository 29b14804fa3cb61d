//! The last bit of a kind, by words.

ghost use Rattle.std.specs.Prelude.{◌≡◌, ◌+◌, ◌*◌, ◌^◌, ◌<◌, ◌≤◌, length};
ghost use Rattle.bit_addressing_memory.specs.Prelude.{Lies, indexed, memory, piece, read_by};
ghost use Rattle.bit_slice_words.specs.Found.{is_bit, last_position};
ghost use Rattle.bit_slice_words.specs.Stretch.{bit_found, IsLast, Nowhere};

use crate::lacking::lacks;
use crate::parts::last_in_part;
use bit_addressing_memory::mem::bits_of;
use bit_addressing_memory::{BitIdx, BitOrder, BitRegister, Straight, edges_of, read_bit};

/// The index of the last of the `len` bits from a place on that is `bit`, counted from that place; `None` where
/// none is.
///
/// A whole word that has no such bit is passed over by one comparison; where the order goes straight, a part of a word is
/// looked at as one number. It answers as `last_one` of a slice in bitvec
/// 1.1.1, and for false as `last_zero`.
#[tactic(auto, using(crate::proofs::StretchLemmas::last_position_in))]
pub fn last_in<R: BitRegister, O: BitOrder<R>>(
    words: &[R],
    place: usize,
    len: usize,
    bit: bool,
) -> Option<usize>
    requires lies { Lies R.BITS words.now place len }
    ensures { result
        ≡ last_position (is_bit bit) (piece (memory (read_by R.BitRegister O.position) words.now) place len) }
{
    match last_place::<R, O>(words, place, len, bit) {
        Some(at) => Some(at - place),
        None => None,
    }
}

// The place of the last of some bits that is `bit`: in the last word, in the words between or in the first word.
fn last_place<R: BitRegister, O: BitOrder<R>>(
    words: &[R],
    place: usize,
    len: usize,
    bit: bool,
) -> Option<usize>
    requires lies { Lies R.BITS words.now place len }
    ensures { IsLast (bit_found (read_by R.BitRegister O.position) words.now bit) place (place + len) result }
{
    if len == 0 {
        return None;
    }
    let cut = edges_of::<R>(place, len);
    if cut.first == cut.last {
        return last_at::<R, O>(words, cut.first, cut.from, cut.upto, bit);
    }
    if let Some(at) = last_at::<R, O>(words, cut.last, 0, cut.upto, bit) {
        return Some(at);
    }
    let before = word_before::<R, O>(words, cut.first, cut.last, bit);
    let from = if before == cut.first { cut.from } else { 0 };
    last_at::<R, O>(words, before, from, R::BITS, bit)
}

// The last word behind one number and before another that has the bit, or the first number.
#[tactic(auto, using(crate::proofs::StretchLemmas::nowhere_join, crate::proofs::StretchLemmas::nowhere_word))]
fn word_before<R: BitRegister, O: BitOrder<R>>(
    words: &[R],
    first: usize,
    upto: usize,
    bit: bool,
) -> usize
    requires order { first < upto }
    requires within { upto ≤ length words.now }
    ensures least { first ≤ result }
    ensures most { result < upto }
    ensures none { Nowhere (bit_found (read_by R.BitRegister O.position) words.now bit)
        ((result + 1) * R.BITS) (upto * R.BITS) }
    ensures some { first < result → ¬ Nowhere (bit_found (read_by R.BitRegister O.position) words.now bit)
        (result * R.BITS) ((result + 1) * R.BITS) }
{
    let mut k = upto - 1;
    while first < k {
        if !lacks::<R, O>(words[k], bit) {
            return k;
        }
        k -= 1;
    }
    k
}

// The place of the last bit that is `bit` in a part of a word.
#[inline(always)]
fn last_at<R: BitRegister, O: BitOrder<R>>(
    words: &[R],
    word: usize,
    from: u8,
    upto: u8,
    bit: bool,
) -> Option<usize>
    requires inside { word < length words.now }
    requires order { from ≤ upto }
    requires within { upto ≤ R.BITS }
    requires ends { word * R.BITS + upto < 2 ^ 64 }
    ensures { IsLast (bit_found (read_by R.BitRegister O.position) words.now bit)
        (word * R.BITS + from) (word * R.BITS + upto) result }
{
    match Straight::<R, O>::find() {
        Some(straight) => last_straight::<R, O>(straight, words, word, from, upto, bit),
        None => last_singly::<R, O>(words, word, from, upto, bit),
    }
}

// `last_at` where the positions go straight: up to 64 bits are one number.
#[inline(always)]
fn last_straight<R: BitRegister, O: BitOrder<R>>(
    straight: Straight<R, O>,
    words: &[R],
    word: usize,
    from: u8,
    upto: u8,
    bit: bool,
) -> Option<usize>
    requires inside { word < length words.now }
    requires order { from ≤ upto }
    requires within { upto ≤ R.BITS }
    requires ends { word * R.BITS + upto < 2 ^ 64 }
    ensures { IsLast (bit_found (read_by R.BitRegister O.position) words.now bit)
        (word * R.BITS + from) (word * R.BITS + upto) result }
{
    if from == upto {
        return None;
    }
    if lacks::<R, O>(words[word], bit) {
        return None;
    }
    if R::BITS <= 64 {
        return last_in_part::<R, O>(straight, words, word, from, upto, bit);
    }
    let middle = from.max(upto.saturating_sub(64));
    if let Some(at) = last_in_part::<R, O>(straight, words, word, middle, upto, bit) {
        return Some(at);
    }
    if from == middle {
        return None;
    }
    last_in_part::<R, O>(straight, words, word, from, middle, bit)
}

// `last_at` bit by bit.
fn last_singly<R: BitRegister, O: BitOrder<R>>(
    words: &[R],
    word: usize,
    from: u8,
    upto: u8,
    bit: bool,
) -> Option<usize>
    requires inside { word < length words.now }
    requires within { upto ≤ R.BITS }
    requires ends { word * R.BITS + upto < 2 ^ 64 }
    ensures { IsLast (bit_found (read_by R.BitRegister O.position) words.now bit)
        (word * R.BITS + from) (word * R.BITS + upto) result }
{
    match last_index::<R, O>(words[word], from, upto, bit) {
        Some(i) => Some(word * bits_of::<R>() + i as usize),
        None => None,
    }
}

// The last index of a part of a word whose bit is `bit`.
fn last_index<R: BitRegister, O: BitOrder<R>>(word: R, from: u8, upto: u8, bit: bool) -> Option<u8>
    requires { upto ≤ R.BITS }
    ensures { IsLast (λ i. is_bit bit (indexed R.number O.position word i)) from upto result }
{
    if lacks::<R, O>(word, bit) {
        return None;
    }
    let mut k = upto;
    while from < k {
        k -= 1;
        if read_bit::<R, O>(word, BitIdx::new_unchecked(k)) == bit {
            return Some(k);
        }
    }
    None
}
