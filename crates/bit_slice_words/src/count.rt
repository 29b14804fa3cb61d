//! Bits counted by words.

ghost use Rattle.std.specs.Prelude.{◌≡◌, ◌-◌, ◌*◌, ◌^◌, ◌<◌, ◌≤◌, count_by, count_ones, length, not};
ghost use Rattle.bit_addressing_memory.specs.Prelude.{Lies, digits, memory, piece, read_by};

use bit_addressing_memory::mem::bits_of;
use bit_addressing_memory::{
    BitEnd, BitIdx, BitOrder, BitRegister, COUNTED_BY_BLOCKS, Direction, Lsb0, between, edges_of,
    masked,
};
use bit_slice_paths::{read_bits, read_nth_chunk};

/// How many of the `len` bits from a place on are 1. Of no bits there are none.
///
/// Whole words are counted as words; the words at the two edges are masked. It answers as `count_ones` of a slice in
/// bitvec 1.1.1.
#[tactic(auto, using(crate::proofs::CountLemmas::trues_empty))]
pub fn count_ones_in<R: BitRegister, O: BitOrder<R>>(words: &[R], place: usize, len: usize) -> usize
    requires lies { Lies R.BITS words.now place len }
    ensures { result ≡ count_by (λ b. b) (piece (memory (read_by R.BitRegister O.position) words.now) place len) }
{
    if len == 0 {
        return 0;
    }
    let cut = edges_of::<R>(place, len);
    if cut.first == cut.last {
        return ones_of_part::<R, O>(words[cut.first], cut.from, cut.upto);
    }
    let head = ones_of_part::<R, O>(words[cut.first], cut.from, R::BITS);
    let body = ones_of_words::<R, O>(between(words, cut.first + 1, cut.last));
    let tail = ones_of_part::<R, O>(words[cut.last], 0, cut.upto);
    head + body + tail
}

/// How many of the `len` bits from a place on are 0. Of no bits there are none.
///
/// It answers as `count_zeros` of a slice in bitvec 1.1.1.
#[tactic(auto, using(crate::proofs::CountLemmas::falses_are))]
pub fn count_zeros_in<R: BitRegister, O: BitOrder<R>>(
    words: &[R],
    place: usize,
    len: usize,
) -> usize
    requires lies { Lies R.BITS words.now place len }
    ensures { result ≡ count_by (λ b. not b) (piece (memory (read_by R.BitRegister O.position) words.now) place len) }
{
    len - count_ones_in::<R, O>(words, place, len)
}

// How many digits of a word are 1.
fn ones_of<R: BitRegister>(word: R) -> usize
    ensures { result ≡ count_ones (R.number word) }
{
    word.value().count_ones() as usize
}

// How many bits of a part of a word are 1.
#[tactic(auto, using(crate::proofs::CountLemmas::ones_part))]
fn ones_of_part<R: BitRegister, O: BitOrder<R>>(word: R, from: u8, upto: u8) -> usize
    requires index { from < R.BITS }
    requires order { from ≤ upto }
    requires within { upto ≤ R.BITS }
    ensures { result ≡ count_by (λ b. b) (piece (digits (read_by R.BitRegister O.position) word) from (upto - from)) }
{
    ones_of(masked::<R, O>(
        word,
        BitIdx::new_unchecked(from),
        BitEnd::new_unchecked(upto),
    ))
}

// How many bits of whole words are 1: of many narrow words 64 bits at a time, in the order of `Lsb0`, as there are as many
// in any order.
#[tactic(auto, using(crate::proofs::CountLemmas::trues_all))]
fn ones_of_words<R: BitRegister, O: BitOrder<R>>(body: &[R]) -> usize
    requires { length body.now * R.BITS < 2 ^ 64 }
    ensures { result ≡ count_by (λ b. b) (memory (read_by R.BitRegister O.position) body.now) }
{
    if R::BITS < 64 && body.len() >= COUNTED_BY_BLOCKS {
        return ones_of_blocks::<R, Lsb0>(body, body.len() * bits_of::<R>());
    }
    ones_word_by_word::<R, O>(body)
}

// How many of the first `len` bits are 1, by blocks of 64.
#[tactic(auto, using(crate::proofs::CountLemmas::trues_empty))]
fn ones_of_blocks<R: BitRegister, O: BitOrder<R>>(words: &[R], len: usize) -> usize
    requires lies { Lies R.BITS words.now 0 len }
    ensures { result ≡ count_by (λ b. b) (piece (memory (read_by R.BitRegister O.position) words.now) 0 len) }
{
    let whole = len / 64;
    let rest = len % 64;
    let mut ones = 0;
    for k in 0..whole {
        let block = read_nth_chunk::<R, O>(Direction::Ascending, words, 0, k);
        ones += block.count_ones() as usize;
    }
    if rest > 0 {
        let block = read_bits::<R, O>(Direction::Ascending, words, 64 * whole, rest);
        ones += block.count_ones() as usize;
    }
    ones
}

// How many bits of whole words are 1, word by word.
#[tactic(auto, using(crate::proofs::CountLemmas::trues_empty, crate::proofs::CountLemmas::ones_more, crate::proofs::CountLemmas::trues_all))]
fn ones_word_by_word<R: BitRegister, O: BitOrder<R>>(body: &[R]) -> usize
    requires { length body.now * R.BITS < 2 ^ 64 }
    ensures { result ≡ count_by (λ b. b) (memory (read_by R.BitRegister O.position) body.now) }
{
    let mut ones = 0;
    for word in body {
        ones += ones_of(*word);
    }
    ones
}
