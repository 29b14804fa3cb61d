//! Each bit of a stretch combined with one and the same bit: whole words at a time, with masks at both edges alone.

ghost use Rattle.std.specs.Prelude.{◌≡◌, ℕ, ◌+◌, ◌-◌, ◌*◌, ◌<◌, ◌≤◌, length};
ghost use Rattle.bit_addressing_memory.specs.Prelude.{Lies, indexed, read_by, touched};
ghost use Rattle.bit_slice_paths.specs.Combined.{combined_bit};
ghost use Rattle.bit_slice_words.specs.Edits.{Changes};

use bit_addressing_memory::{
    BitEnd, BitIdx, BitOrder, BitRegister, each_digit, edges_of, no_digits, store_in,
};
use bit_slice_paths::combining::Combining;
use bit_slice_paths::merge::{merge_words, merged};
use bit_slice_paths::word_source::Constant;

// The word with each bit combined with `bit`.
#[inline(always)]
fn combined_word<H: Combining, R: BitRegister, O: BitOrder<R>>(word: R, bit: bool) -> R
    ensures { (i : ℕ) → i < R.BITS → indexed R.number O.position result i
        ≡ combined_bit H.HOW (indexed R.number O.position word i) bit }
{
    if bit {
        merged::<H, R>(word, each_digit::<R, O>())
    } else {
        merged::<H, R>(word, no_digits::<R, O>())
    }
}

// Combines each bit of a part of one word with `bit`.
#[inline(always)]
fn change_part<H: Combining, R: BitRegister, O: BitOrder<R>>(
    words: &mut [R],
    at: usize,
    from: u8,
    upto: u8,
    bit: bool,
)
    requires inside { at < length words.old }
    requires index { from < R.BITS }
    requires order { from ≤ upto }
    requires within { upto ≤ R.BITS }
    ensures { Changes (read_by R.BitRegister O.position) words.old words.new (at * R.BITS + from) (upto - from)
        (λ b. combined_bit H.HOW b bit) }
{
    let head = BitIdx::new_unchecked(from);
    let tail = BitEnd::new_unchecked(upto);
    let value = combined_word::<H, R, O>(words[at], bit);
    store_in::<R, O>(words, at, value, head, tail);
}

// Combines each bit of whole words with `bit`, and returns how many words.
#[inline(always)]
fn change_whole<H: Combining, R: BitRegister, O: BitOrder<R>>(
    words: &mut [R],
    from: usize,
    upto: usize,
    bit: bool,
) -> usize
    requires order { from ≤ upto }
    requires within { upto ≤ length words.old }
    ensures changed { Changes (read_by R.BitRegister O.position) words.old words.new
        (from * R.BITS) ((upto - from) * R.BITS) (λ b. combined_bit H.HOW b bit) }
    ensures writes { result ≡ upto - from }
{
    let count = upto - from;
    // A loop for each bit: where the word that it puts is known, a compiler calls `memset`.
    if bit {
        let ones = Constant { bit: true, count };
        merge_words::<H, R, O, Constant>(words, from, &ones, count);
    } else {
        let zeros = Constant { bit: false, count };
        merge_words::<H, R, O, Constant>(words, from, &zeros, count);
    }
    count
}

/// Combines each of `len` bits of a memory, those from `place` on, with `bit`, and returns how many words it wrote. Every
/// other bit of the memory stays.
pub(crate) fn change_in<H: Combining, R: BitRegister, O: BitOrder<R>>(
    words: &mut [R],
    place: usize,
    len: usize,
    bit: bool,
) -> usize
    requires lies { Lies R.BITS words.old place len }
    ensures changed { Changes (read_by R.BitRegister O.position) words.old words.new place len
        (λ b. combined_bit H.HOW b bit) }
    ensures writes { result ≡ touched R.BITS place len }
{
    if len == 0 {
        return 0;
    }
    let cut = edges_of::<R>(place, len);
    if cut.first == cut.last {
        change_part::<H, R, O>(words, cut.first, cut.from, cut.upto, bit);
        return 1;
    }
    change_part::<H, R, O>(words, cut.first, cut.from, R::BITS, bit);
    let whole = change_whole::<H, R, O>(words, cut.first + 1, cut.last, bit);
    change_part::<H, R, O>(words, cut.last, 0, cut.upto, bit);
    1 + whole + 1
}
