//! Words of `u64`, which begin with the highest digit.
//!
//! exports.py wrote this file.

ghost use Rattle.std.specs.Prelude.{◌≡◌, ◌≢◌, ◌-◌, ◌≤◌, ◌++◌, ◌&&◌, ◌||◌, [], ◌∷◌, Some, false, pos, true};
ghost use Rattle.std.specs.Prelude.{count_by, drop, map, not, position, replicate, reverse, slice_index_or, take};
ghost use Rattle.std.specs.Bool.{xor};
ghost use Rattle.std.specs.Cmp.Lexicographic.{slice_cmp};
ghost use Rattle.std.specs.List.{list_all, list_any};
ghost use Rattle.std.specs.Ordering.{bool_cmp};
ghost use Rattle.std.specs.Simd.Lanes.{zip2};
ghost use Rattle.bit_addressing_memory.specs.Memory.{memory};
ghost use Rattle.bit_slice_fields.specs.Whole.{FitsIn};
ghost use Rattle.bit_slice_words.specs.Found.{is_bit, last_position};
ghost use Rattle.bits_c.specs.Outcomes.{Numbered, Ranged, Sought};
ghost use Rattle.bits_c.specs.Windows.{Lies, Tells, Wrote, bit_number, msb0, number_bits, order_number, window};
ghost use Rattle.bits_c.specs.declared.status.TheConstants.{OK};

use crate::{changes, combines, compares, numbers, reads};
use bit_addressing_memory::Msb0;

/// Bit `index`, as 0 or 1.
#[unsafe(no_mangle)]
pub extern "C" fn bits_u64_msb0_get(words: &[u64], index: usize, bit: &mut u8) -> u32
    ensures status { Ranged result (Lies (msb0 64) words.now index 1) }
    ensures done { result ≡ OK → bit.new ≡ bit_number (slice_index_or (memory (msb0 64) words.now) index false) }
    ensures refused { result ≢ OK → bit.new ≡ bit.old }
{
    reads::get::<u64, Msb0>(words, index, bit)
}

/// How many of `len` bits from `start` on are 1.
#[unsafe(no_mangle)]
pub extern "C" fn bits_u64_msb0_count_ones(
    words: &[u64],
    start: usize,
    len: usize,
    ones: &mut usize,
) -> u32
    ensures status { Ranged result (Lies (msb0 64) words.now start len) }
    ensures done { result ≡ OK → ones.new ≡ count_by (λ b. b) (window (msb0 64) words.now start len) }
    ensures refused { result ≢ OK → ones.new ≡ ones.old }
{
    reads::count_ones::<u64, Msb0>(words, start, len, ones)
}

/// The index of the first bit that is 1, from the window's start.
#[unsafe(no_mangle)]
pub extern "C" fn bits_u64_msb0_first_one(
    words: &[u64],
    start: usize,
    len: usize,
    index: &mut usize,
) -> u32
    ensures status { Sought result (Lies (msb0 64) words.now start len)
        (position (is_bit true) (window (msb0 64) words.now start len)) }
    ensures done { result ≡ OK → Some index.new ≡ position (is_bit true) (window (msb0 64) words.now start len) }
    ensures refused { result ≢ OK → index.new ≡ index.old }
{
    reads::first::<u64, Msb0>(words, start, len, true, index)
}

/// The index of the last bit that is 1, from the window's start.
#[unsafe(no_mangle)]
pub extern "C" fn bits_u64_msb0_last_one(
    words: &[u64],
    start: usize,
    len: usize,
    index: &mut usize,
) -> u32
    ensures status { Sought result (Lies (msb0 64) words.now start len)
        (last_position (is_bit true) (window (msb0 64) words.now start len)) }
    ensures done { result ≡ OK → Some index.new ≡ last_position (is_bit true) (window (msb0 64) words.now start len) }
    ensures refused { result ≢ OK → index.new ≡ index.old }
{
    reads::last::<u64, Msb0>(words, start, len, true, index)
}

/// The index of the first bit that is 0, from the window's start.
#[unsafe(no_mangle)]
pub extern "C" fn bits_u64_msb0_first_zero(
    words: &[u64],
    start: usize,
    len: usize,
    index: &mut usize,
) -> u32
    ensures status { Sought result (Lies (msb0 64) words.now start len)
        (position (is_bit false) (window (msb0 64) words.now start len)) }
    ensures done { result ≡ OK → Some index.new ≡ position (is_bit false) (window (msb0 64) words.now start len) }
    ensures refused { result ≢ OK → index.new ≡ index.old }
{
    reads::first::<u64, Msb0>(words, start, len, false, index)
}

/// The index of the last bit that is 0, from the window's start.
#[unsafe(no_mangle)]
pub extern "C" fn bits_u64_msb0_last_zero(
    words: &[u64],
    start: usize,
    len: usize,
    index: &mut usize,
) -> u32
    ensures status { Sought result (Lies (msb0 64) words.now start len)
        (last_position (is_bit false) (window (msb0 64) words.now start len)) }
    ensures done { result ≡ OK → Some index.new ≡ last_position (is_bit false) (window (msb0 64) words.now start len) }
    ensures refused { result ≢ OK → index.new ≡ index.old }
{
    reads::last::<u64, Msb0>(words, start, len, false, index)
}

/// Whether a bit is 1, as 0 or 1: of no bits none is.
#[unsafe(no_mangle)]
pub extern "C" fn bits_u64_msb0_any(words: &[u64], start: usize, len: usize, answer: &mut u8) -> u32
    ensures status { Ranged result (Lies (msb0 64) words.now start len) }
    ensures done { result ≡ OK → answer.new ≡ bit_number (list_any (λ b. b) (window (msb0 64) words.now start len)) }
    ensures refused { result ≢ OK → answer.new ≡ answer.old }
{
    reads::any::<u64, Msb0>(words, start, len, answer)
}

/// Whether each bit is 1, as 0 or 1: of no bits each is.
#[unsafe(no_mangle)]
pub extern "C" fn bits_u64_msb0_all(words: &[u64], start: usize, len: usize, answer: &mut u8) -> u32
    ensures status { Ranged result (Lies (msb0 64) words.now start len) }
    ensures done { result ≡ OK → answer.new ≡ bit_number (list_all (λ b. b) (window (msb0 64) words.now start len)) }
    ensures refused { result ≢ OK → answer.new ≡ answer.old }
{
    reads::all::<u64, Msb0>(words, start, len, answer)
}

/// Whether two windows are the same list of bits, as 0 or 1.
#[unsafe(no_mangle)]
pub extern "C" fn bits_u64_msb0_equal(
    words: &[u64],
    start: usize,
    len: usize,
    other: &[u64],
    other_start: usize,
    other_len: usize,
    answer: &mut u8,
) -> u32
    ensures status { Ranged result (Lies (msb0 64) words.now start len
        × Lies (msb0 64) other.now other_start other_len) }
    ensures done { result ≡ OK → Tells answer.new (window (msb0 64) words.now start len
        ≡ window (msb0 64) other.now other_start other_len) }
    ensures refused { result ≢ OK → answer.new ≡ answer.old }
{
    compares::equal::<u64, Msb0>(words, start, len, other, other_start, other_len, answer)
}

/// How two windows compare as lists, 0 before 1 and a beginning before the whole: -1, 0 or 1.
#[unsafe(no_mangle)]
pub extern "C" fn bits_u64_msb0_compare(
    words: &[u64],
    start: usize,
    len: usize,
    other: &[u64],
    other_start: usize,
    other_len: usize,
    order: &mut i32,
) -> u32
    ensures status { Ranged result (Lies (msb0 64) words.now start len
        × Lies (msb0 64) other.now other_start other_len) }
    ensures done { result ≡ OK → order.new ≡ order_number (slice_cmp bool_cmp
        (window (msb0 64) words.now start len) (window (msb0 64) other.now other_start other_len)) }
    ensures refused { result ≢ OK → order.new ≡ order.old }
{
    compares::compare::<u64, Msb0>(words, start, len, other, other_start, other_len, order)
}

/// The number in 1 to 64 bits, the first of them highest.
#[unsafe(no_mangle)]
pub extern "C" fn bits_u64_msb0_load(
    words: &[u64],
    start: usize,
    len: usize,
    value: &mut u64,
) -> u32
    ensures status { Numbered result 64 len (Lies (msb0 64) words.now start len) }
    ensures done { result ≡ OK → window (msb0 64) words.now start len ≡ number_bits false len (pos value.new) }
    ensures within { result ≡ OK → FitsIn false len (pos value.new) }
    ensures refused { result ≢ OK → value.new ≡ value.old }
{
    numbers::load::<u64, Msb0, u64>(words, start, len, value)
}

/// The number in 1 to 64 bits in two's complement, the first of them highest.
#[unsafe(no_mangle)]
pub extern "C" fn bits_u64_msb0_load_signed(
    words: &[u64],
    start: usize,
    len: usize,
    value: &mut i64,
) -> u32
    ensures status { Numbered result 64 len (Lies (msb0 64) words.now start len) }
    ensures done { result ≡ OK → window (msb0 64) words.now start len ≡ number_bits false len value.new }
    ensures within { result ≡ OK → FitsIn true len value.new }
    ensures refused { result ≢ OK → value.new ≡ value.old }
{
    numbers::load::<u64, Msb0, i64>(words, start, len, value)
}

/// Makes bit `index` `bit`.
#[unsafe(no_mangle)]
pub extern "C" fn bits_u64_msb0_set(words: &mut [u64], index: usize, bit: bool) -> u32
    ensures status { Ranged result (Lies (msb0 64) words.old index 1) }
    ensures done { result ≡ OK → Wrote (msb0 64) words.old words.new index (bit ∷ []) }
    ensures refused { result ≢ OK → words.new ≡ words.old }
{
    changes::set::<u64, Msb0>(words, index, bit)
}

/// Makes each bit `bit`.
#[unsafe(no_mangle)]
pub extern "C" fn bits_u64_msb0_fill(words: &mut [u64], start: usize, len: usize, bit: bool) -> u32
    ensures status { Ranged result (Lies (msb0 64) words.old start len) }
    ensures done { result ≡ OK → Wrote (msb0 64) words.old words.new start (replicate len bit) }
    ensures refused { result ≢ OK → words.new ≡ words.old }
{
    changes::fill::<u64, Msb0>(words, start, len, bit)
}

/// Flips each bit.
#[unsafe(no_mangle)]
pub extern "C" fn bits_u64_msb0_not(words: &mut [u64], start: usize, len: usize) -> u32
    ensures status { Ranged result (Lies (msb0 64) words.old start len) }
    ensures done { result ≡ OK → Wrote (msb0 64) words.old words.new start
        (map not (window (msb0 64) words.old start len)) }
    ensures refused { result ≢ OK → words.new ≡ words.old }
{
    changes::invert::<u64, Msb0>(words, start, len)
}

/// Turns the bits round: the last becomes the first.
#[unsafe(no_mangle)]
pub extern "C" fn bits_u64_msb0_reverse(words: &mut [u64], start: usize, len: usize) -> u32
    ensures status { Ranged result (Lies (msb0 64) words.old start len) }
    ensures done { result ≡ OK → Wrote (msb0 64) words.old words.new start
        (reverse (window (msb0 64) words.old start len)) }
    ensures refused { result ≢ OK → words.new ≡ words.old }
{
    changes::reverse::<u64, Msb0>(words, start, len)
}

/// Moves each bit `by` places towards the first one, `len` at most; the first `by` become the last.
#[unsafe(no_mangle)]
pub extern "C" fn bits_u64_msb0_rotate_left(
    words: &mut [u64],
    start: usize,
    len: usize,
    by: usize,
) -> u32
    ensures status { Ranged result (Lies (msb0 64) words.old start len × (by ≤ len)) }
    ensures done { result ≡ OK → Wrote (msb0 64) words.old words.new start
        (drop by (window (msb0 64) words.old start len) ++ take by (window (msb0 64) words.old start len)) }
    ensures refused { result ≢ OK → words.new ≡ words.old }
{
    changes::rotate_left::<u64, Msb0>(words, start, len, by)
}

/// Moves each bit `by` places towards the last one, `len` at most; the last `by` become the first.
#[unsafe(no_mangle)]
pub extern "C" fn bits_u64_msb0_rotate_right(
    words: &mut [u64],
    start: usize,
    len: usize,
    by: usize,
) -> u32
    ensures status { Ranged result (Lies (msb0 64) words.old start len × (by ≤ len)) }
    ensures done { result ≡ OK → Wrote (msb0 64) words.old words.new start
        (drop (len - by) (window (msb0 64) words.old start len)
        ++ take (len - by) (window (msb0 64) words.old start len)) }
    ensures refused { result ≢ OK → words.new ≡ words.old }
{
    changes::rotate_right::<u64, Msb0>(words, start, len, by)
}

/// Copies the `len` bits from `from` on to the places from `to` on, overlap allowed.
#[unsafe(no_mangle)]
pub extern "C" fn bits_u64_msb0_move(words: &mut [u64], from: usize, to: usize, len: usize) -> u32
    ensures status { Ranged result (Lies (msb0 64) words.old from len × Lies (msb0 64) words.old to len) }
    ensures done { result ≡ OK → Wrote (msb0 64) words.old words.new to (window (msb0 64) words.old from len) }
    ensures refused { result ≢ OK → words.new ≡ words.old }
{
    changes::move_bits::<u64, Msb0>(words, from, to, len)
}

/// Stores the lowest `len` digits of a number in 1 to 64 bits, the first of them highest.
#[unsafe(no_mangle)]
pub extern "C" fn bits_u64_msb0_store(
    words: &mut [u64],
    start: usize,
    len: usize,
    value: u64,
) -> u32
    ensures status { Numbered result 64 len (Lies (msb0 64) words.old start len) }
    ensures done { result ≡ OK → Wrote (msb0 64) words.old words.new start (number_bits false len (pos value)) }
    ensures refused { result ≢ OK → words.new ≡ words.old }
{
    numbers::store::<u64, Msb0, u64>(words, start, len, value)
}

/// Stores the lowest `len` digits of a number in two's complement in 1 to 64 bits, the first of them highest.
#[unsafe(no_mangle)]
pub extern "C" fn bits_u64_msb0_store_signed(
    words: &mut [u64],
    start: usize,
    len: usize,
    value: i64,
) -> u32
    ensures status { Numbered result 64 len (Lies (msb0 64) words.old start len) }
    ensures done { result ≡ OK → Wrote (msb0 64) words.old words.new start (number_bits false len value) }
    ensures refused { result ≢ OK → words.new ≡ words.old }
{
    numbers::store::<u64, Msb0, i64>(words, start, len, value)
}

/// Makes the bits those of another memory from `other_start` on.
#[unsafe(no_mangle)]
pub extern "C" fn bits_u64_msb0_copy(
    words: &mut [u64],
    start: usize,
    len: usize,
    other: &[u64],
    other_start: usize,
) -> u32
    ensures status { Ranged result (Lies (msb0 64) words.old start len × Lies (msb0 64) other.now other_start len) }
    ensures done { result ≡ OK → Wrote (msb0 64) words.old words.new start
        (window (msb0 64) other.now other_start len) }
    ensures refused { result ≢ OK → words.new ≡ words.old }
{
    combines::copy_bits::<u64, Msb0>(words, start, len, other, other_start)
}

/// Makes each bit what it and the other one are both.
#[unsafe(no_mangle)]
pub extern "C" fn bits_u64_msb0_and(
    words: &mut [u64],
    start: usize,
    len: usize,
    other: &[u64],
    other_start: usize,
) -> u32
    ensures status { Ranged result (Lies (msb0 64) words.old start len × Lies (msb0 64) other.now other_start len) }
    ensures done { result ≡ OK → Wrote (msb0 64) words.old words.new start
        (zip2 (λ a b. a && b) (window (msb0 64) words.old start len)
        (window (msb0 64) other.now other_start len)) }
    ensures refused { result ≢ OK → words.new ≡ words.old }
{
    combines::and_bits::<u64, Msb0>(words, start, len, other, other_start)
}

/// Makes each bit what it or the other one is.
#[unsafe(no_mangle)]
pub extern "C" fn bits_u64_msb0_or(
    words: &mut [u64],
    start: usize,
    len: usize,
    other: &[u64],
    other_start: usize,
) -> u32
    ensures status { Ranged result (Lies (msb0 64) words.old start len × Lies (msb0 64) other.now other_start len) }
    ensures done { result ≡ OK → Wrote (msb0 64) words.old words.new start
        (zip2 (λ a b. a || b) (window (msb0 64) words.old start len)
        (window (msb0 64) other.now other_start len)) }
    ensures refused { result ≢ OK → words.new ≡ words.old }
{
    combines::or_bits::<u64, Msb0>(words, start, len, other, other_start)
}

/// Makes each bit whether it and the other one differ.
#[unsafe(no_mangle)]
pub extern "C" fn bits_u64_msb0_xor(
    words: &mut [u64],
    start: usize,
    len: usize,
    other: &[u64],
    other_start: usize,
) -> u32
    ensures status { Ranged result (Lies (msb0 64) words.old start len × Lies (msb0 64) other.now other_start len) }
    ensures done { result ≡ OK → Wrote (msb0 64) words.old words.new start
        (zip2 xor (window (msb0 64) words.old start len)
        (window (msb0 64) other.now other_start len)) }
    ensures refused { result ≢ OK → words.new ≡ words.old }
{
    combines::xor_bits::<u64, Msb0>(words, start, len, other, other_start)
}
