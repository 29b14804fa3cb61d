//! What is changed in a window, for any words and order: the bits beside it stay.

ghost use Rattle.std.specs.Prelude.{◌≡◌, ◌≢◌, ◌+◌, ◌-◌, ◌≤◌, ◌++◌, [], ◌∷◌, drop, map, not, replicate, reverse, take};
ghost use Rattle.bit_addressing_memory.specs.Memory.{read_by};
ghost use Rattle.bits_c.specs.Outcomes.{Ranged};
ghost use Rattle.bits_c.specs.Windows.{Lies, Wrote, window};
ghost use Rattle.bits_c.specs.declared.status.TheConstants.{OK};

use crate::status::{OK, OUT_OF_RANGE};
use crate::windows::lies;
use bit_addressing_memory::{BitOrder, BitRegister, write_entry};
use bit_slice_words::{fill_in, move_words, not_in, reverse_in, rotate_left_in, rotate_right_in};

/// Makes one bit `bit`.
#[tactic(auto, using(crate::proofs::WroteLemmas::set))]
pub(crate) fn set<T: BitRegister, O: BitOrder<T>>(words: &mut [T], index: usize, bit: bool) -> u32
    ensures status { Ranged result (Lies (read_by T.BitRegister O.position) words.old index 1) }
    ensures done { result ≡ OK → Wrote (read_by T.BitRegister O.position) words.old words.new index (bit ∷ []) }
    ensures refused { result ≢ OK → words.new ≡ words.old }
{
    if !lies::<T, O>(words, index, 1) {
        return OUT_OF_RANGE;
    }
    write_entry::<T, O>(words, index, bit);
    OK
}

/// Makes each bit `bit`.
#[tactic(auto, using(crate::proofs::WroteLemmas::filled))]
pub(crate) fn fill<T: BitRegister, O: BitOrder<T>>(
    words: &mut [T],
    start: usize,
    len: usize,
    bit: bool,
) -> u32
    ensures status { Ranged result (Lies (read_by T.BitRegister O.position) words.old start len) }
    ensures done { result ≡ OK
        → Wrote (read_by T.BitRegister O.position) words.old words.new start (replicate len bit) }
    ensures refused { result ≢ OK → words.new ≡ words.old }
{
    if !lies::<T, O>(words, start, len) {
        return OUT_OF_RANGE;
    }
    fill_in::<T, O>(words, start, len, bit);
    OK
}

/// Flips each bit.
#[tactic(auto, using(crate::proofs::WroteLemmas::inverted))]
pub(crate) fn invert<T: BitRegister, O: BitOrder<T>>(
    words: &mut [T],
    start: usize,
    len: usize,
) -> u32
    ensures status { Ranged result (Lies (read_by T.BitRegister O.position) words.old start len) }
    ensures done { result ≡ OK → Wrote (read_by T.BitRegister O.position) words.old words.new start
        (map not (window (read_by T.BitRegister O.position) words.old start len)) }
    ensures refused { result ≢ OK → words.new ≡ words.old }
{
    if !lies::<T, O>(words, start, len) {
        return OUT_OF_RANGE;
    }
    not_in::<T, O>(words, start, len);
    OK
}

/// Turns the bits round.
#[tactic(auto, using(crate::proofs::WroteLemmas::reversed))]
pub(crate) fn reverse<T: BitRegister, O: BitOrder<T>>(
    words: &mut [T],
    start: usize,
    len: usize,
) -> u32
    ensures status { Ranged result (Lies (read_by T.BitRegister O.position) words.old start len) }
    ensures done { result ≡ OK → Wrote (read_by T.BitRegister O.position) words.old words.new start
        (reverse (window (read_by T.BitRegister O.position) words.old start len)) }
    ensures refused { result ≢ OK → words.new ≡ words.old }
{
    if !lies::<T, O>(words, start, len) {
        return OUT_OF_RANGE;
    }
    reverse_in::<T, O>(words, start, len);
    OK
}

/// Moves each bit `by` places towards the first one; the first `by` become the last.
#[tactic(auto, using(crate::proofs::WroteLemmas::rotated_left))]
pub(crate) fn rotate_left<T: BitRegister, O: BitOrder<T>>(
    words: &mut [T],
    start: usize,
    len: usize,
    by: usize,
) -> u32
    ensures status { Ranged result (Lies (read_by T.BitRegister O.position) words.old start len × (by ≤ len)) }
    ensures done { result ≡ OK → Wrote (read_by T.BitRegister O.position) words.old words.new start
        (drop by (window (read_by T.BitRegister O.position) words.old start len)
        ++ take by (window (read_by T.BitRegister O.position) words.old start len)) }
    ensures refused { result ≢ OK → words.new ≡ words.old }
{
    if !lies::<T, O>(words, start, len) || by > len {
        return OUT_OF_RANGE;
    }
    rotate_left_in::<T, O>(words, start, len, by);
    OK
}

/// Moves each bit `by` places towards the last one; the last `by` become the first.
#[tactic(auto, using(crate::proofs::WroteLemmas::rotated_right))]
pub(crate) fn rotate_right<T: BitRegister, O: BitOrder<T>>(
    words: &mut [T],
    start: usize,
    len: usize,
    by: usize,
) -> u32
    ensures status { Ranged result (Lies (read_by T.BitRegister O.position) words.old start len × (by ≤ len)) }
    ensures done { result ≡ OK → Wrote (read_by T.BitRegister O.position) words.old words.new start
        (drop (len - by) (window (read_by T.BitRegister O.position) words.old start len)
        ++ take (len - by) (window (read_by T.BitRegister O.position) words.old start len)) }
    ensures refused { result ≢ OK → words.new ≡ words.old }
{
    if !lies::<T, O>(words, start, len) || by > len {
        return OUT_OF_RANGE;
    }
    rotate_right_in::<T, O>(words, start, len, by);
    OK
}

/// Copies the `len` bits from `from` on to the places from `to` on, overlap allowed.
#[tactic(auto, using(crate::proofs::WroteLemmas::moved))]
pub(crate) fn move_bits<T: BitRegister, O: BitOrder<T>>(
    words: &mut [T],
    from: usize,
    to: usize,
    len: usize,
) -> u32
    ensures status { Ranged result (Lies (read_by T.BitRegister O.position) words.old from len
        × Lies (read_by T.BitRegister O.position) words.old to len) }
    ensures done { result ≡ OK → Wrote (read_by T.BitRegister O.position) words.old words.new to
        (window (read_by T.BitRegister O.position) words.old from len) }
    ensures refused { result ≢ OK → words.new ≡ words.old }
{
    if !lies::<T, O>(words, from, len) || !lies::<T, O>(words, to, len) {
        return OUT_OF_RANGE;
    }
    move_words::<T, O>(words, from, to, len);
    OK
}
