//! What is written of a window by the bits of another memory, for any words and order.

ghost use Rattle.std.specs.Prelude.{◌≡◌, ◌≢◌, ◌&&◌, ◌||◌};
ghost use Rattle.std.specs.Bool.{xor};
ghost use Rattle.std.specs.Simd.Lanes.{zip2};
ghost use Rattle.bit_addressing_memory.specs.Memory.{read_by};
ghost use Rattle.bits_c.specs.Outcomes.{Ranged};
ghost use Rattle.bits_c.specs.Windows.{Lies, Wrote, window};
ghost use Rattle.bits_c.specs.declared.status.TheConstants.{OK};

use crate::status::{OK, OUT_OF_RANGE};
use crate::windows::lies;
use bit_addressing_memory::{BitOrder, BitRegister};
use bit_slice_words::{and_in, copy_in, or_in, xor_in};

/// Copies bits of another memory over the window.
#[tactic(auto, using(crate::proofs::WroteLemmas::copied))]
pub(crate) fn copy_bits<T: BitRegister, O: BitOrder<T>>(
    words: &mut [T],
    start: usize,
    len: usize,
    other: &[T],
    other_start: usize,
) -> u32
    ensures status { Ranged result (Lies (read_by T.BitRegister O.position) words.old start len
        × Lies (read_by T.BitRegister O.position) other.now other_start len) }
    ensures done { result ≡ OK → Wrote (read_by T.BitRegister O.position) words.old words.new start
        (window (read_by T.BitRegister O.position) other.now other_start len) }
    ensures refused { result ≢ OK → words.new ≡ words.old }
{
    if !lies::<T, O>(words, start, len) || !lies::<T, O>(other, other_start, len) {
        return OUT_OF_RANGE;
    }
    copy_in::<T, O, T, O>(other, other_start, words, start, len);
    OK
}

/// Makes each bit what it and the other one are both.
#[tactic(auto, using(crate::proofs::WroteLemmas::and_done))]
pub(crate) fn and_bits<T: BitRegister, O: BitOrder<T>>(
    words: &mut [T],
    start: usize,
    len: usize,
    other: &[T],
    other_start: usize,
) -> u32
    ensures status { Ranged result (Lies (read_by T.BitRegister O.position) words.old start len
        × Lies (read_by T.BitRegister O.position) other.now other_start len) }
    ensures done { result ≡ OK → Wrote (read_by T.BitRegister O.position) words.old words.new start
        (zip2 (λ a b. a && b) (window (read_by T.BitRegister O.position) words.old start len)
        (window (read_by T.BitRegister O.position) other.now other_start len)) }
    ensures refused { result ≢ OK → words.new ≡ words.old }
{
    if !lies::<T, O>(words, start, len) || !lies::<T, O>(other, other_start, len) {
        return OUT_OF_RANGE;
    }
    and_in::<T, O, T, O>(words, start, other, other_start, len);
    OK
}

/// Makes each bit what it or the other one is.
#[tactic(auto, using(crate::proofs::WroteLemmas::or_done))]
pub(crate) fn or_bits<T: BitRegister, O: BitOrder<T>>(
    words: &mut [T],
    start: usize,
    len: usize,
    other: &[T],
    other_start: usize,
) -> u32
    ensures status { Ranged result (Lies (read_by T.BitRegister O.position) words.old start len
        × Lies (read_by T.BitRegister O.position) other.now other_start len) }
    ensures done { result ≡ OK → Wrote (read_by T.BitRegister O.position) words.old words.new start
        (zip2 (λ a b. a || b) (window (read_by T.BitRegister O.position) words.old start len)
        (window (read_by T.BitRegister O.position) other.now other_start len)) }
    ensures refused { result ≢ OK → words.new ≡ words.old }
{
    if !lies::<T, O>(words, start, len) || !lies::<T, O>(other, other_start, len) {
        return OUT_OF_RANGE;
    }
    or_in::<T, O, T, O>(words, start, other, other_start, len);
    OK
}

/// Makes each bit whether it and the other one differ.
#[tactic(auto, using(crate::proofs::WroteLemmas::xor_done))]
pub(crate) fn xor_bits<T: BitRegister, O: BitOrder<T>>(
    words: &mut [T],
    start: usize,
    len: usize,
    other: &[T],
    other_start: usize,
) -> u32
    ensures status { Ranged result (Lies (read_by T.BitRegister O.position) words.old start len
        × Lies (read_by T.BitRegister O.position) other.now other_start len) }
    ensures done { result ≡ OK → Wrote (read_by T.BitRegister O.position) words.old words.new start
        (zip2 xor (window (read_by T.BitRegister O.position) words.old start len)
        (window (read_by T.BitRegister O.position) other.now other_start len)) }
    ensures refused { result ≢ OK → words.new ≡ words.old }
{
    if !lies::<T, O>(words, start, len) || !lies::<T, O>(other, other_start, len) {
        return OUT_OF_RANGE;
    }
    xor_in::<T, O, T, O>(words, start, other, other_start, len);
    OK
}
