//! What is read of a window, for any words and order.

ghost use Rattle.std.specs.Prelude.{◌≡◌, ◌≢◌, Some, count_by, false, position, slice_index_or, true};
ghost use Rattle.std.specs.List.{list_all, list_any};
ghost use Rattle.bit_addressing_memory.specs.Memory.{memory, read_by};
ghost use Rattle.bit_slice_words.specs.Found.{is_bit, last_position};
ghost use Rattle.bits_c.specs.Outcomes.{Ranged, Sought, found_status};
ghost use Rattle.bits_c.specs.Windows.{Lies, bit_number, window};
ghost use Rattle.bits_c.specs.declared.status.TheConstants.{OK};

use crate::status::{NONE, OK, OUT_OF_RANGE};
use crate::windows::{lies, window_of};
use bit_addressing_memory::{BitOrder, BitRegister, read_entry};
use bit_slice_views::Bits;
use bit_slice_words::{first_in, last_in};

// A bit as C gets it.
pub(crate) fn number_of(bit: bool) -> u8
    ensures { result ≡ bit_number bit }
{
    if bit { 1 } else { 0 }
}

// The status of a search, whose answer is put where it goes.
fn told(found: Option<usize>, index: &mut usize) -> u32
    ensures status { result ≡ found_status found }
    ensures done { result ≡ OK → Some index.new ≡ found }
    ensures refused { result ≢ OK → index.new ≡ index.old }
{
    match found {
        Some(at) => {
            *index = at;
            OK
        }
        None => NONE,
    }
}

/// One bit.
#[tactic(auto, using(bit_addressing_memory::proofs::MemoryLemmas::entry_memory))]
pub(crate) fn get<T: BitRegister, O: BitOrder<T>>(words: &[T], index: usize, bit: &mut u8) -> u32
    ensures status { Ranged result (Lies (read_by T.BitRegister O.position) words.now index 1) }
    ensures done { result ≡ OK → bit.new
        ≡ bit_number (slice_index_or (memory (read_by T.BitRegister O.position) words.now) index false) }
    ensures refused { result ≢ OK → bit.new ≡ bit.old }
{
    if !lies::<T, O>(words, index, 1) {
        return OUT_OF_RANGE;
    }
    *bit = number_of(read_entry::<T, O>(words, index));
    OK
}

/// How many bits are 1.
pub(crate) fn count_ones<T: BitRegister, O: BitOrder<T>>(
    words: &[T],
    start: usize,
    len: usize,
    ones: &mut usize,
) -> u32
    ensures status { Ranged result (Lies (read_by T.BitRegister O.position) words.now start len) }
    ensures done { result ≡ OK → ones.new
        ≡ count_by (λ b. b) (window (read_by T.BitRegister O.position) words.now start len) }
    ensures refused { result ≢ OK → ones.new ≡ ones.old }
{
    let Some(view) = window_of::<T, O>(words, start, len) else {
        return OUT_OF_RANGE;
    };
    *ones = view.count_ones();
    OK
}

/// The index, from the window's start, of the first bit that is `bit`.
pub(crate) fn first<T: BitRegister, O: BitOrder<T>>(
    words: &[T],
    start: usize,
    len: usize,
    bit: bool,
    index: &mut usize,
) -> u32
    ensures status { Sought result (Lies (read_by T.BitRegister O.position) words.now start len)
        (position (is_bit bit) (window (read_by T.BitRegister O.position) words.now start len)) }
    ensures done { result ≡ OK → Some index.new
        ≡ position (is_bit bit) (window (read_by T.BitRegister O.position) words.now start len) }
    ensures refused { result ≢ OK → index.new ≡ index.old }
{
    if !lies::<T, O>(words, start, len) {
        return OUT_OF_RANGE;
    }
    told(first_in::<T, O>(words, start, len, bit), index)
}

/// The index, from the window's start, of the last bit that is `bit`.
pub(crate) fn last<T: BitRegister, O: BitOrder<T>>(
    words: &[T],
    start: usize,
    len: usize,
    bit: bool,
    index: &mut usize,
) -> u32
    ensures status { Sought result (Lies (read_by T.BitRegister O.position) words.now start len)
        (last_position (is_bit bit) (window (read_by T.BitRegister O.position) words.now start len)) }
    ensures done { result ≡ OK → Some index.new
        ≡ last_position (is_bit bit) (window (read_by T.BitRegister O.position) words.now start len) }
    ensures refused { result ≢ OK → index.new ≡ index.old }
{
    if !lies::<T, O>(words, start, len) {
        return OUT_OF_RANGE;
    }
    told(last_in::<T, O>(words, start, len, bit), index)
}

/// Whether a bit is 1.
pub(crate) fn any<T: BitRegister, O: BitOrder<T>>(
    words: &[T],
    start: usize,
    len: usize,
    answer: &mut u8,
) -> u32
    ensures status { Ranged result (Lies (read_by T.BitRegister O.position) words.now start len) }
    ensures done { result ≡ OK → answer.new
        ≡ bit_number (list_any (λ b. b) (window (read_by T.BitRegister O.position) words.now start len)) }
    ensures refused { result ≢ OK → answer.new ≡ answer.old }
{
    let Some(view) = window_of::<T, O>(words, start, len) else {
        return OUT_OF_RANGE;
    };
    *answer = number_of(view.any());
    OK
}

/// Whether each bit is 1.
pub(crate) fn all<T: BitRegister, O: BitOrder<T>>(
    words: &[T],
    start: usize,
    len: usize,
    answer: &mut u8,
) -> u32
    ensures status { Ranged result (Lies (read_by T.BitRegister O.position) words.now start len) }
    ensures done { result ≡ OK → answer.new
        ≡ bit_number (list_all (λ b. b) (window (read_by T.BitRegister O.position) words.now start len)) }
    ensures refused { result ≢ OK → answer.new ≡ answer.old }
{
    let Some(view) = window_of::<T, O>(words, start, len) else {
        return OUT_OF_RANGE;
    };
    *answer = number_of(view.all());
    OK
}
