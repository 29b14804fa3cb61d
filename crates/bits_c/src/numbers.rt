//! Whole numbers in windows, for any words and both orders that number a word's bits in turn.

ghost use Rattle.std.specs.Prelude.{◌≡◌, ◌≢◌, ◌<◌, ◌≤◌, ◌↔◌, IsTrue, false, length, true};
ghost use Rattle.bit_addressing_memory.specs.Memory.{read_by};
ghost use Rattle.bit_slice_fields.specs.Whole.{FitsIn};
ghost use Rattle.bit_slice_views.specs.View.{view_bits};
ghost use Rattle.bits_c.specs.Outcomes.{IsWidth, Numbered};
ghost use Rattle.bits_c.specs.Windows.{Lies, Wrote, number_bits, window};
ghost use Rattle.bits_c.specs.declared.status.TheConstants.{OK};

use crate::status::{BAD_WIDTH, OK, OUT_OF_RANGE};
use crate::windows::{lies, window_of};
use bit_addressing_memory::BitRegister;
use bit_slice_fields::{BitField, BitFieldMut, FieldOrder, Integral};
use bit_slice_views::BitSlice;
use bit_slice_views_mut::BitSliceMut;

// Whether a number of this type can have so many bits.
fn is_width<M: Integral>(len: usize) -> bool
    ensures { IsTrue result ↔ IsWidth M.BITS len }
{
    0 < len && len <= M::BITS as usize
}

/// The number that a window holds, of up to as many bits as its type has.
pub(crate) fn load<T: BitRegister, O: FieldOrder<T>, M: Integral>(
    words: &[T],
    start: usize,
    len: usize,
    value: &mut M,
) -> u32
    ensures status { Numbered result M.BITS len (Lies (read_by T.BitRegister O.position) words.now start len) }
    ensures done { result ≡ OK → window (read_by T.BitRegister O.position) words.now start len
        ≡ number_bits O.LOW_FIRST len (M.whole value.new) }
    ensures within { result ≡ OK → FitsIn M.signed len (M.whole value.new) }
    ensures refused { result ≢ OK → value.new ≡ value.old }
{
    if !is_width::<M>(len) {
        return BAD_WIDTH;
    }
    let Some(view) = window_of::<T, O>(words, start, len) else {
        return OUT_OF_RANGE;
    };
    *value = loaded::<T, O, M>(view);
    OK
}

// The number that a window holds, its first bit lowest or highest as in a word.
#[tactic(auto, using(crate::proofs::NumberLemmas::lowest_first, crate::proofs::NumberLemmas::highest_first))]
fn loaded<T: BitRegister, O: FieldOrder<T>, M: Integral>(view: BitSlice<'_, T, O>) -> M
    requires some { 0 < length (view_bits (read_by T.BitRegister O.position) view) }
    requires room { length (view_bits (read_by T.BitRegister O.position) view) ≤ M.BITS }
    ensures bits { view_bits (read_by T.BitRegister O.position) view.entry
        ≡ number_bits O.LOW_FIRST (length (view_bits (read_by T.BitRegister O.position) view.entry)) (M.whole result) }
    ensures within { FitsIn M.signed (length (view_bits (read_by T.BitRegister O.position) view.entry)) (M.whole result) }
{
    if O::LOW_FIRST {
        view.load_le()
    } else {
        view.load_be()
    }
}

/// Stores the lowest `len` digits of a number in a window.
pub(crate) fn store<T: BitRegister, O: FieldOrder<T>, M: Integral>(
    words: &mut [T],
    start: usize,
    len: usize,
    value: M,
) -> u32
    ensures status { Numbered result M.BITS len (Lies (read_by T.BitRegister O.position) words.old start len) }
    ensures done { result ≡ OK → Wrote (read_by T.BitRegister O.position) words.old words.new start
        (number_bits O.LOW_FIRST len (M.whole value)) }
    ensures refused { result ≢ OK → words.new ≡ words.old }
{
    if !is_width::<M>(len) {
        return BAD_WIDTH;
    }
    if !lies::<T, O>(words, start, len) {
        return OUT_OF_RANGE;
    }
    put::<T, O, M>(words, start, len, value);
    OK
}

// The same, in a window that lies in the words.
fn put<T: BitRegister, O: FieldOrder<T>, M: Integral>(
    words: &mut [T],
    start: usize,
    len: usize,
    value: M,
)
    requires some { 0 < len }
    requires room { len ≤ M.BITS }
    requires lies { Lies (read_by T.BitRegister O.position) words.old start len }
    ensures { Wrote (read_by T.BitRegister O.position) words.old words.new start
        (number_bits O.LOW_FIRST len (M.whole value)) }
{
    if O::LOW_FIRST {
        put_lowest_first::<T, O, M>(words, start, len, value);
    } else {
        put_highest_first::<T, O, M>(words, start, len, value);
    }
}

// The same under an order whose words begin with the lowest digit.
fn put_lowest_first<T: BitRegister, O: FieldOrder<T>, M: Integral>(
    words: &mut [T],
    start: usize,
    len: usize,
    value: M,
)
    requires low { O.LOW_FIRST ≡ true }
    requires some { 0 < len }
    requires room { len ≤ M.BITS }
    requires lies { Lies (read_by T.BitRegister O.position) words.old start len }
    ensures { Wrote (read_by T.BitRegister O.position) words.old words.new start
        (number_bits O.LOW_FIRST len (M.whole value)) }
{
    let mut view = BitSliceMut::<T, O>::from_place_mut(words, start, len);
    view.store_le(value);
}

// The same under an order whose words begin with the highest digit.
fn put_highest_first<T: BitRegister, O: FieldOrder<T>, M: Integral>(
    words: &mut [T],
    start: usize,
    len: usize,
    value: M,
)
    requires high { O.LOW_FIRST ≡ false }
    requires some { 0 < len }
    requires room { len ≤ M.BITS }
    requires lies { Lies (read_by T.BitRegister O.position) words.old start len }
    ensures { Wrote (read_by T.BitRegister O.position) words.old words.new start
        (number_bits O.LOW_FIRST len (M.whole value)) }
{
    let mut view = BitSliceMut::<T, O>::from_place_mut(words, start, len);
    view.store_be(value);
}
