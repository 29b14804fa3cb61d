//! Two windows compared as lists of bits, for any words and order.

ghost use Rattle.std.specs.Prelude.{◌≡◌, ◌≢◌, ◌↔◌, IsTrue};
ghost use Rattle.std.specs.Cmp.Lexicographic.{slice_cmp};
ghost use Rattle.std.specs.Ordering.{bool_cmp};
ghost use Rattle.bit_addressing_memory.specs.Memory.{read_by};
ghost use Rattle.bit_slice_views.specs.View.{view_bits};
ghost use Rattle.bits_c.specs.Outcomes.{Ranged};
ghost use Rattle.bits_c.specs.Windows.{Lies, order_number, window, Tells};
ghost use Rattle.bits_c.specs.declared.status.TheConstants.{OK};

use crate::reads::number_of;
use crate::status::{OK, OUT_OF_RANGE};
use crate::windows::window_of;
use bit_addressing_memory::{BitOrder, BitRegister, COMPARED_BY_PATHS};
use bit_slice_views::{BitSlice, Bits};
use bit_slice_words::WordPaths;
use std::cmp::Ordering;

// How two lists compare, as C gets it.
fn number_of_order(order: Ordering) -> i32
    ensures { result ≡ order_number order }
{
    match order {
        Ordering::Less => -1,
        Ordering::Equal => 0,
        Ordering::Greater => 1,
    }
}

// Whether two windows are the same list.
#[tactic(auto, using(crate::proofs::NumberLemmas::same_lists))]
fn is_same<T: BitRegister, O: WordPaths<T>>(
    view: BitSlice<'_, T, O>,
    others: BitSlice<'_, T, O>,
) -> bool
    ensures { IsTrue result ↔ (view_bits (read_by T.BitRegister O.position) view.entry
        ≡ view_bits (read_by T.BitRegister O.position) others.entry) }
{
    if view.len() > COMPARED_BY_PATHS {
        return view.eq_bits(&others);
    }
    view == others
}

/// Whether two windows are the same list.
#[tactic(auto, using(crate::proofs::NumberLemmas::told))]
pub(crate) fn equal<T: BitRegister, O: WordPaths<T>>(
    words: &[T],
    start: usize,
    len: usize,
    other: &[T],
    other_start: usize,
    other_len: usize,
    answer: &mut u8,
) -> u32
    ensures status { Ranged result (Lies (read_by T.BitRegister O.position) words.now start len
        × Lies (read_by T.BitRegister O.position) other.now other_start other_len) }
    ensures done { result ≡ OK → Tells answer.new (window (read_by T.BitRegister O.position) words.now start len
        ≡ window (read_by T.BitRegister O.position) other.now other_start other_len) }
    ensures refused { result ≢ OK → answer.new ≡ answer.old }
{
    let Some(view) = window_of::<T, O>(words, start, len) else {
        return OUT_OF_RANGE;
    };
    let Some(others) = window_of::<T, O>(other, other_start, other_len) else {
        return OUT_OF_RANGE;
    };
    *answer = number_of(is_same(view, others));
    OK
}

/// How two windows compare as lists.
pub(crate) fn compare<T: BitRegister, O: BitOrder<T>>(
    words: &[T],
    start: usize,
    len: usize,
    other: &[T],
    other_start: usize,
    other_len: usize,
    order: &mut i32,
) -> u32
    ensures status { Ranged result (Lies (read_by T.BitRegister O.position) words.now start len
        × Lies (read_by T.BitRegister O.position) other.now other_start other_len) }
    ensures done { result ≡ OK → order.new ≡ order_number (slice_cmp bool_cmp
        (window (read_by T.BitRegister O.position) words.now start len)
        (window (read_by T.BitRegister O.position) other.now other_start other_len)) }
    ensures refused { result ≢ OK → order.new ≡ order.old }
{
    let Some(view) = window_of::<T, O>(words, start, len) else {
        return OUT_OF_RANGE;
    };
    let Some(others) = window_of::<T, O>(other, other_start, other_len) else {
        return OUT_OF_RANGE;
    };
    *order = number_of_order(view.cmp_bits(&others));
    OK
}
