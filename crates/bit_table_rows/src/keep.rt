//! Rows kept by one sweep, the others left out.
//!
//! The kept rows' bits are gathered into words one after another, and each word is put once, when it is full or when
//! all rows are there. Rows that stay one behind the other move as one, as many bits at a time as fit into the word at
//! hand; a few bits go one by one. Where no bit of the rows is 1, words of zeros are put.

ghost use Rattle.std.specs.Prelude.{◌≡◌, ℕ, ◌+◌, ◌-◌, ◌*◌, ◌/◌, ◌%◌, ◌^◌, ◌<◌, ◌≤◌, Bool, true, false, List, length};
ghost use Rattle.std.specs.Prelude.{count_by, not, slice_index_or};
ghost use Rattle.bit_addressing_memory.specs.Memory.{Overwrites, entry, memory, piece, read_by, touched};
ghost use Rattle.bit_addressing_memory.specs.Moves.{changed};
ghost use Rattle.bit_addressing_memory.specs.Sweep.{IsFresh, SameButReads, edge_of, sweep_lender, sweep_words, way_of};
ghost use Rattle.bit_addressing_memory.specs.Sweep.{writes_of};
ghost use Rattle.bit_addressing_memory.specs.declared.sweep.Way.TheVariants.{Up};
ghost use Rattle.bit_slice_views.specs.View.{view_bits};
ghost use Rattle.bit_slice_words.specs.Stretch.{bit_found, Nowhere};
ghost use Rattle.bit_table_rows.specs.KeepSteps.{Filled, Fills, IsFilledWord};
ghost use Rattle.bit_table_rows.specs.RowsKept.{KeepsRows, rows_kept};

use crate::bulk_ops::{RowOp, row_loop_limit};
use bit_addressing_memory::mem::bits_of;
use bit_addressing_memory::{BitIdx, BitOrder, BitRegister, Straight, Sweep, no_digits, taken};
use bit_slice_views::{BitSlice, Bits};

/// Keeps those of the `n` rows whose entry in `off` is false: they come to lie in their order from bit `head` of the
/// sweep's first word on, and it answers how many they are. The rows have `w` bits each and lie end to end from that bit
/// on. Every bit outside the kept rows' new places stays.
///
/// The sweep is fresh and goes up. `off` has one entry a row, and the rows' bits are there.
///
/// No word is written twice, and none that the kept rows do not touch at their new places.
pub fn keep_rows<T: BitRegister, O: BitOrder<T>>(
    sweep: &mut Sweep<'_, T>,
    head: BitIdx<T>,
    n: usize,
    w: usize,
    off: BitSlice<'_, T, O>,
) -> usize
    requires fresh { IsFresh sweep.old Up }
    requires flags { length (view_bits (read_by T.BitRegister O.position) off) ≡ n }
    requires within { head + n * w ≤ length (sweep_words sweep.old) * T.BITS }
    requires ends { head + n * w < 2 ^ 64 }
    ensures count { result ≡ count_by not (view_bits (read_by T.BitRegister O.position) off.entry) }

    // The kept rows end to end, and each other bit as before.
    ensures rows { KeepsRows (read_by T.BitRegister O.position) (sweep_words sweep.old) (sweep_words sweep.new)
        head w (view_bits (read_by T.BitRegister O.position) off.entry) }

    // The list from `head` on, of any length that has the rows.
    ensures list { (len : ℕ) → n * w ≤ len → head + len ≤ length (sweep_words sweep.old) * T.BITS
        → piece (memory (read_by T.BitRegister O.position) (sweep_words sweep.new)) head len
        ≡ rows_kept w (view_bits (read_by T.BitRegister O.position) off.entry)
        (piece (memory (read_by T.BitRegister O.position) (sweep_words sweep.old)) head len) }

    // Its writes: at most the words that the kept rows touch, at least the words that became other ones.
    ensures writes { writes_of sweep.new ≤ touched T.BITS head (result * w) }
    ensures changed { changed T.number (sweep_words sweep.old) (sweep_words sweep.new) ≤ writes_of sweep.new }

    // What stays.
    ensures way { way_of sweep.new ≡ way_of sweep.old }
    ensures lender { sweep_lender sweep.new ≡ sweep_lender sweep.old }
{
    let left = off.count_zeros();
    keep_counted::<T, O>(sweep, head, n, w, off, left);
    left
}

// The same, where one knows how many rows stay.
#[inline(always)]
fn keep_counted<T: BitRegister, O: BitOrder<T>>(
    sweep: &mut Sweep<'_, T>,
    head: BitIdx<T>,
    n: usize,
    w: usize,
    off: BitSlice<'_, T, O>,
    left: usize,
)
    requires fresh { IsFresh sweep.old Up }
    requires flags { length (view_bits (read_by T.BitRegister O.position) off) ≡ n }
    requires left { left ≡ count_by not (view_bits (read_by T.BitRegister O.position) off) }
    requires within { head + n * w ≤ length (sweep_words sweep.old) * T.BITS }
    requires ends { head + n * w < 2 ^ 64 }
    ensures rows { KeepsRows (read_by T.BitRegister O.position) (sweep_words sweep.old) (sweep_words sweep.new)
        head w (view_bits (read_by T.BitRegister O.position) off.entry) }
    ensures writes { writes_of sweep.new ≡ touched T.BITS head (left * w) }
    ensures changed { changed T.number (sweep_words sweep.old) (sweep_words sweep.new) ≤ writes_of sweep.new }
    ensures way { way_of sweep.new ≡ way_of sweep.old }
    ensures lender { sweep_lender sweep.new ≡ sweep_lender sweep.old }
{
    let first = head.into_inner() as usize;
    let count = words_before::<T>(first + n * w);
    if holds_no_one::<T, O>(sweep, count) {
        keep_zeros::<T, O>(sweep, first, n, w, off, left, count);
    } else {
        keep_runs::<T, O>(sweep, first, n, w, off);
    }
}

// Keeps rows none of whose bits is 1, by zeros alone, where one knows how many stay. The rows lie in the first `count` words.
#[inline(always)]
pub(crate) fn keep_zeros<T: BitRegister, O: BitOrder<T>>(
    sweep: &mut Sweep<'_, T>,
    first: usize,
    n: usize,
    w: usize,
    off: BitSlice<'_, T, O>,
    left: usize,
    count: usize,
)
    requires way { way_of sweep.old ≡ Up }
    requires edge { edge_of sweep.old ≡ 0 }
    requires writes { writes_of sweep.old ≡ 0 }
    requires flags { length (view_bits (read_by T.BitRegister O.position) off) ≡ n }
    requires left { left ≡ count_by not (view_bits (read_by T.BitRegister O.position) off) }
    requires within { first + n * w ≤ length (sweep_words sweep.old) * T.BITS }
    requires ends { first + n * w < 2 ^ 64 }
    requires holds { first + n * w ≤ count * T.BITS }
    requires zeros { Nowhere (bit_found (read_by T.BitRegister O.position) (sweep_words sweep.old) true) 0
        (count * T.BITS) }
    ensures rows { KeepsRows (read_by T.BitRegister O.position) (sweep_words sweep.old) (sweep_words sweep.new)
        first w (view_bits (read_by T.BitRegister O.position) off.entry) }
    ensures writes { writes_of sweep.new ≡ touched T.BITS first (left * w) }
    ensures changed { changed T.number (sweep_words sweep.old) (sweep_words sweep.new) ≤ writes_of sweep.new }
    ensures way { way_of sweep.new ≡ way_of sweep.old }
    ensures lender { sweep_lender sweep.new ≡ sweep_lender sweep.old }
{
    put_zeros::<T, O>(sweep, first, left * w);
}

// How many words have the bits before a place.
#[inline(always)]
pub(crate) fn words_before<T: BitRegister>(end: usize) -> usize
    ensures holds { end ≤ result * T.BITS }
    ensures fits { (n : ℕ) → end ≤ n * T.BITS → result ≤ n }
{
    // `div_ceil` takes twice as many instructions.
    if end == 0 {
        0
    } else {
        (end - 1) / bits_of::<T>() + 1
    }
}

// Whether no bit of the first `count` words is 1, by one comparison a word.
#[inline(always)]
pub(crate) fn holds_no_one<T: BitRegister, O: BitOrder<T>>(
    sweep: &mut Sweep<'_, T>,
    count: usize,
) -> bool
    requires { count ≤ length (sweep_words sweep.old) }
    ensures zeros { result ≡ true
        → Nowhere (bit_found (read_by T.BitRegister O.position) (sweep_words sweep.old) true) 0 (count * T.BITS) }
    ensures same { SameButReads sweep.old sweep.new }
    ensures lender { sweep_lender sweep.new ≡ sweep_lender sweep.old }
{
    sweep.leading(count, no_digits::<T, O>()) == count
}

// Puts zeros in each word that `len` bits from a place on touch. No bit of these words is 1, so all bits stay.
#[inline(always)]
fn put_zeros<T: BitRegister, O: BitOrder<T>>(sweep: &mut Sweep<'_, T>, first: usize, len: usize)
    requires way { way_of sweep.old ≡ Up }
    requires edge { edge_of sweep.old ≡ 0 }
    requires within { first + len ≤ length (sweep_words sweep.old) * T.BITS }
    requires ends { first + len < 2 ^ 64 }
    requires zeros { (upto : ℕ) → upto * T.BITS < first + len + T.BITS
        → Nowhere (bit_found (read_by T.BitRegister O.position) (sweep_words sweep.old) true) 0 (upto * T.BITS) }
    ensures same { (p : ℕ) → entry (read_by T.BitRegister O.position) (sweep_words sweep.new) p
        ≡ entry (read_by T.BitRegister O.position) (sweep_words sweep.old) p }
    ensures words { length (sweep_words sweep.new) ≡ length (sweep_words sweep.old) }
    ensures writes { writes_of sweep.new ≡ writes_of sweep.old + touched T.BITS first len }
    ensures changed { (others : List T) → changed T.number others (sweep_words sweep.new) + writes_of sweep.old
        ≤ changed T.number others (sweep_words sweep.old) + writes_of sweep.new }
    ensures way { way_of sweep.new ≡ way_of sweep.old }
    ensures lender { sweep_lender sweep.new ≡ sweep_lender sweep.old }
{
    if len == 0 {
        return;
    }
    let bits = bits_of::<T>();
    'zeros: for k in first / bits..(first + len - 1) / bits + 1 {
        sweep.put(k, no_digits::<T, O>());
    }
}

// Keeps rows run by run: those that stay one behind the other move as one.
#[inline(always)]
pub(crate) fn keep_runs<T: BitRegister, O: BitOrder<T>>(
    sweep: &mut Sweep<'_, T>,
    first: usize,
    n: usize,
    w: usize,
    off: BitSlice<'_, T, O>,
) -> usize
    requires way { way_of sweep.old ≡ Up }
    requires edge { edge_of sweep.old ≡ 0 }
    requires writes { writes_of sweep.old ≡ 0 }
    requires flags { length (view_bits (read_by T.BitRegister O.position) off) ≡ n }
    requires within { first + n * w ≤ length (sweep_words sweep.old) * T.BITS }
    requires ends { first + n * w < 2 ^ 64 }
    ensures count { result ≡ count_by not (view_bits (read_by T.BitRegister O.position) off.entry) }
    ensures rows { KeepsRows (read_by T.BitRegister O.position) (sweep_words sweep.old) (sweep_words sweep.new)
        first w (view_bits (read_by T.BitRegister O.position) off.entry) }
    ensures writes { writes_of sweep.new ≡ touched T.BITS first (result * w) }
    ensures changed { changed T.number (sweep_words sweep.old) (sweep_words sweep.new) ≤ writes_of sweep.new }
    ensures way { way_of sweep.new ≡ way_of sweep.old }
    ensures lender { sweep_lender sweep.new ≡ sweep_lender sweep.old }
{
    // Found once: at each row it would cost more than the row where the compiler does not know it.
    let straight = Straight::<T, O>::find();
    let few = row_loop_limit::<T, O>(RowOp::Keep);
    let mut word = T::ZERO;
    let mut kept: usize = 0;
    let mut k: usize = 0;
    'rows: while k < n {
        if off.bit(k) {
            k += 1;
        } else {
            // Rows that stay one behind the other move as one.
            let upto = stay_upto::<T, O>(off, k + 1, n);
            let (to, from) = (first + kept * w, first + k * w);
            let len = (upto - k) * w;
            word = keep_run::<T, O>(sweep, straight, few, word, first, to, from, len);
            kept += upto - k;
            k = upto;
            if k < n {
                // The row behind them goes, as was just told.
                k += 1;
            }
        }
    }
    put_rest::<T, O>(sweep, word, first, first + kept * w);
    kept
}

// Up to which of `n` rows those from `k` on stay.
fn stay_upto<T: BitRegister, O: BitOrder<T>>(off: BitSlice<'_, T, O>, k: usize, n: usize) -> usize
    requires flags { length (view_bits (read_by T.BitRegister O.position) off) ≡ n }
    requires order { k ≤ n }
    ensures low { k ≤ result }
    ensures high { result ≤ n }
    ensures stay { (i : ℕ) → k ≤ i → i < result
        → slice_index_or (view_bits (read_by T.BitRegister O.position) off.entry) i false ≡ false }
    ensures gone { result < n
        → slice_index_or (view_bits (read_by T.BitRegister O.position) off.entry) result false ≡ true }
{
    for i in k..n {
        if off.bit(i) {
            return i;
        }
    }
    n
}

// Puts the bits of rows, which stand from the place `from` on, to the place `to` on. `word` is at hand for the word of
// `to`, and the word for the place behind them is answered. `straight` says whether the positions go straight; up to
// `few` bits go one by one.
#[inline(always)]
fn keep_run<T: BitRegister, O: BitOrder<T>>(
    sweep: &mut Sweep<'_, T>,
    straight: Option<Straight<T, O>>,
    few: usize,
    word: T,
    first: usize,
    to: usize,
    from: usize,
    len: usize,
) -> T
    requires way { way_of sweep.old ≡ Up }
    requires edge { edge_of sweep.old ≤ to / T.BITS }
    requires order { to ≤ from }
    requires within { from + len ≤ length (sweep_words sweep.old) * T.BITS }
    requires ends { from + len < 2 ^ 64 }
    ensures { Fills (read_by T.BitRegister O.position) sweep.old sweep.new word result first to
        (piece (memory (read_by T.BitRegister O.position) (sweep_words sweep.old)) from len) }
{
    if len <= few {
        return keep_bits::<T, O>(sweep, word, first, to, from, len);
    }
    keep_many::<T, O>(sweep, straight, word, first, to, from, len)
}

// The same, bit by bit.
fn keep_bits<T: BitRegister, O: BitOrder<T>>(
    sweep: &mut Sweep<'_, T>,
    word: T,
    first: usize,
    to: usize,
    from: usize,
    len: usize,
) -> T
    requires way { way_of sweep.old ≡ Up }
    requires edge { edge_of sweep.old ≤ to / T.BITS }
    requires order { to ≤ from }
    requires within { from + len ≤ length (sweep_words sweep.old) * T.BITS }
    requires ends { from + len < 2 ^ 64 }
    ensures { Fills (read_by T.BitRegister O.position) sweep.old sweep.new word result first to
        (piece (memory (read_by T.BitRegister O.position) (sweep_words sweep.old)) from len) }
{
    let mut next = word;
    'bits: for i in 0..len {
        next = keep_part::<T, O>(sweep, None, next, first, to + i, from + i, 1);
    }
    next
}

// The same, as many at a time as come to lie in one word.
#[inline(always)]
fn keep_many<T: BitRegister, O: BitOrder<T>>(
    sweep: &mut Sweep<'_, T>,
    straight: Option<Straight<T, O>>,
    word: T,
    first: usize,
    to: usize,
    from: usize,
    len: usize,
) -> T
    requires way { way_of sweep.old ≡ Up }
    requires edge { edge_of sweep.old ≤ to / T.BITS }
    requires order { to ≤ from }
    requires within { from + len ≤ length (sweep_words sweep.old) * T.BITS }
    requires ends { from + len < 2 ^ 64 }
    ensures { Fills (read_by T.BitRegister O.position) sweep.old sweep.new word result first to
        (piece (memory (read_by T.BitRegister O.position) (sweep_words sweep.old)) from len) }
{
    let bits = bits_of::<T>();
    let mut next = word;
    let mut done: usize = 0;
    'parts: while done < len {
        let count = (bits - (to + done) % bits).min(len - done);
        next = keep_part::<T, O>(sweep, straight, next, first, to + done, from + done, count);
        done += count;
    }
    next
}

// Puts so many bits, which stand from the place `from` on, to the place `to` on, all into its word, which is put once
// it is full.
#[inline(always)]
fn keep_part<T: BitRegister, O: BitOrder<T>>(
    sweep: &mut Sweep<'_, T>,
    straight: Option<Straight<T, O>>,
    word: T,
    first: usize,
    to: usize,
    from: usize,
    count: usize,
) -> T
    requires way { way_of sweep.old ≡ Up }
    requires edge { edge_of sweep.old ≤ to / T.BITS }
    requires some { 0 < count }
    requires fits { to % T.BITS + count ≤ T.BITS }
    requires order { to ≤ from }
    requires within { from + count ≤ length (sweep_words sweep.old) * T.BITS }
    requires ends { from + count < 2 ^ 64 }
    ensures { Fills (read_by T.BitRegister O.position) sweep.old sweep.new word result first to
        (piece (memory (read_by T.BitRegister O.position) (sweep_words sweep.old)) from count) }
{
    let bits = bits_of::<T>();
    let index = to % bits;
    let own = begun::<T, O>(sweep, word, first, to);
    let next = taken::<T, O>(
        sweep,
        straight,
        from,
        own,
        index as u8,
        (index + count) as u8,
    );
    if index + count == bits {
        sweep.put(to / bits, next);
    }
    next
}

// The word of the place `to`: that at hand, or the memory's own where none is begun.
fn begun<T: BitRegister, O: BitOrder<T>>(
    sweep: &mut Sweep<'_, T>,
    word: T,
    first: usize,
    to: usize,
) -> T
    requires within { to < length (sweep_words sweep.old) * T.BITS }
    ensures filled { (before : List T) (bits : List Bool)
        → Filled (read_by T.BitRegister O.position) before (sweep_words sweep.old) first to word bits
        → IsFilledWord (read_by T.BitRegister O.position) before first bits (to / T.BITS) result }
    ensures same { SameButReads sweep.old sweep.new }
    ensures lender { sweep_lender sweep.new ≡ sweep_lender sweep.old }
{
    let bits = bits_of::<T>();
    if first < to && to % bits > 0 {
        return word;
    }
    sweep.read(to / bits)
}

// Puts the word at hand, where one is begun.
fn put_rest<T: BitRegister, O: BitOrder<T>>(
    sweep: &mut Sweep<'_, T>,
    word: T,
    first: usize,
    to: usize,
)
    requires way { way_of sweep.old ≡ Up }
    requires edge { edge_of sweep.old ≤ to / T.BITS }
    requires order { first ≤ to }
    requires within { to ≤ length (sweep_words sweep.old) * T.BITS }
    ensures filled { (before : List T) (bits : List Bool)
        → Filled (read_by T.BitRegister O.position) before (sweep_words sweep.old) first to word bits
        → Overwrites (read_by T.BitRegister O.position) before (sweep_words sweep.new) first (length bits)
        (λ k. slice_index_or bits k false) }
    ensures writes { writes_of sweep.new + to / T.BITS
        ≡ writes_of sweep.old + (first / T.BITS + touched T.BITS first (to - first)) }
    ensures changed { (others : List T) → changed T.number others (sweep_words sweep.new) + writes_of sweep.old
        ≤ changed T.number others (sweep_words sweep.old) + writes_of sweep.new }
    ensures way { way_of sweep.new ≡ way_of sweep.old }
    ensures lender { sweep_lender sweep.new ≡ sweep_lender sweep.old }
{
    let bits = bits_of::<T>();
    if first < to && to % bits > 0 {
        sweep.put(to / bits, word);
    }
}
