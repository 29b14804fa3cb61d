//! Moves of rows by one sweep over the words of a window, whose writes are counted: by its list, and by what stays beside
//! it.

ghost use Rattle.std.specs.Prelude.{◌≡◌, ◌+◌, ◌-◌, ◌*◌, ◌^◌, ◌<◌, ◌≤◌, true, count_by, length, not};
ghost use Rattle.bit_addressing_memory.specs.Memory.{memory, piece, read_by, touched};
ghost use Rattle.bit_addressing_memory.specs.Moves.{changed};
ghost use Rattle.bit_slice_views.specs.SpanLimits.{MAX_BITS};
ghost use Rattle.bit_slice_views.specs.View.{view_bits};
ghost use Rattle.bit_slice_views_mut.specs.Frame.{KeepsBeside};
ghost use Rattle.bit_slice_words.specs.Stretch.{bit_found, Nowhere};
ghost use Rattle.bit_table_rows.specs.RowMoves.{rows_moved};
ghost use Rattle.bit_table_rows.specs.RowsKept.{KeepsRows, rows_kept};

use crate::keep::{holds_no_one, keep_runs, keep_zeros, words_before};
use crate::rows::move_rows;
use bit_addressing_memory::{BitIdx, BitOrder, BitRegister, Sweep, Way, way_for};
use bit_slice_views::BitSlice;

// Moves rows of a window that begins in the first word, by one sweep, and answers how many words it wrote.
#[inline(always)]
pub(crate) fn move_window_rows<R: BitRegister, O: BitOrder<R>>(
    words: &mut [R],
    place: usize,
    len: usize,
    p: usize,
    q: usize,
    n: usize,
    w: usize,
) -> usize
    requires head { place < R.BITS }
    requires within { place + len ≤ length words.old * R.BITS }
    requires ends { place + len < 2 ^ 64 }
    requires order { p ≤ n }
    requires rows { n * w ≤ len }
    requires target { (q + (n - p)) * w ≤ len }
    ensures list { piece (memory (read_by R.BitRegister O.position) words.new) place len
        ≡ rows_moved w (piece (memory (read_by R.BitRegister O.position) words.old) place len) p q n }
    ensures beside { KeepsBeside (read_by R.BitRegister O.position) words.old words.new place len }
    ensures writes { result ≤ touched R.BITS (place + q * w) ((n - p) * w) }
    ensures changed { changed R.number words.old words.new ≤ result }
{
    let mut sweep = Sweep::new(words, way_for(place + p * w, place + q * w));
    let head = BitIdx::new_unchecked(place as u8);
    move_rows::<R, O>(&mut sweep, head, p, q, n, w);
    sweep.writes()
}

// Whether no bit of the first `count` words is 1. The sweep is handed to no call out of line, so what it counts stays in
// registers.
#[inline(always)]
fn holds_no_one_in<R: BitRegister, O: BitOrder<R>>(words: &mut [R], count: usize) -> bool
    requires { count ≤ length words.old }
    ensures zeros { result ≡ true
        → Nowhere (bit_found (read_by R.BitRegister O.position) words.old true) 0 (count * R.BITS) }
    ensures same { words.new ≡ words.old }
{
    let mut sweep = Sweep::new(words, Way::Up);
    holds_no_one::<R, O>(&mut sweep, count)
}

// Keeps rows none of whose bits is 1, where one knows how many stay, and returns how many words it wrote. The rows lie in
// the first `count` words.
#[inline(always)]
fn keep_zeros_in<R: BitRegister, O: BitOrder<R>>(
    words: &mut [R],
    place: usize,
    n: usize,
    w: usize,
    off: BitSlice<'_, R, O>,
    left: usize,
    count: usize,
) -> usize
    requires flags { length (view_bits (read_by R.BitRegister O.position) off) ≡ n }
    requires left { left ≡ count_by not (view_bits (read_by R.BitRegister O.position) off) }
    requires within { place + n * w ≤ length words.old * R.BITS }
    requires ends { place + n * w < 2 ^ 64 }
    requires holds { place + n * w ≤ count * R.BITS }
    requires zeros { Nowhere (bit_found (read_by R.BitRegister O.position) words.old true) 0 (count * R.BITS) }
    ensures rows { KeepsRows (read_by R.BitRegister O.position) words.old words.new
        place w (view_bits (read_by R.BitRegister O.position) off.entry) }
    ensures writes { result ≡ touched R.BITS place (left * w) }
    ensures changed { changed R.number words.old words.new ≤ result }
{
    let mut sweep = Sweep::new(words, Way::Up);
    keep_zeros::<R, O>(&mut sweep, place, n, w, off, left, count);
    sweep.writes()
}

// Keeps rows run by run, and returns how many words it wrote. Out of line, so that lists without a one are passed by a
// short function.
#[inline(never)]
fn keep_runs_in<R: BitRegister, O: BitOrder<R>>(
    words: &mut [R],
    place: usize,
    n: usize,
    w: usize,
    off: BitSlice<'_, R, O>,
) -> usize
    requires flags { length (view_bits (read_by R.BitRegister O.position) off) ≡ n }
    requires within { place + n * w ≤ length words.old * R.BITS }
    requires ends { place + n * w < 2 ^ 64 }
    ensures rows { KeepsRows (read_by R.BitRegister O.position) words.old words.new
        place w (view_bits (read_by R.BitRegister O.position) off.entry) }
    ensures writes { result ≡ touched R.BITS place
        (count_by not (view_bits (read_by R.BitRegister O.position) off.entry) * w) }
    ensures changed { changed R.number words.old words.new ≤ result }
{
    let mut sweep = Sweep::new(words, Way::Up);
    keep_runs::<R, O>(&mut sweep, place, n, w, off);
    sweep.writes()
}

// Keeps rows, where one knows how many stay, and returns how many words it wrote, each once.
#[inline(always)]
fn keep_in<R: BitRegister, O: BitOrder<R>>(
    words: &mut [R],
    place: usize,
    n: usize,
    w: usize,
    off: BitSlice<'_, R, O>,
    left: usize,
) -> usize
    requires flags { length (view_bits (read_by R.BitRegister O.position) off) ≡ n }
    requires left { left ≡ count_by not (view_bits (read_by R.BitRegister O.position) off) }
    requires within { place + n * w ≤ length words.old * R.BITS }
    requires ends { place + n * w < 2 ^ 64 }
    ensures rows { KeepsRows (read_by R.BitRegister O.position) words.old words.new
        place w (view_bits (read_by R.BitRegister O.position) off.entry) }
    ensures writes { result ≡ touched R.BITS place (left * w) }
    ensures changed { changed R.number words.old words.new ≤ result }
{
    let count = words_before::<R>(place + n * w);
    if holds_no_one_in::<R, O>(words, count) {
        keep_zeros_in::<R, O>(words, place, n, w, off, left, count)
    } else {
        keep_runs_in::<R, O>(words, place, n, w, off)
    }
}

// Keeps rows of a window that begins in the first word, where one knows how many stay, and returns how many words it
// wrote. Their flags are `n` bits of other words, from an index of the first of these on.
#[inline(always)]
pub(crate) fn keep_window_rows<R: BitRegister, O: BitOrder<R>>(
    words: &mut [R],
    place: usize,
    len: usize,
    n: usize,
    w: usize,
    flags: &[R],
    index: u8,
    left: usize,
) -> usize
    requires head { place < R.BITS }
    requires within { place + len ≤ length words.old * R.BITS }
    requires ends { place + len < 2 ^ 64 }
    requires rows { n * w ≤ len }
    requires flags_begin { index < R.BITS }
    requires flags_short { n ≤ MAX_BITS }
    requires flags_within { index + n ≤ length flags.now * R.BITS }
    requires left { left ≡ count_by not (piece (memory (read_by R.BitRegister O.position) flags.now) index n) }
    ensures list { piece (memory (read_by R.BitRegister O.position) words.new) place len
        ≡ rows_kept w (piece (memory (read_by R.BitRegister O.position) flags.now) index n)
        (piece (memory (read_by R.BitRegister O.position) words.old) place len) }
    ensures beside { KeepsBeside (read_by R.BitRegister O.position) words.old words.new place len }
    ensures writes { result ≤ touched R.BITS place (left * w) }
    ensures changed { changed R.number words.old words.new ≤ result }
{
    let off = BitSlice::<R, O>::from_parts(flags, index, n);
    keep_in::<R, O>(words, place, n, w, off, left)
}
