//! Changes of a part of a window of words: by its list, and by what stays beside it.

ghost use Rattle.std.specs.Prelude.{◌≡◌, ◌+◌, ◌*◌, ◌^◌, ◌<◌, ◌≤◌, ◌++◌, drop, length, take};
ghost use Rattle.bit_addressing_memory.specs.Memory.{memory, piece, read_by, with_piece};
ghost use Rattle.bit_slice_views_mut.specs.Frame.{KeepsBeside};

use bit_addressing_memory::{BitOrder, BitRegister};
use bit_slice_views_mut::{copy_in, exchange_in, rotate_left_in};

// Writes bits of another memory over those of a window from `at` on.
pub(crate) fn write_window<R: BitRegister, O: BitOrder<R>, Q: BitRegister, P: BitOrder<Q>>(
    words: &mut [R],
    place: usize,
    all: usize,
    at: usize,
    others: &[Q],
    source: usize,
    len: usize,
)
    requires within { place + all ≤ length words.old * R.BITS }
    requires ends { place + all < 2 ^ 64 }
    requires target { at + len ≤ all }
    requires source_within { source + len ≤ length others.now * Q.BITS }
    requires source_ends { source + len < 2 ^ 64 }
    ensures list { piece (memory (read_by R.BitRegister O.position) words.new) place all
        ≡ with_piece (piece (memory (read_by R.BitRegister O.position) words.old) place all) at
        (piece (memory (read_by Q.BitRegister P.position) others.now) source len) }
    ensures beside { KeepsBeside (read_by R.BitRegister O.position) words.old words.new place all }
{
    copy_in::<Q, P, R, O>(others, source, words, place + at, len);
}

// Exchanges two parts of a window.
pub(crate) fn swap_window<R: BitRegister, O: BitOrder<R>>(
    words: &mut [R],
    place: usize,
    all: usize,
    first: usize,
    second: usize,
    len: usize,
)
    requires within { place + all ≤ length words.old * R.BITS }
    requires ends { place + all < 2 ^ 64 }
    requires apart { first + len ≤ second }
    requires inside { second + len ≤ all }
    ensures list { piece (memory (read_by R.BitRegister O.position) words.new) place all
        ≡ with_piece (with_piece (piece (memory (read_by R.BitRegister O.position) words.old) place all) first
        (piece (piece (memory (read_by R.BitRegister O.position) words.old) place all) second len)) second
        (piece (piece (memory (read_by R.BitRegister O.position) words.old) place all) first len) }
    ensures beside { KeepsBeside (read_by R.BitRegister O.position) words.old words.new place all }
{
    exchange_in::<R, O>(words, place + first, place + second, len);
}

// Turns `len` bits of a window, those from `at` on, by `by` places towards the first of them.
pub(crate) fn rotate_window<R: BitRegister, O: BitOrder<R>>(
    words: &mut [R],
    place: usize,
    all: usize,
    at: usize,
    len: usize,
    by: usize,
)
    requires within { place + all ≤ length words.old * R.BITS }
    requires ends { place + all < 2 ^ 64 }
    requires part { at + len ≤ all }
    requires most { by ≤ len }
    ensures list { piece (memory (read_by R.BitRegister O.position) words.new) place all
        ≡ with_piece (piece (memory (read_by R.BitRegister O.position) words.old) place all) at
        (drop by (piece (piece (memory (read_by R.BitRegister O.position) words.old) place all) at len)
        ++ take by (piece (piece (memory (read_by R.BitRegister O.position) words.old) place all) at len)) }
    ensures beside { KeepsBeside (read_by R.BitRegister O.position) words.old words.new place all }
{
    rotate_left_in::<R, O>(words, place + at, len, by);
}
