//! A window of words combined with the bits of another memory, of any length.

ghost use Rattle.std.specs.Prelude.{◌≡◌, ◌+◌, ◌*◌, ◌^◌, ◌<◌, ◌≤◌, ◌&&◌, ◌||◌, length};
ghost use Rattle.std.specs.Bool.{xor};
ghost use Rattle.bit_addressing_memory.specs.Memory.{memory, piece, read_by};
ghost use Rattle.bit_slice_views.specs.View.{view_bits};
ghost use Rattle.bit_slice_views_mut.specs.Combined.{combined};
ghost use Rattle.bit_slice_views_mut.specs.Frame.{KeepsBeside};

use bit_addressing_memory::{BitOrder, BitRegister};
use bit_slice_views::BitSlice;
use bit_slice_views::words::{and_in, fill_in, or_in, xor_in};

// Makes each bit of a window what it and the other's bit are both; those past the other's end are cleared.
pub(crate) fn and_window<R: BitRegister, O: BitOrder<R>, Q: BitRegister, P: BitOrder<Q>>(
    words: &mut [R],
    place: usize,
    len: usize,
    other: BitSlice<'_, Q, P>,
)
    requires within { place + len ≤ length words.old * R.BITS }
    requires ends { place + len < 2 ^ 64 }
    ensures list { piece (memory (read_by R.BitRegister O.position) words.new) place len
        ≡ combined (λ a b. a && b) (piece (memory (read_by R.BitRegister O.position) words.old) place len)
        (view_bits (read_by Q.BitRegister P.position) other.entry) }
    ensures beside { KeepsBeside (read_by R.BitRegister O.position) words.old words.new place len }
{
    let (others, head, other_len) = other.parts();
    let shared = len.min(other_len);
    and_in::<R, O, Q, P>(words, place, others, head as usize, shared);
    fill_in::<R, O>(words, place + shared, len - shared, false);
}

// Makes each bit of a window what it or the other's bit is.
pub(crate) fn or_window<R: BitRegister, O: BitOrder<R>, Q: BitRegister, P: BitOrder<Q>>(
    words: &mut [R],
    place: usize,
    len: usize,
    other: BitSlice<'_, Q, P>,
)
    requires within { place + len ≤ length words.old * R.BITS }
    requires ends { place + len < 2 ^ 64 }
    ensures list { piece (memory (read_by R.BitRegister O.position) words.new) place len
        ≡ combined (λ a b. a || b) (piece (memory (read_by R.BitRegister O.position) words.old) place len)
        (view_bits (read_by Q.BitRegister P.position) other.entry) }
    ensures beside { KeepsBeside (read_by R.BitRegister O.position) words.old words.new place len }
{
    let (others, head, other_len) = other.parts();
    or_in::<R, O, Q, P>(words, place, others, head as usize, len.min(other_len));
}

// Makes each bit of a window whether it and the other's bit differ.
pub(crate) fn xor_window<R: BitRegister, O: BitOrder<R>, Q: BitRegister, P: BitOrder<Q>>(
    words: &mut [R],
    place: usize,
    len: usize,
    other: BitSlice<'_, Q, P>,
)
    requires within { place + len ≤ length words.old * R.BITS }
    requires ends { place + len < 2 ^ 64 }
    ensures list { piece (memory (read_by R.BitRegister O.position) words.new) place len
        ≡ combined xor (piece (memory (read_by R.BitRegister O.position) words.old) place len)
        (view_bits (read_by Q.BitRegister P.position) other.entry) }
    ensures beside { KeepsBeside (read_by R.BitRegister O.position) words.old words.new place len }
{
    let (others, head, other_len) = other.parts();
    xor_in::<R, O, Q, P>(words, place, others, head as usize, len.min(other_len));
}
