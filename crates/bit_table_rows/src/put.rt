//! Up to 64 bits of a list put at once.

ghost use Rattle.std.specs.Prelude.{◌≡◌, ◌+◌, ◌*◌, ◌^◌, ◌<◌, ◌≤◌, length, map};
ghost use Rattle.std.specs.List.{range_with_len};
ghost use Rattle.bit_addressing_memory.specs.Bits.{digit_at};
ghost use Rattle.bit_addressing_memory.specs.Memory.{memory, piece, read_by, with_piece};
ghost use Rattle.bit_slice_views_mut.specs.Frame.{KeepsBeside};

use bit_addressing_memory::{BitOrder, BitRegister, Direction};
use bit_slice_chunks::any_order::write_bits;
use bit_slice_views_mut::BitsMut;

// Makes `count` bits of a list, from `at` on, the digits of a number, the lowest first. Every other bit stays.
pub(crate) fn put_bits<V: BitsMut>(view: &mut V, at: usize, count: usize, digits: u64)
    requires some { 0 < count }
    requires few { count ≤ 64 }
    requires within { at + count ≤ length (V.bits view.old) }
    ensures bits { V.bits view.new
        ≡ with_piece (V.bits view.old) at (map (digit_at digits) (range_with_len 0 count)) }
    ensures len { length (V.bits view.new) ≡ length (V.bits view.old) }
    ensures frame { V.frame view.new ≡ V.frame view.old }
{
    let place = view.first_place();
    let all = view.len();
    view.write(|words| {
        put_in_window::<V::Store, V::Order>(words, place, all, at, count, digits)
    });
}

// The same of a window of so many bits from a place on.
fn put_in_window<R: BitRegister, O: BitOrder<R>>(
    words: &mut [R],
    place: usize,
    all: usize,
    at: usize,
    count: usize,
    digits: u64,
)
    requires some { 0 < count }
    requires few { count ≤ 64 }
    requires within { place + all ≤ length words.old * R.BITS }
    requires ends { place + all < 2 ^ 64 }
    requires target { at + count ≤ all }
    ensures list { piece (memory (read_by R.BitRegister O.position) words.new) place all
        ≡ with_piece (piece (memory (read_by R.BitRegister O.position) words.old) place all) at
        (map (digit_at digits) (range_with_len 0 count)) }
    ensures beside { KeepsBeside (read_by R.BitRegister O.position) words.old words.new place all }
{
    write_bits::<R, O>(Direction::Ascending, words, place + at, count, digits);
}
