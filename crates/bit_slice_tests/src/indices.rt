//! The indices of the ones and of the zeros among more than 64 bits, from both ends by turns, beside a look at each bit.

ghost use Rattle.std.specs.Prelude.{◌<◌, true, false};

use bit_addressing_memory::{BitOrder, BitRegister, HiLo, Lsb0, Msb0};
use bit_addressing_sample_orders::FifthStep;
use bit_slice_iterators::{Indices, Ones, Sought, Zeros};
use bit_slice_views::{BitSlice, Bits};

const BYTES: [u8; 24] = [
    0x6f, 0xee, 0x00, 0x01, 0x80, 0x00, 0x00, 0x00, 0x00, 0x00, 0x00, 0x00, 0x00, 0x30, 0xff, 0xff,
    0xff, 0xff, 0xff, 0xff, 0xff, 0xff, 0xbf, 0x5a,
];

const WORDS: [u64; 4] = [
    0x8000_0000_0000_0001,
    0xffff_ffff_ffff_fffe,
    0,
    0x0123_4567_89ab_cdef,
];

// Kinds of a caller's own, with no more than a kind has to have.
struct OwnOnes;

impl Sought for OwnOnes {
    ghost bit = { true };

    fn first<V: Bits>(view: &V) -> Option<usize> {
        view.first_one()
    }

    fn last<V: Bits>(view: &V) -> Option<usize> {
        view.last_one()
    }

    fn count<V: Bits>(view: &V) -> usize {
        view.count_ones()
    }
}

struct OwnZeros;

impl Sought for OwnZeros {
    ghost bit = { false };

    fn first<V: Bits>(view: &V) -> Option<usize> {
        view.first_zero()
    }

    fn last<V: Bits>(view: &V) -> Option<usize> {
        view.last_zero()
    }

    fn count<V: Bits>(view: &V) -> usize {
        view.count_zeros()
    }
}

// The first index from `from` up to before `upto` of a bit that is `bit`, the last one, and how many there are.
fn between<V: Bits>(
    view: &V,
    bit: bool,
    from: usize,
    upto: usize,
) -> (Option<usize>, Option<usize>, usize) {
    let (mut first, mut last, mut count) = (None, None, 0usize);
    for i in 0..view.len() {
        if from <= i && i < upto && view.bit(i) == bit {
            first = first.or(Some(i));
            last = Some(i);
            count = count.wrapping_add(1);
        }
    }
    (first, last, count)
}

// Whether the indices come as they are found so, one call in `turn` from the back, and how many are left at each.
fn come_by_turns<T: BitRegister, O: BitOrder<T>, B: Sought>(
    view: BitSlice<'_, T, O>,
    bit: bool,
    turn: usize,
) -> bool
    requires { 0 < turn }
{
    let mut left = Indices::<T, O, B>::new(view);
    let (mut from, mut upto) = (0usize, view.len());
    for call in 0..300usize {
        let (first, last, count) = between(&view, bit, from, upto);
        if left.len() != count {
            return false;
        }
        if call % turn == turn - 1 {
            if left.next_back() != last {
                return false;
            }
            upto = last.unwrap_or(from);
        } else {
            if left.next() != first {
                return false;
            }
            from = first.map_or(upto, |i| i.wrapping_add(1));
        }
    }
    left.len() == 0 && left.next().is_none() && left.next_back().is_none()
}

fn come_right<T: BitRegister, O: BitOrder<T>>(view: BitSlice<'_, T, O>) -> bool {
    for turn in 1..6usize {
        if !come_by_turns::<T, O, Ones>(view, true, turn)
            || !come_by_turns::<T, O, Zeros>(view, false, turn)
        {
            return false;
        }
    }
    come_by_turns::<T, O, Ones>(view, true, 301) && come_by_turns::<T, O, Zeros>(view, false, 301)
}

#[test]
fn indices_come_from_both_ends(rt: HostRuntime) {
    assert!(rt; come_right(BitSlice::<u8, Lsb0>::from_place(&BYTES, 5, 183)));
    assert!(rt; come_right(BitSlice::<u8, Msb0>::from_place(&BYTES, 3, 128)));
    assert!(rt; come_right(BitSlice::<u8, FifthStep>::from_place(&BYTES, 9, 129)));
    assert!(rt; come_right(BitSlice::<u64, Lsb0>::from_place(&WORDS, 63, 193)));
    assert!(rt; come_right(BitSlice::<u64, Msb0>::from_place(&WORDS, 1, 255)));
    assert!(rt; come_right(BitSlice::<u64, FifthStep>::from_place(&WORDS, 60, 70)));
    assert!(rt; come_right(BitSlice::<u64, HiLo>::from_place(&WORDS, 63, 193)));
    assert!(rt; come_right(BitSlice::<u8, HiLo>::from_place(&BYTES, 3, 128)));
}

#[test]
fn indices_of_own_kinds_come_right(rt: HostRuntime) {
    let near = BitSlice::<u8, Lsb0>::from_place(&BYTES, 5, 183);
    let far = BitSlice::<u64, FifthStep>::from_place(&WORDS, 63, 193);
    assert!(rt; come_by_turns::<u8, Lsb0, OwnOnes>(near, true, 3));
    assert!(rt; come_by_turns::<u8, Lsb0, OwnZeros>(near, false, 3));
    assert!(rt; come_by_turns::<u64, FifthStep, OwnOnes>(far, true, 2));
    assert!(rt; come_by_turns::<u64, FifthStep, OwnZeros>(far, false, 2));
    assert!(rt; OwnOnes::among(0x9c).is_none() && OwnZeros::among(0x9c).is_none());
}
