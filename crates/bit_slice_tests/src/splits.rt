//! Splits by predicates, to read: what a predicate is asked, and parts by their numbers.

use crate::list::is_one;
use bit_addressing_memory::{BitOrder, BitRegister, Lsb0};
use bit_slice_splits::{BitsSplits, Split};
use bit_slice_views::{BitSlice, Bits};

// A part as a number, its first bit in front, behind a one that tells its length; 0 of none.
fn row(part: Option<BitSlice<'_, u8, Lsb0>>) -> u32 {
    let Some(part) = part else { return 0 };
    let mut digits = 1u32;
    for i in 0..part.len() {
        digits = (digits << 1) | part.bit(i) as u32;
    }
    digits
}

// Whether an index is 1, whatever the bit.
fn is_second(index: usize, _bit: &bool) -> bool {
    index == 1
}

#[test]
fn a_predicate_is_asked(rt: HostRuntime) {
    // five ones, split where the index is 1 in what is left
    let words = [0x1fu8];
    let view = BitSlice::<u8, Lsb0>::from_place(&words, 0, 5);
    let mut parts = view.split(is_second);
    assert!(rt;
        row(parts.next()) == 0b11 && row(parts.next()) == 0b11 && row(parts.next()) == 0b11
    );
    assert!(rt; row(parts.next()) == 0 && row(parts.next_back()) == 0 && row(parts.next()) == 0);
    let words = [0xd2u8];
    let view = BitSlice::<u8, Lsb0>::from_place(&words, 0, 6);
    let mut calls = 0usize;
    {
        let mut parts = view.split(|_i, bit| {
            calls = calls.wrapping_add(1);
            *bit
        });
        assert!(rt; row(parts.next()) == 0b10 && row(parts.next_back()) == 0b10);
        assert!(rt; row(parts.next()) == 0b100 && row(parts.next()) == 0);
    }
    // 0 and 1 from the front, 0 and 1 from the back, the two between
    assert!(rt; calls == 6);
    let mut calls = 0usize;
    {
        let mut parts = view.rsplitn(2, |_i, bit| {
            calls = calls.wrapping_add(1);
            *bit
        });
        assert!(rt; row(parts.next()) == 0b10 && row(parts.next()) == 0b10100);
        assert!(rt; row(parts.next()) == 0);
    }
    // 0 and 1 from the back; the last part that may come asks nothing
    assert!(rt; calls == 2);
}

// The first part: it lives as long as the words, and not as the window's value.
fn first_part<'a, T: BitRegister + 'a, O: BitOrder<T>>(
    view: BitSlice<'a, T, O>,
) -> Option<BitSlice<'a, T, O>> {
    let mut parts = Split::new(view, is_one, false);
    parts.next()
}

#[test]
fn a_part_outlives_the_window(rt: HostRuntime) {
    // the bits 0, 1, 0, 0, 1, 0
    let words = [0xd2u8];
    let first = first_part(BitSlice::<u8, Lsb0>::from_place(&words, 0, 6));
    assert!(rt; row(first) == 0b10);
    let view = BitSlice::<u8, Lsb0>::from_place(&words, 0, 6);
    let mut parts = view.split(is_one);
    assert!(rt; parts.size_hint() == (1, Some(7)) && row(parts.next()) == 0b10);
    assert!(rt; parts.size_hint() == (1, Some(5)) && row(parts.nth(1)) == 0b10);
    assert!(rt; parts.size_hint() == (0, Some(0)));
}

#[test]
fn a_part_is_found_by_its_number(rt: HostRuntime) {
    // the bits 0, 1, 0, 0, 1, 0
    let words = [0xd2u8];
    let view = BitSlice::<u8, Lsb0>::from_place(&words, 0, 6);
    let mut parts = view.split(is_one);
    assert!(rt; row(parts.nth(1)) == 0b100 && row(parts.next()) == 0b10 && row(parts.nth(0)) == 0);
    let mut parts = view.rsplit(is_one);
    assert!(rt; row(parts.nth_back(1)) == 0b100 && row(parts.nth_back(1)) == 0);
    let mut parts = view.split_inclusive(is_one);
    assert!(rt; row(parts.nth_back(2)) == 0b101 && row(parts.next_back()) == 0);
    let mut parts = view.splitn(2, is_one);
    assert!(rt; parts.size_hint() == (1, Some(2)) && row(parts.nth(1)) == 0b10010);
    assert!(rt; parts.size_hint() == (0, Some(0)) && row(parts.next()) == 0);
}

#[test]
fn a_split_tells_how_many_parts_come(rt: HostRuntime) {
    // the bits 0, 1, 0, 0, 1, 0
    let words = [0xd2u8];
    let view = BitSlice::<u8, Lsb0>::from_place(&words, 0, 6);
    // as std's iterators of the same names: at least one part and at most one more than there are bits, and of
    // `split_inclusive` at most one for each bit
    assert!(rt; view.rsplit(is_one).size_hint() == (1, Some(7)));
    assert!(rt; view.split_inclusive(is_one).size_hint() == (1, Some(6)));
    assert!(rt; view.rsplitn(3, is_one).size_hint() == (1, Some(3)));
    assert!(rt; view.splitn(9, is_one).size_hint() == (1, Some(7)));
    assert!(rt; view.splitn(0, is_one).size_hint() == (0, Some(0)));
    let none = BitSlice::<u8, Lsb0>::empty();
    assert!(rt; none.split(is_one).size_hint() == (1, Some(1)));
    assert!(rt; none.split_inclusive(is_one).size_hint() == (0, Some(0)));
    let mut parts = view.split_inclusive(is_one);
    assert!(rt; parts.nth(1).is_some() && parts.size_hint() == (1, Some(1)));
    assert!(rt; parts.next().is_some() && parts.size_hint() == (0, Some(0)));
}
