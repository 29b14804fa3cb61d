//! `HiLo`: that it is lawful, its positions, selectors and masks, and every small move under it, compared with a plain copy
//! of bits.

use bit_addressing::entries::read_entry;
use bit_addressing::shifts::direction_of;
use bit_addressing::{
    BitEnd, BitIdx, HiLo, OrderCandidate, Positions, Sweep, move_in, verify, way_for,
};
use bit_addressing_sample_orders::word_callers::toggled;

#[test]
fn it_is_lawful_at_each_word(rt: HostRuntime) {
    assert!(rt; verify::<HiLo>() == Ok(()));
    let first = BitIdx::<u8>::new_unchecked(0);
    assert!(rt; toggled::<u8, HiLo>(0xff, first) == 0b1110_1111);
    assert!(rt; direction_of::<u8, HiLo>().is_none() && direction_of::<u64, HiLo>().is_none());
}

#[test]
fn each_four_bits_change_places(rt: HostRuntime) {
    let positions = [4u8, 5, 6, 7, 0, 1, 2, 3, 12, 13, 14, 15, 8, 9, 10, 11];
    for index in 0..16u8 {
        let place = BitIdx::<u16>::new_unchecked(index);
        let position = positions[index as usize];
        assert!(rt; HiLo::at(place).into_inner() == position);
        assert!(rt; position < 16 && HiLo::select(place).into_inner() == 1u16 << position);
    }
}

#[test]
fn masks_hold_their_indices(rt: HostRuntime) {
    let three = BitEnd::<u8>::new_unchecked(3);
    assert!(rt; HiLo::mask(None, Some(three)).into_inner() == 0b0111_0000);
    let two = BitIdx::<u8>::new_unchecked(2);
    let six = BitEnd::<u8>::new_unchecked(6);
    assert!(rt; HiLo::mask(Some(two), Some(six)).into_inner() == 0b1100_0011);
    assert!(rt; HiLo::mask(Some(BitIdx::<u8>::new_unchecked(4)), None).into_inner() == 0b0000_1111);
}

#[test]
fn bits_are_read_by_their_positions(rt: HostRuntime) {
    // 0x48 has the positions 3 and 6, which are the indices 7 and 2
    let words = [0x48u8, 0xe2];
    let wanted = [
        false, false, true, false, false, false, false, true, false, true, true, true, false, true,
        false, false,
    ];
    for place in 0..16usize {
        assert!(rt; read_entry::<u8, HiLo>(&words, place) == wanted[place]);
    }
}

// The bits of nine bytes, where the bit at each index of a byte is the digit of a mask: 4, 5, 6, 7, 0, 1, 2, 3.
fn listed(bytes: [u8; 9]) -> [bool; 72] {
    let masks = [16u8, 32, 64, 128, 1, 2, 4, 8];
    let mut list = [false; 72];
    for place in 0..72usize {
        list[place] = bytes[place / 8] & masks[place % 8] != 0;
    }
    list
}

// The first source, target and length up to 24, 24 and 40 whose move over nine bytes leaves other bits than a plain copy
// of the bits one by one.
fn first_other_move() -> Option<(usize, usize, usize)> {
    let before = [0x12u8, 0x34, 0x56, 0x78, 0x9a, 0xbc, 0xde, 0xf0, 0x5b];
    let own = listed(before);
    for source in 0..25usize {
        for target in 0..25usize {
            for len in 0..41usize {
                let mut copied = own;
                for i in 0..len {
                    copied[target + i] = own[source + i];
                }
                let mut words = before;
                let mut sweep = Sweep::new(&mut words, way_for(source, target));
                move_in::<u8, HiLo>(&mut sweep, source, target, len);
                if listed(words) != copied {
                    return Some((source, target, len));
                }
            }
        }
    }
    None
}

#[test]
fn every_small_move_is_a_plain_copy(rt: HostRuntime) {
    assert!(rt; first_other_move() == None);
}
