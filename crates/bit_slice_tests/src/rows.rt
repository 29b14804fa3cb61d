//! What callers leave in words of their own, worked out by hand.

use crate::callers::{fill_middle, moved, same_list, set_both_in};
use crate::word_callers::{clear_first_word, mark_parts, swap_halves};
use bit_addressing_memory::{Lsb0, Msb0};
use bit_slice_views_mut::BitSliceMut;
use std::process::Abort;

#[test]
fn callers_write(rt: HostRuntime) {
    let mut words = [0x10u8, 0x34, 0x00];
    fill_middle::<u8, Lsb0>(&mut words, 6, 4);
    assert!(rt; words == [0xd0, 0x37, 0x00]);
    set_both_in::<u8, Msb0>(&mut words, 9, 0, 14);
    assert!(rt; words == [0xd0, 0x37, 0x01]);
    assert!(rt; same_list(&[0x01, 0x80], &[0x8001]));
    assert!(rt; !same_list(&[0x02, 0x80], &[0x8001]));
    let mut others = [0x00u8, 0x00, 0xf0, 0xff, 0x07];
    let writes = moved::<u8, Lsb0>(&mut others);
    assert!(rt; others == [0xf8, 0xff, 0xf3, 0xff, 0x07] && writes <= 3);
    // four pieces of four bits, bit k of piece k set
    let mut pieces = [0u8; 2];
    set_both_in::<u8, Lsb0>(&mut pieces, 4, 0, 1);
    set_both_in::<u8, Lsb0>(&mut pieces, 12, 10, 3);
    assert!(rt; pieces == [0x21, 0x84]);
}

#[test]
fn callers_write_by_words(rt: HostRuntime) {
    let mut words = [0xffu8; 2];
    clear_first_word(&mut BitSliceMut::<u8, Msb0>::from_place_mut(&mut words, 3, 4));
    assert!(rt; words == [0xe1, 0xff]);
    clear_first_word(&mut BitSliceMut::<u8, Msb0>::from_place_mut(&mut words, 10, 6));
    assert!(rt; words == [0xe1, 0xc0]);
    let mut words = [0u8; 4];
    mark_parts(&mut BitSliceMut::<u8, Lsb0>::from_place_mut(&mut words, 4, 22));
    assert!(rt; words == [0x10, 0x01, 0x00, 0x01]);
    let mut words = [1u16, 2, 3, 4];
    swap_halves::<u16, Msb0>(&mut words, 2);
    assert!(rt; words == [3, 4, 1, 2]);
}
