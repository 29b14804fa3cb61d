//! Words and arrays of words as bits.

use crate::store_callers::{set_first_bit, set_word_bit};
use bit_addressing_memory::{Lsb0, Msb0};
use bit_slice_views::{BitSlice, BitViewSized, Bits, from_ref};
use bit_slice_views_mut::{BitSliceMut, BitView, BitsMut, from_mut};
use std::process::Abort;

#[test]
fn a_word_and_an_array_are_lists_of_bits(rt: HostRuntime) {
    let word = 0x8001u16;
    let bits = word.view_bits::<Lsb0>();
    assert!(rt; bits.len() == 16 && bits.count_ones() == 2 && bits.last_one() == Some(15));
    let words = [0x01u8, 0x80];
    let bits = words.view_bits::<Msb0>();
    assert!(rt; bits.len() == 16 && bits.first_one() == Some(7) && bits.last_one() == Some(8));
    assert!(rt; <[u32; 3]>::ZERO == [0; 3] && <u64 as BitViewSized>::ZERO == 0);
    assert!(rt; from_ref::<u8, Lsb0>(&0x40).first_one() == Some(6));
    assert!(rt; BitSlice::<u8, Lsb0>::from_element(&0x12).count_ones() == 2);
}

#[test]
fn words_and_arrays_are_written(rt: HostRuntime) {
    let mut word = 0u16;
    set_word_bit::<u16, Msb0>(&mut word);
    assert!(rt; word == 0x8000);
    let mut words = [0u8; 2];
    set_first_bit::<[u8; 2], Msb0>(&mut words);
    assert!(rt; words == [0x80, 0]);
    let mut word = 0u32;
    let mut bits = from_mut::<u32, Lsb0>(&mut word);
    bits.set(31, true);
    assert!(rt; bits.len() == 32 && bits.last_one() == Some(31));
    let mut word = 0u8;
    let mut bits = BitSliceMut::<u8, Msb0>::from_element_mut(&mut word);
    bits.set(0, true);
    assert!(rt; bits.first_one() == Some(0) && bits.count_ones() == 1);
    let mut words = [0u8; 2];
    let bits = words.view_bits_mut::<Lsb0>();
    assert!(rt; bits.len() == 16 && bits.not_any());
}
