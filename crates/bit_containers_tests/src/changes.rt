//! Arrays changed by the callers of `arrays.rt`.

use crate::arrays::{
    last_of, moved_and_turned, no_bits, one_bit, one_bit_of_16, set_first_by_words, set_two,
    without,
};
use bit_addressing_memory::{Lsb0, Msb0};
use bit_containers_array::{BitArray, BitArrayZero};
use bit_slice_views::Bits;
use bit_slice_views_mut::BitsMut;
use std::process::Abort;

#[test]
fn arrays_of_callers(rt: HostRuntime) {
    let mut array = BitArray::<[u8; 2], Lsb0>::ZERO;
    assert!(rt; array.len() == 16);
    set_two(&mut array, 0, 9);
    assert!(rt; array.words == [0x01, 0x02] && no_bits::<u8, Lsb0>().words == 0);
    assert!(rt; one_bit::<[u16; 2], Msb0>(17).words == [0, 0x4000]);
    assert!(rt; one_bit_of_16(8).words == [0x00, 0x80]);
    moved_and_turned(&mut array);
    // 1000 0000 0100 0000 becomes 1100 0000 0100 0000, turned 0000 0010 0000 0011
    assert!(rt; array.words == [0x40, 0xc0]);
    let rest = without(array, BitArray::new([0x40, 0x80]));
    assert!(rt;
        rest.words == [0x00, 0x40] && last_of(rest) == Some(false) && last_of(array) == Some(true)
    );
    let mut array = BitArray::<u8, Msb0>::ZERO;
    set_first_by_words(&mut array);
    assert!(rt; array.words == 0x80);
    let mut array = BitArray::<[u8; 2], Lsb0>::new([0x00, 0xf0]);
    assert!(rt; array.len() == 16);
    assert!(rt; array.move_within(8, 3, 8) == 2 && array.words == [0x80, 0xf7]);
    array.words = [0x00, 0x80];
    assert!(rt; array.first_one() == Some(15) && array.into_inner() == [0x00, 0x80]);
}
