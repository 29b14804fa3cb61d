//! Rows of moves, with reads and writes, and every small move compared with a plain copy of bits.

use crate::callers::{byte_reads, move_counted, move_list, move_within, own_array};
use bit_addressing::{BitOrder, Lsb0, Msb0};
use bit_addressing_sample_orders::FifthStep;

#[test]
fn moves_of_sixteen_bits(rt: HostRuntime) {
    // target, memory after, the same with each byte's digits turned round, reads and writes at most
    let rows = [
        (0, [0x41u8, 0x63, 0x56], [0x82u8, 0xc6, 0x6a], 6, 2),
        (8, [0x12, 0x41, 0x63], [0x48, 0x82, 0xc6], 6, 2),
        (5, [0x32, 0x68, 0x4c], [0x4c, 0x16, 0x32], 9, 3),
    ];
    for (target, after, turned, most_read, most_written) in rows {
        let mut words = [0x12u8, 0x34, 0x56];
        let (reads, writes) = move_counted::<u8, Lsb0>(&mut words, 4, target, 16);
        assert!(rt; words == after, "to {target}");
        assert!(rt; reads <= most_read, "to {target}: {reads}");
        assert!(rt; writes <= most_written, "to {target}: {writes}");
        let mut words = [0x48u8, 0x2c, 0x6a];
        let (reads, writes) = move_counted::<u8, Msb0>(&mut words, 4, target, 16);
        assert!(rt; words == turned, "to {target}");
        assert!(rt; reads <= most_read, "to {target}: {reads}");
        assert!(rt; writes <= most_written, "to {target}: {writes}");
    }
    let (lowest_first, highest_first) = byte_reads(0x12, 0x34, 0x56);
    assert!(rt; lowest_first <= 6 && highest_first <= 6);
}

#[test]
fn moves_under_another_order(rt: HostRuntime) {
    let mut words = [0x12u8, 0x34, 0x56];
    let writes = move_list::<u8, FifthStep>(&mut words, 4, 8, 16);
    assert!(rt; words == [0x12, 0x63, 0x41]);
    assert!(rt; writes <= 2);
    let (words, writes) = own_array::<u8, FifthStep>(0x12, 0x34, 0x56);
    assert!(rt; words == [0x63, 0x41, 0x56]);
    assert!(rt; writes <= 2);
    let (words, writes) = own_array::<u8, Lsb0>(0x12, 0x34, 0x56);
    assert!(rt; words == [0x41, 0x63, 0x56]);
    assert!(rt; writes <= 2);
}

// The bits of nine bytes, where the bit at each index of a byte is the digit of a mask.
fn listed(masks: [u8; 8], bytes: [u8; 9]) -> [bool; 72] {
    let mut list = [false; 72];
    for place in 0..72usize {
        list[place] = bytes[place / 8] & masks[place % 8] != 0;
    }
    list
}

// The first source, target and length up to 24, 24 and 40 whose move over nine bytes leaves other bits than a plain copy
// of the bits one by one. `masks` has the digit of each index of a byte.
fn first_other_move<O: BitOrder<u8>>(masks: [u8; 8]) -> Option<(usize, usize, usize)> {
    let before = [0x12u8, 0x34, 0x56, 0x78, 0x9a, 0xbc, 0xde, 0xf0, 0x5b];
    let own = listed(masks, before);
    for source in 0..25usize {
        for target in 0..25usize {
            for len in 0..41usize {
                let mut copied = own;
                for i in 0..len {
                    copied[target + i] = own[source + i];
                }
                let mut words = before;
                let _writes = move_within::<u8, O>(&mut words, source, target, len);
                if listed(masks, words) != copied {
                    return Some((source, target, len));
                }
            }
        }
    }
    None
}

#[test]
fn every_small_move_is_a_plain_copy(rt: HostRuntime) {
    assert!(rt; first_other_move::<Lsb0>([1, 2, 4, 8, 16, 32, 64, 128]) == None);
    assert!(rt; first_other_move::<Msb0>([128, 64, 32, 16, 8, 4, 2, 1]) == None);
    // the digits 3, 0, 5, 2, 7, 4, 1, 6
    assert!(rt; first_other_move::<FifthStep>([8, 1, 32, 4, 128, 16, 2, 64]) == None);
}
