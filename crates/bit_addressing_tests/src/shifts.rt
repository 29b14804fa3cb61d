//! Rows of directions and of words cut by shifts.

use bit_addressing::shifts::{Direction, Straight, direction_of, goes, joined, raised};
use bit_addressing::{BitRegister, Lsb0, Msb0, Positions};
use bit_addressing_sample_orders::FifthStep;

// The directions of the orders of the crate, and of another one.
fn directions<R: BitRegister>() -> [Option<Direction>; 3] {
    [
        direction_of::<R, Lsb0>(),
        direction_of::<R, Msb0>(),
        direction_of::<R, FifthStep>(),
    ]
}

#[test]
fn directions_of_orders(rt: HostRuntime) {
    let wanted = [
        Some(Direction::Ascending),
        Some(Direction::Descending),
        None,
    ];
    assert!(rt; directions::<u8>() == wanted);
    assert!(rt; directions::<u16>() == wanted);
    assert!(rt; directions::<u32>() == wanted);
    assert!(rt; directions::<u64>() == wanted);
    assert!(rt; directions::<usize>() == wanted);
    assert!(rt; directions::<u128>() == wanted);
    assert!(rt; goes::<u8, Msb0>(Direction::Descending) && !goes::<u8, Msb0>(Direction::Ascending));
}

// The direction that a `Straight` of the order has, where one is found.
fn found<R: BitRegister, P: Positions<R>>() -> Option<Direction> {
    match Straight::<R, P>::find() {
        Some(straight) => Some(straight.direction),
        None => None,
    }
}

#[test]
fn straight_orders_are_found(rt: HostRuntime) {
    assert!(rt; found::<u8, Lsb0>() == Some(Direction::Ascending));
    assert!(rt; found::<u8, Msb0>() == Some(Direction::Descending));
    assert!(rt; found::<u128, Lsb0>() == Some(Direction::Ascending));
    assert!(rt; found::<u128, Msb0>() == Some(Direction::Descending));
    assert!(rt; found::<u8, FifthStep>() == None && found::<u128, FifthStep>() == None);
}

#[test]
fn words_are_cut_from_two(rt: HostRuntime) {
    // by, digits of 0x12 and 0x34 under the lowest first, of 0x48 and 0x2c, their mirrors, under the highest first
    let rows = [(4, 0x41u8, 0x82u8), (1, 0x09, 0x90), (7, 0x68, 0x16)];
    for (by, lowest_first, highest_first) in rows {
        let cut = joined::<u8, Lsb0>(Direction::Ascending, 0x12, 0x34, by);
        assert!(rt; cut == lowest_first, "by {by}");
        let cut = joined::<u8, Msb0>(Direction::Descending, 0x48, 0x2c, by);
        assert!(rt; cut == highest_first, "by {by}");
    }
    let cut = joined::<u16, Lsb0>(Direction::Ascending, 0x1234, 0x5678, 12);
    assert!(rt; cut == 0x6781);
}

#[test]
fn words_are_raised(rt: HostRuntime) {
    // by, 0x41 under the lowest first, its mirror 0x82 under the highest first
    let rows = [(0, 0x41u8, 0x82u8), (3, 0x08, 0x10), (7, 0x80, 0x01)];
    for (by, lowest_first, highest_first) in rows {
        assert!(rt;
            raised::<u8, Lsb0>(Direction::Ascending, 0x41, by) == lowest_first,
            "by {by}"
        );
        assert!(rt;
            raised::<u8, Msb0>(Direction::Descending, 0x82, by) == highest_first,
            "by {by}"
        );
    }
}
