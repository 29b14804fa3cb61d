//! The worked rows of orders and of their verification.

use crate::candidates::{AllAtZero, EmptyMask, EmptyTail, EmptyUpperTail, OtherSelector};
use bit_addressing_order::{
    BitEnd, BitIdx, BitOrder, BitRegister, Lsb0, Msb0, disjoint_masks, mask_from_at, select_from_at,
};
use bit_addressing_sample_orders::word_callers::{
    both_positions, field, highest_four, parts, there_and_back, toggled,
};
use bit_addressing_sample_orders::{Count, FifthStep};
use bit_addressing_verify::{OrderFault, WordFault, verify, verify_for_type};
use std::test::Fail;

// The mask of the first three indices of a byte.
fn first_three<O: BitOrder<u8>>() -> u8 {
    let mask = O::mask(None, BitEnd::new(3));
    mask.into_inner()
}

#[test]
fn masks_of_a_users_orders(rt: HostRuntime) {
    assert!(rt; first_three::<Lsb0>() == 0b0000_0111);
    assert!(rt; first_three::<Msb0>() == 0b1110_0000);
    assert!(rt; first_three::<FifthStep>() == 0b0010_1001);
}

#[test]
fn positions_and_selectors_of_the_orders(rt: HostRuntime) -> Result<(), Fail> {
    // index, and its position under each order
    let rows = [(0, 0, 15, 3), (1, 1, 14, 8), (6, 6, 9, 1), (15, 15, 0, 14)];
    for (index, least, most, fifth) in rows {
        let index = BitIdx::<u16>::new(index)?;
        assert!(rt; index.position::<Lsb0>().into_inner() == least);
        assert!(rt; index.position::<Msb0>().into_inner() == most);
        assert!(rt; index.position::<FifthStep>().into_inner() == fifth);
        assert!(rt; index.select::<Msb0>().into_inner().value() == 1 << most);
        assert!(rt; index.mask::<FifthStep>().into_inner().value() == 1 << fifth);
    }
    Ok(())
}

#[test]
fn helpers_of_an_order(rt: HostRuntime) {
    assert!(rt; select_from_at::<u8, FifthStep>(2) == 0b0010_0000);
    assert!(rt; mask_from_at::<u8, FifthStep>(Some(1), Some(3)) == 0b0010_0001);
    assert!(rt; mask_from_at::<u8, FifthStep>(None, None) == 0xff);
}

#[test]
fn masks_of_ranges_apart(rt: HostRuntime) -> Result<(), Fail> {
    let split = BitEnd::<u32>::new(9);
    let from = Some(BitIdx::<u32>::new(9)?);
    let (low, high) = disjoint_masks::<u32, Msb0>(None, split, from, None);
    assert!(rt; low.into_inner() == 0xff80_0000);
    assert!(rt; high.into_inner() == 0x007f_ffff);
    let split = BitEnd::<u128>::new(100);
    let from = Some(BitIdx::<u128>::new(100)?);
    let (low, high) = disjoint_masks::<u128, Lsb0>(None, split, from, None);
    assert!(rt; low.into_inner() == 0x0000_000f_ffff_ffff_ffff_ffff_ffff_ffff);
    assert!(rt; high.into_inner() == 0xffff_fff0_0000_0000_0000_0000_0000_0000);
    Ok(())
}

#[test]
fn lawful_orders_are_told_so(rt: HostRuntime) {
    assert!(rt; verify::<Lsb0>() == Ok(()));
    assert!(rt; verify::<Msb0>() == Ok(()));
    assert!(rt; verify::<FifthStep>() == Ok(()));
}

#[test]
fn unlawful_candidates_are_told_their_first_fault(rt: HostRuntime) -> Result<(), Fail> {
    let repeated = OrderFault::Repeated(BitIdx::<u8>::new(1)?);
    assert!(rt; verify_for_type::<u8, AllAtZero>() == Err(repeated));
    let selector = OrderFault::Selector(BitIdx::<u8>::new(3)?);
    assert!(rt; verify_for_type::<u8, OtherSelector>() == Err(selector));
    let mask = OrderFault::Mask(Some(BitIdx::<u8>::new(2)?), BitEnd::new(5));
    assert!(rt; verify_for_type::<u8, EmptyMask>() == Err(mask));
    let tail = OrderFault::Mask(Some(BitIdx::<u8>::new(4)?), None);
    assert!(rt; verify_for_type::<u8, EmptyTail>() == Err(tail));
    assert!(rt; verify::<EmptyTail>() == Err(WordFault::U8(tail)));
    assert!(rt; verify_for_type::<u64, EmptyUpperTail>() == Ok(()));
    let upper = OrderFault::Mask(Some(BitIdx::<u128>::new(100)?), None);
    assert!(rt; verify::<EmptyUpperTail>() == Err(WordFault::U128(upper)));
    Ok(())
}

#[test]
fn parts_of_words(rt: HostRuntime) -> Result<(), Fail> {
    let fourth = BitIdx::<u16>::new(4)?;
    assert!(rt; field::<u16, Msb0>(0xabcd, fourth, BitEnd::new_unchecked(8)) == 0x0b00);
    let first = BitIdx::<u8>::new(1)?;
    assert!(rt; field::<u8, Lsb0>(0xff, first, BitEnd::new_unchecked(5)) == 0b0001_1110);
    assert!(rt; field::<u8, FifthStep>(0xff, first, BitEnd::new_unchecked(3)) == 0b0010_0001);
    let third = BitIdx::<u8>::new(3)?;
    assert!(rt; parts::<u8, Lsb0>(0b1011_0110, third) == (0b0000_0110, 0b1011_0000));
    assert!(rt; parts::<u8, FifthStep>(0xff, third) == (0b0010_1001, 0b1101_0110));
    assert!(rt; highest_four() == 0b1111_0000);
    Ok(())
}

#[test]
fn bits_are_flipped(rt: HostRuntime) -> Result<(), Fail> {
    let first = BitIdx::<u32>::new(1)?;
    assert!(rt; toggled::<u32, Msb0>(0, first) == 0x4000_0000);
    assert!(rt; toggled::<u32, Msb0>(0x4000_0000, first) == 0);
    assert!(rt; toggled::<u8, FifthStep>(0xff, BitIdx::new(0)?) == 0b1111_0111);
    Ok(())
}

#[test]
fn neighbours_and_ends_of_indices(rt: HostRuntime) -> Result<(), Fail> {
    for number in [0, 1, 62, 63] {
        let index = BitIdx::<u64>::new(number)?;
        assert!(rt; there_and_back(index) == index, "{number}");
        assert!(rt; both_positions(index) == 63, "{number}");
    }
    Ok(())
}

// Whether an order's positions at words of one register are those that are counted by hand.
fn counts_alike<R: BitRegister, O: BitOrder<R>>(count: Count) -> bool {
    BitIdx::<R>::range_all().all(|index: BitIdx<R>| {
        let counted = count.digit(R::BITS as usize, index.into_inner() as usize);
        index.position::<O>().into_inner() as usize == counted
    })
}

#[test]
fn positions_are_those_counted_by_hand(rt: HostRuntime) {
    assert!(rt; counts_alike::<u8, Lsb0>(Count::Lowest));
    assert!(rt; counts_alike::<u64, Lsb0>(Count::Lowest));
    assert!(rt; counts_alike::<u16, Msb0>(Count::Highest));
    assert!(rt; counts_alike::<usize, Msb0>(Count::Highest));
    assert!(rt; counts_alike::<u8, FifthStep>(Count::Fifths));
    assert!(rt; counts_alike::<u32, FifthStep>(Count::Fifths));
    assert!(rt; counts_alike::<u128, Msb0>(Count::Highest));
    assert!(rt; counts_alike::<u128, FifthStep>(Count::Fifths));
}
