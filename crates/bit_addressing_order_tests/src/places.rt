//! Indices, ends, positions, selectors and masks: rows, and each call once.

use bit_addressing_order::mem::{BitElement, bits_of, elts};
use bit_addressing_order::{
    AllOrNone, BitEnd, BitIdx, BitMask, BitPos, BitRegister, BitSel, Limits, LocalBits, Lsb0,
};
use std::hash::{DefaultHasher, Hash, Hasher};
use std::test::Fail;

#[test]
fn offsets_round_down(rt: HostRuntime) -> Result<(), Fail> {
    // index, by, words on, index there
    let rows = [
        (10, 40, 3, 2),
        (10, -11, -1, 15),
        (0, isize::MIN, -576460752303423488, 0),
        (15, isize::MAX, 576460752303423488, 14),
    ];
    for (index, by, words, there) in rows {
        let moved = BitIdx::<u16>::new(index)?.offset(by);
        assert!(rt;
            (moved.0, moved.1.into_inner()) == (words, there),
            "{index} by {by}"
        );
    }
    Ok(())
}

#[test]
fn offsets_go_to_the_next_word_but_one(rt: HostRuntime) -> Result<(), Fail> {
    let (words, there) = BitIdx::<u128>::new(10)?.offset(300);
    assert!(rt; (words, there.into_inner()) == (2, 54));
    Ok(())
}

#[test]
fn neighbours_tell_a_crossing(rt: HostRuntime) -> Result<(), Fail> {
    // index, the one above, crossed, the one below, crossed
    let rows = [
        (0, 1, false, 7, true),
        (3, 4, false, 2, false),
        (7, 0, true, 6, false),
    ];
    for (index, above, over, below, under) in rows {
        let index = BitIdx::<u8>::new(index)?;
        let next = index.next();
        assert!(rt; (next.0.into_inner(), next.1) == (above, over));
        let prev = index.prev();
        assert!(rt; (prev.0.into_inner(), prev.1) == (below, under));
    }
    Ok(())
}

#[test]
fn places_past_the_word_are_refused(rt: HostRuntime) {
    assert!(rt; BitIdx::<u64>::new(64).is_err());
    let error = BitIdx::<u64>::new(200).map_err(|error| error.into_inner());
    assert!(rt; error.err() == Some(200));
    assert!(rt; BitEnd::<u64>::new(65) == None);
    assert!(rt; BitPos::<u64>::new(64) == None);
    assert!(rt; BitIdx::<u128>::new(127).is_ok() && BitIdx::<u128>::new(128).is_err());
    assert!(rt; BitEnd::<u128>::new(129) == None);
    assert!(rt; BitSel::<u128>::new(1 << 127).is_some());
}

#[test]
fn places_have_their_limits(rt: HostRuntime) {
    let greatest = (
        BitIdx::<u64>::MAX.into_inner(),
        BitEnd::<u64>::MAX.into_inner(),
        BitPos::<u64>::MAX.into_inner(),
    );
    assert!(rt; greatest == (63, 64, 63));
    assert!(rt; BitIdx::<u64>::MIN == BitIdx::default());
    assert!(rt; BitEnd::<u64>::MIN == BitEnd::default());
    assert!(rt; BitPos::<u64>::MIN == BitPos::default());
}

#[test]
fn ranges_of_indices_come_from_both_ends(rt: HostRuntime) -> Result<(), Fail> {
    let mut range = BitIdx::<u8>::new(3)?.range(BitEnd::new_unchecked(6));
    assert!(rt; range.len() == 3);
    assert!(rt; range.next() == Some(BitIdx::new_unchecked(3)));
    assert!(rt; range.next_back() == Some(BitIdx::new_unchecked(5)));
    assert!(rt; range.clone()?.next() == Some(BitIdx::new_unchecked(4)));
    assert!(rt; range.next_back() == Some(BitIdx::new_unchecked(4)));
    assert!(rt; range.next().is_none() && range.next_back().is_none());
    assert!(rt; BitIdx::<u16>::range_all().count() == 16);
    Ok(())
}

#[test]
fn ranges_of_ends_come_from_both_ends(rt: HostRuntime) -> Result<(), Fail> {
    let mut ends = BitEnd::<u8>::range_from(BitIdx::new(6)?);
    assert!(rt; ends.len() == 3);
    assert!(rt; ends.next() == Some(BitEnd::new_unchecked(6)));
    assert!(rt; ends.next_back() == Some(BitEnd::MAX));
    assert!(rt; ends.next() == Some(BitEnd::new_unchecked(7)));
    assert!(rt; ends.next().is_none());
    Ok(())
}

#[test]
fn ranges_of_selectors_come_from_both_ends(rt: HostRuntime) {
    let mut selectors = BitSel::<u8>::range_all();
    assert!(rt; selectors.len() == 8);
    let first = selectors.next().map(|selector| selector.into_inner());
    assert!(rt; first == Some(1));
    let last = selectors.next_back().map(|selector| selector.into_inner());
    assert!(rt; last == Some(128));
}

#[test]
fn masks_are_sets_of_positions(rt: HostRuntime) -> Result<(), Fail> {
    let fourth = BitSel::<u8>::new(0b1000).ok_or("one bit")?;
    let mut mask = BitMask::new(0b0000_0101u8);
    assert!(rt; !mask.test(fourth));
    mask.insert(fourth);
    assert!(rt; mask.test(fourth));
    assert!(rt; mask.into_inner() == 0b0000_1101);
    assert!(rt; mask.combine(fourth) == mask);
    let others = (
        (!mask).into_inner(),
        (mask & 0b0000_0110).into_inner(),
        (mask | 0b1000_0000).into_inner(),
    );
    assert!(rt; others == (0b1111_0010, 0b0000_0100, 0b1000_1101));
    Ok(())
}

#[test]
fn masks_are_made_of_selectors(rt: HostRuntime) -> Result<(), Fail> {
    assert!(rt; BitSel::<u8>::new(0).is_none());
    assert!(rt; BitSel::<u8>::new(0b0110).is_none());
    let fourth = BitSel::<u8>::new(0b1000).ok_or("one bit")?;
    assert!(rt; fourth.mask().into_inner() == 0b1000);
    let sixth = BitPos::<u8>::new_unchecked(6).mask();
    assert!(rt; sixth.into_inner() == 0b0100_0000);
    let twice = [fourth, BitIdx::new(0)?.select::<LocalBits>(), fourth];
    assert!(rt; BitMask::sum(twice.iter().copied()).into_inner() == 0b1001);
    assert!(rt; BitMask::sum(BitSel::<u8>::range_all()) == BitMask::ALL);
    assert!(rt; BitMask::<u8>::default() == BitMask::ZERO);
    Ok(())
}

#[test]
fn order_and_hash_go_by_number(rt: HostRuntime) -> Result<(), Fail> {
    let low = BitMask::new(0x0fu8);
    let high = BitMask::new(0x10u8);
    assert!(rt; low < high);
    assert!(rt; low != high);
    let first = BitSel::<u8>::new(1).ok_or("one bit")?;
    let second = BitSel::<u8>::new(2).ok_or("one bit")?;
    assert!(rt; first < second);
    assert!(rt; first == first.clone()?);
    assert!(rt; BitIdx::<u8>::new(2)? < BitIdx::<u8>::new(3)?);
    assert!(rt; hash_of(&low) == hash_of(&BitMask::new(0x0fu8)));
    Ok(())
}

// What a hasher makes of a value.
fn hash_of<T: Hash>(value: &T) -> u64 {
    let mut state = DefaultHasher::new();
    value.hash(&mut state);
    state.finish()
}

#[test]
fn words_that_hold_so_many_bits(rt: HostRuntime) {
    assert!(rt; bits_of::<u32>() == 32);
    // bits, words of u16, words of u64
    let rows = [
        (0, 0, 0),
        (1, 1, 1),
        (16, 1, 1),
        (17, 2, 1),
        (64, 4, 1),
        (65, 5, 2),
        (usize::MAX, 1152921504606846976, 288230376151711744),
    ];
    for (bits, small, large) in rows {
        assert!(rt;
            (elts::<u16>(bits), elts::<u64>(bits)) == (small, large),
            "{bits}"
        );
    }
    assert!(rt; BitElement::new(7u8).elem == 7);
    assert!(rt; BitElement::<u8>::default() == BitElement { elem: 0 });
    assert!(rt; Lsb0 == Lsb0::default());
}

// Each call of a register, through its bound.
fn calls_of_register<R: BitRegister>(
    rt: &impl std::process::Abort,
    sizes: (u8, u8, u8),
    name: &str,
) {
    assert!(rt; (R::BITS, R::INDX, R::MASK) == sizes);
    assert!(rt; R::NAME == name);
    assert!(rt; R::type_name() == name);
    assert!(rt; R::from_value(u128::MAX - 1).equals(R::ONE.not()));
    assert!(rt; R::ZERO.not().equals(R::ALL));
    assert!(rt; R::ONE.shl(R::MASK).shr(R::MASK).equals(R::ONE));
    assert!(rt; R::ONE.shl(3).or(R::ONE).value() == 9);
    assert!(rt; R::ALL.xor(R::ONE).and(R::ONE).equals(R::ZERO));
    assert!(rt; R::ZERO.compare(R::ONE) == std::cmp::Ordering::Less);
}

#[test]
fn registers(rt: HostRuntime) {
    calls_of_register::<u8>(&rt, (8, 3, 7), "u8");
    calls_of_register::<u16>(&rt, (16, 4, 15), "u16");
    calls_of_register::<u32>(&rt, (32, 5, 31), "u32");
    calls_of_register::<u64>(&rt, (64, 6, 63), "u64");
    calls_of_register::<usize>(&rt, (64, 6, 63), "usize");
    calls_of_register::<u128>(&rt, (128, 7, 127), "u128");
}
