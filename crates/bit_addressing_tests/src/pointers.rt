//! Ranges of pointers, against places counted from word -100 on, and what pointers ask.

use crate::memory_callers::{moved_distance, range_between};
use bit_addressing::{BitIdx, BitOrder, BitPtr, BitPtrRange, BitRegister, Limits, Lsb0, Msb0};
use bit_addressing_sample_orders::FifthStep;
use std::ops::{Bound, RangeBounds};
use std::test::Fail;

// Whether a pointer lies at a place.
fn lies_at<R: BitRegister, O: BitOrder<R>>(pointer: BitPtr<R, O>, place: u32) -> bool {
    let bits = R::BITS as u32;
    let (word, bit) = pointer.raw_parts();
    word == (place / bits) as isize - 100 && bit.into_inner() as u32 == place % bits
}

#[test]
fn pointers_tell_the_distance_back(rt: HostRuntime) {
    assert!(rt; moved_distance::<u8, Lsb0>(-3, 7, -700) == -700);
    assert!(rt; moved_distance::<u8, Lsb0>(-3, 7, 1) == 1);
    assert!(rt; moved_distance::<u64, FifthStep>(2, 63, -1) == -1);
    assert!(rt; moved_distance::<u64, FifthStep>(2, 63, 699) == 699);
}

#[test]
fn a_memory_begins_at_word_0(rt: HostRuntime) {
    let mut word = 7u64;
    assert!(rt; lies_at(BitPtr::<u64, Msb0>::from_ref(&word), 6400));
    assert!(rt; lies_at(BitPtr::<u64, Lsb0>::from_mut(&mut word), 6400));
    let mut words = [1u8, 2];
    assert!(rt; lies_at(BitPtr::<u8, FifthStep>::from_slice(&words), 800));
    assert!(rt; lies_at(BitPtr::<u8, Lsb0>::from_mut_slice(&mut words), 800));
    assert!(rt; lies_at(BitPtr::<u8, Msb0>::from_slice_mut(&mut words), 800));
    assert!(rt; words == [1, 2]);
}

// Whether a range gives the pointers from a place up to before another, two from the front and one from
// the back in turn.
fn gives<R: BitRegister, O: BitOrder<R>>(
    mut range: BitPtrRange<R, O>,
    first: u32,
    end: u32,
    len: usize,
) -> bool {
    let mut low = first;
    let mut high = end;
    for k in 0..len {
        let left = len - k;
        if range.len() != left || range.size_hint() != (left, Some(left)) || range.is_empty() {
            return false;
        }
        let place = if k % 3 < 2 { low } else { high.wrapping_sub(1) };
        let given = if k % 3 < 2 {
            range.next()
        } else {
            range.next_back()
        };
        match given {
            Some(pointer) => {
                if !lies_at(pointer, place) {
                    return false;
                }
            }
            None => return false,
        }
        if k % 3 < 2 {
            low = low.wrapping_add(1);
        } else {
            high = high.wrapping_sub(1);
        }
    }
    low == high
        && range.is_empty()
        && range.next().is_none()
        && range.next_back().is_none()
        && lies_at(range.start(), low)
        && lies_at(range.end(), high)
}

// Whether a range lies between two places, by what it tells of itself and of pointers.
fn spans<R: BitRegister, O: BitOrder<R>>(range: &BitPtrRange<R, O>, first: u32, end: u32) -> bool {
    let from = match range.start_bound() {
        Bound::Included(_) => lies_at(range.start(), first),
        _ => false,
    };
    let upto = match range.end_bound() {
        Bound::Excluded(_) => lies_at(range.end(), end),
        _ => false,
    };
    from && upto
        && range.contains(&range.start())
        && !range.contains(&range.end())
        && RangeBounds::contains(range, &range.start())
        && !RangeBounds::contains(range, &range.end())
}

#[test]
fn ranges_are_counted(rt: HostRuntime) -> Result<(), Fail> {
    // from bit 60 of the word -1 on, 71 bits of words of 64
    let start = BitPtr::<u64, FifthStep>::new(-1, BitIdx::new_unchecked(60));
    let end = BitPtr::<u64, FifthStep>::new(1, BitIdx::new_unchecked(3));
    let range = BitPtrRange::from_range(start..end);
    assert!(rt; spans(&range, 6396, 6467));
    assert!(rt; gives(range.clone()?, 6396, 6467, 71));
    let parts = range.into_range();
    assert!(rt; lies_at(parts.start, 6396));
    assert!(rt; lies_at(parts.end, 6467));

    // from bit 6 of the word -1 on, 11 bits of bytes
    let start = BitPtr::<u8, Msb0>::new(-1, BitIdx::new_unchecked(6));
    let range = BitPtrRange::from_range(start..start.add(11));
    assert!(rt; spans(&range, 798, 809));
    assert!(rt; !range.contains(&start.sub(1)));
    assert!(rt; range.contains(&start.add(10)));
    assert!(rt; range == range.clone()?);
    assert!(rt; gives(range, 798, 809, 11));
    Ok(())
}

#[test]
fn each_count_can_be_added(rt: HostRuntime) {
    let pointer = BitPtr::<u8, Lsb0>::new(0, BitIdx::MIN);
    assert!(rt; pointer.can_add(usize::MAX) && pointer.can_sub(usize::MAX));
}

#[test]
fn distances_are_tested(rt: HostRuntime) {
    let first = BitPtr::<u8, Msb0>::new(isize::MIN, BitIdx::MIN);
    let here = BitPtr::<u8, Msb0>::new(0, BitIdx::MIN);
    assert!(rt; !here.can_offset_from(first) && !first.can_offset_from(here));
    assert!(rt; !BitPtrRange::is_range(&(first..here)) && !BitPtrRange::is_range(&(here..first)));
    // 2 ^ 60 words of 8 bits are 2 ^ 63 bits on, one more than an `isize` counts, and as many back it does
    let far = BitPtr::<u8, Msb0>::new(1152921504606846976, BitIdx::MIN);
    assert!(rt; !far.can_offset_from(here) && here.can_offset_from(far));
    assert!(rt; here.offset_from(far) == isize::MIN);
    assert!(rt; !BitPtrRange::is_range(&(here..far)) && !BitPtrRange::is_range(&(far..here)));
    let last = BitPtr::<u8, Msb0>::new(1152921504606846975, BitIdx::MAX);
    assert!(rt; last.can_offset_from(here) && BitPtrRange::is_range(&(here..last)));
    assert!(rt; BitPtrRange::from_range(here..last).len() == isize::MAX as usize);
    assert!(rt; BitPtrRange::is_range(&(here..here)));
    assert!(rt; range_between(here, last).is_some());
    assert!(rt; range_between(last, here).is_none() && range_between(here, far).is_none());
}

#[test]
fn places_in_a_memory_are_tested(rt: HostRuntime) {
    let pointer = BitPtr::<u8, Lsb0>::new(1, BitIdx::new_unchecked(3));
    assert!(rt; pointer.lies_in(13, 3));
    assert!(rt; !pointer.lies_in(14, 3));
    assert!(rt; !pointer.lies_in(1, 1));
    let before = BitPtr::<u8, Lsb0>::new(-1, BitIdx::MAX);
    assert!(rt; !before.lies_in(1, 3));
    assert!(rt; before.lies_in(0, 0));
}

#[test]
fn no_bits_are_copied_anywhere(rt: HostRuntime) {
    let mut words = [0x12u8, 0x34];
    let before = BitPtr::<u8, Lsb0>::new(-3, BitIdx::MAX);
    before.copy_within(&mut words, before, 0);
    assert!(rt; words == [0x12, 0x34]);
}
