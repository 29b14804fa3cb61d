//! Rows of pointers and their ranges.

use crate::memory_callers::{write_two, written_then_read};
use bit_addressing::entries::swap_entries;
use bit_addressing::{BitIdx, BitPtr, BitPtrRange, Dangling, EmptyRange, Lsb0};

#[test]
fn pointers_go_on_and_back(rt: HostRuntime) {
    let start = BitPtr::<u8, Lsb0>::new(3, BitIdx::new_unchecked(5));
    let on = start.add(100);
    assert!(rt; on.address() == 16);
    assert!(rt; (on.offset_from(start), start.offset_from(on)) == (100, -100));
    assert!(rt; on.sub(100) == start);
    assert!(rt; on.offset(-100) == start);
    assert!(rt; start.wrapping_add(100).wrapping_sub(100) == start);
    assert!(rt; BitPtr::<u8, Lsb0>::DANGLING < start && start < on);
}

#[test]
fn a_range_gives_each_pointer_once(rt: HostRuntime) {
    let start = BitPtr::<u8, Lsb0>::new(-1, BitIdx::new_unchecked(6));
    let end = BitPtr::<u8, Lsb0>::new(0, BitIdx::new_unchecked(2));
    let mut range = BitPtrRange::from_range(start..end);
    assert!(rt; range.len() == 4);
    assert!(rt; range.next() == Some(start));
    assert!(rt; range.next_back() == Some(start.add(3)));
    assert!(rt; range.next() == Some(start.add(1)));
    assert!(rt; range.next() == Some(start.add(2)));
    assert!(rt; range.is_empty());
    assert!(rt; range.next().is_none() && range.next_back().is_none() && range.next().is_none());
}

#[test]
fn a_range_holds_its_pointers(rt: HostRuntime) {
    let start = BitPtr::<u8, Lsb0>::new(-1, BitIdx::new_unchecked(6));
    let end = BitPtr::<u8, Lsb0>::new(0, BitIdx::new_unchecked(2));
    let range = BitPtrRange::from_range(start..end);
    assert!(rt; range.contains(&start) && !range.contains(&end));
    assert!(rt; range.start() == start && range.end() == end);
    assert!(rt; BitPtrRange::<u8, Lsb0>::EMPTY.is_empty());
    assert!(rt; BitPtrRange::<u8, Lsb0>::default() == BitPtrRange::EMPTY);
}

#[test]
fn neighbours_are_written(rt: HostRuntime) {
    let mut words = [0xf0u8, 0x0f];
    write_two::<u8, Lsb0>(&mut words, 7, false, 8, false);
    assert!(rt; words == [0x70, 0x0e]);
    assert!(rt; written_then_read::<u8, Lsb0>(&mut words, 15));
    swap_entries::<u8, Lsb0>(&mut words, 0, 4);
    assert!(rt; words == [0x61, 0x8e]);
}
