//! Worked rows of callers, and of numbers stored piece by piece.

use crate::header::{Header, passed, write};
use crate::iter_callers::{ones_from_both_ends, third_one};
use crate::list::BYTES;
use crate::pieces::{mark_words, third_chunk};
use crate::split_callers::{fill_between_ones, ones_by_runs};
use bit_addressing_memory::{Lsb0, Msb0};
use bit_slice_fields::{BitField, BitFieldMut};
use bit_slice_iterators::BitsPiecesMut;
use bit_slice_views::{BitSlice, Bits};
use bit_slice_views_mut::{BitSliceMut, BitsWindow};

// Stores 0, 4, 8, .. in the pieces of five bits of a window.
fn store_fours<V: BitFieldMut + BitsWindow>(view: &mut V) {
    let mut pieces = view.chunks_mut(5);
    let mut number = 0u8;
    while let Some(piece) = pieces.next_mut() {
        if !piece.is_empty() && piece.len() <= 8 {
            piece.store_be(number);
        }
        number = number.wrapping_add(4);
    }
}

#[test]
fn numbers_are_stored_in_chunks_and_in_a_header(rt: HostRuntime) {
    let mut words = [0u8; 5];
    store_fours(&mut BitSliceMut::<u8, Msb0>::from_slice_mut(&mut words));
    assert!(rt; words == [0x01, 0x10, 0xc8, 0x53, 0x1c]);
    let header = Header {
        version: 0xa,
        length: 0xbcd,
        id: 0x1234,
        sequence: 0x5678_9abc,
    };
    let mut bytes = [0xffu8; 8];
    write(header, &mut bytes);
    assert!(rt; bytes == [0xab, 0xcd, 0x12, 0x34, 0x56, 0x78, 0x9a, 0xbc]);
    let read = passed(header, &mut bytes);
    assert!(rt; read.version == 0xa && read.length == 0xbcd);
    assert!(rt; read.id == 0x1234 && read.sequence == 0x5678_9abc);
}

#[test]
fn callers_answer(rt: HostRuntime) {
    let view = BitSlice::<u8, Lsb0>::from_place(&BYTES, 3, 10);
    assert!(rt; third_one(&view) == Some(3) && ones_from_both_ends(&view) == 6);
    assert!(rt; third_chunk(view).is_none());
    let few = BitSlice::<u8, Lsb0>::from_place(&BYTES, 3, 3);
    assert!(rt; third_one(&few).is_none() && ones_from_both_ends(&few) == 2);
    let mut marked = [0u8, 0, 0];
    mark_words::<u8, Lsb0>(&mut marked, 5);
    assert!(rt; marked == [0x21, 0x84, 0x10]);
    let mut words = [0xa5u8, 0x00];
    // the bits 0, 1, 0, 0, 1, 0, 1
    assert!(rt; ones_by_runs(&BitSlice::<u8, Lsb0>::from_place(&words, 1, 7)) == 3);
    fill_between_ones(&mut BitSliceMut::<u8, Lsb0>::from_place_mut(&mut words, 1, 9));
    assert!(rt; words == [0xff, 0x03]);
}
