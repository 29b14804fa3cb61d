//! Room for rows: many insertions ask for memory seldom, and those within the room not at all.

use bit_addressing_memory::{BitOrder, Lsb0, Msb0};
use bit_containers_vector::BitVec;
use bit_slice_views::{BitSlice, BitStore, Bits};
use bit_table_rows::{delete_rows, dup_rows, insert_row};
use std::alloc::AllocError;

// Puts so many rows of seven bits in at the end, and answers how often the capacity changed.
fn put_at_end<T: BitStore, O: BitOrder<T>>(
    vector: &mut BitVec<T, O>,
    rows: usize,
) -> Result<usize, AllocError> {
    let word = [0x2du8];
    let row = BitSlice::<u8, Lsb0>::from_place(&word, 0, 7);
    let mut grown = 0usize;
    for _k in 0..rows {
        let n = vector.len() / 7;
        if n >= 1_000_000 || n * 7 != vector.len() {
            break;
        }
        let before = vector.capacity();
        insert_row(vector, n, 7, n, &row)?;
        if vector.capacity() != before {
            grown = grown.wrapping_add(1);
        }
    }
    Ok(grown)
}

#[test]
fn a_hundred_thousand_rows_grow_seldom(rt: HostRuntime) -> Result<(), AllocError> {
    let mut vector = BitVec::<u64, Lsb0>::new(rt.alloc());
    let grown = put_at_end(&mut vector, 100_000)?;
    assert!(rt; vector.len() == 700_000 && grown <= 24);
    Ok(())
}

#[test]
fn rows_within_the_room_take_no_memory(rt: HostRuntime) -> Result<(), AllocError> {
    let mut vector = BitVec::<u8, Msb0>::new(rt.alloc());
    vector.reserve(7000)?;
    let room = vector.capacity();
    let grown = put_at_end(&mut vector, 900)?;
    assert!(rt; grown == 0 && vector.len() == 6300);
    dup_rows(&mut vector, 900, 7, 0, 100)?;
    assert!(rt; vector.len() == 7000 && vector.capacity() == room);
    delete_rows(&mut vector, 1000, 7, 0, 999);
    assert!(rt; vector.len() == 7 && vector.capacity() == room);
    Ok(())
}
