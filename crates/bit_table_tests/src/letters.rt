//! The letters of many rows told at once, and row by row, beside a plain list of flags.

use bit_addressing_memory::{HiLo, Lsb0, Msb0};
use bit_slice_views::{BitStore, Bits};
use bit_slice_words::WordPaths;
use bit_table_rows::{LETTERS, Letters};
use std::alloc::{AllocError, Global};

const ROWS: usize = 150;

// Tells stretches of rows one after another, and answers whether each row bears the letter as the list says, and no other.
fn told_as_the_list<T: BitStore, O: WordPaths<T>>(alloc: Global) -> Result<bool, AllocError> {
    let stretches = [
        (3usize, 64usize, u64::MAX),
        (60, 7, 0b101_0011),
        (64, 64, 0x0123_4567_89ab_cdef),
        (86, 64, 0xf00f_0000_0000_0001),
        (149, 1, 0),
        // of these digits the first alone
        (0, 1, 3),
    ];
    let mut letters = Letters::<T, O>::of_rows(alloc, ROWS)?;
    let mut flags = [false; ROWS];
    for (first, count, digits) in stretches {
        if letters.rows() != ROWS || count == 0 || count > 64 || first > ROWS - count {
            return Ok(false);
        }
        letters.put_many(3, first, count, digits);
        for k in 0..count {
            flags[first + k] = (digits >> k) % 2 == 1;
        }
    }
    put_each(&mut letters, &[true; ROWS]);
    put_each(&mut letters, &flags);
    Ok(
        is_list(&letters, 3, &flags)
            && is_list(&letters, 5, &flags)
            && letters.count(2) == 0
            && letters.count(4) == 0,
    )
}

// Tells each row by itself whether it bears another letter.
fn put_each<T: BitStore, O: WordPaths<T>>(letters: &mut Letters<T, O>, flags: &[bool]) {
    for row in 0..flags.len() {
        if row < letters.rows() {
            letters.put(5, row, flags[row]);
        }
    }
}

// Whether the rows bear a letter as a list of flags says.
fn is_list<T: BitStore, O: WordPaths<T>>(
    letters: &Letters<T, O>,
    letter: usize,
    flags: &[bool],
) -> bool {
    if letter >= LETTERS {
        return false;
    }
    let list = letters.list(letter);
    if list.len() != flags.len() {
        return false;
    }
    for row in 0..flags.len() {
        if list.bit(row) != flags[row] {
            return false;
        }
    }
    true
}

#[test]
fn many_rows_are_told_at_once(rt: HostRuntime) -> Result<(), AllocError> {
    assert!(rt; told_as_the_list::<u8, Msb0>(rt.alloc())?);
    assert!(rt; told_as_the_list::<u16, HiLo>(rt.alloc())?);
    assert!(rt; told_as_the_list::<u64, Lsb0>(rt.alloc())?);
    assert!(rt; told_as_the_list::<u128, HiLo>(rt.alloc())?);
    Ok(())
}
