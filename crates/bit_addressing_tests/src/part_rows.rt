//! Parts of words, stored, loaded and restored.

use crate::part_callers::{first_word, store_and_load, store_and_restore, write_two};
use bit_addressing::parts::{each_digit, flipped, load_in, masked, no_digits, store_in, stored};
use bit_addressing::{BitEnd, BitIdx, BitSpan, Lsb0, Msb0, PartialElementMut};
use std::slice::from_mut;
use std::test::Fail;

#[test]
fn parts_are_restored(rt: HostRuntime) -> Result<(), Fail> {
    let mut word = 0xa5u8;
    {
        let mut part = PartialElementMut::<u8, Lsb0>::new(
            from_mut(&mut word),
            BitIdx::new_unchecked(1),
            BitEnd::new_unchecked(7),
        );
        assert!(rt; store_and_load(&mut part, 0xff) == 0x7e);
        store_and_restore(&mut part, 0x00);
    }
    assert!(rt; word == 0xff);
    Ok(())
}

#[test]
fn two_words_are_written(rt: HostRuntime) -> Result<(), Fail> {
    let mut memory = [0x12u8, 0x34, 0x56];
    let span = BitSpan::<u8, Lsb0>::new(0, BitIdx::new(4)?, 8)?;
    let (_, head, _) = span.raw_parts();
    assert!(rt; span.elements() == 2 && head.into_inner() < 8);
    write_two(span, &mut memory, 0xab, 0xcd);
    assert!(rt; memory == [0xa2, 0x3d, 0x56]);
    Ok(())
}

#[test]
fn a_word_is_masked_and_stored(rt: HostRuntime) {
    let from = BitIdx::<u8>::new_unchecked(4);
    let upto = BitEnd::<u8>::new_unchecked(7);
    assert!(rt; masked::<u8, Lsb0>(0xf2, from, upto) == 0x70);
    assert!(rt; masked::<u8, Msb0>(0x2f, from, upto) == 0x0e);
    assert!(rt; stored::<u8, Lsb0>(0x02, 0xff, from, upto) == 0x72);
    let mut memory = [0x12u8, 0x34];
    assert!(rt; load_in::<u8, Lsb0>(&memory, 1, from, upto) == 0x30);
    assert!(rt; store_in::<u8, Lsb0>(&mut memory, 1, 0x5f, from, upto) == 0x30);
    assert!(rt; memory == [0x12, 0x54]);
}

#[test]
fn words_of_equal_digits(rt: HostRuntime) {
    assert!(rt; no_digits::<u16, Msb0>() == 0);
    assert!(rt; each_digit::<u16, Lsb0>() == 0xffff);
    assert!(rt; flipped::<u16, Msb0>(0x1234) == 0xedcb);
}

#[test]
fn the_first_word_is_masked(rt: HostRuntime) -> Result<(), Fail> {
    let memory = [0x12u8, 0x34, 0x56];
    let span = BitSpan::<u8, Lsb0>::new(0, BitIdx::new(4)?, 16)?;
    assert!(rt; span.fits(3));
    assert!(rt; first_word(span, &memory) == Some(0x10));
    let none = BitSpan::<u8, Lsb0>::new(1, BitIdx::new(4)?, 0)?;
    assert!(rt; none.fits(3));
    assert!(rt; first_word(none, &memory).is_none());
    Ok(())
}
