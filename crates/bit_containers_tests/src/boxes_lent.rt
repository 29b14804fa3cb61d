//! The words of boxes, lent to a function.

ghost use Rattle.std.specs.Prelude.{reverse};
ghost use Rattle.bit_addressing_memory.specs.Memory.{read_by};
ghost use Rattle.bit_containers_box.specs.Box.{box_visible};
ghost use Rattle.bit_containers_box.specs.Lending.{HasWords};

use crate::vectors_lent::turn_all;
use bit_addressing_memory::{BitOrder, Msb0};
use bit_containers_box::BitBox;
use bit_slice_views::{BitSlice, BitStore, Bits};
use bit_slice_views_mut::BitsMut;
use std::alloc::AllocError;
use std::process::Abort;

// Turns the order of a box's visible words round: what a caller knows of words that were lent.
fn turn_visible<T: BitStore, O: BitOrder<T>>(bits: &mut BitBox<T, O>)
    ensures { HasWords (read_by T.BitRegister O.position) bits.old
        (reverse (box_visible (read_by T.BitRegister O.position) bits.old)) bits.new }
{
    turn_all::<T>(bits.as_raw_mut_slice());
}

#[test]
fn lent_words_are_turned(rt: HostRuntime) -> Result<(), AllocError> {
    let words = [0xf2u8, 0x3f];
    // 11[11 0010 00]11 1111
    let window = BitSlice::<u8, Msb0>::from_place(&words, 2, 8);
    let mut bits = BitBox::from_bitslice(rt.alloc(), window)?;
    bits.fill_uninitialized(true);
    turn_visible(&mut bits);
    assert!(rt; bits.as_raw_slice() == [0b0011_1111u8, 0b1111_0010].as_slice());
    assert!(rt; bits.len() == 8 && bits.first_place() == 2 && bits.all());
    Ok(())
}
