//! Windows that begin and end in the middle of words.

ghost use Rattle.std.specs.Prelude.{◌≤◌};

use crate::digest::Digest;
use crate::random::Random;
use bit_slice::{
    BitOrder, BitSlice, BitSliceMut, BitStore, Bits, BitsCopy, BitsFill, BitsMut, Lsb0, Msb0,
};
use bit_table::HiLo;
use std::alloc::{AllocError, Global};

// Where a window begins.
const PLACE: usize = 13;

/// In each round windows of so many bits are turned, moved, exchanged and searched, over words of 64, 8 and 16 bits.
pub fn work(
    alloc: Global,
    rounds: u32,
    size: u32,
    random: &mut Random,
    digest: &mut Digest,
) -> Result<(), AllocError>
    requires least { 20 ≤ size }
    requires most { size ≤ 1000000 }
{
    let mut longs = Vec::new(alloc);
    let mut others = Vec::new(alloc);
    for _ in 0..size / 64 + 2 {
        longs.push(random.whole())?;
        others.push(random.whole())?;
    }
    let mut bytes = Vec::new(alloc);
    for _ in 0..size / 8 + 4 {
        bytes.push(random.below(256) as u8)?;
    }
    let mut shorts = Vec::new(alloc);
    for _ in 0..size / 16 + 2 {
        shorts.push(random.below(65_536) as u16)?;
    }
    for _ in 0..rounds {
        turn::<u64, Lsb0>(&mut longs, &mut others, size, random, digest);
        turn::<u8, Msb0>(&mut bytes, &mut others, size, random, digest);
        turn::<u16, HiLo>(&mut shorts, &mut others, size, random, digest);
    }
    for long in longs.iter() {
        digest.push(*long);
    }
    for long in others.iter() {
        digest.push(*long);
    }
    for byte in bytes.iter() {
        digest.push(u64::from(*byte));
    }
    for short in shorts.iter() {
        digest.push(u64::from(*short));
    }
    Ok(())
}

// Turns a window, moves a part of it, flips each fifth bit, exchanges it with another, and looks for some of its bits.
fn turn<T: BitStore, O: BitOrder<T>>(
    words: &mut [T],
    others: &mut [u64],
    size: u32,
    random: &mut Random,
    digest: &mut Digest,
)
    requires least { 20 ≤ size }
    requires most { size ≤ 1000000 }
{
    let bits = size as usize;
    let most = words.len().saturating_mul(T::BITS as usize);
    let other_most = others.len().saturating_mul(64);
    if PLACE + bits > most || most > 2_000_000 || 7 + bits > other_most || other_most > 2_000_000 {
        return;
    }
    let (by, shift, from) = (random.place(size), random.place(20), random.place(size / 4));
    let mut window = BitSliceMut::<T, O>::from_place_mut(words, PLACE, bits);
    let mut other = BitSliceMut::<u64, Lsb0>::from_place_mut(others, 7, bits);
    window.reverse();
    window.rotate_left(by);
    window.shift_right(shift);
    window.shift_left(shift / 2);
    window.copy_within(from..from + bits / 2, bits / 4);
    window.for_each(|i, bit| bit != (i % 5 == 0));
    window.swap_with_bitslice(&mut other);
    digest.answer(window.cmp_bits(&other).is_lt());
    digest.count(window.count_ones());
    digest.place(window.last_one());
    let sought = BitSlice::<u64, Lsb0>::from_place(others, from, 20);
    digest.answer(window.contains(&sought));
    digest.answer(window.ends_with(&sought));
    others[0] = random.whole();
}
