//! Words and bits as texts.

ghost use Rattle.std.specs.Prelude.{◌+◌, ◌*◌, ◌≤◌, IsTrue, length};

use bit_slice::{BitRegister, BitSlice, BitSliceMut, Bits, BitsMut, Lsb0, Msb0};
use std::alloc::AllocError;

/// Whether a window lies in some words, and is small.
pub fn has_window<R: BitRegister>(words: &[R], from: usize, len: usize) -> bool
    ensures near { IsTrue result → from ≤ 2048 }
    ensures short { IsTrue result → len ≤ 2048 }
    ensures fits { IsTrue result → from + len ≤ length words.now * R.BITS }
{
    match BitSlice::<R, Lsb0>::try_from_slice(words) {
        Ok(whole) => from <= 2048 && len <= 2048 && from + len <= whole.len(),
        Err(_) => false,
    }
}

/// How many bits the memory of a case's other bits shows at most.
pub const MOST_OTHERS: usize = 200;

/// Where they begin in it.
pub const OTHERS_FROM: usize = 5;

/// Puts the bits of a text of zeros and ones into a memory, and answers how many they are.
pub fn put_bits(room: &mut [u16; 16], text: &str) -> usize
    ensures { result ≤ 200 }
{
    let mut count = 0usize;
    for byte in text.bytes() {
        if count < MOST_OTHERS && (byte == b'0' || byte == b'1') {
            let mut view = BitSliceMut::<u16, Msb0>::from_place_mut(room, OTHERS_FROM, MOST_OTHERS);
            view.set(count, byte == b'1');
            count = count.wrapping_add(1);
        }
    }
    count.min(MOST_OTHERS)
}

/// Writes a bit.
pub fn push_bit(text: &mut String, bit: bool) -> Result<(), AllocError> {
    text.push(if bit { '1' } else { '0' })
}

/// Writes the bits of a list.
pub fn push_bits<V: Bits>(text: &mut String, list: &V) -> Result<(), AllocError> {
    for i in 0..list.len() {
        push_bit(text, list.bit(i))?;
    }
    Ok(())
}
