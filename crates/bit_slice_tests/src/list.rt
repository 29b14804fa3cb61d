//! The list of the tests: ten bits from the place 3 of two bytes on.

use bit_slice_views::Bits;

/// The bytes under `Lsb0`, which have the list's bits from the place 3 on between ones: 1011001110 of the index 0 on.
pub const BYTES: [u8; 2] = [0x6f, 0xee];

/// Bit `i` of the list.
pub fn bit(i: usize) -> bool {
    let bits = [
        true, false, true, true, false, false, true, true, true, false,
    ];
    i < 10 && bits[i]
}

/// Whether a window shows `size` bits of the list, from bit `start` on.
pub fn shows<V: Bits>(view: &V, start: usize, size: usize) -> bool {
    if view.len() != size {
        return false;
    }
    for i in 0..view.len() {
        if view.bit(i) != bit(start.wrapping_add(i)) {
            return false;
        }
    }
    true
}

/// Whether a bit is 1, wherever it stands.
pub fn is_one(_index: usize, bit: &bool) -> bool {
    *bit
}
