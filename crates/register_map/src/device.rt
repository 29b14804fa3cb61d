//! A device as a data sheet has it.

ghost use Rattle.std.specs.Prelude.{◌≡◌, ◌+◌, ◌^◌, ◌<◌, ◌≤◌};

use crate::order::UpperHalfFirst;
use bit_addressing::{BitIdx, BitSpan};

/// A device: its name, and which bits of the map's words are its own.
#[derive(Clone, Copy)]
pub struct Device {
    pub name: &'static str,
    /// How many bits of the map come before its own.
    pub place: usize,
    /// How many bits it has: from 1 up to 32.
    pub width: usize,

    ghost some: { 1 ≤ width },
    ghost few: { width ≤ 32 },

    // A `usize` counts the bits up to its end.
    ghost counted: { place + width < 2 ^ 64 },
}

impl Device {
    ghost use Rattle.register_map.specs.Devices.{extent_of};

    /// The device of this name, `width` bits from bit `place` of the map on.
    pub fn new(name: &'static str, place: usize, width: usize) -> Device
        requires some { 1 ≤ width }
        requires few { width ≤ 32 }
        requires counted { place + width < 2 ^ 64 }
        ensures name { result.name ≡ name.entry }
        ensures place { result.place ≡ place }
        ensures width { result.width ≡ width }
    {
        Device { name, place, width }
    }

    /// Its bits, as a span of the words.
    pub fn span(&self) -> BitSpan<u32, UpperHalfFirst>
        ensures { result ≡ extent_of self.now }
    {
        let index = BitIdx::new_unchecked((self.place % 32) as u8);
        BitSpan::new(self.place / 32, index, self.width).unwrap()
    }
}
