//! The orders under which a window holds numbers.

ghost use Rattle.std.specs.Prelude.{Bool, true, false};
ghost use Rattle.bit_slice_words.specs.Orders.{CountsFrom};

use bit_addressing_memory::{BitOrder, BitRegister, Lsb0, Msb0};

/// An order that counts a word's digits in turn, from the lowest or from the highest: `Lsb0` and `Msb0`.
pub trait FieldOrder<T: BitRegister>: BitOrder<T> {
    ghost LOW_FIRST: { Bool };

    /// Whether the first bit of a word is its lowest digit, else it is the highest.
    const LOW_FIRST: bool;

    ghost counts: { CountsFrom LOW_FIRST T.BITS Self.position };
}

impl<T: BitRegister> FieldOrder<T> for Lsb0 {
    ghost use Rattle.std.specs.Prelude.{refl};

    ghost LOW_FIRST = { true };

    const LOW_FIRST: bool = true;

    ghost counts = { λ i low. refl };
}

impl<T: BitRegister> FieldOrder<T> for Msb0 {
    ghost use Rattle.std.specs.Prelude.{refl};

    ghost LOW_FIRST = { false };

    const LOW_FIRST: bool = false;

    ghost counts = { λ i low. refl };
}
