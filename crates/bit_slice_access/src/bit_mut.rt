//! One bit of a window, to write.

ghost use Rattle.std.specs.Prelude.{◌≡◌, ◌<◌, length, slice_set, slice_index_or, false};

use bit_slice_views_mut::{Bits, BitsMut};
use std::ops::Deref;

/// One bit of a window, to write: bitvec's `BitRef` of a writable window.
///
/// It holds the window as long as it lives, as its bit's place in memory is the window's.
#[derive(Drop)]
pub struct BitMut<'s, V: BitsMut> {
    of: &'s mut V,
    at: usize,

    ghost inside: { at < length (V.bits of.now) },
}

impl<'s, V: BitsMut> BitMut<'s, V> {
    ghost use Rattle.bit_slice_access.specs.BitMut.{bit_view, bit_loan, bit_index};

    // ---- make

    /// Bit `i` of a window.
    pub fn new(of: &'s mut V, i: usize) -> BitMut<'s, V>
        requires { i < length (V.bits of.old) }
        ensures same_reference { bit_loan result ≡ of.entry.ghost_name }
        ensures value { bit_view result ≡ of.old }
        ensures index { bit_index result ≡ i }
    {
        BitMut { of, at: i }
    }

    // ---- read

    /// The bit: what `*` reads in bitvec.
    pub fn get(&self) -> bool
        ensures { result ≡ slice_index_or (V.bits (bit_view self.now)) (bit_index self.now) false }
    {
        self.of.bit(self.at)
    }

    // ---- change

    /// Makes the bit `bit`.
    pub fn set(&mut self, bit: bool)
        ensures same_reference { bit_loan self.new ≡ bit_loan self.old }
        ensures index { bit_index self.new ≡ bit_index self.old }
        ensures bits { V.bits (bit_view self.new)
            ≡ slice_set (V.bits (bit_view self.old)) (bit_index self.old) bit }
        ensures len { length (V.bits (bit_view self.new)) ≡ length (V.bits (bit_view self.old)) }
        ensures frame { V.frame (bit_view self.new) ≡ V.frame (bit_view self.old) }
    {
        let at = self.at;
        self.of.set(at, bit);
    }

    /// Makes the bit `bit`, and answers what it was.
    pub fn replace(&mut self, bit: bool) -> bool
        ensures was { result ≡ slice_index_or (V.bits (bit_view self.old)) (bit_index self.old) false }
        ensures same_reference { bit_loan self.new ≡ bit_loan self.old }
        ensures index { bit_index self.new ≡ bit_index self.old }
        ensures bits { V.bits (bit_view self.new)
            ≡ slice_set (V.bits (bit_view self.old)) (bit_index self.old) bit }
        ensures len { length (V.bits (bit_view self.new)) ≡ length (V.bits (bit_view self.old)) }
        ensures frame { V.frame (bit_view self.new) ≡ V.frame (bit_view self.old) }
    {
        let was = self.get();
        self.set(bit);
        was
    }

    /// Makes the bit `bit`, and gives the window back.
    pub fn commit(self, bit: bool)
        ensures bits { V.bits self.exit.0.now
            ≡ slice_set (V.bits (bit_view self.entry)) (bit_index self.entry) bit }
        ensures len { length (V.bits self.exit.0.now) ≡ length (V.bits (bit_view self.entry)) }
        ensures frame { V.frame self.exit.0.now ≡ V.frame (bit_view self.entry) }
    {
        let BitMut { of, at } = self;
        of.set(at, bit);
    }
}

impl<V: BitsMut> Deref for BitMut<'_, V> {
    ghost use Rattle.bit_slice_access.specs.BitMut.{bit_view, bit_index};

    type Target = bool;

    ghost deref_gives = { λ bit value. value ≡ slice_index_or (V.bits (bit_view bit)) (bit_index bit) false };

    fn deref(&self) -> &bool {
        if self.get() { &true } else { &false }
    }
}
