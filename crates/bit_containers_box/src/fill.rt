//! What is written of all visible words, or beside the list.

ghost use Rattle.std.specs.Prelude.{◌≡◌};
ghost use Rattle.bit_addressing_memory.specs.Memory.{read_by};
ghost use Rattle.bit_containers_box.specs.Fill.{Aligned, FillsBeside, Flips};

use crate::boxed::BitBox;
use crate::words::{fill_first, flip_first, move_first, words_taken};
use bit_addressing_memory::BitOrder;
use bit_slice_views::BitStore;
use std::ops::Not;

impl<T: BitStore, O: BitOrder<T>> BitBox<T, O> {
    /// Makes each dead bit `bit`, and no bit of the list.
    pub fn fill_uninitialized(&mut self, bit: bool)
        ensures { FillsBeside (read_by T.BitRegister O.position) self.old self.new bit }
    {
        let count = words_taken::<T>(self.head + self.len);
        fill_first::<T, O>(&mut self.words, count, self.head, self.len, bit);
    }

    /// Moves the list to the first word's first bit. Where fewer words are visible then, the box still holds as many.
    pub fn force_align(&mut self)
        ensures { Aligned (read_by T.BitRegister O.position) self.old self.new }
    {
        move_first::<T, O>(&mut self.words, self.head, self.len);
        self.head = 0;
    }
}

/// Flips each bit of the visible words, dead bits too.
impl<T: BitStore, O: BitOrder<T>> Not for BitBox<T, O> {
    type Output = BitBox<T, O>;

    ghost not_gives = { λ before flipped. Flips (read_by T.BitRegister O.position) before flipped };

    fn not(self) -> BitBox<T, O> {
        let mut flipped = self;
        let count = words_taken::<T>(flipped.head + flipped.len);
        flip_first::<T, O>(&mut flipped.words, count);
        flipped
    }
}
