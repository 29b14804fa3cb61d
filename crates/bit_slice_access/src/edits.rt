//! What is done to a part of a list, whatever writes it: also where no window of the part can be made.

ghost use Rattle.std.specs.Prelude.{◌≡◌, ◌+◌, ◌≤◌, ◌++◌, drop, length, take};
ghost use Rattle.bit_addressing_memory.specs.Memory.{piece, with_piece};

use crate::windows::{rotate_window, swap_window, write_window};
use bit_slice_views_mut::{Bits, BitsMut};

/// The changes of a part of a list, named by its first bit: of every `BitsMut`, a container too, of which no part can be
/// lent. No call takes memory, and every bit outside the part stays.
pub trait BitsEdits: BitsMut {
    /// Makes the bits from `at` on those of another list, whatever its words and their order. They all lie in the list.
    final fn write_part<V: Bits>(&mut self, at: usize, other: &V)
        requires { at + length (V.bits other.now) ≤ length (Self.bits self.old) }
        ensures bits { Self.bits self.new ≡ with_piece (Self.bits self.old) at (V.bits other.now) }
        ensures len { length (Self.bits self.new) ≡ length (Self.bits self.old) }
        ensures frame { Self.frame self.new ≡ Self.frame self.old }
    {
        let place = self.first_place();
        let all = self.len();
        let (others, head, len) = other.as_bitslice().parts();
        self.write(|words| {
            write_window::<Self::Store, Self::Order, V::Store, V::Order>(
                words,
                place,
                all,
                at,
                others,
                head as usize,
                len,
            )
        });
    }

    /// Exchanges the `len` bits from `first` on with those from `second` on. The first part ends before the second
    /// begins.
    final fn swap_parts(&mut self, first: usize, second: usize, len: usize)
        requires apart { first + len ≤ second }
        requires within { second + len ≤ length (Self.bits self.old) }
        ensures bits { Self.bits self.new
            ≡ with_piece (with_piece (Self.bits self.old) first (piece (Self.bits self.old) second len))
            second (piece (Self.bits self.old) first len) }
        ensures len { length (Self.bits self.new) ≡ length (Self.bits self.old) }
        ensures frame { Self.frame self.new ≡ Self.frame self.old }
    {
        let place = self.first_place();
        let all = self.len();
        self.write(|words| {
            swap_window::<Self::Store, Self::Order>(words, place, all, first, second, len)
        });
    }

    /// Moves each of the `len` bits from `at` on `by` places towards the first of them; the first `by` of them become
    /// the last.
    final fn rotate_part(&mut self, at: usize, len: usize, by: usize)
        requires within { at + len ≤ length (Self.bits self.old) }
        requires most { by ≤ len }
        ensures bits { Self.bits self.new ≡ with_piece (Self.bits self.old) at
            (drop by (piece (Self.bits self.old) at len) ++ take by (piece (Self.bits self.old) at len)) }
        ensures len { length (Self.bits self.new) ≡ length (Self.bits self.old) }
        ensures frame { Self.frame self.new ≡ Self.frame self.old }
    {
        let place = self.first_place();
        let all = self.len();
        self.write(|words| {
            rotate_window::<Self::Store, Self::Order>(words, place, all, at, len, by)
        });
    }
}

impl<V: BitsMut> BitsEdits for V {}
