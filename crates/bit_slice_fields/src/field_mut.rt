//! Numbers that are stored in windows of bits.

ghost use Rattle.std.specs.Prelude.{◌≡◌, ◌%◌, ◌<◌, ◌≤◌, true, false, length};
ghost use Rattle.bit_slice_fields.specs.Number.{field_bits};

use crate::digits::{Cut, store_window};
use crate::field::BitField;
use crate::integral::Integral;
use bit_addressing_memory::BitRegister;
use bit_slice_views_mut::BitsMut;

/// A window of bits that a whole number is stored in.
///
/// A store writes as many of the number's lowest digits as the window has bits, and leaves every bit beside the
/// window. How they lie says `BitField`.
pub trait BitFieldMut: BitField + BitsMut {
    ghost headed: { (v : Self) → Self.head v ≡ Self.place v % Self.Store.BITS };

    /// Stores a number's lowest digits, the first segment lowest: what `store_le` does. The window has 1 up to
    /// `M::BITS` bits.
    final fn store<M: Integral>(&mut self, value: M)
        requires some { 0 < length (Self.bits self.old) }
        requires room { length (Self.bits self.old) ≤ M.BITS }
        ensures bits { Self.bits self.new ≡ field_bits Self.low_first true Self.Store.BITS (Self.head self.old)
            (length (Self.bits self.old)) (M.whole value) }
        ensures len { length (Self.bits self.new) ≡ length (Self.bits self.old) }
        ensures head { Self.head self.new ≡ Self.head self.old }
        ensures frame { Self.frame self.new ≡ Self.frame self.old }
    {
        self.store_le(value);
    }

    /// Stores a number's lowest digits, the first segment lowest. The window has 1 up to `M::BITS` bits.
    final fn store_le<M: Integral>(&mut self, value: M)
        requires some { 0 < length (Self.bits self.old) }
        requires room { length (Self.bits self.old) ≤ M.BITS }
        ensures bits { Self.bits self.new ≡ field_bits Self.low_first true Self.Store.BITS (Self.head self.old)
            (length (Self.bits self.old)) (M.whole value) }
        ensures len { length (Self.bits self.new) ≡ length (Self.bits self.old) }
        ensures head { Self.head self.new ≡ Self.head self.old }
        ensures frame { Self.frame self.new ≡ Self.frame self.old }
    {
        let cut = Cut {
            low: Self::low_first(),
            le: true,
            head: self.head_index() as usize,
        };
        let place = self.first_place();
        let len = self.len();
        self.write(|words| {
            store_window::<Self::Store, Self::Order, M>(words, place, len, value, cut)
        });
    }

    /// Stores a number's lowest digits, the first segment highest. The window has 1 up to `M::BITS` bits.
    final fn store_be<M: Integral>(&mut self, value: M)
        requires some { 0 < length (Self.bits self.old) }
        requires room { length (Self.bits self.old) ≤ M.BITS }
        ensures bits { Self.bits self.new ≡ field_bits Self.low_first false Self.Store.BITS (Self.head self.old)
            (length (Self.bits self.old)) (M.whole value) }
        ensures len { length (Self.bits self.new) ≡ length (Self.bits self.old) }
        ensures head { Self.head self.new ≡ Self.head self.old }
        ensures frame { Self.frame self.new ≡ Self.frame self.old }
    {
        let cut = Cut {
            low: Self::low_first(),
            le: false,
            head: self.head_index() as usize,
        };
        let place = self.first_place();
        let len = self.len();
        self.write(|words| {
            store_window::<Self::Store, Self::Order, M>(words, place, len, value, cut)
        });
    }
}
