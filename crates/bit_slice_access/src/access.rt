//! Bits and parts of a window by their indices, to write.

ghost use Rattle.std.specs.Prelude.{◌≡◌, ◌+◌, ◌-◌, ◌<◌, ◌≤◌, ◌↔◌, IfSome, IsSome, length, false};
ghost use Rattle.std.specs.Prelude.{slice_index_or, slice_set};
ghost use Rattle.bit_slice_access.specs.BitMut.{bit_view, bit_loan, bit_index};

use crate::bit_mut::BitMut;
use crate::index_mut::BitSliceIndexMut;
use bit_slice_views_mut::{Bits, BitsMut};

/// The accesses of a window by an index: of every `BitsMut`.
///
/// What is lent borrows the window. A caller that wants to know the window where an answer is `None` asks before the
/// call whether the index lies in it.
pub trait BitsAccess: BitsMut {
    // ---- by an index or a range

    /// The bit or the part at an index, or `None` where it does not lie in the window.
    final fn get_mut<'s, I: BitSliceIndexMut<'s, Self>>(&'s mut self, index: I) -> Option<I::Mut>
        ensures variant { IsSome result ↔ I.within index (length (Self.bits self.old)) }
        ensures same_reference { IfSome result (λ lent. I.loan lent ≡ self.entry.ghost_name) }
        ensures shows { IfSome result (λ lent. I.shows index self.old lent) }
    {
        if index.is_within(self.len()) {
            Some(index.lend(self))
        } else {
            None
        }
    }

    /// The bit or the part at an index that lies in the window.
    final fn index_mut<'s, I: BitSliceIndexMut<'s, Self>>(&'s mut self, index: I) -> I::Mut
        requires { I.within index (length (Self.bits self.old)) }
        ensures same_reference { I.loan result ≡ self.entry.ghost_name }
        ensures shows { I.shows index self.old result }
    {
        index.lend(self)
    }

    // ---- at an end

    /// The first bit, or `None` of a window without bits.
    final fn first_mut(&mut self) -> Option<BitMut<'_, Self>>
        ensures variant { IsSome result ↔ (0 < length (Self.bits self.old)) }
        ensures same_reference { IfSome result (λ bit. bit_loan bit ≡ self.entry.ghost_name) }
        ensures value { IfSome result (λ bit. bit_view bit ≡ self.old) }
        ensures index { IfSome result (λ bit. bit_index bit ≡ 0) }
    {
        if self.is_empty() {
            return None;
        }
        Some(BitMut::new(self, 0))
    }

    /// The last bit, or `None` of a window without bits.
    final fn last_mut(&mut self) -> Option<BitMut<'_, Self>>
        ensures variant { IsSome result ↔ (0 < length (Self.bits self.old)) }
        ensures same_reference { IfSome result (λ bit. bit_loan bit ≡ self.entry.ghost_name) }
        ensures value { IfSome result (λ bit. bit_view bit ≡ self.old) }
        ensures index { IfSome result (λ bit. bit_index bit + 1 ≡ length (Self.bits self.old)) }
    {
        let len = self.len();
        if len == 0 {
            return None;
        }
        Some(BitMut::new(self, len - 1))
    }

    // ---- what bitvec does unchecked: here as the plain forms, which ask the place

    /// What `index_mut` does.
    final fn get_unchecked_mut<'s, I: BitSliceIndexMut<'s, Self>>(&'s mut self, index: I) -> I::Mut
        requires { I.within index (length (Self.bits self.old)) }
        ensures same_reference { I.loan result ≡ self.entry.ghost_name }
        ensures shows { I.shows index self.old result }
    {
        self.index_mut(index)
    }

    /// What `set` does.
    final fn set_unchecked(&mut self, i: usize, bit: bool)
        requires { i < length (Self.bits self.old) }
        ensures bits { Self.bits self.new ≡ slice_set (Self.bits self.old) i bit }
        ensures len { length (Self.bits self.new) ≡ length (Self.bits self.old) }
        ensures frame { Self.frame self.new ≡ Self.frame self.old }
    {
        self.set(i, bit);
    }

    /// What `replace` does.
    final fn replace_unchecked(&mut self, i: usize, bit: bool) -> bool
        requires { i < length (Self.bits self.old) }
        ensures was { result ≡ slice_index_or (Self.bits self.old) i false }
        ensures bits { Self.bits self.new ≡ slice_set (Self.bits self.old) i bit }
        ensures len { length (Self.bits self.new) ≡ length (Self.bits self.old) }
        ensures frame { Self.frame self.new ≡ Self.frame self.old }
    {
        self.replace(i, bit)
    }

    /// What `swap` does.
    final fn swap_unchecked(&mut self, i: usize, j: usize)
        requires first { i < length (Self.bits self.old) }
        requires second { j < length (Self.bits self.old) }
        ensures bits { Self.bits self.new ≡ slice_set
            (slice_set (Self.bits self.old) i (slice_index_or (Self.bits self.old) j false))
            j (slice_index_or (Self.bits self.old) i false) }
        ensures len { length (Self.bits self.new) ≡ length (Self.bits self.old) }
        ensures frame { Self.frame self.new ≡ Self.frame self.old }
    {
        self.swap(i, j);
    }
}

impl<V: BitsMut> BitsAccess for V {}
