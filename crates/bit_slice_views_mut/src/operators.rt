//! The operators of Rust on writable windows, of one type on both sides: by the word paths of the order.

ghost use Rattle.std.specs.Prelude.{◌≡◌, ◌&&◌, ◌||◌, map, not, length};
ghost use Rattle.std.specs.Bool.{xor};
ghost use Rattle.bit_addressing_memory.specs.Memory.{read_by};
ghost use Rattle.bit_slice_views.specs.View.{view_bits};
ghost use Rattle.bit_slice_views_mut.specs.Combined.{combined};
ghost use Rattle.bit_slice_views_mut.specs.ViewMut.{lent_bits, lent_frame};

use crate::bits_mut::BitsMut;
use crate::paths::{and_path, or_path, xor_path};
use crate::view_mut::BitSliceMut;
use bit_addressing_memory::{BitOrder, BitRegister};
use bit_slice_views::words::WordPaths;
use bit_slice_views::{BitSlice, Bits};
use std::ops::{BitAndAssign, BitOrAssign, BitXorAssign, Not};

/// Each bit becomes what it and the other's bit are both; those past the other's end are cleared.
impl<'a, 'b, T: BitRegister, O: WordPaths<T>> BitAndAssign<BitSlice<'b, T, O>>
    for BitSliceMut<'a, T, O> {
    ghost bitand_assign_gives = { λ before other after.
        (lent_bits (read_by T.BitRegister O.position) after
        ≡ combined (λ a b. a && b) (lent_bits (read_by T.BitRegister O.position) before)
        (view_bits (read_by T.BitRegister O.position) other))
        × (lent_frame (read_by T.BitRegister O.position) after
        ≡ lent_frame (read_by T.BitRegister O.position) before) };

    fn bitand_assign(&mut self, other: BitSlice<'b, T, O>) {
        and_view(self, other);
    }
}

/// What `&=` does, of any window and a right side of its words and order.
#[tactic(auto, using(crate::proofs::FrameLemmas::frames))]
pub fn and_view<V: BitsMut>(view: &mut V, other: BitSlice<'_, V::Store, V::Order>)
where
    V::Order: WordPaths<V::Store>,
    ensures bits { V.bits view.new ≡ combined (λ a b. a && b) (V.bits view.old)
        (view_bits (read_by V.Store.BitRegister V.Order.position) other.entry) }
    ensures len { length (V.bits view.new) ≡ length (V.bits view.old) }
    ensures frame { V.frame view.new ≡ V.frame view.old }
{
    let place = view.first_place();
    let len = view.len();
    let (others, head, other_len) = other.parts();
    view.write(|words| {
        and_path::<V::Store, V::Order>(words, place, len, others, head as usize, other_len)
    });
}

/// Each bit becomes what it or the other's bit is.
impl<'a, 'b, T: BitRegister, O: WordPaths<T>> BitOrAssign<BitSlice<'b, T, O>>
    for BitSliceMut<'a, T, O> {
    ghost bitor_assign_gives = { λ before other after.
        (lent_bits (read_by T.BitRegister O.position) after
        ≡ combined (λ a b. a || b) (lent_bits (read_by T.BitRegister O.position) before)
        (view_bits (read_by T.BitRegister O.position) other))
        × (lent_frame (read_by T.BitRegister O.position) after
        ≡ lent_frame (read_by T.BitRegister O.position) before) };

    fn bitor_assign(&mut self, other: BitSlice<'b, T, O>) {
        or_view(self, other);
    }
}

/// What `|=` does, of any window and a right side of its words and order.
#[tactic(auto, using(crate::proofs::FrameLemmas::frames))]
pub fn or_view<V: BitsMut>(view: &mut V, other: BitSlice<'_, V::Store, V::Order>)
where
    V::Order: WordPaths<V::Store>,
    ensures bits { V.bits view.new ≡ combined (λ a b. a || b) (V.bits view.old)
        (view_bits (read_by V.Store.BitRegister V.Order.position) other.entry) }
    ensures len { length (V.bits view.new) ≡ length (V.bits view.old) }
    ensures frame { V.frame view.new ≡ V.frame view.old }
{
    let place = view.first_place();
    let len = view.len();
    let (others, head, other_len) = other.parts();
    view.write(|words| {
        or_path::<V::Store, V::Order>(words, place, len, others, head as usize, other_len)
    });
}

/// Each bit becomes whether it and the other's bit differ.
impl<'a, 'b, T: BitRegister, O: WordPaths<T>> BitXorAssign<BitSlice<'b, T, O>>
    for BitSliceMut<'a, T, O> {
    ghost bitxor_assign_gives = { λ before other after.
        (lent_bits (read_by T.BitRegister O.position) after
        ≡ combined xor (lent_bits (read_by T.BitRegister O.position) before)
        (view_bits (read_by T.BitRegister O.position) other))
        × (lent_frame (read_by T.BitRegister O.position) after
        ≡ lent_frame (read_by T.BitRegister O.position) before) };

    fn bitxor_assign(&mut self, other: BitSlice<'b, T, O>) {
        xor_view(self, other);
    }
}

/// What `^=` does, of any window and a right side of its words and order.
#[tactic(auto, using(crate::proofs::FrameLemmas::frames))]
pub fn xor_view<V: BitsMut>(view: &mut V, other: BitSlice<'_, V::Store, V::Order>)
where
    V::Order: WordPaths<V::Store>,
    ensures bits { V.bits view.new ≡ combined xor (V.bits view.old)
        (view_bits (read_by V.Store.BitRegister V.Order.position) other.entry) }
    ensures len { length (V.bits view.new) ≡ length (V.bits view.old) }
    ensures frame { V.frame view.new ≡ V.frame view.old }
{
    let place = view.first_place();
    let len = view.len();
    let (others, head, other_len) = other.parts();
    view.write(|words| {
        xor_path::<V::Store, V::Order>(words, place, len, others, head as usize, other_len)
    });
}

/// The same window, each bit flipped.
impl<'a, T: BitRegister, O: BitOrder<T>> Not for BitSliceMut<'a, T, O> {
    type Output = BitSliceMut<'a, T, O>;

    ghost not_gives = { λ before after.
        (lent_bits (read_by T.BitRegister O.position) after
        ≡ map not (lent_bits (read_by T.BitRegister O.position) before))
        × (lent_frame (read_by T.BitRegister O.position) after
        ≡ lent_frame (read_by T.BitRegister O.position) before) };

    fn not(self) -> BitSliceMut<'a, T, O> {
        let mut view = self;
        view.invert();
        view
    }
}
