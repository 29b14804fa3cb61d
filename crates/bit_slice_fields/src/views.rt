//! The windows that hold numbers: shared and writable ones, and parts of writable ones.

ghost use Rattle.std.specs.Prelude.{◌≡◌, ◌%◌, ◌<◌};

use crate::field::BitField;
use crate::field_mut::BitFieldMut;
use bit_addressing_memory::{BitRegister, mem};
use bit_slice_access::Part;
use bit_slice_views::BitSlice;
use bit_slice_views_mut::{BitSliceMut, BitsMut, BitsWindow};
use bit_slice_words::FieldOrder;

impl<T: BitRegister, O: FieldOrder<T>> BitField for BitSlice<'_, T, O> {
    ghost use Rattle.std.specs.Prelude.{refl};
    ghost use Rattle.bit_slice_views.specs.View.{view_head};

    ghost low_first = { O.LOW_FIRST };

    fn low_first() -> bool {
        O::LOW_FIRST
    }

    ghost head = { view_head };

    fn head_index(&self) -> u8 {
        let (_, head, _) = self.parts();
        head
    }

    ghost begins = { λ v. refl };

    ghost counts = { O.counts };
}

impl<T: BitRegister, O: FieldOrder<T>> BitField for BitSliceMut<'_, T, O> {
    ghost use Rattle.std.specs.Prelude.{◌%◌, refl};
    ghost use Rattle.bit_slice_views_mut.specs.ViewMut.{lent_place};

    ghost low_first = { O.LOW_FIRST };

    fn low_first() -> bool {
        O::LOW_FIRST
    }

    ghost head = { λ v. lent_place v % T.BITS };

    fn head_index(&self) -> u8 {
        index_of_first(self)
    }

    ghost begins = { λ v. refl };

    ghost counts = { O.counts };
}

impl<T: BitRegister, O: FieldOrder<T>> BitFieldMut for BitSliceMut<'_, T, O> {
    ghost use Rattle.std.specs.Prelude.{refl};

    ghost headed = { λ v. refl };
}

impl<V: BitFieldMut + BitsWindow> BitField for Part<'_, V> {
    ghost use Rattle.bit_slice_access.specs.Part.{part_view};

    ghost low_first = { V.low_first };

    fn low_first() -> bool {
        V::low_first()
    }

    ghost head = { λ part. V.place (part_view part) % V.Store.BITS };

    fn head_index(&self) -> u8 {
        index_of_first(self)
    }

    ghost begins = { λ part. V.starts (part_view part) };

    ghost counts = { V.counts };
}

impl<V: BitFieldMut + BitsWindow> BitFieldMut for Part<'_, V> {
    ghost use Rattle.std.specs.Prelude.{refl};

    ghost headed = { λ part. refl };
}

// The index of the first bit in the word where it lies.
fn index_of_first<V: BitsMut>(view: &V) -> u8
    ensures value { result ≡ V.place view.now % V.Store.BITS }
    ensures within { result < V.Store.BITS }
{
    (view.first_place() % mem::bits_of::<V::Store>()) as u8
}
