//! A field in a part of any window, and one of any words.

ghost use Rattle.std.specs.Prelude.{◌≡◌, ◌+◌, ◌%◌, ◌<◌, ◌≤◌, false, length};
ghost use Rattle.bit_addressing_memory.specs.Memory.{with_piece};
ghost use Rattle.bit_slice.specs.Network.{network_bits};
ghost use Rattle.bit_slice_fields.specs.Number.{field_bits};
ghost use Rattle.bit_slice_fields.specs.Whole.{FitsIn};

use bit_addressing_memory::BitRegister;
use bit_slice_access::Part;
use bit_slice_fields::{BitField, BitFieldMut, Integral};
use bit_slice_views_mut::BitsWindow;

/// Stores a number in `len` bits of a window, from bit `from` on: the window's other bits stay, and those beside it.
pub fn put_in_part<V: BitFieldMut + BitsWindow, M: Integral>(
    view: &mut V,
    from: usize,
    len: usize,
    value: M,
)
    requires some { 0 < len }
    requires room { len ≤ M.BITS }
    requires fits { from + len ≤ length (V.bits view.old) }
    ensures bits { V.bits view.new ≡ with_piece (V.bits view.old) from
        (field_bits V.low_first false V.Store.BITS ((V.place view.old + from) % V.Store.BITS) len (M.whole value)) }
    ensures frame { V.frame view.new ≡ V.frame view.old }
{
    let mut part = Part::new(view, from, len);
    part.store_be(value);
}

/// The number of a window in network order, whatever its words, as long as they count from their highest digit
/// (`V::low_first()` tells).
#[tactic(auto, using(bit_slice_fields::proofs::CallerLemmas::down_bits))]
pub fn network_number<V: BitField, M: Integral>(view: &V) -> M
    requires order { V.low_first ≡ false }
    requires some { 0 < length (V.bits view.now) }
    requires room { length (V.bits view.now) ≤ M.BITS }
    ensures list { V.bits view.now ≡ network_bits (length (V.bits view.now)) (M.whole result) }
    ensures within { FitsIn M.signed (length (V.bits view.now)) (M.whole result) }
{
    view.load_be()
}
