//! Numbers in network order: the bits of a byte from its highest digit on, a number's highest digit first.

ghost use Rattle.std.specs.Prelude.{◌≡◌, ◌+◌, ◌*◌, ◌^◌, ◌<◌, ◌≤◌, length};
ghost use Rattle.bit_slice.specs.Memory.{memory, piece, with_piece};
ghost use Rattle.bit_slice.specs.Whole.{FitsIn};
ghost use Rattle.bit_slice.specs.Network.{network, network_bits};

use bit_slice::{BitField, BitFieldMut, BitSlice, BitSliceMut, Integral, Msb0};

/// The number in the `width` bits from bit `at` on. They are 1 up to `M::BITS` bits of these bytes.
#[tactic(auto, using(bit_slice::proofs::NetworkLemmas::field_network))]
pub fn load<M: Integral>(bytes: &[u8], at: usize, width: usize) -> M
    requires some { 0 < width }
    requires room { width ≤ M.BITS }
    requires fits { at + width ≤ length bytes.now * 8 }
    ensures bits { piece (memory network bytes.now) at width ≡ network_bits width (M.whole result) }
    ensures within { FitsIn M.signed width (M.whole result) }
{
    let view = BitSlice::<u8, Msb0>::from_place(bytes, at, width);
    view.load_be()
}

/// Stores a number's lowest digits in the `width` bits from bit `at` on, and leaves every bit beside them. They are 1 up
/// to `M::BITS` bits of these bytes.
#[tactic(auto, using(bit_slice::proofs::NetworkLemmas::field_network, bit_slice::proofs::WrittenLemmas::frames))]
pub fn store<M: Integral>(bytes: &mut [u8], at: usize, width: usize, value: M)
    requires some { 0 < width }
    requires room { width ≤ M.BITS }
    requires ends { at + width < 2 ^ 63 }
    requires fits { at + width ≤ length bytes.old * 8 }
    ensures bits { memory network bytes.new
        ≡ with_piece (memory network bytes.old) at (network_bits width (M.whole value)) }
    ensures len { length bytes.new ≡ length bytes.old }
{
    let mut view = BitSliceMut::<u8, Msb0>::from_place_mut(bytes, at, width);
    view.store_be(value);
}
