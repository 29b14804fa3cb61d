//! Fields in network order: the highest digit first, from the highest digit of a byte on.

ghost use Rattle.std.specs.Prelude.{◌≡◌, ◌+◌, ◌*◌, ◌^◌, ◌<◌, ◌≤◌, length};
ghost use Rattle.bit_addressing_memory.specs.Memory.{memory, piece};
ghost use Rattle.bit_slice.specs.Network.{network, network_bits};
ghost use Rattle.bit_slice_fields.specs.Whole.{FitsIn};
ghost use Rattle.bit_slice_views_mut.specs.Frame.{KeepsBeside};

use bit_addressing_memory::Msb0;
use bit_slice_fields::{BitField, BitFieldMut, Integral};
use bit_slice_views::BitSlice;
use bit_slice_views_mut::BitSliceMut;

/// Stores a number in `len` bits from a place on; every bit beside them stays.
#[tactic(auto, using(bit_slice_fields::proofs::CallerLemmas::down_bits, bit_slice_views_mut::proofs::FrameLemmas::frames))]
pub fn put<M: Integral>(bytes: &mut [u8], place: usize, len: usize, value: M)
    requires some { 0 < len }
    requires room { len ≤ M.BITS }
    requires ends { place + len < 2 ^ 63 }
    requires fits { place + len ≤ length bytes.old * 8 }
    ensures list { piece (memory network bytes.new) place len ≡ network_bits len (M.whole value) }
    ensures beside { KeepsBeside network bytes.old bytes.new place len }
{
    let mut view = BitSliceMut::<u8, Msb0>::from_place_mut(bytes, place, len);
    view.store_be(value);
}

/// The number of `len` bits from a place on.
#[tactic(auto, using(bit_slice_fields::proofs::CallerLemmas::down_bits))]
pub fn take<M: Integral>(bytes: &[u8], place: usize, len: usize) -> M
    requires some { 0 < len }
    requires room { len ≤ M.BITS }
    requires fits { place + len ≤ length bytes.now * 8 }
    ensures list { piece (memory network bytes.now) place len ≡ network_bits len (M.whole result) }
    ensures within { FitsIn M.signed len (M.whole result) }
{
    let view = BitSlice::<u8, Msb0>::from_place(bytes, place, len);
    view.load_be()
}
