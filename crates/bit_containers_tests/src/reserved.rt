//! A vector that reserves once, and then grows without a refusal.

ghost use Rattle.std.specs.Prelude.{◌≡◌, ◌+◌, ◌≤◌, ◌++◌, length, replicate, IsOk, OnOk, OnErr};
ghost use Rattle.bit_addressing_memory.specs.Memory.{read_by};
ghost use Rattle.bit_addressing_span.specs.declared.span.TheConstants.{MAX_BITS};
ghost use Rattle.bit_containers_vector.specs.Vector.{vec_bits, room, HasRoomFor, IsAsBefore};

use bit_addressing_memory::BitOrder;
use bit_containers_vector::BitVec;
use bit_slice_views::BitStore;
use std::alloc::AllocError;

/// Pushes a bit so often within the room that there is: none of the pushes is refused.
pub fn push_within<T: BitStore, O: BitOrder<T>>(
    vector: &mut BitVec<T, O>,
    count: usize,
    bit: bool,
) -> Result<(), AllocError>
    requires most { length (vec_bits (read_by T.BitRegister O.position) vector.old) + count ≤ MAX_BITS }
    requires room { HasRoomFor (read_by T.BitRegister O.position) vector.old count }
    ensures done { IsOk result }
    ensures bits { OnOk result (vec_bits (read_by T.BitRegister O.position) vector.new
        ≡ vec_bits (read_by T.BitRegister O.position) vector.old ++ replicate count bit) }
{
    for _i in 0..count {
        vector.push(bit)?;
    }
    Ok(())
}

/// Reserves once, and pushes a bit so often. It is refused only by the reservation, which then leaves all as it was.
pub fn reserve_and_push<T: BitStore, O: BitOrder<T>>(
    vector: &mut BitVec<T, O>,
    count: usize,
    bit: bool,
) -> Result<(), AllocError>
    requires { length (vec_bits (read_by T.BitRegister O.position) vector.old) + count ≤ MAX_BITS }
    ensures bits { OnOk result (vec_bits (read_by T.BitRegister O.position) vector.new
        ≡ vec_bits (read_by T.BitRegister O.position) vector.old ++ replicate count bit) }
    ensures err { OnErr result (IsAsBefore (read_by T.BitRegister O.position) vector.old vector.new) }
{
    vector.reserve(count)?;
    push_within(vector, count, bit)
}
