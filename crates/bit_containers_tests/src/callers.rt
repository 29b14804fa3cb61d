//! Growth without a refusal.

use crate::reserved::{push_within, reserve_and_push};
use bit_addressing_memory::{BitOrder, Lsb0, Msb0};
use bit_containers_vector::BitVec;
use bit_slice_views::{BitStore, Bits};
use std::alloc::{AllocError, Global};

// Whether so many bits come behind those that there are.
fn grows<T: BitStore, O: BitOrder<T>>(alloc: Global) -> Result<bool, AllocError> {
    let mut bits = BitVec::<T, O>::with_capacity(alloc, 20)?;
    push_within(&mut bits, 20, true)?;
    let pushed = bits.len() == 20 && bits.all();
    if bits.len() > 100 {
        return Ok(false);
    }
    reserve_and_push(&mut bits, 30, false)?;
    Ok(pushed && bits.len() == 50 && bits.trailing_zeros() == 30)
}

#[test]
fn growth_within_room(rt: HostRuntime) -> Result<(), AllocError> {
    assert!(rt; grows::<u8, Lsb0>(rt.alloc())? && grows::<u16, Msb0>(rt.alloc())?);
    Ok(())
}
