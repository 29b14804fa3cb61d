//! A vector as the first page of bitvec shows one: made, grown, gone over and printed.

use bit_containers::*;
use std::alloc::{AllocError, Global};
use std::process::Abort;
use std::test::Fail;

// The bits 0, 1, then a bit at the end, and one put in before the second.
fn grown<T: BitStore, O: BitOrder<T>>(alloc: Global) -> Result<BitVec<T, O>, AllocError> {
    let mut bits = BitVec::collect(alloc, [false, true].into_iter())?;
    if bits.len() == 2 {
        bits.push(true)?;
        bits.insert(1, false)?;
    }
    Ok(bits)
}

#[test]
fn the_first_page(rt: HostRuntime) -> Result<(), Fail> {
    let alloc = rt.alloc();
    let bits = grown::<u8, Msb0>(alloc)?;
    let mut ones = 0usize;
    for bit in &bits {
        if *bit {
            ones = ones.wrapping_add(1);
        }
    }
    assert!(rt; ones == 2 && bits.len() == 4);
    let shown = format!(in alloc; "{bits}")?;
    assert!(rt; shown.as_str() == "[0, 0, 1, 1]");
    assert!(rt; bits.iter().next_back().map_or(false, |bit| *bit));
    assert!(rt; bits.get(1).map_or(true, |bit| *bit) == false && bits.get(4).is_none());
    assert!(rt; bits.into_vec().as_slice() == [0b0011_0000].as_slice());
    Ok(())
}
