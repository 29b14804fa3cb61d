//! What a closure is asked by `resize_with`, and the texts of `SliceFault`.

use bit_addressing_memory::Msb0;
use bit_addressing_span::BitSpanError;
use bit_containers_vector::{BitVec, SliceFault};
use bit_slice_views::Bits;
use std::alloc::AllocError;
use std::process::Abort;
use std::test::Fail;

#[test]
fn a_closure_is_asked_of_each_new_index(rt: HostRuntime) -> Result<(), AllocError> {
    let mut calls = 0usize;
    let mut bits = BitVec::<u8, Msb0>::repeat(rt.alloc(), true, 2)?;
    bits.resize_with(5, |index| {
        calls = calls.wrapping_add(1);
        index == 3
    })?;
    assert!(rt; bits.len() == 5 && bits.leading_ones() == 2 && bits.last_one() == Some(3));
    bits.resize_with(1, |_index| true)?;
    assert!(rt; bits.len() == 1 && bits.all() && calls == 3);
    Ok(())
}

// Of 0, 1, 1, 1, 0 the three ones are taken out, and read one by one up to the end and past it; two ones come there.
#[test]
fn a_splice_is_read_to_its_end(rt: HostRuntime) -> Result<(), AllocError> {
    let mut bits = BitVec::<u8, Msb0>::from_element(rt.alloc(), 0x70)?;
    bits.truncate(5);
    assert!(rt; bits.len() == 5);
    let mut gone = bits.splice(1..4, std::iter::repeat_n(true, 2));
    assert!(rt; gone.len() == 3);
    assert!(rt; gone.next() == Some(true) && gone.next_back() == Some(true));
    assert!(rt; gone.next() == Some(true) && gone.len() == 0);
    assert!(rt; gone.next().is_none() && gone.next_back().is_none() && gone.next().is_none());
    gone.finish()?;
    assert!(rt; bits.len() == 4 && bits.leading_zeros() == 1 && bits.count_ones() == 2);
    Ok(())
}

#[test]
fn texts_of_faults(rt: HostRuntime) -> Result<(), Fail> {
    let alloc = rt.alloc();
    let too_long = SliceFault::Span(BitSpanError::TooLong(7));
    let told = format!(in alloc; "{too_long}")?;
    assert!(rt; told.as_str() == "span of 7 bits is too long");
    let want = SliceFault::Memory;
    let told = format!(in alloc; "{want}")?;
    assert!(rt; told.as_str() == "no memory");
    Ok(())
}
