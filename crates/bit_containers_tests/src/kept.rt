//! Bits of vectors that a predicate keeps.

ghost use Rattle.std.specs.Prelude.{◌≡◌, ◌%◌, nat_eq};
ghost use Rattle.std.specs.List.{filter, items_where_true};
ghost use Rattle.bit_addressing_memory.specs.Memory.{read_by};
ghost use Rattle.bit_containers.specs.Retained.{answers_of};
ghost use Rattle.bit_containers_vector.specs.Vector.{vec_bits};

use bit_addressing_sample_orders::FifthStep;
use bit_containers::{BitOrder, Lsb0, Msb0, Retain};
use bit_containers_vector::BitVec;
use bit_slice_views::{BitSlice, BitStore, Bits};
use bit_slice_views_mut::BitsMut;
use std::alloc::{AllocError, Global};
use std::process::Abort;

// Keeps the ones: what a caller knows of a predicate that answers by the bit alone.
fn keep_ones<T: BitStore, O: BitOrder<T>>(bits: &mut BitVec<T, O>)
    ensures { vec_bits (read_by T.BitRegister O.position) bits.new
        ≡ filter (λ bit. bit) (vec_bits (read_by T.BitRegister O.position) bits.old) }
{
    bits.retain(|_index, bit| *bit);
}

// Keeps the bits at even indices: what a caller knows of one that answers by the index.
fn keep_even<T: BitStore, O: BitOrder<T>>(bits: &mut BitVec<T, O>)
    ensures { vec_bits (read_by T.BitRegister O.position) bits.new
        ≡ items_where_true (answers_of (λ i bit. nat_eq (i % 2) 0) 0
        (vec_bits (read_by T.BitRegister O.position) bits.old))
        (vec_bits (read_by T.BitRegister O.position) bits.old) }
{
    bits.retain(|index, _bit| index % 2 == 0);
}

// Keeps the ones of a list, and tells whether the predicate was asked of each index and bit in turn.
fn keeps<V: Retain>(bits: &mut V, list: [bool; 5]) -> bool {
    let mut calls = 0usize;
    let mut told = true;
    bits.retain(|index, bit| {
        told = told && index == calls && index < 5 && *bit == list[index % 5];
        calls = calls.wrapping_add(1);
        *bit
    });
    told && calls == 5
}

// Whether a predicate that counts the ones that it was asked of keeps what a loop over the bits of a window keeps, and
// leaves the head and the bits before it.
fn keeps_by_count<T: BitStore, O: BitOrder<T>>(
    alloc: Global,
    window: BitSlice<'_, T, O>,
) -> Result<bool, AllocError> {
    let mut bits = BitVec::<T, O>::from_bitslice(alloc, window)?;
    let mut ones = 0usize;
    bits.retain(|index, bit| {
        ones = ones.wrapping_add(usize::from(*bit));
        index.wrapping_add(ones) % 3 != 1
    });
    let mut kept = 0usize;
    let mut seen = 0usize;
    for i in 0..window.len() {
        let bit = window.bit(i);
        seen = seen.wrapping_add(usize::from(bit));
        if i.wrapping_add(seen) % 3 != 1 {
            if kept >= bits.len() || bits.bit(kept) != bit {
                return Ok(false);
            }
            kept = kept.wrapping_add(1);
        }
    }
    Ok(kept == bits.len() && bits.first_place() == window.parts().1 as usize)
}

// The same from each head of a byte, and of words of 32 bits, for each length below 200.
fn keep_by_count_from_each_head<O: BitOrder<u8>, P: BitOrder<u32>>(
    alloc: Global,
) -> Result<bool, AllocError> {
    let mut bytes = [0u8; 26];
    let mut words = [0u32; 8];
    for i in 0..26 {
        bytes[i] = ((i * 73 + 29) % 251) as u8;
    }
    for i in 0..8 {
        words[i] = 2_654_435_761u32.wrapping_mul(i as u32 + 3);
    }
    for head in 0..8 {
        for len in 0..200 {
            let narrow = BitSlice::<u8, O>::from_place(&bytes, head, len);
            let wide = BitSlice::<u32, P>::from_place(&words, 4 * head, len);
            if !keeps_by_count(alloc, narrow)? || !keeps_by_count(alloc, wide)? {
                return Ok(false);
            }
        }
    }
    Ok(true)
}

#[test]
fn many_kept_bits(rt: HostRuntime) -> Result<(), AllocError> {
    assert!(rt; keep_by_count_from_each_head::<Lsb0, Lsb0>(rt.alloc())?);
    assert!(rt; keep_by_count_from_each_head::<Msb0, Msb0>(rt.alloc())?);
    assert!(rt; keep_by_count_from_each_head::<FifthStep, FifthStep>(rt.alloc())?);
    Ok(())
}

#[test]
fn rows_of_kept_bits(rt: HostRuntime) -> Result<(), AllocError> {
    // 0, 1, 0, 0, 1
    let row = [false, true, false, false, true];
    let mut bits = BitVec::<u16, Msb0>::collect(rt.alloc(), row.into_iter())?;
    let capacity = bits.capacity();
    keep_even(&mut bits);
    assert!(rt; bits.len() == 3 && bits.first_one() == Some(2));
    keep_ones(&mut bits);
    assert!(rt; bits.len() == 1 && bits.all() && bits.capacity() == capacity);
    let mut bits = BitVec::<u16, Msb0>::collect(rt.alloc(), row.into_iter())?;
    assert!(rt; keeps(&mut bits, row) && bits.len() == 2 && bits.all());
    Ok(())
}
