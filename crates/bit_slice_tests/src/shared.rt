//! Windows as values: comparison and hash wherever they lie, and how they are made.

use bit_addressing_memory::{Lsb0, Msb0};
use bit_slice_access::BitsParts;
use bit_slice_views::{BitSlice, Bits};
use bit_slice_views_mut::{BitSliceMut, BitsMut, BitsShown, MayWriteBeside};
use bit_slice_words::WordPaths;
use std::cmp::Ordering;
use std::hash::{DefaultHasher, Hash, Hasher};
use std::process::Abort;

// The hash of a value, which `Hash` feeds.
fn hashed<H: Hash>(value: &H) -> u64 {
    let mut state = DefaultHasher::new();
    value.hash(&mut state);
    state.finish()
}

#[test]
fn lists_are_compared_wherever_they_lie(rt: HostRuntime) {
    let mut words = [0b0110_1000u8, 0b0000_1101];
    let mut others = [0b0000_1101u8];
    let left = BitSlice::<u8, Lsb0>::from_parts(&words, 3, 4);
    let right = BitSlice::<u8, Lsb0>::from_parts(&others, 0, 4);
    assert!(rt;
        left == right && left.cmp(&right) == Ordering::Equal && hashed(&left) == hashed(&right)
    );
    let longer = BitSlice::<u8, Lsb0>::from_parts(&others, 0, 5);
    assert!(rt; left != longer && left < longer && longer > right);
    assert!(rt; hashed(&left) != hashed(&longer));
    let left = BitSliceMut::<u8, Lsb0>::from_place_mut(&mut words, 3, 4);
    let right = BitSliceMut::<u8, Lsb0>::from_place_mut(&mut others, 0, 4);
    assert!(rt;
        left == right && left.cmp(&right) == Ordering::Equal && hashed(&left) == hashed(&right)
    );
    assert!(rt; left.partial_cmp(&right) == Some(Ordering::Equal) && left[0] && !left[1]);
}

#[test]
fn windows_are_made(rt: HostRuntime) {
    let mut words = [0b1111_0000u8];
    let mut bits = !BitSliceMut::<u8, Lsb0>::from_place_mut(&mut words, 2, 4);
    assert!(rt; bits.first_one() == Some(0) && bits.last_one() == Some(1));
    bits.show(MayWriteBeside, 4, 4);
    assert!(rt; bits.len() == 4 && bits.first_one() == Some(2));
    drop(bits);
    assert!(rt; words == [0b1100_1100]);
    assert!(rt; BitSliceMut::<u8, Lsb0>::default().is_empty());
    let (none, head, len) = BitSlice::<u8, Lsb0>::default().parts();
    assert!(rt; none.len() == 0 && head == 0 && len == 0);
    assert!(rt; BitSliceMut::<u8, Lsb0>::empty_mut().first_place() == 0);
    let made = BitSliceMut::<u8, Lsb0>::try_from(words.as_mut_slice());
    assert!(rt; made.is_ok());
    let shared = BitSlice::<u8, Msb0>::try_from(words.as_slice());
    assert!(rt; matches!(shared, Ok(bits) if bits.len() == 8));
    let bits = BitSliceMut::<u8, Lsb0>::from_slice_mut(&mut words);
    assert!(rt; bits.bit_domain().enclave().is_none());
    assert!(rt; <Lsb0 as WordPaths<u8>>::SPAN == 64 && <Msb0 as WordPaths<u64>>::SPAN == 64);
}
