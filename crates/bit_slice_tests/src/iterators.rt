//! Bits one after another and the indices of ones and zeros: as values and references, by their numbers, cloned, and lent.

ghost use Rattle.std.specs.Prelude.{◌≡◌, length};

use crate::list::{BYTES, shows};
use bit_addressing_memory::Lsb0;
use bit_slice_iterators::{BitsIter, BitsPieces, BitsPiecesMut, IterOnes, IterZeros};
use bit_slice_views::{BitSlice, Bits};
use bit_slice_views_mut::{BitSliceMut, BitsMut, BitsWindow};
use std::alloc::AllocError;

#[test]
fn bits_come_one_by_one(rt: HostRuntime) {
    let view = BitSlice::<u8, Lsb0>::from_place(&BYTES, 3, 10);
    let mut bits = view.iter();
    let first = bits.next();
    let last = bits.next_back();
    assert!(rt; matches!(first, Some(b) if *b) && matches!(last, Some(b) if !*b));
    assert!(rt; shows(&bits.as_bitslice(), 1, 8) && shows(&bits.as_slice(), 1, 8));
    let third = bits.nth(2);
    assert!(rt; matches!(third, Some(b) if *b) && bits.len() == 5);
    let mut references = view.iter().by_refs();
    let first = references.next();
    let last = references.next_back();
    assert!(rt; matches!(first, Some(b) if *b) && matches!(last, Some(b) if !*b));
    assert!(rt; references.size_hint() == (8, Some(8)));
    let mut values = view.iter().copied();
    assert!(rt; values.next() == Some(true) && values.next_back() == Some(false));
    assert!(rt; IterOnes::<u8, Lsb0>::default().next_back().is_none());
    // the end is the end for good
    let mut zeros = IterZeros::<u8, Lsb0>::default();
    assert!(rt; zeros.next().is_none() && zeros.next_back().is_none() && zeros.next().is_none());
    let mut chunks = view.chunks(10);
    assert!(rt; chunks.next_back().is_some() && chunks.next().is_none());
    assert!(rt; chunks.next_back().is_none() && chunks.next().is_none() && chunks.len() == 0);
}

#[test]
fn bits_are_found_by_their_number(rt: HostRuntime) {
    // 1011001110
    let view = BitSlice::<u8, Lsb0>::from_place(&BYTES, 3, 10);
    let mut bits = view.into_iter();
    assert!(rt; bits.len() == 10);
    let third = bits.nth_back(2);
    assert!(rt; matches!(third, Some(b) if *b) && bits.len() == 7);
    let none = bits.nth(7);
    assert!(rt; none.is_none() && bits.len() == 0 && bits.next_back().is_none());
    let mut values = view.iter().by_vals();
    assert!(rt;
        values.nth(3) == Some(true) && values.nth_back(1) == Some(true) && values.len() == 4
    );
    let mut references = view.iter().by_refs();
    let fifth = references.nth(4);
    let third = references.nth_back(2);
    assert!(rt; matches!(fifth, Some(b) if !*b) && matches!(third, Some(b) if *b));
    assert!(rt; references.len() == 2);
    let mut ones = view.iter_ones();
    assert!(rt; ones.nth(2) == Some(3) && ones.nth_back(1) == Some(7) && ones.next() == Some(6));
    assert!(rt; ones.nth(0).is_none() && ones.size_hint() == (0, Some(0)));
    let mut zeros = view.iter_zeros();
    assert!(rt; zeros.nth_back(3) == Some(1) && zeros.nth_back(0).is_none() && zeros.len() == 0);
    let mut chunks = view.chunks(3);
    let second = chunks.nth(1);
    let last = chunks.nth_back(0);
    assert!(rt; matches!(second, Some(piece) if shows(&piece, 3, 3)));
    assert!(rt; matches!(last, Some(piece) if shows(&piece, 9, 1)) && chunks.len() == 1);
}

#[test]
fn iterators_are_cloned(rt: HostRuntime) -> Result<(), AllocError> {
    let view = BitSlice::<u8, Lsb0>::from_place(&BYTES, 3, 10);
    let mut bits = view.iter();
    bits.next();
    let copy = bits.clone()?;
    assert!(rt; shows(&copy.as_bitslice(), 1, 9) && bits.len() == 9);
    let mut values = bits.by_vals();
    let mut copy = values.clone()?;
    assert!(rt; copy.next_back() == Some(false) && copy.len() == 8);
    assert!(rt; values.len() == 9 && values.next() == Some(false));
    let mut references = view.iter().by_refs();
    references.next();
    let copy = references.clone()?;
    assert!(rt; copy.len() == 9 && references.next().is_some() && references.len() == 8);
    let mut zeros = view.iter_zeros();
    zeros.next();
    let mut copy = zeros.clone()?;
    assert!(rt; copy.next() == Some(4) && zeros.next() == Some(4));
    let mut chunks = view.chunks(3);
    chunks.next();
    let mut copy = chunks.clone()?;
    assert!(rt; copy.next_back().is_some() && copy.len() == 2 && chunks.len() == 3);
    Ok(())
}

// The first and the last bit of a window flipped, and what is left set.
fn flips_ends<V: BitsWindow>(view: &mut V) -> bool
    requires { length (V.bits view.old) ≡ 10 }
{
    let mut bits = view.iter_mut();
    let Some(first) = bits.next_mut() else {
        return false
    };
    let began = shows(first, 0, 1);
    first.invert();
    let Some(last) = bits.next_back_mut() else {
        return false
    };
    let ended = shows(last, 9, 1);
    last.invert();
    let left = bits.as_bitslice();
    let inner = shows(left, 1, 8);
    left.set(0, true);
    let mut rest = bits.into_bitslice();
    rest.set(7, false);
    began && ended && inner
}

// The same by the other names of these calls.
fn flips_ends_too<V: BitsWindow>(view: &mut V) -> bool
    requires { length (V.bits view.old) ≡ 10 }
{
    let mut bits = view.iter_mut();
    let left = bits.as_slice();
    let all = shows(left, 0, 10);
    left.set(0, false);
    let mut rest = bits.into_slice();
    rest.set(9, true);
    all
}

#[test]
fn bits_are_written_one_by_one(rt: HostRuntime) {
    let mut words = BYTES;
    let agrees = flips_ends(&mut BitSliceMut::<u8, Lsb0>::from_place_mut(&mut words, 3, 10));
    // 1 01100111 0 becomes 0 11100110 1
    assert!(rt; agrees && words == [0x77, 0xf6]);
    let mut words = BYTES;
    let agrees = flips_ends_too(&mut BitSliceMut::<u8, Lsb0>::from_place_mut(&mut words, 3, 10));
    // 1 01100111 0 becomes 0 01100111 1
    assert!(rt; agrees && words == [0x67, 0xfe]);
}
