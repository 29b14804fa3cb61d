//! Pieces to write, lent from both ends, over two bytes whose other bits are ones.

ghost use Rattle.std.specs.Prelude.{◌≡◌, length};

use crate::list::{BYTES, shows};
use bit_addressing_memory::Lsb0;
use bit_slice_iterators::BitsPiecesMut;
use bit_slice_views::Bits;
use bit_slice_views_mut::{BitSliceMut, BitsMut, BitsWindow};

// Whether the first and the last piece of a window of ten bits are lent by turns.
fn by_turns<V: BitsWindow>(view: &mut V) -> bool
    requires { length (V.bits view.old) ≡ 10 }
{
    let mut pieces = view.chunks_mut(3);
    let Some(piece) = pieces.next_back_mut() else {
        return false
    };
    let last = shows(piece, 9, 1);
    piece.invert();
    let Some(piece) = pieces.next_mut() else {
        return false
    };
    let first = shows(piece, 0, 3);
    piece.set(1, true);
    let Some(piece) = pieces.next_back_mut() else {
        return false
    };
    let third = shows(piece, 6, 3);
    piece.fill(false);
    let Some(piece) = pieces.next_mut() else {
        return false
    };
    let second = shows(piece, 3, 3);
    last && first && second && third && pieces.next_mut().is_none()
}

// Whether the first piece of each kind is lent, of a window of ten bits.
fn first_of_each<V: BitsWindow>(view: &mut V) -> bool
    requires { length (V.bits view.old) ≡ 10 }
{
    let forward = match view.chunks_exact_mut(4).next_back_mut() {
        Some(piece) => shows(piece, 4, 4),
        None => false,
    };
    let backward = match view.rchunks_mut(4).next_back_mut() {
        Some(piece) => shows(piece, 0, 2),
        None => false,
    };
    let whole = match view.rchunks_exact_mut(4).next_mut() {
        Some(piece) => shows(piece, 6, 4),
        None => false,
    };
    forward && backward && whole
}

// Whether the pieces behind others are lent, from either end, of a window of ten bits.
fn behind_others<V: BitsWindow>(view: &mut V) -> bool
    requires { length (V.bits view.old) ≡ 10 }
{
    let mut pieces = view.chunks_mut(3);
    if pieces.len() != 4 {
        return false;
    }
    let Some(piece) = pieces.nth_back_mut(1) else {
        return false
    };
    let third = shows(piece, 6, 3);
    let Some(piece) = pieces.nth_mut(1) else {
        return false
    };
    let second = shows(piece, 3, 3);
    third && second && pieces.len() == 0 && pieces.nth_mut(0).is_none()
}

// Whether none is left where fewer are than those that are passed over.
fn none_is_left<V: BitsWindow>(view: &mut V) -> bool
    requires { length (V.bits view.old) ≡ 10 }
{
    let none = {
        let mut pieces = view.rchunks_mut(4);
        pieces.nth_mut(3).is_none() && pieces.len() == 0
    };
    let mut pieces = view.rchunks_mut(4);
    none && pieces.nth_back_mut(3).is_none() && pieces.next_mut().is_none()
}

#[test]
fn pieces_of_each_kind_are_written(rt: HostRuntime) {
    let mut words = BYTES;
    let agrees = {
        let mut view = BitSliceMut::<u8, Lsb0>::from_place_mut(&mut words, 3, 10);
        by_turns(&mut view)
    };
    // 101 100 111 0 becomes 111 100 000 1
    assert!(rt; agrees && words == [0x7f, 0xf0]);
    let mut words = BYTES;
    let agrees = {
        let mut view = BitSliceMut::<u8, Lsb0>::from_place_mut(&mut words, 3, 10);
        first_of_each(&mut view)
    };
    assert!(rt; agrees && words == BYTES);
    let mut words = BYTES;
    let agrees = {
        let mut view = BitSliceMut::<u8, Lsb0>::from_place_mut(&mut words, 3, 10);
        behind_others(&mut view)
    };
    assert!(rt; agrees && words == BYTES);
    let mut words = BYTES;
    let agrees = {
        let mut view = BitSliceMut::<u8, Lsb0>::from_place_mut(&mut words, 3, 10);
        none_is_left(&mut view)
    };
    assert!(rt; agrees && words == BYTES);
}
