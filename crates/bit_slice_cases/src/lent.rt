//! Pieces of a window lent one at a time, and written.

ghost use Rattle.std.specs.Prelude.{◌≡◌, ◌<◌, ◌≤◌, length};

use crate::case::Case;
use bit_addressing_sample_orders::texts::number;
use bit_slice::pieces::{
    Backward, BackwardExact, Cuts, ExactCuts, Forward, ForwardExact, PiecesMut, Single,
};
use bit_slice::{Bits, BitsMut, BitsWindow};
use std::alloc::AllocError;

/// Writes up to five pieces of a window by a call, and answers whether it is one of these; how many pieces came goes into
/// the text. The bits of another list are flipped in each piece, and each piece is shifted further than the one before it,
/// by the number in the case's third word. By some calls the bits in no piece are flipped.
pub fn write_pieces<V: BitsWindow, W: Bits>(
    text: &mut String,
    view: &mut V,
    case: &Case<'_>,
    other: &W,
) -> Result<bool, AllocError> {
    let (size, step) = (number(case.second), number(case.third));
    if size == 0 {
        return Ok(false);
    }
    let count = match case.call {
        "chunks_take_rest" => take_rest::<V, ForwardExact>(view, size),
        "chunks_into_rest" => end_with_rest::<V, ForwardExact>(view, size),
        "rchunks_take_rest" => take_rest::<V, BackwardExact>(view, size),
        "rchunks_into_rest" => end_with_rest::<V, BackwardExact>(view, size),
        "chunks_mut" => edit_some::<V, Forward, W>(view, size, other, step),
        "chunks_exact_mut" => edit_some::<V, ForwardExact, W>(view, size, other, step),
        "rchunks_mut" => edit_some::<V, Backward, W>(view, size, other, step),
        "rchunks_exact_mut" => edit_some::<V, BackwardExact, W>(view, size, other, step),
        "iter_mut" => edit_some::<V, Single, W>(view, 1, other, step),
        _ => return Ok(false),
    };
    text.push((b'0' + count) as char)?;
    text.push(' ')?;
    Ok(true)
}

// Flips the bits of another list in a piece, and shifts it.
fn edit_piece<V: BitsMut, W: Bits>(piece: &mut V, other: &W, by: usize)
    ensures frame { V.frame piece.new ≡ V.frame piece.old }
    ensures len { length (V.bits piece.new) ≡ length (V.bits piece.old) }
{
    piece.xor_bits(other);
    piece.shift_right(by);
}

// Edits the first piece, the last, the second, the second last and the third, as far as there are so many, and answers how
// many there are of these.
fn edit_some<V: BitsWindow, C: Cuts, W: Bits>(
    view: &mut V,
    size: usize,
    other: &W,
    step: usize,
) -> u8
    requires { 0 < size }
    ensures { result ≤ 5 }
{
    let mut pieces = PiecesMut::<V, C>::new(view, size);
    let Some(piece) = pieces.next_mut() else {
        return 0
    };
    edit_piece(piece, other, 0);
    let Some(piece) = pieces.next_back_mut() else {
        return 1
    };
    edit_piece(piece, other, step);
    let Some(piece) = pieces.next_mut() else {
        return 2
    };
    edit_piece(piece, other, step.wrapping_mul(2));
    let Some(piece) = pieces.next_back_mut() else {
        return 3
    };
    edit_piece(piece, other, step.wrapping_mul(3));
    let Some(piece) = pieces.next_mut() else {
        return 4
    };
    edit_piece(piece, other, step.wrapping_mul(4));
    5
}

// Flips the bits in no piece, which are lent once: the second time none are. No piece is written.
fn take_rest<V: BitsWindow, C: ExactCuts>(view: &mut V, size: usize) -> u8
    requires { 0 < size }
    ensures { result ≡ 0 }
{
    let mut pieces = PiecesMut::<V, C>::new(view, size);
    pieces.take_remainder().invert();
    pieces.take_remainder().invert();
    0
}

// Flips the bits in no piece, for which the pieces are given up.
fn end_with_rest<V: BitsWindow, C: ExactCuts>(view: &mut V, size: usize) -> u8
    requires { 0 < size }
    ensures { result ≡ 0 }
{
    let pieces = PiecesMut::<V, C>::new(view, size);
    let mut rest = pieces.into_remainder();
    rest.invert();
    0
}
