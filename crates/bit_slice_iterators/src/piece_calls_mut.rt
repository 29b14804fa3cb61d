//! The pieces of whatever lends bits to write.

ghost use Rattle.std.specs.Prelude.{◌≡◌, ◌<◌};
ghost use Rattle.bit_addressing_memory.specs.Memory.{read_by};
ghost use Rattle.bit_slice_iterators.specs.Cuts.{forward, forward_exact, backward, backward_exact, single};
ghost use Rattle.bit_slice_iterators.specs.PiecesMut.{pieces_loan, CutsAll, PiecesLie};

use crate::iter_mut::IterMut;
use crate::pieces_mut::{ChunksExactMut, ChunksMut, RChunksExactMut, RChunksMut};
use bit_slice_access::{BitsMut, BitsWindow};

/// The pieces of a window, to write: of every `BitsWindow`.
///
/// One piece is lent at a time. A function that is generic in the window knows all of it afterwards; in the body that
/// made the window nothing is known of it.
pub trait BitsPiecesMut: BitsWindow {
    /// The pieces of `size` bits from the front on, lent one at a time; the last one is shorter where `size` does not divide
    /// their number.
    final fn chunks_mut(&mut self, size: usize) -> ChunksMut<'_, Self>
        requires { 0 < size }
        ensures same_reference { pieces_loan result ≡ self.entry.ghost_name }
        ensures cuts { CutsAll (read_by Self.Store.BitRegister Self.Order.position) Self.lender Self.words Self.place
            Self.bits Self.frame forward self.old size result }
        ensures lies { PiecesLie Self.Store.BITS Self.words forward result }
    {
        ChunksMut::new(self, size)
    }

    /// The pieces of exactly `size` bits from the front on, lent one at a time; the bits behind them are the remainder.
    final fn chunks_exact_mut(&mut self, size: usize) -> ChunksExactMut<'_, Self>
        requires { 0 < size }
        ensures same_reference { pieces_loan result ≡ self.entry.ghost_name }
        ensures cuts { CutsAll (read_by Self.Store.BitRegister Self.Order.position) Self.lender Self.words Self.place
            Self.bits Self.frame forward_exact self.old size result }
        ensures lies { PiecesLie Self.Store.BITS Self.words forward_exact result }
    {
        ChunksExactMut::new(self, size)
    }

    /// The pieces of `size` bits from the back on, lent one at a time; the last one, at the front, is shorter where `size`
    /// does not divide their number.
    final fn rchunks_mut(&mut self, size: usize) -> RChunksMut<'_, Self>
        requires { 0 < size }
        ensures same_reference { pieces_loan result ≡ self.entry.ghost_name }
        ensures cuts { CutsAll (read_by Self.Store.BitRegister Self.Order.position) Self.lender Self.words Self.place
            Self.bits Self.frame backward self.old size result }
        ensures lies { PiecesLie Self.Store.BITS Self.words backward result }
    {
        RChunksMut::new(self, size)
    }

    /// The pieces of exactly `size` bits from the back on, lent one at a time; the bits before them are the remainder.
    final fn rchunks_exact_mut(&mut self, size: usize) -> RChunksExactMut<'_, Self>
        requires { 0 < size }
        ensures same_reference { pieces_loan result ≡ self.entry.ghost_name }
        ensures cuts { CutsAll (read_by Self.Store.BitRegister Self.Order.position) Self.lender Self.words Self.place
            Self.bits Self.frame backward_exact self.old size result }
        ensures lies { PiecesLie Self.Store.BITS Self.words backward_exact result }
    {
        RChunksExactMut::new(self, size)
    }

    /// The bits, lent one at a time, each as a window of one bit.
    final fn iter_mut(&mut self) -> IterMut<'_, Self>
        ensures same_reference { pieces_loan result ≡ self.entry.ghost_name }
        ensures cuts { CutsAll (read_by Self.Store.BitRegister Self.Order.position) Self.lender Self.words Self.place
            Self.bits Self.frame single self.old 1 result }
        ensures lies { PiecesLie Self.Store.BITS Self.words single result }
    {
        IterMut::new(self, 1)
    }
}

impl<V: BitsWindow> BitsPiecesMut for V {}
