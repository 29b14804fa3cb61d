//! The pieces of whatever shows bits.

ghost use Rattle.std.specs.Prelude.{◌≡◌, ◌<◌, length};
ghost use Rattle.bit_slice_iterators.specs.Cuts.{chunks, chunks_exact, rchunks, rchunks_exact, windows};
ghost use Rattle.bit_slice_iterators.specs.Cuts.{heads_of, forward, forward_exact, backward, backward_exact, sliding};

use crate::pieces::{Chunks, ChunksExact, RChunks, RChunksExact, Windows};
use bit_slice_views::Bits;

/// The pieces of a list of bits: of every `Bits`.
pub trait BitsPieces: Bits {
    /// The pieces of `size` bits from the front on; the last one is shorter where `size` does not divide their number.
    final fn chunks(&self, size: usize) -> Chunks<'_, Self::Store, Self::Order>
        requires { 0 < size }
        ensures bits { result.bits ≡ Self.bits self.now }
        ensures size { result.size ≡ size }
        ensures left { result.left ≡ chunks (Self.bits self.now) size }
        ensures head { result.head ≡ Self.start self.now }
        ensures heads { result.heads
            ≡ heads_of forward Self.Store.BITS (Self.start self.now) (length (Self.bits self.now)) size }
    {
        Chunks::new(self.as_bitslice(), size)
    }

    /// The pieces of exactly `size` bits from the front on; `remainder` has the bits behind them.
    final fn chunks_exact(&self, size: usize) -> ChunksExact<'_, Self::Store, Self::Order>
        requires { 0 < size }
        ensures bits { result.bits ≡ Self.bits self.now }
        ensures size { result.size ≡ size }
        ensures left { result.left ≡ chunks_exact (Self.bits self.now) size }
        ensures head { result.head ≡ Self.start self.now }
        ensures heads { result.heads
            ≡ heads_of forward_exact Self.Store.BITS (Self.start self.now) (length (Self.bits self.now)) size }
    {
        ChunksExact::new(self.as_bitslice(), size)
    }

    /// The pieces of `size` bits from the back on, each in the list's own order; the last one, at the front, is shorter
    /// where `size` does not divide their number.
    final fn rchunks(&self, size: usize) -> RChunks<'_, Self::Store, Self::Order>
        requires { 0 < size }
        ensures bits { result.bits ≡ Self.bits self.now }
        ensures size { result.size ≡ size }
        ensures left { result.left ≡ rchunks (Self.bits self.now) size }
        ensures head { result.head ≡ Self.start self.now }
        ensures heads { result.heads
            ≡ heads_of backward Self.Store.BITS (Self.start self.now) (length (Self.bits self.now)) size }
    {
        RChunks::new(self.as_bitslice(), size)
    }

    /// The pieces of exactly `size` bits from the back on; `remainder` has the bits before them.
    final fn rchunks_exact(&self, size: usize) -> RChunksExact<'_, Self::Store, Self::Order>
        requires { 0 < size }
        ensures bits { result.bits ≡ Self.bits self.now }
        ensures size { result.size ≡ size }
        ensures left { result.left ≡ rchunks_exact (Self.bits self.now) size }
        ensures head { result.head ≡ Self.start self.now }
        ensures heads { result.heads
            ≡ heads_of backward_exact Self.Store.BITS (Self.start self.now) (length (Self.bits self.now)) size }
    {
        RChunksExact::new(self.as_bitslice(), size)
    }

    /// The pieces of `size` bits from each bit on, as far as there are so many.
    final fn windows(&self, size: usize) -> Windows<'_, Self::Store, Self::Order>
        requires { 0 < size }
        ensures bits { result.bits ≡ Self.bits self.now }
        ensures size { result.size ≡ size }
        ensures left { result.left ≡ windows (Self.bits self.now) size }
        ensures head { result.head ≡ Self.start self.now }
        ensures heads { result.heads
            ≡ heads_of sliding Self.Store.BITS (Self.start self.now) (length (Self.bits self.now)) size }
    {
        Windows::new(self.as_bitslice(), size)
    }
}

impl<V: Bits> BitsPieces for V {}
