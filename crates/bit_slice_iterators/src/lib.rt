//! Bits one after another, from both ends, the indices of ones and zeros, and pieces: chunks and windows, to read and to
//! write.
#![tactic(auto)]

mod calls;
mod cuts;
mod indices;
mod iter;
mod iter_mut;
mod piece_calls;
mod piece_calls_mut;
mod pieces;
mod pieces_mut;
mod values;

pub use bit_slice_access::BitMut;
pub use calls::BitsIter;
pub use cuts::{Backward, BackwardExact, Cuts, ExactCuts, Forward, ForwardExact, Single, Sliding};
pub use indices::{Indices, IterOnes, IterZeros, Ones, Sought, Zeros};
pub use iter::Iter;
pub use iter_mut::{EachBit, IterMut};
pub use piece_calls::BitsPieces;
pub use piece_calls_mut::BitsPiecesMut;
pub use pieces::{Chunks, ChunksExact, Pieces, RChunks, RChunksExact, Windows};
pub use pieces_mut::{ChunksExactMut, ChunksMut, PiecesMut, RChunksExactMut, RChunksMut};
pub use values::{BitRefIter, BitValIter};
