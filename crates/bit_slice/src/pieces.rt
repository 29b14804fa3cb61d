//! What pieces and indices are made of: the ways to cut a list, the pieces of a cut, and what is sought among bits.

pub use bit_slice_iterators::{
    Backward, BackwardExact, Cuts, EachBit, ExactCuts, Forward, ForwardExact, Indices, Ones,
    Pieces, PiecesMut, Single, Sliding, Sought, Zeros,
};
