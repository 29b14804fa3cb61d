//! Arrays of bits: the list of a word or of an array of words, owned; and what an array lends.
#![tactic(auto)]

mod access;
mod array;
mod compare;
mod convert;
mod error;
mod iter;
mod operators;
mod owned;
mod text;
mod zero;

pub use array::BitArray;
pub use bit_slice_views_mut::apply;
pub use error::TryFromBitSliceError;
pub use iter::IntoIter;
pub use owned::BitsOwned;
pub use zero::BitArrayZero;
