//! Bits that grow: a list of bits in a vector of words.
#![tactic(auto)]

mod access;
mod compare;
mod convert;
mod drain;
mod edits;
mod fill;
mod grow;
mod items;
mod lend;
mod make;
mod operators;
mod size;
mod slice_fault;
mod splice;
mod text;
mod vector;
mod words;

pub use drain::Drain;
pub use slice_fault::SliceFault;
pub use splice::Splice;
pub use vector::BitVec;
