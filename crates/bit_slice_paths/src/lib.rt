//! Word paths by chunks, a step a chunk, and the count of steps.
#![tactic(auto)]

pub mod across;
pub mod by_words;
pub mod combining;
pub mod exchange;
mod kernel;
pub mod match_words;
pub mod merge;
pub mod mirror;
pub mod rotation;
pub mod seek;
mod steps;
pub mod two_memories;
pub mod word_source;

pub use bit_slice_chunks::{
    Combination, first_difference, raised, read_bits, read_nth_chunk, read_part,
};
pub use steps::Steps;
pub use two_memories::Reached;
