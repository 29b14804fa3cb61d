//! Whether positions go straight with the indices, and words cut by shifts where they do.

pub use bit_addressing_memory::{Direction, Straight, direction_of, goes, joined, raised};
