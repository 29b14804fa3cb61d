//! The iterators over indices, ends and selectors.

pub use bit_addressing_order::{EndRange, IndexRange, Place, PlaceRange, SelectorRange};
