//! Bits of a memory at places of any size, as pointers reach them: what a slice of words and a number can't say.

pub use crate::copies::{copy_between_at, copy_within_at, swap_at, swap_between_at};
pub use crate::entry::{read_at, write_at};
pub use crate::place::Place;
