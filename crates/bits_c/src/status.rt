//! What a call answers. C gets these numbers, since no enum crosses.

/// Done.
pub const OK: u32 = 0;

/// A window, an index or the distance of a rotation does not lie where it has to.
pub const OUT_OF_RANGE: u32 = 1;

/// There is no such bit.
pub const NONE: u32 = 2;

/// A number of no bits, or of more than 64.
pub const BAD_WIDTH: u32 = 3;

/// The answer of a table's script is longer than the room for it.
pub const NO_ROOM: u32 = 4;

/// Memory was wanted and refused.
pub const NO_MEMORY: u32 = 5;

/// There is no such word, or no such order.
pub const BAD_STORAGE: u32 = 6;
