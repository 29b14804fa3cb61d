//! The storages that a table of rows can be kept in.

/// The storage word of a table.
#[derive(Clone, Copy, PartialEq, Eq, Debug)]
pub enum Word {
    /// Words of 8 bits.
    U8,
    /// Words of 16 bits.
    U16,
    /// Words of 32 bits.
    U32,
    /// Words of 64 bits.
    U64,
    /// Words of 128 bits.
    U128,
}

/// The order of the bits in each word of a table.
#[derive(Clone, Copy, PartialEq, Eq, Debug)]
pub enum Order {
    /// The first bit is the lowest digit.
    Lsb0,
    /// The first bit is the highest digit.
    Msb0,
    /// The order `HiLo`: the lowest digit first, and the two halves of each eight digits exchanged.
    HiLo,
}
