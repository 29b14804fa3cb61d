//! The laws that a candidate can break.

use bit_addressing_order::{BitEnd, BitIdx, BitRegister};
use std::fmt;
use thiserror::Error;

/// The first law that a candidate breaks at words of one register. Its text shows indices and bounds
/// in decimal, and an absent bound as `the start` or `the end`.
#[derive(Error)]
#[derive_where(Clone, Copy, PartialEq, Eq, Debug)]
pub enum OrderFault<R: BitRegister> {
    /// The selector of this index is not its position alone.
    #[error("the selector of index {} is not its position alone", .0.into_inner())]
    Selector(BitIdx<R>),
    /// The position of this index is that of an index below it.
    #[error("the position of index {} is that of an index below it", .0.into_inner())]
    Repeated(BitIdx<R>),
    /// The mask between these bounds is not the positions of the indices between them.
    #[error("the mask from {} to {} is not the positions of its indices", Bound::from(.0), Bound::upto(.1))]
    Mask(Option<BitIdx<R>>, Option<BitEnd<R>>),
}

// A bound of a mask, as the text of a fault shows it.
#[derive(Clone, Copy)]
enum Bound {
    At(u8),
    Start,
    End,
}

impl Bound {
    // The first bound: an absent one is the start.
    fn from<R: BitRegister>(from: &Option<BitIdx<R>>) -> Bound {
        match from {
            Some(index) => Bound::At(index.into_inner()),
            None => Bound::Start,
        }
    }

    // The second bound: an absent one is the end.
    fn upto<R: BitRegister>(upto: &Option<BitEnd<R>>) -> Bound {
        match upto {
            Some(end) => Bound::At(end.into_inner()),
            None => Bound::End,
        }
    }
}

impl fmt::Display for Bound {
    fn fmt<W: fmt::Write>(&self, f: &mut fmt::Formatter<W>) -> fmt::Result {
        match self {
            Bound::At(place) => write!(f, "{place}"),
            Bound::Start => f.write_str("the start"),
            Bound::End => f.write_str("the end"),
        }
    }
}

/// The first law that a candidate breaks, and at words of which register.
#[derive(Clone, Copy, PartialEq, Eq, Debug, Error)]
pub enum WordFault {
    /// At `u8`.
    #[error("at u8, {0}")]
    U8(OrderFault<u8>),
    /// At `u16`.
    #[error("at u16, {0}")]
    U16(OrderFault<u16>),
    /// At `u32`.
    #[error("at u32, {0}")]
    U32(OrderFault<u32>),
    /// At `u64`.
    #[error("at u64, {0}")]
    U64(OrderFault<u64>),
    /// At `usize`.
    #[error("at usize, {0}")]
    Usize(OrderFault<usize>),
    /// At `u128`.
    #[error("at u128, {0}")]
    U128(OrderFault<u128>),
}
