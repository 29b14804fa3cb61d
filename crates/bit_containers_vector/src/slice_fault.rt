//! Why words make no vector of bits.

use bit_addressing_span::BitSpanError;
use thiserror::Error;

/// Why words make no vector of bits: they are too many, or there is no memory. In bitvec it is a `BitSpanError` alone.
#[derive(Clone, Copy, PartialEq, Eq, Debug, Error)]
pub enum SliceFault {
    /// So many bits are more than `MAX_BITS`.
    #[error("{0}")]
    Span(BitSpanError),
    /// A request for memory was refused.
    #[error("no memory")]
    Memory,
}
