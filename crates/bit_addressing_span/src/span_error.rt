//! Why numbers are no span.

use thiserror::Error;

/// Why numbers are no span: the length is tested first, then the end.
///
/// In bitvec the type has a parameter, and `TooHigh` has an address.
#[derive(Clone, Copy, PartialEq, Eq, Debug, Error)]
pub enum BitSpanError {
    /// So many bits are more than `MAX_BITS`.
    #[error("span of {0} bits is too long")]
    TooLong(usize),
    /// A span that begins in this word ends past the last word that a signed number counts.
    #[error("span at word {0} ends too high")]
    TooHigh(usize),
}
