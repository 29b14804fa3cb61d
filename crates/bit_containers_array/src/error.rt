//! Why a window is no array of bits.

ghost use Rattle.std.specs.Prelude.{Some};

use std::error::Error;
use std::fmt;

/// Why a window is no array of bits: the length is tested first, then where it begins.
#[derive(Clone, Copy, PartialEq, Eq, PartialOrd, Ord)]
pub enum TryFromBitSliceError {
    /// It has another number of bits than the array.
    UnequalLen {
        /// How many bits the window has.
        actual: usize,
        /// How many the array has.
        expected: usize,
    },
    /// It begins inside a word.
    Misaligned,
}

impl fmt::Display for TryFromBitSliceError {
    ghost use Rattle.bit_containers_array.specs.FromView.{fault_text};

    ghost output = { λ error. Some (fault_text error) };

    fn fmt<W: fmt::Write>(&self, f: &mut fmt::Formatter<W>) -> fmt::Result {
        match *self {
            TryFromBitSliceError::UnequalLen { actual, expected } => {
                write!(
                    f,
                    "bit-slice with length {actual} cannot be viewed as bit-array with length {expected}"
                )
            }
            TryFromBitSliceError::Misaligned => {
                f.write_str("a bit-slice must begin at the front edge of a storage element ")?;
                f.write_str("in order to be viewed as a bit-array")
            }
        }
    }
}

/// `TryFromBitSliceError::UnequalLen(16 != 8)`, `TryFromBitSliceError::Misaligned`.
impl fmt::Debug for TryFromBitSliceError {
    ghost use Rattle.bit_containers_array.specs.FromView.{fault_debug_text};

    ghost debug_output = { λ error. Some (fault_debug_text error) };

    fn fmt<W: fmt::Write>(&self, f: &mut fmt::Formatter<W>) -> fmt::Result {
        match *self {
            TryFromBitSliceError::UnequalLen { actual, expected } => {
                write!(
                    f,
                    "TryFromBitSliceError::UnequalLen({actual} != {expected})"
                )
            }
            TryFromBitSliceError::Misaligned => f.write_str("TryFromBitSliceError::Misaligned"),
        }
    }
}

impl Error for TryFromBitSliceError {}
