//! Why devices make no map, and why a command is refused.

use thiserror::Error;

/// Why devices make no map. Which fault is told, where there are several, is left open.
#[derive(Clone, Copy, PartialEq, Eq, Debug, Error)]
pub enum MapError {
    /// The device of this name ends beyond so many words.
    #[error("{name} does not fit in {size} words")]
    DoesNotFit {
        name: &'static str,
        size: usize,
    },
    /// The devices of these names have a bit in common. The earlier one comes first in the list.
    #[error("{later} overlaps {earlier}")]
    Overlap {
        earlier: &'static str,
        later: &'static str,
    },
}

/// Why a command is refused.
#[derive(Clone, Copy, PartialEq, Eq, Debug, Error)]
pub enum Refusal {
    /// The map has no device of this number.
    #[error("there is no device {0}")]
    NoDevice(usize),
    /// The device has so many bits, and no flag of this number.
    #[error("there is no flag {flag} in {width} bits")]
    NoFlag { flag: usize, width: usize },
    /// The device has so many bits, and the number takes more.
    #[error("{number} takes more than {width} bits")]
    TooGreat { number: u32, width: usize },
}
