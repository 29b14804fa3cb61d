//! What ends a run early.
use thiserror::Error;

/// What ends a run before the clean end of its script.
#[derive(Clone, Copy, Debug, PartialEq, Eq, Error)]
pub enum RunError {
    /// A read failed.
    #[error("read fault")]
    Read,
    /// A write failed, or took no byte.
    #[error("write fault")]
    Write,
    /// No memory was found.
    #[error("no memory")]
    Memory,
}
