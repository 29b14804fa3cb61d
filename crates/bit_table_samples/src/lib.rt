//! What the tests of the table's crates share: a reader, a writer and a machine that fail on request.
#![tactic(auto)]

mod machines;
mod streams;

pub use machines::{Echo, echoed};
pub use streams::{Cut, Narrow, Stop};
