//! A run of a text, line by line, through a machine that answers the lines, from a reader to a writer.
#![tactic(auto)]

mod machine;
mod run_error;
mod streams;

pub use machine::{LineMachine, drive};
pub use run_error::RunError;
pub use streams::{Input, Output};
