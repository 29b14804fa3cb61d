//! A table of whole numbers read as CSV: each column packed into the narrowest field that takes its numbers, rows selected by
//! conditions, and questions about them answered.
#![tactic(auto)]

pub mod answer;
pub mod condition;
pub mod csv_table;
mod number;
pub mod read_back;
pub mod select;
pub mod store;
mod width;

pub use bit_table::{Command, Lsb0, Reply, Test};
