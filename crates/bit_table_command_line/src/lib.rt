//! What the words of a command line of the program `bit-table` ask for.
#![tactic(auto)]

mod choice;
mod command;
mod storage;

pub use bit_table_layout::{Order, Word};
pub use choice::{Choice, choose};
pub use storage::{ORDERS, WORDS};
