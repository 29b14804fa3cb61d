//! Whole numbers in windows of bits by a digit rule, and rows of numbers by the fields of a layout.
#![tactic(auto)]

mod digits;
pub mod digits_by_bits;
mod digits_by_chunks;
mod digits_by_words;
mod numbers;
mod rows;

pub use digits::{CountsInTurn, Digits};
pub use numbers::{load_number, store_number};
pub use rows::{bits_before, load_row, store_row};
