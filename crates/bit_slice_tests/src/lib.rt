//! The tests of windows, their pieces and the numbers in them that no case of data can be: ranges, comparison and hash, words
//! of a window, clones, loans, predicates with a state, commands; and what a user proves from their contracts alone.
#![tactic(auto)]

#[cfg(test)]
pub mod access_callers;
#[cfg(test)]
mod by_words;
#[cfg(test)]
pub mod callers;
#[cfg(test)]
mod chunks_mut;
#[cfg(test)]
mod commands;
#[cfg(test)]
pub mod fields;
#[cfg(test)]
pub mod header;
#[cfg(test)]
mod hi_lo;
#[cfg(test)]
mod indices;
#[cfg(test)]
pub mod iter_callers;
#[cfg(test)]
mod iterators;
#[cfg(test)]
mod lacking;
#[cfg(test)]
mod limbs;
#[cfg(test)]
mod list;
#[cfg(test)]
pub mod parts;
#[cfg(test)]
mod piece_rows;
pub mod pieces;
#[cfg(test)]
mod refused;
#[cfg(test)]
mod rows;
#[cfg(test)]
mod shared;
#[cfg(test)]
pub mod split_callers;
#[cfg(test)]
mod splits;
#[cfg(test)]
mod splits_mut;
#[cfg(test)]
pub mod store_callers;
#[cfg(test)]
mod stores;
#[cfg(test)]
mod views;
#[cfg(test)]
pub mod word_callers;

#[cfg(test)]
pub use fields::{put, take};
#[cfg(test)]
pub use header::{Header, passed, read, write};
#[cfg(test)]
pub use parts::{network_number, put_in_part};
