//! Work on stretches of bits in words, for every order: scans, changes, and word paths, which an order may make quick.
#![tactic(auto)]

mod agree;
pub mod by_bits;
mod change;
mod combine;
mod compare;
mod contains;
mod count;
mod equal;
mod exchange;
mod field_order;
mod fill;
mod first;
mod invert;
mod lacking;
mod last;
mod moves;
mod parts;
mod paths;
mod reverse;
mod rotate;
mod shift;

pub use bit_addressing_memory::{Edges, between, edges_of};
pub use bit_slice_paths::Steps;
pub use combine::{and_in, copy_in, or_in, xor_in};
pub use compare::compare_in;
pub use contains::contains_in;
pub use count::{count_ones_in, count_zeros_in};
pub use equal::equal_in;
pub use exchange::exchange_in;
pub use field_order::FieldOrder;
pub use fill::{fill_counted, fill_in};
pub use first::first_in;
pub use invert::not_in;
pub use lacking::lacks;
pub use last::last_in;
pub use moves::move_words;
pub use paths::{AlwaysStraight, StraightOrder, WordPaths};
pub use reverse::reverse_in;
pub use rotate::{rotate_left_in, rotate_right_in};
pub use shift::{shift_left_in, shift_right_in};
