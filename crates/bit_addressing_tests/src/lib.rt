//! The tests of the addressing layer: rows of memory, pointers, spans, domains, moves and commands, and what a user
//! proves from its contracts alone.
#![tactic(auto)]

#[cfg(test)]
pub mod callers;
#[cfg(test)]
mod domains;
#[cfg(test)]
mod hi_lo;
#[cfg(test)]
pub mod memory_callers;
#[cfg(test)]
mod memory_rows;
#[cfg(test)]
mod moves;
#[cfg(test)]
pub mod part_callers;
#[cfg(test)]
mod part_rows;
#[cfg(test)]
mod pointers;
#[cfg(test)]
mod runs;
#[cfg(test)]
mod shifts;
#[cfg(test)]
mod spans;
#[cfg(test)]
mod sweeps;

pub use bit_addressing_sample_orders::{Count, FifthStep};
