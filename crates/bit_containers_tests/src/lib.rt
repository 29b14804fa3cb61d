//! The tests of arrays, vectors and boxes of bits, and of what they lend; and what a user proves from their contracts alone.
#![tactic(auto)]

#[cfg(test)]
pub mod arrays;
#[cfg(test)]
mod boxes_lent;
#[cfg(test)]
mod callers;
#[cfg(test)]
mod changes;
#[cfg(test)]
mod compared;
#[cfg(test)]
mod kept;
#[cfg(test)]
mod made;
#[cfg(test)]
mod memory;
#[cfg(test)]
mod readme;
#[cfg(test)]
pub mod reserved;
#[cfg(test)]
mod taken;
#[cfg(test)]
mod vectors_lent;
