//! An order of a user's own, how the bits of orders are counted by hand, what a user of orders proves from their contracts
//! alone, and words as texts.
#![tactic(auto)]

mod count;
mod orders;
pub mod texts;
pub mod word_callers;

pub use count::Count;
pub use orders::FifthStep;
