//! Bits that do not grow: a list of bits in words of its own.
#![tactic(auto)]

mod access;
mod boxed;
mod compare;
mod convert;
mod fill;
mod into_boxed;
mod iter;
mod lend;
mod make;
mod operators;
mod text;
mod words;

pub use boxed::BitBox;
pub use into_boxed::IntoBoxed;
pub use iter::IntoIter;
