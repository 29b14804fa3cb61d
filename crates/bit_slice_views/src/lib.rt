//! Windows of bits to read, and the stores that bits lie in: words, and arrays of words.
#![tactic(auto)]

mod access;
mod bit_domain;
mod bits;
mod compare;
mod index;
mod make;
mod range;
mod sized;
mod store;
mod text;
mod view;
pub mod words;

pub use bit_addressing_span::{BitSpanError, MAX_BITS};
pub use bit_domain::{BitDomain, into_bit_domain};
pub use bits::Bits;
pub use index::{BitRef, BitSliceIndex};
pub use make::{ViewLimits, from_ref};
pub use range::BitRange;
pub use sized::{BitViewSized, OneWord, WordAccess, WordArray};
pub use store::BitStore;
pub use text::{write_bits, write_groups};
pub use view::BitSlice;
