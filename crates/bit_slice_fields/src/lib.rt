//! Whole numbers in windows of bits.
#![tactic(auto)]

mod digits;
mod field;
mod field_mut;
mod integral;
mod laws;
mod views;
mod widths;

pub use bit_slice_words::FieldOrder;
pub use field::BitField;
pub use field_mut::BitFieldMut;
pub use integral::Integral;
pub use laws::{store_load_be, store_load_le};
