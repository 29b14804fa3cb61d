//! The image of a table's rows: written of a list of bits in any words and order, and read into a vector of bits.
#![tactic(auto)]

mod bytes;
mod loads;

pub use bit_table_layout::image::{images_tell_numbers, is_image, line, loads_take_images};
pub use bytes::write;
pub use loads::read;
