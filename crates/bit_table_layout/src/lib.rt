//! Layouts of packed rows: their lines, their fields, and the image of rows; letters, and what two bits make.
#![tactic(auto)]

mod bool_op;
mod cause;
mod field;
mod field_word;
pub mod image;
mod layout;
mod letter;
mod line_words;
mod numerals;
mod storage;

pub use bool_op::BoolOp;
pub use cause::{Cause, Fault};
pub use field::Field;
pub use field_word::is_name;
pub use layout::{Layout, LayoutError, MAX_BITS, MAX_ROW_BITS, Rule};
pub use letter::Letter;
pub use line_words::{Words, is_separator};
pub use numerals::{is_number, number_up_to};
pub use storage::{Order, Word};
