//! Rows of bits that lie end to end in a list, moved and edited in place, with the letters that they bear: 26 lists of
//! bits, one entry a row each.
#![tactic(auto)]

mod bulk_ops;
mod combine;
mod drops;
mod edit;
mod edits;
mod keep;
mod letters;
mod lists;
mod one_row;
mod put;
mod rows;
mod vectors;
mod windows;

pub use bulk_ops::{RowOp, row_loop_limit};
pub use edit::RowEdit;
pub use edits::{copy_rows, keep_rows_in, move_rows_in, rotate_rows, swap_rows, write_row};
pub use keep::keep_rows;
pub use letters::{LETTERS, Letters};
pub use rows::move_rows;
pub use vectors::{delete_rows, dup_rows, edit_rows, insert_row, keep_rows_of};
