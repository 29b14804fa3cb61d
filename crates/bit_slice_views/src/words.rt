//! The calls on words by which windows are written, for the crates above.

pub use bit_slice_words::{
    Steps, WordPaths, and_in, copy_in, exchange_in, fill_in, move_words, not_in, or_in, reverse_in,
    rotate_left_in, shift_left_in, shift_right_in, xor_in,
};
