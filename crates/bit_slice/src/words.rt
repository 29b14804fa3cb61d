//! Work on stretches of bits in words, of which the calls of windows are made, and texts of bits.

pub use bit_slice_views::{write_bits, write_groups};
pub use bit_slice_views_mut::{and_view, copy_in, or_view, xor_view};
pub use bit_slice_words::{
    Edges, and_in, between, compare_in, contains_in, count_ones_in, count_zeros_in, edges_of,
    equal_in, fill_in, first_in, last_in, move_words, not_in, or_in, reverse_in, rotate_left_in,
    rotate_right_in, shift_left_in, shift_right_in, xor_in,
};
