//! Bits of a word and of a slice of words: read, written, copied and exchanged by their places.

pub use bit_addressing_memory::{
    copy_between, copy_within, read_bit, read_entry, replace_entry, swap_between, swap_entries,
    swap_within, write_bit, write_entry,
};
