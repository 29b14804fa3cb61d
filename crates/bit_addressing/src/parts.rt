//! Words read and written in a part, as what works word by word does.

pub use bit_addressing_memory::{
    each_digit, flipped, load_in, masked, no_digits, store_in, stored,
};
