//! Memory as one list of bits, for every lawful order: entries, copies, parts of words, and moves by a sweep over words
//! that counts itself.
#![tactic(auto)]

mod blocks;
mod bulk_ops;
pub mod chunk;
mod copies;
mod direction;
mod edges;
mod entry;
mod limbs;
mod masking;
mod moves;
mod one_place;
mod place;
pub mod places;
mod shift;
mod shifted;
mod spreads;
mod sweep;
mod transfer;

pub use bit_addressing_order::{
    BitEnd, BitIdx, BitMask, BitOrder, BitRegister, HiLo, Limits, LocalBits, Lsb0, Msb0,
    OrderCandidate, Positions, mask_from_at, mem, select_from_at,
};
pub use blocks::{read_block, read_block_from, write_block};
pub use bulk_ops::{
    BulkOp, COMPARED_BY_PATHS, COUNTED_BY_BLOCKS, FROM_BORDER, JOINED_WORDS, NEAR_BITS, NEAR_WORDS,
    ROTATED_BY_MOVES, SWAPPED_BY_WORDS, WHOLE_WORDS, bit_loop_limit, bit_loop_limit_of_two,
    limit_by_order,
};
pub use copies::{copy_between, copy_within, swap_between, swap_entries, swap_within};
pub use direction::{Direction, Straight, direction_for, direction_of, goes, known_direction};
pub use edges::{Edges, between, bits_to_next_word, edges_of};
pub use entry::{read_bit, read_entry, replace_entry, write_bit, write_entry};
pub use masking::{each_digit, flipped, load_in, masked, no_digits, store_in, stored};
pub use moves::{move_in, taken};
pub use shift::{joined, raised};
pub use spreads::spread;
pub use sweep::{Sweep, Way, way_for};
pub use transfer::{put_part, read_counted, write_counted};
