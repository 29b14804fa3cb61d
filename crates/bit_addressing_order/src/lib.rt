//! Storage words as numbers, places inside a word, and lawful orders of its bits.
#![tactic(auto)]

mod compare;
mod end;
mod hi_lo;
mod index;
mod limits;
mod mask;
pub mod mem;
mod order;
mod position;
mod ranges;
mod register;
mod selector;
mod text;
mod widths;

pub use end::BitEnd;
pub use hi_lo::HiLo;
pub use index::{BitIdx, BitIdxError};
pub use limits::{AllOrNone, Limits};
pub use mask::BitMask;
pub use order::{
    BitOrder, LocalBits, Lsb0, Msb0, OrderCandidate, Positions, disjoint_masks, mask_from_at,
    select_from_at,
};
pub use position::BitPos;
pub use ranges::{EndRange, IndexRange, Place, PlaceRange, SelectorRange};
pub use register::BitRegister;
pub use selector::BitSel;
