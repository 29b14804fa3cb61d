//! Windows of bits to write.
#![tactic(auto)]

mod beside;
mod bit_view;
mod bits_mut;
mod bits_window;
mod combine;
mod compare;
mod make;
mod operators;
mod pair;
mod paths;
mod sweeps;
mod view_mut;
mod windows;

pub use beside::MayWriteBeside;
pub use bit_slice_views::words::{copy_in, exchange_in, rotate_left_in};
pub use bit_slice_views::{BitDomain, BitRange, BitRef, BitSlice, BitSliceIndex, Bits};
pub use bit_view::BitView;
pub use bits_mut::BitsMut;
pub use bits_window::{BitsShown, BitsWindow};
pub use make::from_mut;
pub use operators::{and_view, or_view, xor_view};
pub use pair::Pair;
pub use view_mut::{BitSliceMut, apply};
