//! Bits and parts of a list to write, by index and range, and the words of a writable window.
#![tactic(auto)]

mod access;
mod bit_domain_mut;
mod bit_mut;
mod copies;
mod cut;
mod domain_mut;
mod domains;
mod edits;
mod fills;
mod halves;
mod index_mut;
mod part;
mod parts;
mod windows;
mod words;

pub use access::BitsAccess;
pub use bit_domain_mut::BitDomainMut;
pub use bit_mut::BitMut;
pub use bit_slice_views_mut::{BitsMut, BitsShown, BitsWindow, MayWriteBeside};
pub use copies::BitsCopy;
pub use cut::BitsCut;
pub use domain_mut::WindowDomainMut;
pub use domains::BitsDomains;
pub use edits::BitsEdits;
pub use fills::BitsFill;
pub use halves::Halves;
pub use index_mut::{BitRangeMut, BitSliceIndexMut};
pub use part::Part;
pub use parts::BitsParts;
