//! The parts of a list between the places where a predicate answers true, to read and to write.
#![tactic(auto)]

mod calls;
mod calls_mut;
mod search;
mod splits;
mod splits_mut;
mod splits_n;
mod splits_n_mut;
mod ways;

pub use calls::BitsSplits;
pub use calls_mut::BitsSplitsMut;
pub use search::asked_in;
pub use splits::{RSplit, Split, SplitInclusive, Splits};
pub use splits_mut::{RSplitMut, SplitInclusiveMut, SplitMut, SplitsMut};
pub use splits_n::{RSplitN, SplitN, SplitsN};
pub use splits_n_mut::{AtMost, RSplitNMut, SplitNMut};
pub use ways::{FromBack, FromFront, InclusiveBack, InclusiveFront, Parting, SplitEnd};
