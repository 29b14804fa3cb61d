//! What splits are made of: the ends at which a part comes off, what comes off, and what a predicate is asked.

pub use bit_slice_splits::{
    AtMost, FromBack, FromFront, InclusiveBack, InclusiveFront, Parting, SplitEnd, Splits,
    SplitsMut, SplitsN, asked_in,
};
