//! Words as one list of bits, whole: the items of the crates below that users call, pointers and ranges of pointers, and
//! a runner of commands over spans of one memory.
//!
//! What these are made of, for those who build on words themselves, stands in modules: `entries`, `parts`, `shifts` and
//! `ranges`.
#![tactic(auto)]

mod access;
mod command;
pub mod entries;
mod one_command;
pub mod parts;
mod pointer;
mod pointer_range;
pub mod ranges;
mod runner;
pub mod shifts;

pub use bit_addressing_memory::{Sweep, Way, move_in, way_for};
pub use bit_addressing_order::{
    AllOrNone, BitEnd, BitIdx, BitIdxError, BitMask, BitOrder, BitPos, BitRegister, BitSel, HiLo,
    Limits, LocalBits, Lsb0, Msb0, OrderCandidate, Positions, disjoint_masks, mask_from_at, mem,
    select_from_at,
};
pub use bit_addressing_span::{
    BitDomain, BitPart, BitSpan, BitSpanError, Domain, DomainMut, DomainWords, MAX_BITS,
    PartialElement, PartialElementMut,
};
pub use bit_addressing_verify::{OrderFault, WordFault, verify, verify_for_type};
pub use command::{SpanCommand, SpanReply};
pub use pointer::{BitPtr, Dangling};
pub use pointer_range::{BitPtrRange, EmptyRange};
pub use runner::{all_fit, disjoint, order_of_spans_is_free, run};
