//! Spans of a memory, cut into domains of whole words and parts of words.
#![tactic(auto)]

mod bit_domain;
mod bit_part;
mod cut;
mod domain;
mod domain_mut;
mod domain_text;
mod partial;
mod partial_mut;
mod span;
mod span_error;
mod words;

pub use bit_domain::BitDomain;
pub use bit_part::BitPart;
pub use domain::Domain;
pub use domain_mut::DomainMut;
pub use partial::PartialElement;
pub use partial_mut::PartialElementMut;
pub use span::{BitSpan, MAX_BITS};
pub use span_error::BitSpanError;
pub use words::DomainWords;
