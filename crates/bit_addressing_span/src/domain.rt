//! A span cut at the borders of its words.

ghost use Rattle.std.specs.Prelude.{◌≡◌, ⊤};

use crate::partial::PartialElement;
use bit_addressing_memory::{BitOrder, BitRegister};
use std::alloc::AllocError;

/// A span cut into words: a part of one word that touches neither of its edges, or whole words with a
/// part of one word before them, a part of one after them, both, or none.
#[derive_where(Copy)]
pub enum Domain<'a, R: BitRegister, O> {
    /// The span has bits, and lies in one word, touching neither edge of it.
    Enclave(PartialElement<'a, R, O>),
    /// Any other span.
    Region {
        /// The part of the first word, where the span begins inside it.
        head: Option<PartialElement<'a, R, O>>,
        /// The whole words.
        body: &'a [R],
        /// The part of the last word, where the span ends inside it.
        tail: Option<PartialElement<'a, R, O>>,
    },
}

impl<'a, R: BitRegister, O> Clone for Domain<'a, R, O> {
    ghost is_clone = { λ domain copy. copy ≡ domain };

    ghost is_infallible = { λ _. ⊤ };

    fn clone(&self) -> Result<Self, AllocError> {
        Ok(*self)
    }
}

/// A region without bits.
impl<'a, R: BitRegister, O> Default for Domain<'a, R, O> {
    ghost use Rattle.bit_addressing_span.specs.Domain.{IsEmptyRegion};

    ghost is_default = { IsEmptyRegion };

    fn default() -> Self {
        Domain::Region {
            head: None,
            body: &[],
            tail: None,
        }
    }
}

impl<'a, R: BitRegister, O: BitOrder<R>> Domain<'a, R, O> {
    ghost use Rattle.bit_addressing_span.specs.Domain.{domain_enclave, domain_region};

    /// The part of an enclave.
    pub fn enclave(self) -> Option<PartialElement<'a, R, O>>
        ensures { result ≡ domain_enclave self.entry }
    {
        match self {
            Domain::Enclave(part) => Some(part),
            Domain::Region { .. } => None,
        }
    }

    /// The parts of a region.
    pub fn region(
        self,
    ) -> Option<
        (
            Option<PartialElement<'a, R, O>>,
            &'a [R],
            Option<PartialElement<'a, R, O>>,
        ),
    >
        ensures { result ≡ domain_region self.entry }
    {
        match self {
            Domain::Enclave(_) => None,
            Domain::Region { head, body, tail } => Some((head, body, tail)),
        }
    }
}
