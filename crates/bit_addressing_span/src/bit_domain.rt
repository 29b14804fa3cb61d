//! A domain as its parts, each as words with a head and a length.

ghost use Rattle.std.specs.Prelude.{◌≡◌, ◌↔◌, IfSome, ⊤};
ghost use Rattle.bit_addressing_memory.specs.Memory.{read_by};
ghost use Rattle.bit_addressing_span.specs.BitDomain.{option_part_bits, option_part_start, IsHeadPart, IsTailPart};
ghost use Rattle.bit_addressing_span.specs.Domain.{domain_bits, domain_start, option_bits};
ghost use Rattle.bit_addressing_span.specs.Domain.{IsCut, IsEnclave, IsHead, IsTail};

use crate::bit_part::BitPart;
use crate::domain::Domain;
use crate::partial::PartialElement;
use bit_addressing_memory::{BitOrder, BitRegister};
use std::alloc::AllocError;

/// A domain as its parts: bits inside a word, touching neither of its edges, or whole words with bits of one word before
/// them, bits of one behind them, both, or none.
#[derive_where(Copy)]
pub enum BitDomain<'a, R: BitRegister, O> {
    /// The span has bits, and lies in one word, touching neither edge of it.
    Enclave(BitPart<'a, R, O>),
    /// Any other span.
    Region {
        /// The bits of the first word, where the span begins inside it.
        head: Option<BitPart<'a, R, O>>,
        /// The whole words.
        body: &'a [R],
        /// The bits of the last word, where the span ends inside it.
        tail: Option<BitPart<'a, R, O>>,
    },
}

impl<'a, R: BitRegister, O> Clone for BitDomain<'a, R, O> {
    ghost is_clone = { λ domain copy. copy ≡ domain };

    ghost is_infallible = { λ _. ⊤ };

    fn clone(&self) -> Result<Self, AllocError> {
        Ok(*self)
    }
}

/// A region without bits.
impl<'a, R: BitRegister, O> Default for BitDomain<'a, R, O> {
    ghost use Rattle.bit_addressing_span.specs.BitDomain.{HasNoParts};

    ghost is_default = { HasNoParts };

    fn default() -> Self {
        BitDomain::Region {
            head: None,
            body: &[],
            tail: None,
        }
    }
}

impl<'a, R: BitRegister, O: BitOrder<R>> BitDomain<'a, R, O> {
    ghost use Rattle.bit_addressing_span.specs.BitDomain.{parts_enclave, parts_region};

    /// The part of an enclave.
    pub fn enclave(self) -> Option<BitPart<'a, R, O>>
        ensures { result ≡ parts_enclave self.entry }
    {
        match self {
            BitDomain::Enclave(part) => Some(part),
            BitDomain::Region { .. } => None,
        }
    }

    /// The parts of a region.
    pub fn region(
        self,
    ) -> Option<
        (
            Option<BitPart<'a, R, O>>,
            &'a [R],
            Option<BitPart<'a, R, O>>,
        ),
    >
        ensures { result ≡ parts_region self.entry }
    {
        match self {
            BitDomain::Enclave(_) => None,
            BitDomain::Region { head, body, tail } => Some((head, body, tail)),
        }
    }
}

impl<'a, R: BitRegister, O: BitOrder<R>> Domain<'a, R, O> {
    ghost use Rattle.bit_addressing_span.specs.BitDomain.{parts_bits, parts_start, IsOnePart, IsPartCut};

    /// The same cut, each part of a word as its words with head and length.
    pub fn into_bit_domain(self) -> BitDomain<'a, R, O>
        ensures bits { parts_bits (read_by R.BitRegister O.position) result
            ≡ domain_bits (read_by R.BitRegister O.position) self.entry }
        ensures start { parts_start result ≡ domain_start self.entry }
        ensures enclave { IsOnePart result ↔ IsEnclave self.entry }
        ensures cut { IsCut R.BITS self.entry → IsPartCut R.BITS result }
    {
        match self {
            Domain::Enclave(part) => BitDomain::Enclave(BitPart::of(part)),
            Domain::Region { head, body, tail } => BitDomain::Region {
                head: bits_of_option(head),
                body,
                tail: bits_of_option(tail),
            },
        }
    }
}

// A part of one word as its words, head and length, where there is one.
fn bits_of_option<'a, R: BitRegister, O: BitOrder<R>>(
    part: Option<PartialElement<'a, R, O>>,
) -> Option<BitPart<'a, R, O>>
    ensures bits { option_part_bits (read_by R.BitRegister O.position) result
        ≡ option_bits (read_by R.BitRegister O.position) part.entry }
    ensures start { (body : _) → (tail : _)
        → option_part_start result ≡ domain_start (Domain.Region part.entry body tail) }
    ensures head { IfSome part.entry (IsHead R.BITS) → IfSome result (IsHeadPart R.BITS) }
    ensures tail { IfSome part.entry (IsTail R.BITS) → IfSome result (IsTailPart R.BITS) }
{
    match part {
        Some(part) => Some(BitPart::of(part)),
        None => None,
    }
}
