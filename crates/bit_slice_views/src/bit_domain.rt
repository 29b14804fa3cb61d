//! A window cut at the borders of its words: its whole words, and what stands before and behind them.

ghost use Rattle.std.specs.Prelude.{◌≡◌, ◌-◌, ◌<◌, ◌↔◌, length, IfSome, ⊤};
ghost use Rattle.bit_addressing_memory.specs.Memory.{read_by, touched};
ghost use Rattle.bit_addressing_span.specs.Domain.{domain_bits, domain_numbers, domain_start, option_bits};
ghost use Rattle.bit_addressing_span.specs.Domain.{IsCut, IsEnclave, IsHead, IsTail};
ghost use Rattle.bit_addressing_span.specs.PartialElement.{partial_bits, partial_head, partial_tail};
ghost use Rattle.bit_addressing_span.specs.Parts.{AreMasked};
ghost use Rattle.bit_slice_views.specs.Parts.{option_view_bits, parts_bits, IsBitCut, IsHeadPart, IsOnePart};
ghost use Rattle.bit_slice_views.specs.Parts.{IsTailPart, option_start, parts_start};
ghost use Rattle.bit_slice_views.specs.View.{view_bits, view_head, view_words};

use crate::view::BitSlice;
use bit_addressing_memory::{BitOrder, BitRegister};
use bit_addressing_span::{BitSpan, Domain, PartialElement};
use std::alloc::AllocError;

/// A window cut into windows: one inside a word, touching neither of its edges, or whole words with a window inside one
/// word before them, one behind them, both, or none.
#[derive_where(Copy)]
pub enum BitDomain<'a, T: BitRegister, O> {
    /// The window has bits, and lies in one word, touching neither edge of it.
    Enclave(BitSlice<'a, T, O>),
    /// Any other window.
    Region {
        /// The part in the first word, where the window begins inside it.
        head: Option<BitSlice<'a, T, O>>,
        /// The whole words.
        body: &'a [T],
        /// The part in the last word, where the window ends inside it.
        tail: Option<BitSlice<'a, T, O>>,
    },
}

impl<'a, T: BitRegister, O> Clone for BitDomain<'a, T, O> {
    ghost is_clone = { λ domain copy. copy ≡ domain };

    ghost is_infallible = { λ _. ⊤ };

    fn clone(&self) -> Result<Self, AllocError> {
        Ok(*self)
    }
}

/// A region without bits.
impl<'a, T: BitRegister, O> Default for BitDomain<'a, T, O> {
    ghost use Rattle.bit_slice_views.specs.Parts.{HasNoParts};

    ghost is_default = { HasNoParts };

    fn default() -> Self {
        BitDomain::Region {
            head: None,
            body: &[],
            tail: None,
        }
    }
}

impl<'a, T: BitRegister, O: BitOrder<T>> BitDomain<'a, T, O> {
    ghost use Rattle.bit_slice_views.specs.Parts.{parts_enclave, parts_region};

    /// The part of an enclave.
    pub fn enclave(self) -> Option<BitSlice<'a, T, O>>
        ensures { result ≡ parts_enclave self.entry }
    {
        match self {
            BitDomain::Enclave(part) => Some(part),
            BitDomain::Region { .. } => None,
        }
    }

    /// The parts of a region.
    pub fn region(
        self,
    ) -> Option<
        (
            Option<BitSlice<'a, T, O>>,
            &'a [T],
            Option<BitSlice<'a, T, O>>,
        ),
    >
        ensures { result ≡ parts_region self.entry }
    {
        match self {
            BitDomain::Enclave(_) => None,
            BitDomain::Region { head, body, tail } => Some((head, body, tail)),
        }
    }
}

/// The same cut, each part of a word as a window. In bitvec it is a method of the domain.
pub fn into_bit_domain<'a, T: BitRegister, O: BitOrder<T>>(
    domain: Domain<'a, T, O>,
) -> BitDomain<'a, T, O>
    ensures bits { parts_bits (read_by T.BitRegister O.position) result
        ≡ domain_bits (read_by T.BitRegister O.position) domain.entry }
    ensures enclave { IsOnePart result ↔ IsEnclave domain.entry }
    ensures cut { IsCut T.BITS domain.entry → IsBitCut (read_by T.BitRegister O.position) result }
    ensures start { parts_start result ≡ domain_start domain.entry }
{
    match domain {
        Domain::Enclave(part) => BitDomain::Enclave(view_of(part)),
        Domain::Region { head, body, tail } => BitDomain::Region {
            head: view_of_option(head),
            body,
            tail: view_of_option(tail),
        },
    }
}

// A part of one word as a window.
fn view_of<'a, T: BitRegister, O: BitOrder<T>>(part: PartialElement<'a, T, O>) -> BitSlice<'a, T, O>
    ensures bits { view_bits (read_by T.BitRegister O.position) result
        ≡ partial_bits (read_by T.BitRegister O.position) part.entry }
    ensures head { view_head result ≡ partial_head part.entry }
    ensures len { length (view_bits (read_by T.BitRegister O.position) result)
        ≡ partial_tail part.entry - partial_head part.entry }
{
    let (words, head, len) = part.into_bitslice();
    BitSlice::from_parts(words, head.into_inner(), len)
}

// The same, where there is one.
fn view_of_option<'a, T: BitRegister, O: BitOrder<T>>(
    part: Option<PartialElement<'a, T, O>>,
) -> Option<BitSlice<'a, T, O>>
    ensures bits { option_view_bits (read_by T.BitRegister O.position) result
        ≡ option_bits (read_by T.BitRegister O.position) part.entry }
    ensures start { (body : _) → (tail : _) → option_start result ≡ domain_start (Domain.Region part.entry body tail) }
    ensures head { IfSome part.entry (IsHead T.BITS)
        → IfSome result (IsHeadPart (read_by T.BitRegister O.position)) }
    ensures tail { IfSome part.entry (IsTail T.BITS)
        → IfSome result (IsTailPart (read_by T.BitRegister O.position)) }
{
    match part {
        Some(part) => Some(view_of(part)),
        None => None,
    }
}

// Cut at the borders of words.
#[tactic(auto, using(crate::proofs::ViewLemmas::views))]
impl<'a, T: BitRegister, O: BitOrder<T>> BitSlice<'a, T, O> {
    ghost use Rattle.bit_addressing_span.specs.Span.{extent, LiesInside};

    /// The words that the bits stand in, cut at their borders: each bit once, in order, and no other.
    pub fn domain(self) -> Domain<'a, T, O>
        ensures bits { domain_bits (read_by T.BitRegister O.position) result
            ≡ view_bits (read_by T.BitRegister O.position) self.entry }
        ensures start { 0 < length (view_bits (read_by T.BitRegister O.position) self.entry)
            → domain_start result ≡ view_head self.entry }
        ensures enclave { IsEnclave result ↔ LiesInside T.BITS
            (extent 0 (view_head self.entry) (length (view_bits (read_by T.BitRegister O.position) self.entry))) }
        ensures cut { IsCut T.BITS result }
        ensures words { length (domain_numbers T.number O.masked result)
            ≡ touched T.BITS (view_head self.entry) (length (view_bits (read_by T.BitRegister O.position) self.entry)) }
        ensures masked { AreMasked (read_by T.BitRegister O.position) O.position (view_words self.entry)
            (extent 0 (view_head self.entry) (length (view_bits (read_by T.BitRegister O.position) self.entry)))
            (domain_numbers T.number O.masked result) }
    {
        let (words, _, len) = self.parts();
        let span = BitSpan::<T, O>::new(0, self.head(), len).unwrap();
        span.domain(words)
    }

    /// The same cut as windows.
    pub fn bit_domain(self) -> BitDomain<'a, T, O>
        ensures bits { parts_bits (read_by T.BitRegister O.position) result
            ≡ view_bits (read_by T.BitRegister O.position) self.entry }
        ensures enclave { IsOnePart result ↔ LiesInside T.BITS
            (extent 0 (view_head self.entry) (length (view_bits (read_by T.BitRegister O.position) self.entry))) }
        ensures cut { IsBitCut (read_by T.BitRegister O.position) result }
        ensures start { 0 < length (view_bits (read_by T.BitRegister O.position) self.entry)
            → parts_start result ≡ view_head self.entry }
    {
        into_bit_domain(self.domain())
    }
}
