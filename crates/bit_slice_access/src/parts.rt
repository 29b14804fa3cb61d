//! Bits and parts of what shows bits, by their indices, to read.

ghost use Rattle.std.specs.Prelude.{◌≡◌, ℕ, ◌+◌, ◌-◌, ◌%◌, ◌<◌, ◌≤◌, ◌↔◌, IfSome, IsSome, false, length};
ghost use Rattle.std.specs.Prelude.{drop, slice_index_or, take};
ghost use Rattle.bit_addressing_memory.specs.Memory.{piece, read_by, touched};
ghost use Rattle.bit_addressing_span.specs.Domain.{domain_bits, domain_numbers, domain_start, IsCut, IsEnclave};
ghost use Rattle.bit_addressing_span.specs.Span.{extent, LiesInside};
ghost use Rattle.bit_slice_access.specs.Masked.{AreMaskedBits};
ghost use Rattle.bit_slice_views_mut.specs.BitRef.{bit_value};
ghost use Rattle.bit_slice_views_mut.specs.DomainParts.{parts_bits, parts_start, IsBitCut, IsOnePart};
ghost use Rattle.bit_slice_views_mut.specs.View.{view_bits, view_head};

use bit_addressing_memory::{BitOrder, BitRegister};
use bit_addressing_span::Domain;
use bit_slice_views_mut::{BitDomain, BitRef, BitSlice, BitSliceIndex, Bits};

/// The parts of a list of bits, as shared windows: of every `Bits`. A shared window has calls of the same names whose
/// answers live as long as its words; here they live as long as the borrow.
pub trait BitsParts: Bits {
    // ---- by an index or a range

    /// The bit at an index or the part of a range, or `None` where it does not lie in the list.
    final fn get<'s, I: BitSliceIndex<'s, Self::Store, Self::Order>>(
        &'s self,
        index: I,
    ) -> Option<I::Immut>
        ensures variant { IsSome result ↔ I.within index (length (Self.bits self.now)) }
        ensures value { IfSome result (λ shown. (head : ℕ) × I.shows index head (Self.bits self.now) shown) }
        ensures shows { IfSome result (I.shows index (Self.start self.now) (Self.bits self.now)) }
    {
        self.as_bitslice().get(index)
    }

    /// The bit at an index or the part of a range, which lies in the list.
    final fn index<'s, I: BitSliceIndex<'s, Self::Store, Self::Order>>(
        &'s self,
        index: I,
    ) -> I::Immut
        requires { I.within index (length (Self.bits self.now)) }
        ensures value { (head : ℕ) × I.shows index head (Self.bits self.now) result }
        ensures shows { I.shows index (Self.start self.now) (Self.bits self.now) result }
    {
        self.as_bitslice().index(index)
    }

    /// What `index` does.
    final fn get_unchecked<'s, I: BitSliceIndex<'s, Self::Store, Self::Order>>(
        &'s self,
        index: I,
    ) -> I::Immut
        requires { I.within index (length (Self.bits self.now)) }
        ensures value { (head : ℕ) × I.shows index head (Self.bits self.now) result }
        ensures shows { I.shows index (Self.start self.now) (Self.bits self.now) result }
    {
        self.as_bitslice().get_unchecked(index)
    }

    // ---- cut

    /// `count` bits, from bit `from` on.
    final fn part(&self, from: usize, count: usize) -> BitSlice<'_, Self::Store, Self::Order>
        requires { from + count ≤ length (Self.bits self.now) }
        ensures bits { view_bits (read_by Self.Store.BitRegister Self.Order.position) result
            ≡ piece (Self.bits self.now) from count }
        ensures head { view_head result ≡ (Self.start self.now + from) % Self.Store.BITS }
    {
        self.as_bitslice().part(from, count)
    }

    /// The first `i` bits, and the others.
    final fn split_at(
        &self,
        i: usize,
    ) -> (
        BitSlice<'_, Self::Store, Self::Order>,
        BitSlice<'_, Self::Store, Self::Order>,
    )
        requires { i ≤ length (Self.bits self.now) }
        ensures left { view_bits (read_by Self.Store.BitRegister Self.Order.position) result.0
            ≡ take i (Self.bits self.now) }
        ensures right { view_bits (read_by Self.Store.BitRegister Self.Order.position) result.1
            ≡ drop i (Self.bits self.now) }
        ensures left_head { view_head result.0 ≡ Self.start self.now }
        ensures right_head { view_head result.1 ≡ (Self.start self.now + i) % Self.Store.BITS }
    {
        self.as_bitslice().split_at(i)
    }

    /// What `split_at` does.
    final fn split_at_unchecked(
        &self,
        i: usize,
    ) -> (
        BitSlice<'_, Self::Store, Self::Order>,
        BitSlice<'_, Self::Store, Self::Order>,
    )
        requires { i ≤ length (Self.bits self.now) }
        ensures left { view_bits (read_by Self.Store.BitRegister Self.Order.position) result.0
            ≡ take i (Self.bits self.now) }
        ensures right { view_bits (read_by Self.Store.BitRegister Self.Order.position) result.1
            ≡ drop i (Self.bits self.now) }
        ensures left_head { view_head result.0 ≡ Self.start self.now }
        ensures right_head { view_head result.1 ≡ (Self.start self.now + i) % Self.Store.BITS }
    {
        self.as_bitslice().split_at_unchecked(i)
    }

    /// The first bit and those behind it, or `None` of no bits.
    final fn split_first(&self) -> Option<(BitRef, BitSlice<'_, Self::Store, Self::Order>)>
        ensures variant { IsSome result ↔ (0 < length (Self.bits self.now)) }
        ensures bit { IfSome result (λ parts. bit_value parts.0 ≡ slice_index_or (Self.bits self.now) 0 false) }
        ensures rest { IfSome result (λ parts. view_bits (read_by Self.Store.BitRegister Self.Order.position) parts.1
            ≡ drop 1 (Self.bits self.now)) }
        ensures head { IfSome result (λ parts. view_head parts.1 ≡ (Self.start self.now + 1) % Self.Store.BITS) }
    {
        self.as_bitslice().split_first()
    }

    /// The last bit and those before it, or `None` of no bits.
    final fn split_last(&self) -> Option<(BitRef, BitSlice<'_, Self::Store, Self::Order>)>
        ensures variant { IsSome result ↔ (0 < length (Self.bits self.now)) }
        ensures bit { IfSome result (λ parts. bit_value parts.0
            ≡ slice_index_or (Self.bits self.now) (length (Self.bits self.now) - 1) false) }
        ensures rest { IfSome result (λ parts. view_bits (read_by Self.Store.BitRegister Self.Order.position) parts.1
            ≡ take (length (Self.bits self.now) - 1) (Self.bits self.now)) }
        ensures head { IfSome result (λ parts. view_head parts.1 ≡ Self.start self.now) }
    {
        self.as_bitslice().split_last()
    }

    /// The bits behind a list with which they begin, or `None` where they begin with another.
    final fn strip_prefix<V: Bits>(
        &self,
        prefix: &V,
    ) -> Option<BitSlice<'_, Self::Store, Self::Order>>
        ensures variant { IsSome result
            ↔ (take (length (V.bits prefix.now)) (Self.bits self.now) ≡ V.bits prefix.now) }
        ensures rest { IfSome result (λ rest. view_bits (read_by Self.Store.BitRegister Self.Order.position) rest
            ≡ drop (length (V.bits prefix.now)) (Self.bits self.now)) }
        ensures head { IfSome result
            (λ rest. view_head rest ≡ (Self.start self.now + length (V.bits prefix.now)) % Self.Store.BITS) }
    {
        self.as_bitslice().strip_prefix(prefix)
    }

    /// The bits before a list with which they end, or `None` where they end with another.
    final fn strip_suffix<V: Bits>(
        &self,
        suffix: &V,
    ) -> Option<BitSlice<'_, Self::Store, Self::Order>>
        ensures variant { IsSome result
            ↔ (drop (length (Self.bits self.now) - length (V.bits suffix.now)) (Self.bits self.now)
            ≡ V.bits suffix.now) }
        ensures rest { IfSome result (λ rest. view_bits (read_by Self.Store.BitRegister Self.Order.position) rest
            ≡ take (length (Self.bits self.now) - length (V.bits suffix.now)) (Self.bits self.now)) }
        ensures head { IfSome result (λ rest. view_head rest ≡ Self.start self.now) }
    {
        self.as_bitslice().strip_suffix(suffix)
    }

    // ---- by words

    /// The words that the bits stand in, cut at their borders: each bit once, in order, and no other.
    final fn domain(&self) -> Domain<'_, Self::Store, Self::Order>
        ensures bits { domain_bits (read_by Self.Store.BitRegister Self.Order.position) result ≡ Self.bits self.now }
        ensures start { 0 < length (Self.bits self.now) → domain_start result ≡ Self.start self.now }
        ensures enclave { IsEnclave result ↔ LiesInside Self.Store.BITS
            (extent 0 (Self.start self.now) (length (Self.bits self.now))) }
        ensures cut { IsCut Self.Store.BITS result }
        ensures words { length (domain_numbers Self.Store.number Self.Order.masked result)
            ≡ touched Self.Store.BITS (Self.start self.now) (length (Self.bits self.now)) }
        ensures masked { AreMaskedBits Self.Store.BITS Self.Order.position (Self.start self.now) (Self.bits self.now)
            (domain_numbers Self.Store.number Self.Order.masked result) }
    {
        self.as_bitslice().domain()
    }

    /// The same cut as windows.
    final fn bit_domain(&self) -> BitDomain<'_, Self::Store, Self::Order>
        ensures bits { parts_bits (read_by Self.Store.BitRegister Self.Order.position) result ≡ Self.bits self.now }
        ensures start { 0 < length (Self.bits self.now) → parts_start result ≡ Self.start self.now }
        ensures enclave { IsOnePart result ↔ LiesInside Self.Store.BITS
            (extent 0 (Self.start self.now) (length (Self.bits self.now))) }
        ensures cut { IsBitCut (read_by Self.Store.BitRegister Self.Order.position) result }
    {
        self.as_bitslice().bit_domain()
    }
}

impl<V: Bits> BitsParts for V {}
