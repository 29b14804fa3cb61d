//! The words of a writable window, each read and written in the part of it that lies in the window.

ghost use Rattle.std.specs.Prelude.{◌≡◌, ◌+◌, ◌%◌, ◌<◌, ◌↔◌, IsTrue, length, not, true, false};
ghost use Rattle.bit_addressing_span.specs.Domain.{domain_bits, domain_numbers, domain_start, IsCut, IsEnclave};
ghost use Rattle.bit_addressing_memory.specs.Memory.{entry, indexed, read_by, touched};
ghost use Rattle.bit_addressing_span.specs.Parts.{part_from, part_place, part_upto, AreMasked};
ghost use Rattle.bit_addressing_span.specs.Span.{extent, LiesInside};

use crate::parts::BitsParts;
use crate::words::{bounds_in, invert_in, load_in, make_in, span_of, store_in};
use bit_addressing_memory::{BitEnd, BitIdx, BitRegister, mem};
use bit_addressing_span::Domain;
use bit_slice_views_mut::{Bits, BitsMut};

/// The words of a writable window, each read and written in the part of it that lies in the window.
///
/// It has the calls of `bit_addressing`'s `DomainMut`, which has words of its own; this one holds the window. No write
/// changes a bit outside the window. Its texts are those of `as_domain`.
#[derive(Drop)]
pub struct WindowDomainMut<'s, V: BitsMut> {
    of: &'s mut V,
}

impl<'s, V: BitsMut> WindowDomainMut<'s, V> {
    ghost use Rattle.bit_slice_access.specs.Domain.{domain_loan, domain_view, window_span, ReadsWord, WritesWord};

    pub(crate) fn new(of: &'s mut V) -> WindowDomainMut<'s, V>
        ensures same_reference { domain_loan result ≡ of.entry.ghost_name }
        ensures value { domain_view result ≡ of.old }
    {
        WindowDomainMut { of }
    }

    // ---- read

    /// How many words hold a bit of the window.
    pub fn len(&self) -> usize
        ensures { result ≡ touched V.Store.BITS (V.place (domain_view self.now) % V.Store.BITS)
            (length (V.bits (domain_view self.now))) }
    {
        span_of::<V::Store, V::Order>(self.of.first_place(), self.of.len()).elements()
    }

    /// Whether no word holds a bit of the window.
    pub fn is_empty(&self) -> bool
        ensures { IsTrue result ↔ (touched V.Store.BITS (V.place (domain_view self.now) % V.Store.BITS)
            (length (V.bits (domain_view self.now))) ≡ 0) }
    {
        self.len() == 0
    }

    /// Whether the window has bits, and lies in one word, touching neither edge of it.
    pub fn is_enclave(&self) -> bool
        ensures { IsTrue result ↔ LiesInside V.Store.BITS
            (window_span V.Store.BITS (V.place (domain_view self.now)) (length (V.bits (domain_view self.now)))) }
    {
        let bits = mem::bits_of::<V::Store>();
        let head = self.of.first_place() % bits;
        let len = self.of.len();
        len > 0 && head > 0 && head + len < bits
    }

    /// The same words to read alone, cut at the borders of words.
    pub fn as_domain(&self) -> Domain<'_, V::Store, V::Order>
        ensures bits { domain_bits (read_by V.Store.BitRegister V.Order.position) result
            ≡ V.bits (domain_view self.now) }
        ensures start { 0 < length (V.bits (domain_view self.now))
            → domain_start result ≡ V.start (domain_view self.now) }
        ensures enclave { IsEnclave result ↔ LiesInside V.Store.BITS
            (extent 0 (V.start (domain_view self.now)) (length (V.bits (domain_view self.now)))) }
        ensures cut { IsCut V.Store.BITS result }
        ensures words { length (domain_numbers V.Store.number V.Order.masked result)
            ≡ touched V.Store.BITS (V.place (domain_view self.now) % V.Store.BITS)
            (length (V.bits (domain_view self.now))) }
        ensures masked { AreMasked (read_by V.Store.BitRegister V.Order.position) V.Order.position
            (V.words (domain_view self.now))
            (window_span V.Store.BITS (V.place (domain_view self.now)) (length (V.bits (domain_view self.now))))
            (domain_numbers V.Store.number V.Order.masked result) }
    {
        self.of.domain()
    }

    /// The indices of word `k` that are in the window: from the first of them up to before an end.
    pub fn bounds(&self, k: usize) -> (BitIdx<V::Store>, BitEnd<V::Store>)
        requires { k < touched V.Store.BITS (V.place (domain_view self.now) % V.Store.BITS)
            (length (V.bits (domain_view self.now))) }
        ensures head { result.0 ≡ part_from V.Store.BITS
            (window_span V.Store.BITS (V.place (domain_view self.now)) (length (V.bits (domain_view self.now)))) k }
        ensures tail { result.1 ≡ part_upto V.Store.BITS
            (window_span V.Store.BITS (V.place (domain_view self.now)) (length (V.bits (domain_view self.now)))) k }
        ensures order { result.0 < result.1 }
    {
        bounds_in::<V::Store>(self.of.first_place(), self.of.len(), k)
    }

    /// Word `k` of the window, with each digit outside the window read as zero.
    pub fn load_value(&self, k: usize) -> V::Store
        requires { k < touched V.Store.BITS (V.place (domain_view self.now) % V.Store.BITS)
            (length (V.bits (domain_view self.now))) }
        ensures value { ReadsWord (read_by V.Store.BitRegister V.Order.position) (V.words (domain_view self.now))
            (window_span V.Store.BITS (V.place (domain_view self.now)) (length (V.bits (domain_view self.now))))
            k result }
    {
        let (words, head, len) = self.of.as_bitslice().parts();
        load_in::<V::Store, V::Order>(words, head as usize, len, k)
    }

    // ---- write

    /// Writes the digits of `value` into the part of word `k` that is in the window. Answers the word masked, as it
    /// was.
    pub fn store_value(&mut self, k: usize, value: V::Store) -> V::Store
        requires { k < touched V.Store.BITS (V.place (domain_view self.old) % V.Store.BITS)
            (length (V.bits (domain_view self.old))) }
        ensures was { ReadsWord (read_by V.Store.BitRegister V.Order.position) (V.words (domain_view self.old))
            (window_span V.Store.BITS (V.place (domain_view self.old)) (length (V.bits (domain_view self.old))))
            k result }
        ensures now { WritesWord (read_by V.Store.BitRegister V.Order.position) (V.words (domain_view self.old))
            (V.words (domain_view self.new))
            (window_span V.Store.BITS (V.place (domain_view self.old)) (length (V.bits (domain_view self.old)))) k
            (λ i. indexed V.Store.number V.Order.position value (part_from V.Store.BITS
            (window_span V.Store.BITS (V.place (domain_view self.old)) (length (V.bits (domain_view self.old)))) k
            + i)) }
        ensures same_reference { domain_loan self.new ≡ domain_loan self.old }
        ensures len { length (V.bits (domain_view self.new)) ≡ length (V.bits (domain_view self.old)) }
        ensures frame { V.frame (domain_view self.new) ≡ V.frame (domain_view self.old) }
    {
        let place = self.of.first_place();
        let len = self.of.len();
        self.of.write(|words| store_in::<V::Store, V::Order>(words, place, len, k, value))
    }

    /// Flips each bit of the part of word `k` that is in the window. Answers the word masked, as it was.
    pub fn invert(&mut self, k: usize) -> V::Store
        requires { k < touched V.Store.BITS (V.place (domain_view self.old) % V.Store.BITS)
            (length (V.bits (domain_view self.old))) }
        ensures was { ReadsWord (read_by V.Store.BitRegister V.Order.position) (V.words (domain_view self.old))
            (window_span V.Store.BITS (V.place (domain_view self.old)) (length (V.bits (domain_view self.old))))
            k result }
        ensures now { WritesWord (read_by V.Store.BitRegister V.Order.position) (V.words (domain_view self.old))
            (V.words (domain_view self.new))
            (window_span V.Store.BITS (V.place (domain_view self.old)) (length (V.bits (domain_view self.old)))) k
            (λ i. not (entry (read_by V.Store.BitRegister V.Order.position) (V.words (domain_view self.old))
            (part_place V.Store.BITS
            (window_span V.Store.BITS (V.place (domain_view self.old)) (length (V.bits (domain_view self.old)))) k
            + i))) }
        ensures same_reference { domain_loan self.new ≡ domain_loan self.old }
        ensures len { length (V.bits (domain_view self.new)) ≡ length (V.bits (domain_view self.old)) }
        ensures frame { V.frame (domain_view self.new) ≡ V.frame (domain_view self.old) }
    {
        let place = self.of.first_place();
        let len = self.of.len();
        self.of.write(|words| invert_in::<V::Store, V::Order>(words, place, len, k))
    }

    /// Makes each bit of the part of word `k` that is in the window 0. Answers the word masked, as it was.
    pub fn clear(&mut self, k: usize) -> V::Store
        requires { k < touched V.Store.BITS (V.place (domain_view self.old) % V.Store.BITS)
            (length (V.bits (domain_view self.old))) }
        ensures was { ReadsWord (read_by V.Store.BitRegister V.Order.position) (V.words (domain_view self.old))
            (window_span V.Store.BITS (V.place (domain_view self.old)) (length (V.bits (domain_view self.old))))
            k result }
        ensures now { WritesWord (read_by V.Store.BitRegister V.Order.position) (V.words (domain_view self.old))
            (V.words (domain_view self.new))
            (window_span V.Store.BITS (V.place (domain_view self.old)) (length (V.bits (domain_view self.old)))) k
            (λ _. false) }
        ensures same_reference { domain_loan self.new ≡ domain_loan self.old }
        ensures len { length (V.bits (domain_view self.new)) ≡ length (V.bits (domain_view self.old)) }
        ensures frame { V.frame (domain_view self.new) ≡ V.frame (domain_view self.old) }
    {
        let place = self.of.first_place();
        let len = self.of.len();
        self.of.write(|words| make_in::<V::Store, V::Order>(words, place, len, k, false))
    }

    /// Makes each bit of the part of word `k` that is in the window 1. Answers the word masked, as it was.
    pub fn set(&mut self, k: usize) -> V::Store
        requires { k < touched V.Store.BITS (V.place (domain_view self.old) % V.Store.BITS)
            (length (V.bits (domain_view self.old))) }
        ensures was { ReadsWord (read_by V.Store.BitRegister V.Order.position) (V.words (domain_view self.old))
            (window_span V.Store.BITS (V.place (domain_view self.old)) (length (V.bits (domain_view self.old))))
            k result }
        ensures now { WritesWord (read_by V.Store.BitRegister V.Order.position) (V.words (domain_view self.old))
            (V.words (domain_view self.new))
            (window_span V.Store.BITS (V.place (domain_view self.old)) (length (V.bits (domain_view self.old)))) k
            (λ _. true) }
        ensures same_reference { domain_loan self.new ≡ domain_loan self.old }
        ensures len { length (V.bits (domain_view self.new)) ≡ length (V.bits (domain_view self.old)) }
        ensures frame { V.frame (domain_view self.new) ≡ V.frame (domain_view self.old) }
    {
        let place = self.of.first_place();
        let len = self.of.len();
        self.of.write(|words| make_in::<V::Store, V::Order>(words, place, len, k, true))
    }
}
