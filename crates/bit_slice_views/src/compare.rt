//! Windows compared as lists of bits, whatever their words and orders are.

ghost use Rattle.std.specs.Prelude.{◌≡◌, ◌+◌, ◌-◌, ◌*◌, ◌%◌, ◌^◌, ◌<◌, ◌≤◌, ◌↔◌, length, take, drop, IfSome, IsSome, IsTrue};
ghost use Rattle.std.specs.Cmp.Lexicographic.{slice_cmp};
ghost use Rattle.std.specs.Ordering.{bool_cmp, as_partial_cmp};
ghost use Rattle.bit_addressing_memory.specs.Memory.{memory, piece, read_by, reading_in};
ghost use Rattle.bit_slice_words.specs.Holds.{Holds};
ghost use Rattle.bit_slice_views.specs.Compare.{bits_eq, bits_cmp, bits_fed, bits_equiv, bits_per, bits_total};
ghost use Rattle.bit_slice_views.specs.Compare.{bits_ties, bits_po, bits_alike};
ghost use Rattle.bit_slice_views.specs.View.{view_bits, view_head};

use crate::bits::Bits;
use crate::view::BitSlice;
use bit_addressing_memory::{BitOrder, BitRegister};
use bit_slice_words::{Steps, WordPaths, compare_in, contains_in, equal_in};
use std::cmp::Ordering;
use std::hash::{Hash, Hasher};

/// Windows of one type are equal where their lists are: by the word path of their order.
impl<T: BitRegister, O: WordPaths<T>> PartialEq for BitSlice<'_, T, O> {
    ghost eq = { bits_eq (view_bits (read_by T.BitRegister O.position)) };

    ghost laws = { bits_per (view_bits (reading_in T.BITS T.number O.position)) };

    fn eq(&self, other: &Self) -> bool {
        equal_by_path(*self, *other)
    }
}

impl<T: BitRegister, O: WordPaths<T>> Eq for BitSlice<'_, T, O> {
    ghost laws = { bits_equiv (view_bits (reading_in T.BITS T.number O.position)) };
}

/// The order of `cmp_bits`.
impl<T: BitRegister, O: WordPaths<T>> PartialOrd for BitSlice<'_, T, O> {
    ghost partial_cmp = { as_partial_cmp (bits_cmp (view_bits (read_by T.BitRegister O.position))) };

    ghost laws = { bits_po (view_bits (reading_in T.BITS T.number O.position)) };

    fn partial_cmp(&self, other: &Self) -> Option<Ordering> {
        Some(self.cmp_bits(other))
    }
}

impl<T: BitRegister, O: WordPaths<T>> Ord for BitSlice<'_, T, O> {
    ghost use Rattle.std.specs.Prelude.{refl};

    ghost cmp = { bits_cmp (view_bits (read_by T.BitRegister O.position)) };

    ghost total = { bits_total (view_bits (reading_in T.BITS T.number O.position)) };

    ghost matches_partial_cmp = { λ _ _. refl };

    ghost matches_eq = { bits_ties (view_bits (reading_in T.BITS T.number O.position)) };

    fn cmp(&self, other: &Self) -> Ordering {
        self.cmp_bits(other)
    }
}

/// The hash of `hash_bits`.
impl<T: BitRegister, O: WordPaths<T>> Hash for BitSlice<'_, T, O> {
    ghost hash_input = { bits_fed (view_bits (read_by T.BitRegister O.position)) };

    ghost respects_eq = { bits_alike (view_bits (reading_in T.BITS T.number O.position)) };

    fn hash<H: Hasher>(&self, state: &mut H) {
        self.hash_bits(state);
    }
}

// What is left of a window.
impl<'a, T: BitRegister, O: BitOrder<T>> BitSlice<'a, T, O> {
    /// The bits behind a list with which they begin, or `None` where they begin with another.
    pub fn strip_prefix<V: Bits>(self, prefix: &V) -> Option<BitSlice<'a, T, O>>
        ensures variant { IsSome result
            ↔ (take (length (V.bits prefix.now)) (view_bits (read_by T.BitRegister O.position) self.entry)
            ≡ V.bits prefix.now) }
        ensures rest { IfSome result (λ rest. view_bits (read_by T.BitRegister O.position) rest
            ≡ drop (length (V.bits prefix.now)) (view_bits (read_by T.BitRegister O.position) self.entry)) }
        ensures head { IfSome result
            (λ rest. view_head rest ≡ (view_head self.entry + length (V.bits prefix.now)) % T.BITS) }
    {
        if !self.starts_with(prefix) {
            return None;
        }
        let (_, rest) = self.split_at(prefix.len());
        Some(rest)
    }

    /// The bits before a list with which they end, or `None` where they end with another.
    pub fn strip_suffix<V: Bits>(self, suffix: &V) -> Option<BitSlice<'a, T, O>>
        ensures variant { IsSome result
            ↔ (drop (length (view_bits (read_by T.BitRegister O.position) self.entry) - length (V.bits suffix.now))
            (view_bits (read_by T.BitRegister O.position) self.entry) ≡ V.bits suffix.now) }
        ensures rest { IfSome result (λ rest. view_bits (read_by T.BitRegister O.position) rest
            ≡ take (length (view_bits (read_by T.BitRegister O.position) self.entry) - length (V.bits suffix.now))
            (view_bits (read_by T.BitRegister O.position) self.entry)) }
        ensures head { IfSome result (λ rest. view_head rest ≡ view_head self.entry) }
    {
        if !self.ends_with(suffix) {
            return None;
        }
        let (rest, _) = self.split_at(self.len() - suffix.len());
        Some(rest)
    }
}

// Whether two windows show the same list.
pub(crate) fn equal_views<T: BitRegister, O: BitOrder<T>, Q: BitRegister, P: BitOrder<Q>>(
    left: BitSlice<'_, T, O>,
    right: BitSlice<'_, Q, P>,
) -> bool
    ensures { IsTrue result ↔ (view_bits (read_by T.BitRegister O.position) left.entry
        ≡ view_bits (read_by Q.BitRegister P.position) right.entry) }
{
    let (words, head, len) = left.parts();
    let (others, other_head, other_len) = right.parts();
    len == other_len
        && equal_in::<T, O, Q, P>(words, head as usize, others, other_head as usize, len)
}

// Whether two windows of one type show the same list, by their word path.
fn equal_by_path<T: BitRegister, O: WordPaths<T>>(
    left: BitSlice<'_, T, O>,
    right: BitSlice<'_, T, O>,
) -> bool
    ensures { IsTrue result ↔ (view_bits (read_by T.BitRegister O.position) left.entry
        ≡ view_bits (read_by T.BitRegister O.position) right.entry) }
{
    let (words, head, len) = left.parts();
    let (others, other_head, other_len) = right.parts();
    len == other_len && equal_path::<T, O>(words, head as usize, others, other_head as usize, len)
}

// Whether as many bits of two slices from a place on are the same, by their word path.
fn equal_path<T: BitRegister, O: WordPaths<T>>(
    words: &[T],
    place: usize,
    others: &[T],
    other_place: usize,
    len: usize,
) -> bool
    requires within { place + len ≤ length words.now * T.BITS }
    requires ends { place + len < 2 ^ 64 }
    requires other_within { other_place + len ≤ length others.now * T.BITS }
    requires other_ends { other_place + len < 2 ^ 64 }
    ensures { IsTrue result ↔ (piece (memory (read_by T.BitRegister O.position) words.now) place len
        ≡ piece (memory (read_by T.BitRegister O.position) others.now) other_place len) }
{
    O::equal(words, place, others, other_place, len, &mut Steps::new())
}

// How the lists of two windows compare.
pub(crate) fn compare_views<T: BitRegister, O: BitOrder<T>, Q: BitRegister, P: BitOrder<Q>>(
    left: BitSlice<'_, T, O>,
    right: BitSlice<'_, Q, P>,
) -> Ordering
    ensures { result ≡ slice_cmp bool_cmp (view_bits (read_by T.BitRegister O.position) left.entry)
        (view_bits (read_by Q.BitRegister P.position) right.entry) }
{
    let (words, head, len) = left.parts();
    let (others, other_head, other_len) = right.parts();
    compare_in::<T, O, Q, P>(
        words,
        head as usize,
        len,
        others,
        other_head as usize,
        other_len,
    )
}

// Whether the list of the second window stands somewhere in that of the first.
pub(crate) fn view_contains<T: BitRegister, O: BitOrder<T>, Q: BitRegister, P: BitOrder<Q>>(
    view: BitSlice<'_, T, O>,
    other: BitSlice<'_, Q, P>,
) -> bool
    ensures { IsTrue result ↔ Holds (view_bits (read_by T.BitRegister O.position) view.entry)
        (view_bits (read_by Q.BitRegister P.position) other.entry) }
{
    let (words, head, len) = view.parts();
    let (others, other_head, other_len) = other.parts();
    contains_in::<T, O, Q, P>(
        words,
        head as usize,
        len,
        others,
        other_head as usize,
        other_len,
    )
}

// Whether the list of the first window begins with that of the second.
#[tactic(auto, using(crate::proofs::CompareLemmas::ends))]
pub(crate) fn view_starts<T: BitRegister, O: BitOrder<T>, Q: BitRegister, P: BitOrder<Q>>(
    view: BitSlice<'_, T, O>,
    other: BitSlice<'_, Q, P>,
) -> bool
    ensures { IsTrue result ↔ (take (length (view_bits (read_by Q.BitRegister P.position) other.entry))
        (view_bits (read_by T.BitRegister O.position) view.entry)
        ≡ view_bits (read_by Q.BitRegister P.position) other.entry) }
{
    let count = other.len();
    count <= view.len() && equal_views(view.part(0, count), other)
}

// Whether the list of the first window ends with that of the second.
#[tactic(auto, using(crate::proofs::CompareLemmas::ends))]
pub(crate) fn view_ends<T: BitRegister, O: BitOrder<T>, Q: BitRegister, P: BitOrder<Q>>(
    view: BitSlice<'_, T, O>,
    other: BitSlice<'_, Q, P>,
) -> bool
    ensures { IsTrue result ↔ (drop (length (view_bits (read_by T.BitRegister O.position) view.entry)
        - length (view_bits (read_by Q.BitRegister P.position) other.entry))
        (view_bits (read_by T.BitRegister O.position) view.entry)
        ≡ view_bits (read_by Q.BitRegister P.position) other.entry) }
{
    let count = other.len();
    count <= view.len() && equal_views(view.part(view.len() - count, count), other)
}
