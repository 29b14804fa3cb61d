//! What is read of a list of bits, whatever shows it.

ghost use Rattle.std.specs.Prelude.{◌≡◌, ℕ, ◌+◌, ◌<◌, ◌≤◌, ◌↔◌, ◌&&◌, List, Bool, true, false, not, length};
ghost use Rattle.std.specs.Prelude.{slice_index_or};
ghost use Rattle.std.specs.Prelude.{◌-◌, count_by, position, IfSome, IsSome, IsTrue};
ghost use Rattle.std.specs.Prelude.{drop, take, fold};
ghost use Rattle.std.specs.Cmp.Lexicographic.{slice_cmp};
ghost use Rattle.std.specs.Hash as fed;
ghost use Rattle.std.specs.List.{list_all, list_any};
ghost use Rattle.std.specs.Ordering.{bool_cmp};
ghost use Rattle.bit_slice_words.specs.Found.{is_bit, last_position};
ghost use Rattle.bit_slice_words.specs.Holds.{Holds};
ghost use Rattle.bit_slice_views.specs.Ends.{leading, trailing};
ghost use Rattle.bit_addressing_memory.specs.Memory.{read_by};
ghost use Rattle.bit_slice_views.specs.BitRef.{bit_value};
ghost use Rattle.bit_slice_views.specs.View.{view_bits, view_head};

use crate::compare::{compare_views, equal_views, view_contains, view_ends, view_starts};
use crate::index::BitRef;
use crate::view::BitSlice;
use bit_addressing_memory::{BitOrder, BitRegister, read_entry};
use bit_slice_words::{count_ones_in, count_zeros_in, first_in, last_in};
use std::cmp::Ordering;
use std::hash::{Hash, Hasher};

/// What shows a list of bits: a window, shared or writable, and each container.
///
/// A contract sees its list as `bits`, and the index of the first one in the word where it lies as `start`; each call
/// that reads stands here once.
pub trait Bits {
    type Store: BitRegister;

    type Order: BitOrder<Self::Store>;

    ghost bits: { Self → List Bool };

    // The index of its first bit in the word where it lies.
    ghost start: { Self → ℕ };

    /// All bits, as a shared window.
    fn as_bitslice(&self) -> BitSlice<'_, Self::Store, Self::Order>
        ensures bits { view_bits (read_by Self.Store.BitRegister Self.Order.position) result ≡ bits self.now }
        ensures head { view_head result ≡ start self.now };

    /// How many bits there are.
    final fn len(&self) -> usize
        ensures { result ≡ length (bits self.now) }
    {
        let (_, _, len) = self.as_bitslice().parts();
        len
    }

    /// Whether there is no bit.
    final fn is_empty(&self) -> bool
        ensures { IsTrue result ↔ (length (bits self.now) ≡ 0) }
    {
        self.len() == 0
    }

    // ---- access

    /// Bit `i`.
    final fn bit(&self, i: usize) -> bool
        requires { i < length (bits self.now) }
        ensures { result ≡ slice_index_or (bits self.now) i false }
    {
        bit_of(self.as_bitslice(), i)
    }

    /// The first bit, or `None` of no bits.
    final fn first(&self) -> Option<BitRef>
        ensures variant { IsSome result ↔ (0 < length (bits self.now)) }
        ensures value { IfSome result (λ bit. bit_value bit ≡ slice_index_or (bits self.now) 0 false) }
    {
        if self.is_empty() {
            return None;
        }
        Some(BitRef::new(self.bit(0)))
    }

    /// The last bit, or `None` of no bits.
    final fn last(&self) -> Option<BitRef>
        ensures variant { IsSome result ↔ (0 < length (bits self.now)) }
        ensures value { IfSome result
            (λ bit. bit_value bit ≡ slice_index_or (bits self.now) (length (bits self.now) - 1) false) }
    {
        if self.is_empty() {
            return None;
        }
        Some(BitRef::new(self.bit(self.len() - 1)))
    }

    // ---- scan

    /// How many bits are 1.
    final fn count_ones(&self) -> usize
        ensures { result ≡ count_by (λ b. b) (bits self.now) }
    {
        let (words, head, len) = self.as_bitslice().parts();
        count_ones_in::<Self::Store, Self::Order>(words, head as usize, len)
    }

    /// How many bits are 0.
    final fn count_zeros(&self) -> usize
        ensures { result ≡ count_by not (bits self.now) }
    {
        let (words, head, len) = self.as_bitslice().parts();
        count_zeros_in::<Self::Store, Self::Order>(words, head as usize, len)
    }

    /// The index of the first bit that is 1.
    final fn first_one(&self) -> Option<usize>
        ensures { result ≡ position (is_bit true) (bits self.now) }
    {
        first_of(self.as_bitslice(), true)
    }

    /// The index of the first bit that is 0.
    final fn first_zero(&self) -> Option<usize>
        ensures { result ≡ position (is_bit false) (bits self.now) }
    {
        first_of(self.as_bitslice(), false)
    }

    /// The index of the last bit that is 1.
    final fn last_one(&self) -> Option<usize>
        ensures { result ≡ last_position (is_bit true) (bits self.now) }
    {
        last_of(self.as_bitslice(), true)
    }

    /// The index of the last bit that is 0.
    final fn last_zero(&self) -> Option<usize>
        ensures { result ≡ last_position (is_bit false) (bits self.now) }
    {
        last_of(self.as_bitslice(), false)
    }

    /// How many bits are 1 before the first that is 0, or the end.
    final fn leading_ones(&self) -> usize
        ensures { result ≡ leading true (bits self.now) }
    {
        leading_of(self.as_bitslice(), true)
    }

    /// How many bits are 0 before the first that is 1, or the end.
    final fn leading_zeros(&self) -> usize
        ensures { result ≡ leading false (bits self.now) }
    {
        leading_of(self.as_bitslice(), false)
    }

    /// How many bits are 1 behind the last that is 0, or from the beginning on.
    final fn trailing_ones(&self) -> usize
        ensures { result ≡ trailing true (bits self.now) }
    {
        trailing_of(self.as_bitslice(), true)
    }

    /// How many bits are 0 behind the last that is 1, or from the beginning on.
    final fn trailing_zeros(&self) -> usize
        ensures { result ≡ trailing false (bits self.now) }
    {
        trailing_of(self.as_bitslice(), false)
    }

    /// Whether a bit is 1.
    #[tactic(auto, using(crate::proofs::EndLemmas::found))]
    final fn any(&self) -> bool
        ensures { result ≡ list_any (λ b. b) (bits self.now) }
    {
        match self.first_one() {
            Some(_) => true,
            None => false,
        }
    }

    /// Whether each bit is 1: of no bits it holds.
    #[tactic(auto, using(crate::proofs::EndLemmas::found))]
    final fn all(&self) -> bool
        ensures { result ≡ list_all (λ b. b) (bits self.now) }
    {
        match self.first_zero() {
            Some(_) => false,
            None => true,
        }
    }

    /// Whether no bit is 1: of no bits it holds.
    final fn not_any(&self) -> bool
        ensures { result ≡ not (list_any (λ b. b) (bits self.now)) }
    {
        !self.any()
    }

    /// Whether a bit is 0.
    final fn not_all(&self) -> bool
        ensures { result ≡ not (list_all (λ b. b) (bits self.now)) }
    {
        !self.all()
    }

    /// Whether a bit is 1 and another is 0.
    final fn some(&self) -> bool
        ensures { result ≡ (list_any (λ b. b) (bits self.now) && not (list_all (λ b. b) (bits self.now))) }
    {
        self.any() && self.not_all()
    }

    // ---- compare

    /// Whether the other list of bits is the same one, whatever its words and their order.
    final fn eq_bits<V: Bits>(&self, other: &V) -> bool
        ensures { IsTrue result ↔ (bits self.now ≡ V.bits other.now) }
    {
        equal_views(self.as_bitslice(), other.as_bitslice())
    }

    /// How this list compares with the other: the first bits that differ decide, 0 before 1, and where none do the
    /// shorter list is less.
    final fn cmp_bits<V: Bits>(&self, other: &V) -> Ordering
        ensures { result ≡ slice_cmp bool_cmp (bits self.now) (V.bits other.now) }
    {
        compare_views(self.as_bitslice(), other.as_bitslice())
    }

    /// Whether the other list stands somewhere in this one, in order and next to each other. No bits stand in any.
    final fn contains<V: Bits>(&self, other: &V) -> bool
        ensures { IsTrue result ↔ Holds (bits self.now) (V.bits other.now) }
    {
        view_contains(self.as_bitslice(), other.as_bitslice())
    }

    /// Whether this list begins with the other. Each begins with no bits.
    final fn starts_with<V: Bits>(&self, other: &V) -> bool
        ensures { IsTrue result ↔ (take (length (V.bits other.now)) (bits self.now) ≡ V.bits other.now) }
    {
        view_starts(self.as_bitslice(), other.as_bitslice())
    }

    /// Whether this list ends with the other. Each ends with no bits.
    final fn ends_with<V: Bits>(&self, other: &V) -> bool
        ensures { IsTrue result ↔ (drop (length (bits self.now) - length (V.bits other.now)) (bits self.now)
            ≡ V.bits other.now) }
    {
        view_ends(self.as_bitslice(), other.as_bitslice())
    }

    /// Feeds a hasher the length and then each bit, as std does for a slice of `bool`.
    final fn hash_bits<H: Hasher>(&self, state: &mut H)
        ensures { state.new ≡ fold H.write state.old (fed.slice fed.bool (bits self.now)) }
    {
        state.write_usize(self.len());
        for i in 0..self.len() {
            self.bit(i).hash(state);
        }
    }
}

// The index of the first bit of a window that is `bit`.
fn first_of<T: BitRegister, O: BitOrder<T>>(view: BitSlice<'_, T, O>, bit: bool) -> Option<usize>
    ensures { result ≡ position (is_bit bit) (view_bits (read_by T.BitRegister O.position) view.entry) }
{
    let (words, head, len) = view.parts();
    first_in::<T, O>(words, head as usize, len, bit)
}

// The index of the last bit of a window that is `bit`.
fn last_of<T: BitRegister, O: BitOrder<T>>(view: BitSlice<'_, T, O>, bit: bool) -> Option<usize>
    ensures { result ≡ last_position (is_bit bit) (view_bits (read_by T.BitRegister O.position) view.entry) }
{
    let (words, head, len) = view.parts();
    last_in::<T, O>(words, head as usize, len, bit)
}

// How many bits of a window are `bit` before the first that is another.
#[tactic(auto, using(crate::proofs::EndLemmas::found))]
fn leading_of<T: BitRegister, O: BitOrder<T>>(view: BitSlice<'_, T, O>, bit: bool) -> usize
    ensures { result ≡ leading bit (view_bits (read_by T.BitRegister O.position) view.entry) }
{
    match first_of(view, !bit) {
        Some(first) => first,
        None => view.len(),
    }
}

// How many bits of a window are `bit` behind the last that is another.
#[tactic(auto, using(crate::proofs::EndLemmas::found))]
fn trailing_of<T: BitRegister, O: BitOrder<T>>(view: BitSlice<'_, T, O>, bit: bool) -> usize
    ensures { result ≡ trailing bit (view_bits (read_by T.BitRegister O.position) view.entry) }
{
    match last_of(view, !bit) {
        Some(last) => view.len() - 1 - last,
        None => view.len(),
    }
}

// Bit `i` of a window.
#[tactic(auto, using(crate::proofs::ViewLemmas::views))]
fn bit_of<T: BitRegister, O: BitOrder<T>>(view: BitSlice<'_, T, O>, i: usize) -> bool
    requires { i < length (view_bits (read_by T.BitRegister O.position) view) }
    ensures { result ≡ slice_index_or (view_bits (read_by T.BitRegister O.position) view.entry) i false }
{
    let (words, head, len) = view.parts();
    read_entry::<T, O>(words, head as usize + i)
}
