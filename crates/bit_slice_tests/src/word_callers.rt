//! Callers of windows by words: the words of a window, a cut at their borders, two windows of separate words.

ghost use Rattle.std.specs.Prelude.{◌≡◌, ◌+◌, ◌-◌, ◌*◌, ◌/◌, ◌%◌, ◌<◌, ◌≤◌, ◌++◌, length, take, drop, slice_set, true, false};
ghost use Rattle.bit_addressing_memory.specs.Memory.{memory, read_by, touched};
ghost use Rattle.bit_addressing_span.specs.Parts.{part_from};
ghost use Rattle.bit_addressing_span.specs.declared.span.TheConstants.{MAX_BITS};
ghost use Rattle.bit_slice_access.specs.Cut.{body_bits, head_bits};
ghost use Rattle.bit_slice_access.specs.Domain.{window_span, WritesWord};
ghost use Rattle.bit_slice_access.specs.Halves.{KeepsHalves};

use bit_addressing_memory::{BitOrder, BitRegister};
use bit_addressing_span::MAX_BITS;
use bit_slice_access::{BitsCopy, BitsDomains, Halves};
use bit_slice_views::Bits;
use bit_slice_views_mut::{BitSliceMut, BitsMut, BitsWindow};

/// The first word of a window cleared, in the part of it that lies in the window.
pub fn clear_first_word<V: BitsWindow>(view: &mut V)
    requires { 0 < length (V.bits view.old) }
    ensures cleared { WritesWord (read_by V.Store.BitRegister V.Order.position) (V.words view.old) (V.words view.new)
        (window_span V.Store.BITS (V.place view.old) (length (V.bits view.old))) 0 (λ _. false) }
    ensures frame { V.frame view.new ≡ V.frame view.old }
{
    let mut domain = view.domain_mut();
    domain.clear(0);
}

/// The first bit of each part of a window, cut at the borders of its words, where each part has one.
pub fn mark_parts<V: BitsWindow>(view: &mut V)
    requires head { 0 < head_bits V.Store.BITS (V.place view.old) (length (V.bits view.old)) }
    requires body { 0 < body_bits V.Store.BITS (V.place view.old) (length (V.bits view.old)) }
    requires tail { head_bits V.Store.BITS (V.place view.old) (length (V.bits view.old))
        + body_bits V.Store.BITS (V.place view.old) (length (V.bits view.old)) < length (V.bits view.old) }
    ensures bits { V.bits view.new ≡ slice_set (slice_set (slice_set (V.bits view.old) 0 true)
        (head_bits V.Store.BITS (V.place view.old) (length (V.bits view.old))) true)
        (head_bits V.Store.BITS (V.place view.old) (length (V.bits view.old))
        + body_bits V.Store.BITS (V.place view.old) (length (V.bits view.old))) true }
    ensures frame { V.frame view.new ≡ V.frame view.old }
{
    let mut domain = view.bit_domain_mut();
    domain.head_mut().set(0, true);
    domain.body_mut().set(0, true);
    domain.tail_mut().set(0, true);
}

/// The bits of two slices of as many words exchanged, by two windows that are written at once.
#[tactic(auto, using(bit_slice_views_mut::proofs::FrameLemmas::frames, bit_slice_views::proofs::ViewLemmas::views))]
pub fn swap_slices<T: BitRegister, O: BitOrder<T>>(left: &mut [T], right: &mut [T])
    requires same { length right.old ≡ length left.old }
    requires small { length left.old * T.BITS ≤ MAX_BITS }
    ensures left { memory (read_by T.BitRegister O.position) left.new
        ≡ memory (read_by T.BitRegister O.position) right.old }
    ensures right { memory (read_by T.BitRegister O.position) right.new
        ≡ memory (read_by T.BitRegister O.position) left.old }
    ensures left_len { length left.new ≡ length left.old }
    ensures right_len { length right.new ≡ length right.old }
{
    let mut first = BitSliceMut::<T, O>::from_slice_mut(left);
    let mut second = BitSliceMut::<T, O>::from_slice_mut(right);
    first.swap_with_bitslice(&mut second);
}

/// The same of the two slices that a split lends.
pub fn swap_lent<T: BitRegister, O: BitOrder<T>>(halves: &mut Halves<'_, T>)
    requires same { length halves.old.right.now ≡ length halves.old.left.now }
    requires small { length halves.old.left.now * T.BITS ≤ MAX_BITS }
    ensures kept { KeepsHalves halves.old halves.new }
    ensures left { memory (read_by T.BitRegister O.position) halves.new.left.now
        ≡ memory (read_by T.BitRegister O.position) halves.old.right.now }
    ensures right { memory (read_by T.BitRegister O.position) halves.new.right.now
        ≡ memory (read_by T.BitRegister O.position) halves.old.left.now }
{
    swap_slices::<T, O>(halves.left, halves.right);
}

/// The two halves of one's own words exchanged, each a window of its own.
pub fn swap_halves<T: BitRegister, O: BitOrder<T>>(words: &mut [T], half: usize)
    requires even { length words.old ≡ half + half }
    requires small { length words.old * T.BITS ≤ MAX_BITS }
    ensures { memory (read_by T.BitRegister O.position) words.new
        ≡ memory (read_by T.BitRegister O.position) (drop half words.old)
        ++ memory (read_by T.BitRegister O.position) (take half words.old) }
{
    let mut view = BitSliceMut::<T, O>::from_slice_mut(words);
    let mid = half * T::BITS as usize;
    view.split_words_mut(mid, |halves| swap_lent::<T, O>(halves));
}
