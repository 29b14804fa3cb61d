//! Callers, as another crate would write them.

ghost use Rattle.std.specs.Prelude.{◌≡◌, ℕ, ◌+◌, ◌-◌, ◌*◌, ◌<◌, ◌≤◌, length, slice_set, slice_index_or, replicate};
ghost use Rattle.std.specs.Prelude.{not, true, false};
ghost use Rattle.bit_addressing_memory.specs.Memory.{memory, read_by, with_piece};
ghost use Rattle.bit_addressing_span.specs.declared.span.TheConstants.{MAX_BITS};

use bit_addressing_memory::{BitOrder, BitRegister};
use bit_slice_access::{BitMut, BitsAccess, BitsCut, BitsFill, Part};
use bit_slice_views::Bits;
use bit_slice_views_mut::{BitSliceMut, BitsMut, BitsWindow};

/// Sets a bit and commits another, whatever the window.
pub fn set_by_bits<V: BitsMut>(view: &mut V)
    requires { 5 < length (V.bits view.old) }
    ensures bits { V.bits view.new ≡ slice_set (slice_set (slice_set (V.bits view.old) 3 true) 3 false) 4 true }
    ensures len { length (V.bits view.new) ≡ length (V.bits view.old) }
    ensures frame { V.frame view.new ≡ V.frame view.old }
{
    {
        let mut third = BitMut::new(view, 3);
        third.set(true);
        third.replace(false);
    }
    BitMut::new(view, 4).commit(true);
}

/// The same in words of one's own: they are known whole.
#[tactic(auto, using(bit_slice_views_mut::proofs::FrameLemmas::frames, bit_slice_views::proofs::ViewLemmas::views))]
pub fn set_in_words<T: BitRegister, O: BitOrder<T>>(words: &mut [T])
    requires long { 5 < length words.old * T.BITS }
    requires small { length words.old * T.BITS ≤ MAX_BITS }
    ensures { memory (read_by T.BitRegister O.position) words.new
        ≡ slice_set (slice_set (slice_set (memory (read_by T.BitRegister O.position) words.old) 3 true) 3 false)
        4 true }
{
    let mut view = BitSliceMut::<T, O>::from_slice_mut(words);
    set_by_bits(&mut view);
}

/// Sets the bit at an index, where there is one.
pub fn set_where_inside<V: BitsMut>(view: &mut V, i: usize)
    ensures inside { i < length (V.bits view.old) → V.bits view.new ≡ slice_set (V.bits view.old) i true }
    ensures outside { length (V.bits view.old) ≤ i → V.bits view.new ≡ V.bits view.old }
    ensures frame { V.frame view.new ≡ V.frame view.old }
{
    if i < view.len() {
        view.index_mut(i).set(true);
    }
}

/// Flips a bit, which `*` reads.
pub fn flip_bit<V: BitsMut>(view: &mut V, i: usize)
    requires { i < length (V.bits view.old) }
    ensures bits { V.bits view.new
        ≡ slice_set (V.bits view.old) i (not (slice_index_or (V.bits view.old) i false)) }
    ensures frame { V.frame view.new ≡ V.frame view.old }
{
    let mut bit = BitMut::new(view, i);
    let was = *bit;
    bit.set(!was);
}

/// Sets the last bit.
pub fn set_last<V: BitsMut>(view: &mut V)
    requires { 0 < length (V.bits view.old) }
    ensures bits { V.bits view.new ≡ slice_set (V.bits view.old) (length (V.bits view.old) - 1) true }
    ensures frame { V.frame view.new ≡ V.frame view.old }
{
    let Some(mut last) = view.last_mut() else {
        return
    };
    last.set(true);
}

/// Writes two bits of a part, whatever the window.
pub fn set_in_part<V: BitsWindow>(view: &mut V)
    requires { 7 ≤ length (V.bits view.old) }
    ensures bits { V.bits view.new ≡ slice_set (slice_set (V.bits view.old) 3 true) 5 false }
    ensures frame { V.frame view.new ≡ V.frame view.old }
{
    let mut part = Part::new(view, 2, 5);
    part.set(1, true);
    part.set(3, false);
}

/// Makes the bits of a range ones, and leaves the others.
pub fn fill_range<V: BitsWindow>(view: &mut V, from: usize, upto: usize)
    requires ordered { from ≤ upto }
    requires within { upto ≤ length (V.bits view.old) }
    ensures bits { V.bits view.new ≡ with_piece (V.bits view.old) from (replicate (upto - from) true) }
    ensures frame { V.frame view.new ≡ V.frame view.old }
{
    let mut part = view.index_mut(from..upto);
    part.fill(true);
}

/// Makes the bits from an index on ones.
pub fn fill_from<V: BitsWindow>(view: &mut V, from: usize)
    requires { from ≤ length (V.bits view.old) }
    ensures bits { V.bits view.new
        ≡ with_piece (V.bits view.old) from (replicate (length (V.bits view.old) - from) true) }
    ensures frame { V.frame view.new ≡ V.frame view.old }
{
    let Some(mut part) = view.get_mut(from..) else {
        return
    };
    part.fill(true);
}

/// Flips each bit by a closure.
pub fn flip_each<V: BitsMut>(view: &mut V)
    ensures flipped { (k : ℕ) → k < length (V.bits view.old)
        → slice_index_or (V.bits view.new) k false ≡ not (slice_index_or (V.bits view.old) k false) }
    ensures frame { V.frame view.new ≡ V.frame view.old }
{
    view.for_each(|_i, bit| !bit);
}

/// The first bit set and the one behind it cleared, by the two parts of a split.
pub fn set_at_front<V: BitsWindow>(view: &mut V)
    requires { 1 < length (V.bits view.old) }
    ensures bits { V.bits view.new ≡ slice_set (slice_set (V.bits view.old) 0 true) 1 true }
    ensures frame { V.frame view.new ≡ V.frame view.old }
{
    let Some(mut pair) = view.split_first_mut() else {
        return
    };
    pair.left_mut().set(0, true);
    pair.right_mut().set(0, true);
}
