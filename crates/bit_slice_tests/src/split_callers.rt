//! Callers of splits, each with a contract that follows from those of its calls.

ghost use Rattle.std.specs.Prelude.{◌≡◌, length, replicate, true, count_by};
ghost use Rattle.bit_slice_words.specs.Found.{is_bit};
ghost use Rattle.bit_slice_splits.specs.Ways.{AnswersBit};

use bit_slice_splits::{BitsSplits, BitsSplitsMut};
use bit_slice_views::Bits;
use bit_slice_views_mut::{BitsMut, BitsWindow};

/// How many bits are in no part, where the predicate answers what the bit is: those that are 1.
pub fn len_outside_parts<V: Bits, F: FnMut(usize, &bool) -> bool + Drop>(view: &V, f: F) -> usize
    requires callable { F.IsAlwaysCallable f }
    requires answers { AnswersBit F.FnMut }
    ensures { result ≡ count_by (is_bit true) (V.bits view.now) }
{
    let mut outside = view.len();
    let mut parts = view.split(f);
    while let Some(part) = parts.next() {
        outside = outside - part.len();
    }
    outside
}

/// How many bits are 1, by the lengths of the runs between them.
pub fn ones_by_runs<V: Bits>(view: &V) -> usize
    ensures { result ≡ count_by (is_bit true) (V.bits view.now) }
{
    len_outside_parts(view, |_i, bit| *bit)
}

/// The parts between the bits where the predicate answers true filled, where it answers what the bit is: all bits are 1
/// then.
pub fn fill_parts<V: BitsWindow, F: FnMut(usize, &bool) -> bool + Drop>(view: &mut V, f: F)
    requires callable { F.IsAlwaysCallable f }
    requires answers { AnswersBit F.FnMut }
    ensures bits { V.bits view.new ≡ replicate (length (V.bits view.old)) true }
    ensures frame { V.frame view.new ≡ V.frame view.old }
{
    let mut parts = view.split_mut(f);
    while let Some(part) = parts.next_mut() {
        part.fill(true);
    }
}

/// The parts between the bits that are 1 filled: all bits are 1 then.
pub fn fill_between_ones<V: BitsWindow>(view: &mut V)
    ensures bits { V.bits view.new ≡ replicate (length (V.bits view.old)) true }
    ensures frame { V.frame view.new ≡ V.frame view.old }
{
    fill_parts(view, |_i, bit| *bit);
}
