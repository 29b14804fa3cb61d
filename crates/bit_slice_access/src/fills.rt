//! Each bit of a window made what a closure answers.

ghost use Rattle.std.specs.Prelude.{◌≡◌, ◌<◌, ◌≤◌, length, slice_index_or, false};
ghost use Rattle.std.specs.Mem.{FitsInMemory};
ghost use Rattle.bit_slice_access.specs.Fills.{Filled};

use crate::copies::hold;
use crate::edits::BitsEdits;
use bit_addressing_memory::{
    BitIdx, BitOrder, BitRegister, BulkOp, Lsb0, bit_loop_limit, read_bit, write_bit,
};
use bit_slice_views_mut::{BitSlice, Bits, BitsMut};

/// The changes of a window by a closure: of every `BitsMut`.
///
/// The closure is called once for each bit, in ascending order.
pub trait BitsFill: BitsMut {
    /// Makes each bit the closure's answer at its index.
    final fn fill_with<F: FnMut(usize) -> bool>(&mut self, f: F)
        requires { F.IsAlwaysCallable f }
        ensures bits { (last : F) × Filled F.step f (Self.bits self.new) last }
        ensures len { length (Self.bits self.new) ≡ length (Self.bits self.old) }
        ensures frame { Self.frame self.new ≡ Self.frame self.old }
    {
        if self.len() <= bit_loop_limit::<Self::Store, Self::Order>(BulkOp::Fill) {
            fill_singly(self, f);
        } else {
            fill_held::<Self, F, u64, Lsb0>(self, f);
        }
    }

    /// Makes each bit the closure's answer at its index and what it was.
    final fn for_each<F: FnMut(usize, bool) -> bool>(&mut self, f: F)
        requires { F.IsAlwaysCallable f }
        ensures bits { (last : F)
            × Filled (λ p i bit q. F.step p i (slice_index_or (Self.bits self.old) i false) bit q) f
            (Self.bits self.new) last }
        ensures len { length (Self.bits self.new) ≡ length (Self.bits self.old) }
        ensures frame { Self.frame self.new ≡ Self.frame self.old }
    {
        if self.len() <= bit_loop_limit::<Self::Store, Self::Order>(BulkOp::ForEach) {
            each_singly(self, f);
        } else {
            each_by_chunks(self, f);
        }
    }
}

impl<V: BitsMut> BitsFill for V {}

// `fill_with`, bit by bit.
#[inline(always)]
#[tactic(auto, using(crate::proofs::FillLemmas::fills))]
fn fill_singly<V: BitsMut, F: FnMut(usize) -> bool>(view: &mut V, mut f: F)
    requires callable { F.IsAlwaysCallable f }
    ensures bits { (last : F) × Filled F.step f (V.bits view.new) last }
    ensures len { length (V.bits view.new) ≡ length (V.bits view.old) }
    ensures frame { V.frame view.new ≡ V.frame view.old }
{
    let len = view.len();
    for i in 0..len {
        let bit = f(i);
        view.set(i, bit);
    }
}

// `for_each`, bit by bit.
#[inline(always)]
#[tactic(auto, using(crate::proofs::FillLemmas::fills))]
fn each_singly<V: BitsMut, F: FnMut(usize, bool) -> bool>(view: &mut V, mut f: F)
    requires callable { F.IsAlwaysCallable f }
    ensures bits { (last : F)
        × Filled (λ p i bit q. F.step p i (slice_index_or (V.bits view.old) i false) bit q) f (V.bits view.new) last }
    ensures len { length (V.bits view.new) ≡ length (V.bits view.old) }
    ensures frame { V.frame view.new ≡ V.frame view.old }
{
    let len = view.len();
    for i in 0..len {
        let was = view.bit(i);
        let bit = f(i, was);
        view.set(i, bit);
    }
}

// `fill_with`, by parts of 64 bits: the answers are gathered in a word. Out of line, so that a few are put by a short
// function.
#[inline(never)]
fn fill_held<V: BitsMut, F: FnMut(usize) -> bool, R: BitRegister, O: BitOrder<R>>(
    view: &mut V,
    mut f: F,
)
    requires callable { F.IsAlwaysCallable f }
    requires wide { 64 ≤ R.BITS }
    requires fits { FitsInMemory R.row }
    ensures bits { (last : F) × Filled F.step f (V.bits view.new) last }
    ensures len { length (V.bits view.new) ≡ length (V.bits view.old) }
    ensures frame { V.frame view.new ≡ V.frame view.old }
{
    let len = view.len();
    for k in 0..len / 64 + 1 {
        let at = 64 * k;
        let count = (len - at).min(64);
        let mut now = R::ZERO;
        for j in 0..count {
            let bit = f(at + j);
            now = write_bit::<R, O>(now, BitIdx::new_unchecked(j as u8), bit);
        }
        let answers = std::slice::from_ref(&now);
        view.write_part(at, &BitSlice::<R, O>::from_place(answers, 0, count));
    }
}

// `for_each`, by parts of 64 bits. Out of line, as `fill_held`.
#[inline(never)]
fn each_by_chunks<V: BitsMut, F: FnMut(usize, bool) -> bool>(view: &mut V, f: F)
    requires callable { F.IsAlwaysCallable f }
    ensures bits { (last : F)
        × Filled (λ p i bit q. F.step p i (slice_index_or (V.bits view.old) i false) bit q) f (V.bits view.new) last }
    ensures len { length (V.bits view.new) ≡ length (V.bits view.old) }
    ensures frame { V.frame view.new ≡ V.frame view.old }
{
    let mut was = [0u64; 1];
    each_held::<V, F, u64, Lsb0>(view, f, &mut was);
}

// The same: the first word of the memory `was` has them as they were, and the answers are gathered
// in a word.
fn each_held<V: BitsMut, F: FnMut(usize, bool) -> bool, R: BitRegister, O: BitOrder<R>>(
    view: &mut V,
    mut f: F,
    was: &mut [R],
)
    requires callable { F.IsAlwaysCallable f }
    requires wide { 64 ≤ R.BITS }
    requires fits { FitsInMemory R.row }
    requires room { 0 < length was.old }
    ensures bits { (last : F)
        × Filled (λ p i bit q. F.step p i (slice_index_or (V.bits view.old) i false) bit q) f (V.bits view.new) last }
    ensures len { length (V.bits view.new) ≡ length (V.bits view.old) }
    ensures frame { V.frame view.new ≡ V.frame view.old }
{
    let len = view.len();
    for k in 0..len / 64 + 1 {
        let at = 64 * k;
        let count = (len - at).min(64);
        hold::<V, R, O>(view, at, count, was);
        let before = was[0];
        let mut now = R::ZERO;
        for j in 0..count {
            let index = BitIdx::new_unchecked(j as u8);
            let bit = f(at + j, read_bit::<R, O>(before, index));
            now = write_bit::<R, O>(now, index, bit);
        }
        let answers = std::slice::from_ref(&now);
        view.write_part(at, &BitSlice::<R, O>::from_place(answers, 0, count));
    }
}
