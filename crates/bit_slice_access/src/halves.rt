//! The words of a window, split at a border: two slices, both at hand.

ghost use Rattle.std.specs.Prelude.{◌≡◌, ◌+◌, ◌*◌, ◌/◌, ◌≤◌, ◌++◌, length, take, drop};
ghost use Rattle.std.specs.Fn.{FnOnceReturnsAtMut};
ghost use Rattle.bit_slice_access.specs.Halves.{IsSplit, KeepsHalves, halves_words};

use bit_addressing_memory::{BitRegister, mem};

/// The words before a border and those from it on: what `split_words_mut` lends. Windows of both can be written at once.
#[derive(Drop)]
pub struct Halves<'a, T> {
    /// The words before the border.
    pub left: &'a mut [T],
    /// The words from the border on.
    pub right: &'a mut [T],
}

// Runs a function on both slices.
fn run<T, A, F: FnOnce(&mut Halves<'_, T>) -> A>(halves: &mut Halves<'_, T>, f: F) -> A
    requires callable { (h : _) → h.now ≡ halves.old → F.pre f h }
    requires keeps { (h : _) (r : A) (k : _) → FnOnceReturnsAtMut F.FnOnce f h r k → KeepsHalves h k }
    ensures kept { KeepsHalves halves.old halves.new }
    ensures ran { FnOnceReturnsAtMut F.FnOnce f halves.old result halves.new }
{
    f(halves)
}

// Runs a function on the words before the border at a place, and those from it on.
pub(crate) fn split_in<T: BitRegister, A, F: FnOnce(&mut Halves<'_, T>) -> A>(
    words: &mut [T],
    place: usize,
    f: F,
) -> A
    requires within { place ≤ length words.old * T.BITS }
    requires callable { (h : _) → IsSplit words.old (place / T.BITS) h.now → F.pre f h }
    requires keeps { (h : _) (r : A) (k : _) → FnOnceReturnsAtMut F.FnOnce f h r k → KeepsHalves h k }
    ensures ran { (h : _) × (k : _) × IsSplit words.old (place / T.BITS) h
        × FnOnceReturnsAtMut F.FnOnce f h result k × (words.new ≡ halves_words k) }
    ensures len { length words.new ≡ length words.old }
{
    let border = place / mem::bits_of::<T>();
    split_words::<T, A, F>(words, border, f)
}

// Runs a function on the words before one of them, and those from it on.
fn split_words<T, A, F: FnOnce(&mut Halves<'_, T>) -> A>(words: &mut [T], border: usize, f: F) -> A
    requires within { border ≤ length words.old }
    requires callable { (h : _) → IsSplit words.old border h.now → F.pre f h }
    requires keeps { (h : _) (r : A) (k : _) → FnOnceReturnsAtMut F.FnOnce f h r k → KeepsHalves h k }
    ensures ran { (h : _) × (k : _) × IsSplit words.old border h
        × FnOnceReturnsAtMut F.FnOnce f h result k × (words.new ≡ halves_words k) }
    ensures len { length words.new ≡ length words.old }
{
    let (left, right) = words.split_at_mut(border);
    both::<T, A, F>(left, right, f)
}

// Runs a function on two slices.
fn both<T, A, F: FnOnce(&mut Halves<'_, T>) -> A>(left: &mut [T], right: &mut [T], f: F) -> A
    requires callable { (h : _) → h.now.left.now ≡ left.old → h.now.right.now ≡ right.old → F.pre f h }
    requires keeps { (h : _) (r : A) (k : _) → FnOnceReturnsAtMut F.FnOnce f h r k → KeepsHalves h k }
    ensures ran { (h : _) × (k : _) × (h.left.now ≡ left.old) × (h.right.now ≡ right.old)
        × FnOnceReturnsAtMut F.FnOnce f h result k × (left.new ≡ k.left.now) × (right.new ≡ k.right.now) }
    ensures left_len { length left.new ≡ length left.old }
    ensures right_len { length right.new ≡ length right.old }
{
    let mut halves = Halves { left, right };
    run::<T, A, F>(&mut halves, f)
}
