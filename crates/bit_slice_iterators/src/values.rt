//! The bits of a window as truth values, and as references to them.

ghost use Rattle.std.specs.Prelude.{◌≡◌, ◌+◌, ◌-◌, ◌<◌, ◌≤◌, ⊤, length, IfSome, Some};
ghost use Rattle.std.specs.Iterator.{YieldsFirst, YieldsFirstRef, YieldsLast, YieldsLastRef, item_count, UpTo};
ghost use Rattle.std.specs.Iterator.SizeHint.{IsWithinCount};
ghost use Rattle.bit_addressing_memory.specs.Memory.{read_by};
ghost use Rattle.bit_slice_views.specs.View.{view_bits};

use bit_addressing_memory::{BitOrder, BitRegister};
use bit_slice_views::{BitSlice, Bits};
use std::alloc::AllocError;
use std::iter::FusedIterator;
use std::marker::Model;

/// The bits of a window that are left, as truth values; a contract sees their list.
///
/// It is exact in length, gives each bit once from either end, and then `None` for good.
#[derive(Drop)]
pub struct BitValIter<'a, T: BitRegister, O: BitOrder<T>> {
    view: BitSlice<'a, T, O>,
}

impl<'a, T: BitRegister, O: BitOrder<T>> Model for BitValIter<'a, T, O> {
    ghost use Rattle.std.specs.Prelude.{Bool, List};
    ghost use Rattle.bit_addressing_memory.specs.Memory.{read_by};
    ghost use Rattle.bit_slice_views.specs.View.{view_bits};

    ghost Value = { List Bool };

    ghost view = { λ iter. view_bits (read_by T.BitRegister O.position) iter.view };
}

impl<'a, T: BitRegister, O: BitOrder<T>> BitValIter<'a, T, O> {
    /// The bits of a window.
    pub fn new(view: BitSlice<'a, T, O>) -> BitValIter<'a, T, O>
        ensures { result ≡ view_bits (read_by T.BitRegister O.position) view.entry }
    {
        BitValIter { view }
    }
}

impl<'a, T: BitRegister, O: BitOrder<T>> Clone for BitValIter<'a, T, O> {
    ghost is_clone = { λ iter copy. copy ≡ iter };

    ghost is_infallible = { λ _. ⊤ };

    fn clone(&self) -> Result<Self, AllocError> {
        Ok(BitValIter { view: self.view })
    }
}

#[tactic(auto, using(crate::proofs::BitLemmas::ends_of_bits))]
impl<'a, T: BitRegister, O: BitOrder<T>> Iterator for BitValIter<'a, T, O> {
    type Item = bool;

    ghost next_gives = { YieldsFirst (λ left. left) };

    ghost remaining = { item_count (λ left. left) };

    fn next(&mut self) -> Option<bool> {
        let len = self.view.len();
        if len == 0 {
            return None;
        }
        let first = self.view.bit(0);
        self.view = self.view.part(1, len - 1);
        Some(first)
    }

    fn size_hint(&self) -> (usize, Option<usize>)
        ensures lower { IsWithinCount result.0 (item_count (λ left. left) self.now) }
        ensures upper { IfSome result.1 (UpTo (item_count (λ left. left) self.now)) }
        ensures exact { result ≡ (length self.now, Some (length self.now)) }
    {
        let left = self.len();
        (left, Some(left))
    }
}

#[tactic(auto, using(crate::proofs::BitLemmas::ends_of_bits))]
impl<'a, T: BitRegister, O: BitOrder<T>> DoubleEndedIterator for BitValIter<'a, T, O> {
    ghost next_back_gives = { YieldsLast (λ left. left) };

    fn next_back(&mut self) -> Option<bool> {
        let len = self.view.len();
        if len == 0 {
            return None;
        }
        let last = self.view.bit(len - 1);
        self.view = self.view.part(0, len - 1);
        Some(last)
    }
}

impl<'a, T: BitRegister, O: BitOrder<T>> ExactSizeIterator for BitValIter<'a, T, O> {
    fn len(&self) -> usize {
        self.view.len()
    }
}

impl<'a, T: BitRegister, O: BitOrder<T>> FusedIterator for BitValIter<'a, T, O> {}

/// The bits of a window that are left, as references to truth values; a contract sees their list.
///
/// It is exact in length, gives each bit once from either end, and then `None` for good.
#[derive(Drop)]
pub struct BitRefIter<'a, T: BitRegister, O: BitOrder<T>> {
    values: BitValIter<'a, T, O>,
}

impl<'a, T: BitRegister, O: BitOrder<T>> Model for BitRefIter<'a, T, O> {
    ghost use Rattle.std.specs.Prelude.{Bool, List};

    ghost Value = { List Bool };

    ghost view = { λ iter. iter.values };
}

impl<'a, T: BitRegister, O: BitOrder<T>> BitRefIter<'a, T, O> {
    /// The bits of a window.
    pub fn new(view: BitSlice<'a, T, O>) -> BitRefIter<'a, T, O>
        ensures { result ≡ view_bits (read_by T.BitRegister O.position) view.entry }
    {
        BitRefIter {
            values: BitValIter::new(view),
        }
    }
}

impl<'a, T: BitRegister, O: BitOrder<T>> Clone for BitRefIter<'a, T, O> {
    ghost is_clone = { λ iter copy. copy ≡ iter };

    ghost is_infallible = { λ _. ⊤ };

    fn clone(&self) -> Result<Self, AllocError> {
        let values = self.values.clone()?;
        Ok(BitRefIter { values })
    }
}

// A truth value that lies somewhere for good.
fn placed<'a>(bit: bool) -> &'a bool
    ensures { result.now ≡ bit }
{
    if bit { &true } else { &false }
}

impl<'a, T: BitRegister + 'a, O: BitOrder<T>> Iterator for BitRefIter<'a, T, O> {
    type Item = &'a bool;

    ghost next_gives = { YieldsFirstRef (λ left. left) };

    ghost remaining = { item_count (λ left. left) };

    fn next(&mut self) -> Option<&'a bool> {
        match self.values.next() {
            Some(bit) => Some(placed(bit)),
            None => None,
        }
    }

    fn size_hint(&self) -> (usize, Option<usize>)
        ensures lower { IsWithinCount result.0 (item_count (λ left. left) self.now) }
        ensures upper { IfSome result.1 (UpTo (item_count (λ left. left) self.now)) }
        ensures exact { result ≡ (length self.now, Some (length self.now)) }
    {
        self.values.size_hint()
    }
}

impl<'a, T: BitRegister + 'a, O: BitOrder<T>> DoubleEndedIterator for BitRefIter<'a, T, O> {
    ghost next_back_gives = { YieldsLastRef (λ left. left) };

    fn next_back(&mut self) -> Option<&'a bool> {
        match self.values.next_back() {
            Some(bit) => Some(placed(bit)),
            None => None,
        }
    }
}

impl<'a, T: BitRegister + 'a, O: BitOrder<T>> ExactSizeIterator for BitRefIter<'a, T, O> {
    fn len(&self) -> usize {
        self.values.len()
    }
}

impl<'a, T: BitRegister + 'a, O: BitOrder<T>> FusedIterator for BitRefIter<'a, T, O> {}
