//! The words and the bits of a vector, lent to be written.

ghost use Rattle.std.specs.Prelude.{◌≡◌, length, vec_capacity};
ghost use Rattle.std.specs.Fn.{FnOnceReturnsAtMut};
ghost use Rattle.std.specs.Borrow.{Array, follows, sem};
ghost use Rattle.bit_addressing_memory.specs.Memory.{read_by};
ghost use Rattle.bit_addressing_memory.specs.Sweep.{IsFresh, sweep_lender, sweep_words};
ghost use Rattle.bit_containers_vector.specs.Lending.{with_words, HasWords};
ghost use Rattle.bit_containers_vector.specs.Vector.{vec_bits, vec_head, vec_words, visible, words_held, HoldsBlock};
ghost use Rattle.bit_slice_views.specs.View.{view_bits, view_head};
ghost use Rattle.bit_slice_views_mut.specs.ViewMut.{lent_bits, lent_lender, lent_place, lent_words};

use crate::vector::BitVec;
use crate::words::words_taken;
use bit_addressing_memory::{BitOrder, BitRegister, Sweep, Way};
use bit_slice_views::{BitSlice, BitStore, Bits};
use bit_slice_views_mut::BitSliceMut;

impl<T: BitStore, O: BitOrder<T>> BitVec<T, O> {
    ghost use Rattle.bit_containers_vector.specs.contracts.vector.BitVec.{the_row};

    /// The visible words, to write: the bits of the list in them, and the dead bits.
    pub fn as_raw_mut_slice(&mut self) -> &mut [T]
        ensures words { result.now ≡ visible (read_by T.BitRegister O.position) self.old }
        ensures* lends { sem 𝓛 (follows (the_row T.row O.row T.BitRegister) (Array T.row 0) self.entry.ghost_name
            result.ghost_name (with_words self.old)) }
    {
        let count = words_taken::<T>(self.head + self.len);
        self.words.slice_mut(0..count)
    }

    /// The list, as a writable window.
    pub fn as_mut_bitslice(&mut self) -> BitSliceMut<'_, T, O>
        ensures bits { lent_bits (read_by T.BitRegister O.position) result
            ≡ vec_bits (read_by T.BitRegister O.position) self.old }
        ensures words { lent_words result ≡ visible (read_by T.BitRegister O.position) self.old }
        ensures place { lent_place result ≡ vec_head self.old }
        ensures* lends { sem 𝓛 (follows (the_row T.row O.row T.BitRegister) (Array T.row 0) self.entry.ghost_name
            (lent_lender result) (with_words self.old)) }
    {
        let head = self.head;
        let len = self.len;
        BitSliceMut::from_place_mut(self.as_raw_mut_slice(), head, len)
    }

    /// Another name of `as_bitslice`.
    pub fn as_slice(&self) -> BitSlice<'_, T, O>
        ensures bits { view_bits (read_by T.BitRegister O.position) result
            ≡ vec_bits (read_by T.BitRegister O.position) self.now }
        ensures head { view_head result ≡ vec_head self.now }
    {
        self.as_bitslice()
    }

    /// Another name of `as_mut_bitslice`.
    pub fn as_mut_slice(&mut self) -> BitSliceMut<'_, T, O>
        ensures bits { lent_bits (read_by T.BitRegister O.position) result
            ≡ vec_bits (read_by T.BitRegister O.position) self.old }
        ensures words { lent_words result ≡ visible (read_by T.BitRegister O.position) self.old }
        ensures place { lent_place result ≡ vec_head self.old }
        ensures* lends { sem 𝓛 (follows (the_row T.row O.row T.BitRegister) (Array T.row 0) self.entry.ghost_name
            (lent_lender result) (with_words self.old)) }
    {
        self.as_mut_bitslice()
    }

    /// Lends the visible words, swept in one way, to a function. The dead bits in them are lent too.
    pub fn sweep<F: FnOnce(&mut Sweep<'_, T>)>(&mut self, way: Way, f: F)
        requires callable { (s : _) → IsFresh s.now way
            → sweep_words s.now ≡ visible (read_by T.BitRegister O.position) self.old → F.pre f s }
        requires keeps { (s : _) (t : _) → FnOnceReturnsAtMut F.FnOnce f s tt t
            → (sweep_lender t ≡ sweep_lender s) × (length (sweep_words t) ≡ length (sweep_words s)) }
        ensures ran { (s : _) × (t : _) × IsFresh s way
            × (sweep_words s ≡ visible (read_by T.BitRegister O.position) self.old)
            × FnOnceReturnsAtMut F.FnOnce f s tt t
            × HasWords (read_by T.BitRegister O.position) self.old (sweep_words t) self.new }
    {
        sweep_all::<T, F>(self.as_raw_mut_slice(), way, f);
    }

    /// The words, all that are held: the visible ones, and behind them those that `force_align` or a shorter list left.
    /// It takes no memory, and the capacity stays.
    pub fn into_words(self) -> Vec<T>
        ensures items { result.items ≡ vec_words self }
        ensures capacity { vec_capacity result ≡ words_held self }
        ensures block { HoldsBlock result self }
    {
        self.words
    }
}

// Runs a function on a sweep.
fn run<T: BitRegister, F: FnOnce(&mut Sweep<'_, T>)>(sweep: &mut Sweep<'_, T>, f: F)
    requires callable { (s : _) → s.now ≡ sweep.old → F.pre f s }
    requires keeps { (s : _) (t : _) → FnOnceReturnsAtMut F.FnOnce f s tt t
        → (sweep_lender t ≡ sweep_lender s) × (length (sweep_words t) ≡ length (sweep_words s)) }
    ensures lender { sweep_lender sweep.new ≡ sweep_lender sweep.old }
    ensures len { length (sweep_words sweep.new) ≡ length (sweep_words sweep.old) }
    ensures ran { FnOnceReturnsAtMut F.FnOnce f sweep.old tt sweep.new }
{
    f(sweep);
}

// Runs a function on a fresh sweep over words.
fn sweep_all<T: BitRegister, F: FnOnce(&mut Sweep<'_, T>)>(words: &mut [T], way: Way, f: F)
    requires callable { (s : _) → IsFresh s.now way → sweep_words s.now ≡ words.old → F.pre f s }
    requires keeps { (s : _) (t : _) → FnOnceReturnsAtMut F.FnOnce f s tt t
        → (sweep_lender t ≡ sweep_lender s) × (length (sweep_words t) ≡ length (sweep_words s)) }
    ensures ran { (s : _) × (t : _) × IsFresh s way × (sweep_words s ≡ words.old)
        × FnOnceReturnsAtMut F.FnOnce f s tt t × (words.new ≡ sweep_words t) }
    ensures len { length words.new ≡ length words.old }
{
    let mut sweep = Sweep::new(words, way);
    run::<T, F>(&mut sweep, f);
}
