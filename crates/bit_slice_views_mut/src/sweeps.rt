//! The words of a window, swept by a function.

ghost use Rattle.std.specs.Prelude.{◌≡◌, ℕ, ◌+◌, ◌*◌, ◌/◌, ◌^◌, ◌<◌, ◌≤◌, length};
ghost use Rattle.std.specs.Fn.{FnOnceReturnsAtMut};
ghost use Rattle.bit_addressing_memory.specs.Memory.{piece, read_by, touched, with_piece};
ghost use Rattle.bit_addressing_memory.specs.Sweep.{IsFresh, sweep_lender, sweep_words};

use crate::view_mut::BitSliceMut;
use bit_addressing_memory::{BitOrder, BitRegister, Sweep, Way, mem};

// Runs a function on a sweep.
fn run<T: BitRegister, F: FnOnce(&mut Sweep<'_, T>)>(sweep: &mut Sweep<'_, T>, f: F)
    requires callable { (s : _) → s.now ≡ sweep.old → F.pre f s }
    requires keeps { (s : _) (t : _) → FnOnceReturnsAtMut F.FnOnce f s tt t
        → (sweep_lender t ≡ sweep_lender s) × (length (sweep_words t) ≡ length (sweep_words s)) }
    ensures lender { sweep_lender sweep.new ≡ sweep_lender sweep.old }
    ensures len { length (sweep_words sweep.new) ≡ length (sweep_words sweep.old) }
    ensures ran { FnOnceReturnsAtMut F.FnOnce f sweep.old tt sweep.new }
{
    f(sweep);
}

// Runs a function on a fresh sweep over words.
fn sweep_all<T: BitRegister, F: FnOnce(&mut Sweep<'_, T>)>(words: &mut [T], way: Way, f: F)
    requires callable { (s : _) → IsFresh s.now way → sweep_words s.now ≡ words.old → F.pre f s }
    requires keeps { (s : _) (t : _) → FnOnceReturnsAtMut F.FnOnce f s tt t
        → (sweep_lender t ≡ sweep_lender s) × (length (sweep_words t) ≡ length (sweep_words s)) }
    ensures ran { (s : _) × (t : _) × IsFresh s way × (sweep_words s ≡ words.old)
        × FnOnceReturnsAtMut F.FnOnce f s tt t × (words.new ≡ sweep_words t) }
    ensures len { length words.new ≡ length words.old }
{
    let mut sweep = Sweep::new(words, way);
    run::<T, F>(&mut sweep, f);
}

// Runs a function on a fresh sweep over so many words, from one on.
fn sweep_some<T: BitRegister, F: FnOnce(&mut Sweep<'_, T>)>(
    words: &mut [T],
    first: usize,
    count: usize,
    way: Way,
    f: F,
)
    requires within { first + count ≤ length words.old }
    requires callable { (s : _) → IsFresh s.now way → sweep_words s.now ≡ piece words.old first count → F.pre f s }
    requires keeps { (s : _) (t : _) → FnOnceReturnsAtMut F.FnOnce f s tt t
        → (sweep_lender t ≡ sweep_lender s) × (length (sweep_words t) ≡ length (sweep_words s)) }
    ensures ran { (s : _) × (t : _) × IsFresh s way × (sweep_words s ≡ piece words.old first count)
        × FnOnceReturnsAtMut F.FnOnce f s tt t × (words.new ≡ with_piece words.old first (sweep_words t)) }
    ensures len { length words.new ≡ length words.old }
{
    let end = first + count;
    sweep_all::<T, F>(&mut words[first..end], way, f);
}

// How many words a stretch touches.
#[tactic(auto, using(crate::proofs::SweepLemmas::touched_some, crate::proofs::SweepLemmas::touched_within))]
fn words_of<T: BitRegister>(place: usize, len: usize) -> usize
    requires { place + len < 2 ^ 63 }
    ensures value { result ≡ touched T.BITS place len }
    ensures within { (n : ℕ) → place + len ≤ n * T.BITS → place / T.BITS + result ≤ n }
{
    if len == 0 {
        return 0;
    }
    let bits = mem::bits_of::<T>();
    (place + len - 1) / bits + 1 - place / bits
}

// Runs a function on a fresh sweep over the words that a stretch touches.
fn sweep_stretch<T: BitRegister, F: FnOnce(&mut Sweep<'_, T>)>(
    words: &mut [T],
    place: usize,
    len: usize,
    way: Way,
    f: F,
)
    requires within { place + len ≤ length words.old * T.BITS }
    requires ends { place + len < 2 ^ 63 }
    requires callable { (s : _) → IsFresh s.now way
        → sweep_words s.now ≡ piece words.old (place / T.BITS) (touched T.BITS place len) → F.pre f s }
    requires keeps { (s : _) (t : _) → FnOnceReturnsAtMut F.FnOnce f s tt t
        → (sweep_lender t ≡ sweep_lender s) × (length (sweep_words t) ≡ length (sweep_words s)) }
    ensures ran { (s : _) × (t : _) × IsFresh s way
        × (sweep_words s ≡ piece words.old (place / T.BITS) (touched T.BITS place len))
        × FnOnceReturnsAtMut F.FnOnce f s tt t
        × (words.new ≡ with_piece words.old (place / T.BITS) (sweep_words t)) }
    ensures len { length words.new ≡ length words.old }
{
    let first = place / mem::bits_of::<T>();
    let count = words_of::<T>(place, len);
    sweep_some::<T, F>(words, first, count, way, f);
}

#[tactic(auto, using(bit_slice_views::proofs::ViewLemmas::views))]
impl<T: BitRegister, O: BitOrder<T>> BitSliceMut<'_, T, O> {
    ghost use Rattle.bit_slice_views_mut.specs.ViewMut.{lent_bits, lent_lender, lent_place, lent_words};

    /// Lends the words that the window touches, swept in one way, to a function.
    ///
    /// Their bits outside the window are lent too. In this port's terms `sweep` of a window takes the function that
    /// works on the sweep, and does not answer one.
    pub fn sweep<F: FnOnce(&mut Sweep<'_, T>)>(&mut self, way: Way, f: F)
        requires callable { (s : _) → IsFresh s.now way
            → sweep_words s.now ≡ piece (lent_words self.old) (lent_place self.old / T.BITS)
            (touched T.BITS (lent_place self.old) (length (lent_bits (read_by T.BitRegister O.position) self.old)))
            → F.pre f s }
        requires keeps { (s : _) (t : _) → FnOnceReturnsAtMut F.FnOnce f s tt t
            → (sweep_lender t ≡ sweep_lender s) × (length (sweep_words t) ≡ length (sweep_words s)) }
        ensures ran { (s : _) × (t : _) × IsFresh s way
            × (sweep_words s ≡ piece (lent_words self.old) (lent_place self.old / T.BITS)
            (touched T.BITS (lent_place self.old) (length (lent_bits (read_by T.BitRegister O.position) self.old))))
            × FnOnceReturnsAtMut F.FnOnce f s tt t
            × (lent_words self.new
            ≡ with_piece (lent_words self.old) (lent_place self.old / T.BITS) (sweep_words t)) }
        ensures lender { lent_lender self.new ≡ lent_lender self.old }
        ensures place { lent_place self.new ≡ lent_place self.old }
        ensures len { length (lent_bits (read_by T.BitRegister O.position) self.new)
            ≡ length (lent_bits (read_by T.BitRegister O.position) self.old) }
    {
        sweep_stretch::<T, F>(self.words, self.head, self.len, way, f);
    }
}
