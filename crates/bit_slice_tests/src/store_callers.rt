//! Callers of words and arrays of words as bits.

ghost use Rattle.std.specs.Prelude.{◌≡◌, ◌*◌, ◌<◌, ◌≤◌, [], ◌∷◌, length, slice_set, true};
ghost use Rattle.bit_addressing_memory.specs.Memory.{digits, memory, read_by};
ghost use Rattle.bit_addressing_span.specs.declared.span.TheConstants.{MAX_BITS};

use bit_addressing_memory::{BitOrder, BitRegister};
use bit_slice_views::{BitStore, BitViewSized};
use bit_slice_views_mut::{BitSliceMut, BitsMut};

// Sets the first bit of some words.
#[tactic(auto, using(bit_slice_views_mut::proofs::FrameLemmas::frames, bit_slice_views::proofs::ViewLemmas::views))]
fn set_first<T: BitRegister, O: BitOrder<T>>(words: &mut [T])
    requires some { 0 < length words.old * T.BITS }
    requires small { length words.old * T.BITS ≤ MAX_BITS }
    ensures bits { memory (read_by T.BitRegister O.position) words.new
        ≡ slice_set (memory (read_by T.BitRegister O.position) words.old) 0 true }
    ensures count { length words.new ≡ length words.old }
{
    BitSliceMut::<T, O>::from_slice_mut(words).set(0, true);
}

/// The first bit of a word or of an array of words set: the value is known.
pub fn set_first_bit<A: BitViewSized, O: BitOrder<A::Store>>(value: &mut A)
    requires some { 0 < A.COUNT * A.Store.BITS }
    requires small { A.COUNT * A.Store.BITS ≤ MAX_BITS }
    ensures { memory (read_by A.Store.BitRegister O.position) (A.words value.new)
        ≡ slice_set (memory (read_by A.Store.BitRegister O.position) (A.words value.old)) 0 true }
{
    set_first::<A::Store, O>(value.as_raw_mut_slice());
}

/// The first bit of one word set: its digits are known.
pub fn set_word_bit<T: BitStore, O: BitOrder<T>>(word: &mut T)
    ensures { digits (read_by T.BitRegister O.position) word.new
        ≡ slice_set (digits (read_by T.BitRegister O.position) word.old) 0 true }
{
    set_first::<T, O>(std::slice::from_mut(word));
}
