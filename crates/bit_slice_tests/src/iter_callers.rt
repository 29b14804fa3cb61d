//! Callers of iterators over bits, each with a contract that follows from those of its calls.

ghost use Rattle.std.specs.Prelude.{◌≡◌, true, slice_get, count_by};
ghost use Rattle.bit_slice_words.specs.Found.{is_bit};
ghost use Rattle.bit_slice_iterators.specs.Indices.{indices};

use bit_slice_iterators::BitsIter;
use bit_slice_views::Bits;

/// The index of the third bit that is 1: by an iterator's own `nth`.
pub fn third_one<V: Bits>(view: &V) -> Option<usize>
    ensures { result ≡ slice_get (indices (is_bit true) 0 (V.bits view.now)) 2 }
{
    view.iter_ones().nth(2)
}

/// How many bits are 1, gone through from both ends at once.
pub fn ones_from_both_ends<V: Bits>(view: &V) -> usize
    ensures { result ≡ count_by (is_bit true) (V.bits view.now) }
{
    let mut ones = view.len();
    let mut bits = view.iter().by_vals();
    while let Some(first) = bits.next() {
        if !first {
            ones = ones - 1;
        }
        if bits.next_back() == Some(false) {
            ones = ones - 1;
        }
    }
    ones
}
