//! Callers of pieces of windows, each with a contract that follows from those of its calls.

ghost use Rattle.std.specs.Prelude.{◌≡◌, ◌+◌, ◌-◌, ◌*◌, ◌%◌, ◌<◌, ◌≤◌, length, slice_get, slice_set, true};
ghost use Rattle.std.specs.Option.{option_map};
ghost use Rattle.bit_addressing_memory.specs.Memory.{memory, piece, read_by};
ghost use Rattle.bit_slice_views.specs.View.{view_bits, view_head};
ghost use Rattle.bit_slice_iterators.specs.Cuts.{chunks, forward, heads_of};
ghost use Rattle.bit_slice_tests.specs.Marked.{marked};
ghost use Rattle.std.specs.Int.{div_ceil};

use bit_addressing_memory::{BitOrder, BitRegister};
use bit_addressing_span::MAX_BITS;
use bit_slice_iterators::{BitsPiecesMut, Chunks, ChunksExact};
use bit_slice_views::{BitSlice, Bits};
use bit_slice_views_mut::{BitSliceMut, BitsMut, BitsWindow};

/// The third chunk of five bits: by an iterator's own `nth`.
pub fn third_chunk<'a, T: BitRegister + 'a, O: BitOrder<T>>(
    view: BitSlice<'a, T, O>,
) -> Option<BitSlice<'a, T, O>>
    ensures bits { option_map (view_bits (read_by T.BitRegister O.position)) result
        ≡ slice_get (chunks (view_bits (read_by T.BitRegister O.position) view.entry) 5) 2 }
    ensures head { option_map view_head result ≡ slice_get (heads_of forward T.BITS (view_head view.entry)
        (length (view_bits (read_by T.BitRegister O.position) view.entry)) 5) 2 }
{
    let mut pieces = Chunks::<T, O>::new(view, 5);
    pieces.nth(2)
}

/// The bits in no whole chunk of four, asked for after the second chunk.
pub fn rest_after_second<'a, T: BitRegister + 'a, O: BitOrder<T>>(
    view: BitSlice<'a, T, O>,
) -> BitSlice<'a, T, O>
    ensures bits { view_bits (read_by T.BitRegister O.position) result
        ≡ piece (view_bits (read_by T.BitRegister O.position) view.entry)
        (length (view_bits (read_by T.BitRegister O.position) view.entry)
        - length (view_bits (read_by T.BitRegister O.position) view.entry) % 4)
        (length (view_bits (read_by T.BitRegister O.position) view.entry) % 4) }
    ensures head { view_head result ≡ (view_head view.entry
        + (length (view_bits (read_by T.BitRegister O.position) view.entry)
        - length (view_bits (read_by T.BitRegister O.position) view.entry) % 4)) % T.BITS }
{
    let mut pieces = ChunksExact::<T, O>::new(view, 4);
    pieces.nth(1);
    pieces.remainder()
}

/// The first bit of each chunk set, whatever the window.
#[tactic(auto, using(bit_slice_iterators::proofs::CutLemmas::cuts))]
pub fn mark_chunks<V: BitsWindow>(view: &mut V, size: usize)
    requires { 0 < size }
    ensures bits { V.bits view.new
        ≡ marked (V.bits view.old) size (div_ceil (length (V.bits view.old)) size) }
    ensures len { length (V.bits view.new) ≡ length (V.bits view.old) }
    ensures frame { V.frame view.new ≡ V.frame view.old }
{
    let mut pieces = view.chunks_mut(size);
    while let Some(piece) = pieces.next_mut() {
        piece.set(0, true);
    }
}

/// The same in words of one's own: they are known whole.
#[tactic(auto, using(bit_slice_views_mut::proofs::FrameLemmas::frames, bit_slice_views::proofs::ViewLemmas::views))]
pub fn mark_words<T: BitRegister, O: BitOrder<T>>(words: &mut [T], size: usize)
    requires some { 0 < size }
    requires small { length words.old * T.BITS ≤ MAX_BITS }
    ensures { memory (read_by T.BitRegister O.position) words.new
        ≡ marked (memory (read_by T.BitRegister O.position) words.old) size
        (div_ceil (length words.old * T.BITS) size) }
{
    let mut view = BitSliceMut::<T, O>::from_slice_mut(words);
    mark_chunks(&mut view, size);
}
