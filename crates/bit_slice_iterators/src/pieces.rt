//! The pieces of a window, one after another, from both ends.

ghost use Rattle.std.specs.Prelude.{◌≡◌, ℕ, ◌+◌, ◌-◌, ◌%◌, ◌<◌, ◌≤◌, ⊤, length, IfSome, Some};
ghost use Rattle.std.specs.Iterator.{MakesProgress, YieldsFirstBy, YieldsLastBy, item_count, UpTo};
ghost use Rattle.std.specs.Iterator.SizeHint.{IsWithinCount};
ghost use Rattle.bit_addressing_memory.specs.Memory.{piece, read_by};
ghost use Rattle.bit_slice_views.specs.View.{view_bits, view_head};
ghost use Rattle.bit_slice_iterators.specs.Cuts.{heads_of, pieces_of, some_heads, some_pieces, GivesFirst, GivesLast};

use crate::cuts::{Backward, BackwardExact, Cuts, ExactCuts, Forward, ForwardExact, Sliding};
use bit_addressing_memory::{BitOrder, BitRegister};
use bit_slice_views::{BitSlice, Bits};
use std::alloc::AllocError;
use std::iter::FusedIterator;
use std::marker::{Model, PhantomData};

/// The pieces of a window that are left; a contract sees the window's list, the size by which it is cut, the list of
/// the pieces that are left, and where each lies: the index of its first bit in that bit's word.
///
/// It is exact in length, gives each piece once from either end, and then `None` for good.
#[derive(Drop)]
pub struct Pieces<'a, T: BitRegister, O: BitOrder<T>, C: Cuts> {
    view: BitSlice<'a, T, O>,
    by: usize,
    front: usize,
    back: usize,
    cuts: PhantomData<C>,
}

/// Pieces from the front on, the last of which may be shorter.
pub type Chunks<'a, T, O> = Pieces<'a, T, O, Forward>;

/// Whole pieces from the front on.
pub type ChunksExact<'a, T, O> = Pieces<'a, T, O, ForwardExact>;

/// Pieces from the back on, the last of which may be shorter.
pub type RChunks<'a, T, O> = Pieces<'a, T, O, Backward>;

/// Whole pieces from the back on.
pub type RChunksExact<'a, T, O> = Pieces<'a, T, O, BackwardExact>;

/// The whole pieces from each bit on.
pub type Windows<'a, T, O> = Pieces<'a, T, O, Sliding>;

impl<'a, T: BitRegister, O: BitOrder<T>, C: Cuts> Model for Pieces<'a, T, O, C> {
    ghost use Rattle.std.specs.Prelude.{◌-◌, ◌<◌, ◌≤◌, length};
    ghost use Rattle.bit_addressing_memory.specs.Memory.{read_by};
    ghost use Rattle.bit_slice_views.specs.View.{view_bits, view_head};
    ghost use Rattle.bit_slice_iterators.specs.Cuts.{PiecesLeft, some_heads, some_pieces};

    ghost Value = { PiecesLeft };

    ghost view = { λ pieces. record {
      bits = view_bits (read_by T.BitRegister O.position) pieces.view;
      head = view_head pieces.view;
      size = pieces.by;
      left = some_pieces C.cut (view_bits (read_by T.BitRegister O.position) pieces.view) pieces.by pieces.front
          (pieces.back - pieces.front);
      heads = some_heads C.cut T.BITS (view_head pieces.view)
          (length (view_bits (read_by T.BitRegister O.position) pieces.view)) pieces.by pieces.front
          (pieces.back - pieces.front);
    } };

    ghost invariant = { λ pieces. (0 < pieces.by) × (pieces.front ≤ pieces.back)
        × (pieces.back ≤ C.cut.count (length (view_bits (read_by T.BitRegister O.position) pieces.view)) pieces.by) };
}

impl<'a, T: BitRegister, O: BitOrder<T>, C: Cuts> Pieces<'a, T, O, C> {
    // ---- make

    /// All pieces of the size `by`.
    pub fn new(view: BitSlice<'a, T, O>, by: usize) -> Pieces<'a, T, O, C>
        requires { 0 < by }
        ensures bits { result.bits ≡ view_bits (read_by T.BitRegister O.position) view.entry }
        ensures size { result.size ≡ by }
        ensures left { result.left ≡ pieces_of C.cut (view_bits (read_by T.BitRegister O.position) view.entry) by }
        ensures head { result.head ≡ view_head view.entry }
        ensures heads { result.heads ≡ heads_of C.cut T.BITS (view_head view.entry)
            (length (view_bits (read_by T.BitRegister O.position) view.entry)) by }
    {
        Pieces {
            view,
            by,
            front: 0,
            back: C::count(view.len(), by),
            cuts: PhantomData,
        }
    }
}

// Piece `j` of a window.
fn piece_of<'a, T: BitRegister, O: BitOrder<T>, C: Cuts>(
    view: BitSlice<'a, T, O>,
    by: usize,
    j: usize,
) -> BitSlice<'a, T, O>
    requires some { 0 < by }
    requires inside { j < C.cut.count (length (view_bits (read_by T.BitRegister O.position) view)) by }
    ensures bits { view_bits (read_by T.BitRegister O.position) result
        ≡ piece (view_bits (read_by T.BitRegister O.position) view.entry)
        (C.cut.start (length (view_bits (read_by T.BitRegister O.position) view.entry)) by j)
        (C.cut.size (length (view_bits (read_by T.BitRegister O.position) view.entry)) by j) }
    ensures head { view_head result ≡ (view_head view.entry
        + C.cut.start (length (view_bits (read_by T.BitRegister O.position) view.entry)) by j) % T.BITS }
{
    let (start, size) = C::piece(view.len(), by, j);
    view.part(start, size)
}

impl<'a, T: BitRegister, O: BitOrder<T>, C: ExactCuts> Pieces<'a, T, O, C> {
    // ---- read

    /// The bits that are in no piece: fewer than the size, whatever pieces are left.
    pub fn remainder(&self) -> BitSlice<'a, T, O>
        ensures bits { view_bits (read_by T.BitRegister O.position) result
            ≡ piece self.now.bits (C.rest (length self.now.bits) self.now.size) (length self.now.bits % self.now.size) }
        ensures head { view_head result
            ≡ (self.now.head + C.rest (length self.now.bits) self.now.size) % T.BITS }
    {
        let len = self.view.len();
        let start = C::rest_start(len, self.by);
        self.view.part(start, len % self.by)
    }
}

impl<'a, T: BitRegister, O: BitOrder<T>, C: Cuts> Clone for Pieces<'a, T, O, C> {
    ghost is_clone = { λ pieces copy. copy ≡ pieces };

    ghost is_infallible = { λ _. ⊤ };

    fn clone(&self) -> Result<Self, AllocError> {
        Ok(Pieces {
            view: self.view,
            by: self.by,
            front: self.front,
            back: self.back,
            cuts: PhantomData,
        })
    }
}

#[tactic(auto, using(crate::proofs::PieceLemmas::ends_of_pieces))]
impl<'a, T: BitRegister + 'a, O: BitOrder<T>, C: Cuts> Iterator for Pieces<'a, T, O, C> {
    type Item = BitSlice<'a, T, O>;

    ghost next_gives = { GivesFirst (view_bits (read_by T.BitRegister O.position)) view_head };

    ghost remaining = { item_count (λ pieces. pieces.left) };

    fn next(&mut self) -> Option<BitSlice<'a, T, O>>
        ensures steps { YieldsFirstBy (view_bits (read_by T.BitRegister O.position)) (λ pieces. pieces.left)
            self.old result self.new }
        ensures goes { MakesProgress (λ _. ⊤) (item_count (λ pieces. pieces.left)) self.old result self.new }

        // The same, and it lies where the cut says.
        ensures gives { GivesFirst (view_bits (read_by T.BitRegister O.position)) view_head self.old result self.new }

        // What is cut stays, and so what is in no piece.
        ensures bits { self.new.bits ≡ self.old.bits }
        ensures size { self.new.size ≡ self.old.size }
    {
        let at = self.front;
        if at == self.back {
            return None;
        }
        self.front = at + 1;
        Some(piece_of::<T, O, C>(self.view, self.by, at))
    }

    fn size_hint(&self) -> (usize, Option<usize>)
        ensures lower { IsWithinCount result.0 (item_count (λ pieces. pieces.left) self.now) }
        ensures upper { IfSome result.1 (UpTo (item_count (λ pieces. pieces.left) self.now)) }
        ensures exact { result ≡ (length self.now.left, Some (length self.now.left)) }
    {
        let left = self.len();
        (left, Some(left))
    }
}

#[tactic(auto, using(crate::proofs::PieceLemmas::ends_of_pieces))]
impl<'a, T: BitRegister + 'a, O: BitOrder<T>, C: Cuts> DoubleEndedIterator for Pieces<'a, T, O, C> {
    ghost next_back_gives = { GivesLast (view_bits (read_by T.BitRegister O.position)) view_head };

    fn next_back(&mut self) -> Option<BitSlice<'a, T, O>>
        ensures steps { YieldsLastBy (view_bits (read_by T.BitRegister O.position)) (λ pieces. pieces.left)
            self.old result self.new }
        ensures goes { MakesProgress (λ _. ⊤) (item_count (λ pieces. pieces.left)) self.old result self.new }
        ensures gives { GivesLast (view_bits (read_by T.BitRegister O.position)) view_head self.old result self.new }
        ensures bits { self.new.bits ≡ self.old.bits }
        ensures size { self.new.size ≡ self.old.size }
    {
        if self.front == self.back {
            return None;
        }
        let last = self.back - 1;
        self.back = last;
        Some(piece_of::<T, O, C>(self.view, self.by, last))
    }
}

#[tactic(auto, using(crate::proofs::PieceLemmas::ends_of_pieces))]
impl<'a, T: BitRegister + 'a, O: BitOrder<T>, C: Cuts> ExactSizeIterator for Pieces<'a, T, O, C> {
    fn len(&self) -> usize {
        self.back - self.front
    }
}

impl<'a, T: BitRegister + 'a, O: BitOrder<T>, C: Cuts> FusedIterator for Pieces<'a, T, O, C> {}
