//! The indices of the bits of a window that are 1, or 0, from both ends.

ghost use Rattle.std.specs.Prelude.{◌≡◌, ℕ, ◌+◌, ◌-◌, ◌*◌, ◌<◌, ◌≤◌, ⊤, Bool, true, false, [], length};
ghost use Rattle.std.specs.Prelude.{count_by, position, slice_index_or, IfSome, Some};
ghost use Rattle.std.specs.Option.{MatchOption};
ghost use Rattle.std.specs.Iterator.{YieldsFirst, YieldsLast, item_count, UpTo};
ghost use Rattle.std.specs.Iterator.SizeHint.{IsWithinCount};
ghost use Rattle.bit_addressing_memory.specs.Bits.{digit_at};
ghost use Rattle.bit_addressing_memory.specs.Memory.{read_by};
ghost use Rattle.bit_addressing_memory.specs.declared.direction.Direction.TheVariants.{Ascending};
ghost use Rattle.bit_slice_chunks.specs.Chunk.{IsFaced};
ghost use Rattle.bit_slice_views.specs.Found.{is_bit, last_position};
ghost use Rattle.bit_slice_views.specs.View.{view_bits};
ghost use Rattle.bit_slice_iterators.specs.Indices.{indices, AreDigits};

use bit_addressing_memory::{BitOrder, BitRegister, BulkOp, Direction, bit_loop_limit};
use bit_slice_chunks::any_order::{direction_for, read_bits, read_chunk};
use bit_slice_chunks::{faced, first_bits};
use bit_slice_views::{BitSlice, Bits};
use std::alloc::AllocError;
use std::iter::FusedIterator;
use std::marker::{Model, PhantomData};

/// Which bits are looked for.
pub trait Sought {
    ghost bit: { Bool };

    /// The index of the first of them.
    fn first<V: Bits>(view: &V) -> Option<usize>
        ensures { result ≡ position (is_bit bit) (V.bits view.now) };

    /// The index of the last of them.
    fn last<V: Bits>(view: &V) -> Option<usize>
        ensures { result ≡ last_position (is_bit bit) (V.bits view.now) };

    /// How many there are.
    fn count<V: Bits>(view: &V) -> usize
        ensures { result ≡ count_by (is_bit bit) (V.bits view.now) };

    /// The number whose digits are 1 where those of another are these bits, of a kind that tells it: then up to 64 bits
    /// are looked at once. An impl need not have it.
    #[inline(always)]
    fn among(_digits: u64) -> Option<u64>
        ensures { IfSome result (λ n. (k : ℕ) → k < 64 → digit_at n k ≡ is_bit bit (digit_at _digits k)) }
    {
        None
    }
}

/// The bits that are 1.
pub struct Ones;

impl Sought for Ones {
    ghost bit = { true };

    fn first<V: Bits>(view: &V) -> Option<usize> {
        view.first_one()
    }

    fn last<V: Bits>(view: &V) -> Option<usize> {
        view.last_one()
    }

    fn count<V: Bits>(view: &V) -> usize {
        view.count_ones()
    }

    #[inline(always)]
    fn among(digits: u64) -> Option<u64> {
        Some(digits)
    }
}

/// The bits that are 0.
pub struct Zeros;

impl Sought for Zeros {
    ghost bit = { false };

    fn first<V: Bits>(view: &V) -> Option<usize> {
        view.first_zero()
    }

    fn last<V: Bits>(view: &V) -> Option<usize> {
        view.last_zero()
    }

    fn count<V: Bits>(view: &V) -> usize {
        view.count_zeros()
    }

    #[inline(always)]
    fn among(digits: u64) -> Option<u64> {
        Some(!digits)
    }
}

// How many bits are looked at as one number.
const CHUNK: usize = 64;

/// The indices of the bits of one kind that are left, ascending; a contract sees their list.
///
/// It is exact in length, gives each index once from either end, and then `None` for good.
#[derive(Drop)]
pub struct Indices<'a, T: BitRegister, O: BitOrder<T>, B: Sought> {
    // The bits that were not looked at, and the index of the first of them.
    view: BitSlice<'a, T, O>,
    from: usize,
    // What is left of up to 64 before them: the index `base + k` where digit k is 1.
    ahead: u64,
    base: usize,
    sought: PhantomData<B>,
}

/// The indices of the ones.
pub type IterOnes<'a, T, O> = Indices<'a, T, O, Ones>;

/// The indices of the zeros.
pub type IterZeros<'a, T, O> = Indices<'a, T, O, Zeros>;

impl<'a, T: BitRegister, O: BitOrder<T>, B: Sought> Model for Indices<'a, T, O, B> {
    ghost use Rattle.std.specs.Prelude.{ℕ, List, ◌+◌, ◌++◌, ◌≤◌, length};
    ghost use Rattle.bit_addressing_memory.specs.Memory.{read_by};
    ghost use Rattle.bit_slice_views.specs.SpanLimits.{MAX_BITS};
    ghost use Rattle.bit_slice_views.specs.Found.{is_bit};
    ghost use Rattle.bit_slice_views.specs.View.{view_bits};
    ghost use Rattle.bit_slice_iterators.specs.Indices.{held, indices};

    ghost Value = { List ℕ };

    ghost view = { λ iter. held iter.base iter.ahead
        ++ indices (is_bit B.bit) iter.from (view_bits (read_by T.BitRegister O.position) iter.view) };

    ghost invariant = { λ iter. (iter.base ≤ MAX_BITS)
        × (iter.from + length (view_bits (read_by T.BitRegister O.position) iter.view) ≤ MAX_BITS) };
}

impl<'a, T: BitRegister, O: BitOrder<T>, B: Sought> Indices<'a, T, O, B> {
    /// The indices of a window's bits of this kind.
    pub fn new(view: BitSlice<'a, T, O>) -> Indices<'a, T, O, B>
        ensures { result ≡ indices (is_bit B.bit) 0 (view_bits (read_by T.BitRegister O.position) view.entry) }
    {
        let _counted = view.parts();
        Indices {
            view,
            from: 0,
            ahead: 0,
            base: 0,
            sought: PhantomData,
        }
    }

    // Whether the next bits are to be held ahead: where none are and one index was given already, since one alone is looked
    // for by words; of a kind that tells them. A few are cheaper by words too, and all where a word is not turned quickly.
    #[inline(always)]
    fn looks_ahead(&self) -> bool {
        self.ahead == 0
            && self.from != 0
            && B::among(0).is_some()
            && self.view.len() > bit_loop_limit::<T, O>(BulkOp::Indices)
    }

    // Holds the next bits ahead where that is cheaper.
    #[inline(always)]
    fn make_ready(&mut self)
        ensures { self.new ≡ self.old }
    {
        if self.looks_ahead() {
            self.look_ahead();
        }
    }

    // Holds the next bits ahead, where none are.
    #[inline(never)]
    fn look_ahead(&mut self)
        ensures { self.new ≡ self.old }
    {
        let len = self.view.len();
        if self.ahead != 0 || len == 0 {
            return;
        }
        let Some(ahead) = digits_ahead::<T, O, B>(self.view) else {
            return;
        };
        let count = len.min(CHUNK);
        self.base = self.from;
        self.ahead = ahead;
        self.view = self.view.part(count, len - count);
        self.from += count;
    }
}

// The first bits of a window, 64 or all, as the digits of a number: 1 where they are of the kind. `None` where the kind
// does not tell them.
#[inline(always)]
fn digits_ahead<T: BitRegister, O: BitOrder<T>, B: Sought>(view: BitSlice<'_, T, O>) -> Option<u64>
    requires { 0 < length (view_bits (read_by T.BitRegister O.position) view) }
    ensures { IfSome result
        (AreDigits Ascending (is_bit B.bit) (view_bits (read_by T.BitRegister O.position) view.entry) 0) }
{
    let way = direction_for::<T, O>();
    match chunk_ahead::<T, O, B>(way, view) {
        Some(chunk) => Some(ascending(way, chunk)),
        None => None,
    }
}

// The same as a chunk of a direction.
#[inline(always)]
fn chunk_ahead<T: BitRegister, O: BitOrder<T>, B: Sought>(
    direction: Direction,
    view: BitSlice<'_, T, O>,
) -> Option<u64>
    requires { 0 < length (view_bits (read_by T.BitRegister O.position) view) }
    ensures { IfSome result
        (AreDigits direction (is_bit B.bit) (view_bits (read_by T.BitRegister O.position) view.entry) 0) }
{
    let (words, head, len) = view.parts();
    let place = head as usize;
    if CHUNK <= len {
        return B::among(read_chunk::<T, O>(direction, words, place));
    }
    match B::among(read_bits::<T, O>(direction, words, place, len)) {
        Some(chunk) => Some(first_bits(direction, chunk, len as u8)),
        None => None,
    }
}

// A chunk as the digits of a number. Zeros need no turn.
#[inline(always)]
fn ascending(direction: Direction, chunk: u64) -> u64
    ensures { IsFaced direction Ascending chunk result }
{
    if chunk == 0 {
        0
    } else {
        faced(direction, Direction::Ascending, chunk)
    }
}

impl<'a, T: BitRegister, O: BitOrder<T>, B: Sought> Default for Indices<'a, T, O, B> {
    ghost is_default = { λ iter. iter ≡ [] };

    /// No index.
    fn default() -> Self {
        Indices::new(BitSlice::empty())
    }
}

impl<'a, T: BitRegister, O: BitOrder<T>, B: Sought> Clone for Indices<'a, T, O, B> {
    ghost is_clone = { λ iter copy. copy ≡ iter };

    ghost is_infallible = { λ _. ⊤ };

    fn clone(&self) -> Result<Self, AllocError> {
        Ok(Indices {
            view: self.view,
            from: self.from,
            ahead: self.ahead,
            base: self.base,
            sought: PhantomData,
        })
    }
}

#[tactic(auto, using(crate::proofs::IndexLemmas::ends_of_indices))]
impl<'a, T: BitRegister, O: BitOrder<T>, B: Sought> Iterator for Indices<'a, T, O, B> {
    type Item = usize;

    ghost next_gives = { YieldsFirst (λ left. left) };

    ghost remaining = { item_count (λ left. left) };

    #[inline(always)]
    fn next(&mut self) -> Option<usize> {
        self.make_ready();
        if self.ahead != 0 {
            let at = self.base + self.ahead.trailing_zeros() as usize;
            self.ahead = self.ahead & (self.ahead - 1);
            return Some(at);
        }
        let Some(i) = B::first(&self.view) else {
            return None
        };
        let rest = i + 1;
        let at = self.from + i;
        self.view = self.view.part(rest, self.view.len() - rest);
        self.from = at + 1;
        Some(at)
    }

    fn size_hint(&self) -> (usize, Option<usize>)
        ensures lower { IsWithinCount result.0 (item_count (λ left. left) self.now) }
        ensures upper { IfSome result.1 (UpTo (item_count (λ left. left) self.now)) }
        ensures exact { result ≡ (length self.now, Some (length self.now)) }
    {
        let left = self.len();
        (left, Some(left))
    }
}

#[tactic(auto, using(crate::proofs::IndexLemmas::ends_of_indices))]
impl<'a, T: BitRegister, O: BitOrder<T>, B: Sought> DoubleEndedIterator for Indices<'a, T, O, B> {
    ghost next_back_gives = { YieldsLast (λ left. left) };

    fn next_back(&mut self) -> Option<usize> {
        if let Some(i) = B::last(&self.view) {
            self.view = self.view.part(0, i);
            return Some(self.from + i);
        }
        if self.ahead == 0 {
            return None;
        }
        // What has none is not looked at again.
        self.view = self.view.part(0, 0);
        let k = self.ahead.ilog2();
        self.ahead = self.ahead & !(1 << k);
        Some(self.base + k as usize)
    }
}

#[tactic(auto, using(crate::proofs::IndexLemmas::ends_of_indices))]
impl<'a, T: BitRegister, O: BitOrder<T>, B: Sought> ExactSizeIterator for Indices<'a, T, O, B> {
    fn len(&self) -> usize {
        let _counted = self.view.parts();
        B::count(&self.view) + self.ahead.count_ones() as usize
    }
}

impl<'a, T: BitRegister, O: BitOrder<T>, B: Sought> FusedIterator for Indices<'a, T, O, B> {}
