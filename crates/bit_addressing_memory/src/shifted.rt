//! Words of a move made by shifts, where the positions go straight with the indices: of two source
//! words at most and, at an edge of the target, of its own old word too.
//!
//! The words between the two edges are put in loops that call nothing, so that a compiler keeps the
//! sweep's counts in registers. The way of the sweep, and whether source and target lie one place apart, are literals where
//! they are handed on in line, so it makes a loop for each way.

ghost use Rattle.std.specs.Prelude.{◌≡◌, ◌+◌, ◌-◌, ◌*◌, ◌^◌, ◌<◌, ◌≤◌, length, min, true};
ghost use Rattle.bit_addressing_memory.specs.Prelude.{entry, read_by, touched, IsStored};
ghost use Rattle.bit_addressing_memory.specs.MoveSteps.{BeginsWith, CanPut, IsRun, PutsWords};
ghost use Rattle.bit_addressing_memory.specs.Sweep.{SameButReads, reads_of, sweep_lender, sweep_words, way_of};
ghost use Rattle.bit_addressing_memory.specs.Ways.{AreNear, by_way};

use crate::blocks::block_words;
use crate::bulk_ops::MOVED_BY_BLOCKS;
use crate::direction::Straight;
use crate::masking::stored;
use crate::moves::{BitMove, put_word};
use crate::one_place::near_word;
use crate::shift::{joined, raised};
use crate::sweep::{Sweep, Way, by_way};
use bit_addressing_order::mem::bits_of;
use bit_addressing_order::{BitEnd, BitIdx, BitOrder, BitRegister};

// Puts the words from `first` to `last`, by shifts of one where source and target lie one place apart.
#[inline(always)]
#[tactic(auto, using(crate::proofs::WayLemmas::goes_down, crate::proofs::WayLemmas::goes_up))]
pub(crate) fn put_straight<R: BitRegister, O: BitOrder<R>>(
    sweep: &mut Sweep<'_, R>,
    straight: Straight<R, O>,
    first: usize,
    last: usize,
    task: BitMove,
)
    requires order { first ≤ last }
    requires can { CanPut R.BITS sweep.old task.source task.target task.len first (last + 1) }
    ensures { PutsWords (read_by R.BitRegister O.position) 3 sweep.old sweep.new task.source task.target task.len
        first (last + 1) }
{
    if task.source + 1 == task.target {
        put_words::<R, O>(sweep, straight, Way::Down, true, first, last, task);
        return;
    }
    if task.target + 1 == task.source {
        put_words::<R, O>(sweep, straight, Way::Up, true, first, last, task);
        return;
    }
    match sweep.way() {
        Way::Up => put_words::<R, O>(sweep, straight, Way::Up, false, first, last, task),
        Way::Down => put_words::<R, O>(sweep, straight, Way::Down, false, first, last, task),
    }
}

// The same in a way that is known; `near` is whether they are known to lie one place apart.
#[inline(always)]
fn put_words<R: BitRegister, O: BitOrder<R>>(
    sweep: &mut Sweep<'_, R>,
    straight: Straight<R, O>,
    way: Way,
    near: bool,
    first: usize,
    last: usize,
    task: BitMove,
)
    requires way { way_of sweep.old ≡ way }
    requires near { near ≡ true → AreNear way task.source task.target }
    requires order { first ≤ last }
    requires can { CanPut R.BITS sweep.old task.source task.target task.len first (last + 1) }
    ensures { PutsWords (read_by R.BitRegister O.position) 3 sweep.old sweep.new task.source task.target task.len
        first (last + 1) }
{
    let head = by_way(way, first, last);
    put_end::<R, O>(sweep, straight, way, near, head, task);
    if first < last {
        let (word, by) = run_start::<R>(way, near, first, task);
        put_run::<R, O>(sweep, straight, way, first + 1, last, word, by, task);
        let tail = by_way(way, last, first);
        put_end::<R, O>(sweep, straight, way, near, tail, task);
    }
}

// Puts the word `k`, at an end of the target.
#[inline(always)]
fn put_end<R: BitRegister, O: BitOrder<R>>(
    sweep: &mut Sweep<'_, R>,
    straight: Straight<R, O>,
    way: Way,
    near: bool,
    k: usize,
    task: BitMove,
)
    requires near { near ≡ true → AreNear way task.source task.target }
    requires can { CanPut R.BITS sweep.old task.source task.target task.len k (k + 1) }
    ensures { PutsWords (read_by R.BitRegister O.position) 3 sweep.old sweep.new task.source task.target task.len
        k (k + 1) }
{
    if near {
        let word = near_word::<R, O>(sweep, straight, way, k, task);
        sweep.put(k, word);
    } else {
        put_edge::<R, O>(sweep, straight, k, task);
    }
}

// The same out of line, at any distance.
#[inline(never)]
fn put_edge<R: BitRegister, O: BitOrder<R>>(
    sweep: &mut Sweep<'_, R>,
    straight: Straight<R, O>,
    k: usize,
    task: BitMove,
)
    requires { CanPut R.BITS sweep.old task.source task.target task.len k (k + 1) }
    ensures { PutsWords (read_by R.BitRegister O.position) 3 sweep.old sweep.new task.source task.target task.len
        k (k + 1) }
{
    put_word::<R, O>(sweep, Some(straight), k, task);
}

// Where the bits of the word behind `first` come from: the word that the first of them lies in, and its index there.
#[inline(always)]
fn run_start<R: BitRegister>(way: Way, near: bool, first: usize, task: BitMove) -> (usize, usize)
    requires near { near ≡ true → AreNear way task.source task.target }
    requires begins { task.target < first * R.BITS + R.BITS }
    requires ends { first * R.BITS + R.BITS ≤ task.target + task.len }
    requires source_ends { task.source + task.len < 2 ^ 64 }
    requires target_ends { task.target + task.len < 2 ^ 64 }
    ensures index { result.1 < R.BITS }
    ensures first { result.0 * R.BITS + result.1 ≡ task.source + ((first + 1) * R.BITS - task.target) }
{
    let bits = bits_of::<R>();
    if !near {
        let place = task.source + ((first + 1) * bits - task.target);
        return (place / bits, place % bits);
    }
    match way {
        Way::Up => (first + 1, 1),
        Way::Down => (first, bits - 1),
    }
}

// Puts the words from `low` up to before `high`, which have no bits but the target's.
#[inline(always)]
fn put_run<R: BitRegister, O: BitOrder<R>>(
    sweep: &mut Sweep<'_, R>,
    straight: Straight<R, O>,
    way: Way,
    low: usize,
    high: usize,
    word: usize,
    by: usize,
    task: BitMove,
)
    requires way { way_of sweep.old ≡ way }
    requires run { IsRun R.BITS task.source task.target task.len low high word by }
    requires can { CanPut R.BITS sweep.old task.source task.target task.len low high }
    ensures { PutsWords (read_by R.BitRegister O.position) 3 sweep.old sweep.new task.source task.target task.len
        low high }
{
    let done = put_blocks::<R, O>(sweep, straight, way, low, high, word, by, task);
    match way {
        Way::Up => {
            'up: for k in low + done..high {
                put_whole::<R, O>(sweep, straight, k, word + (k - low), by, task);
            }
        }
        Way::Down => {
            'down: for k in (low..high - done).rev() {
                put_whole::<R, O>(sweep, straight, k, word + (k - low), by, task);
            }
        }
    }
}

// Puts those that come first by blocks of 64 bits, if there are many and words are narrower, as far as there are whole
// blocks, and returns how many.
#[inline(always)]
fn put_blocks<R: BitRegister, O: BitOrder<R>>(
    sweep: &mut Sweep<'_, R>,
    straight: Straight<R, O>,
    way: Way,
    low: usize,
    high: usize,
    word: usize,
    by: usize,
    task: BitMove,
) -> usize
    requires way { way_of sweep.old ≡ way }
    requires run { IsRun R.BITS task.source task.target task.len low high word by }
    requires can { CanPut R.BITS sweep.old task.source task.target task.len low high }
    ensures most { low + result ≤ high }
    ensures put { PutsWords (read_by R.BitRegister O.position) 3 sweep.old sweep.new task.source task.target task.len
        (by_way way low (high - result)) (by_way way (low + result) high) }
{
    if R::BITS >= 64 || high - low < MOVED_BY_BLOCKS {
        return 0;
    }
    let size = block_words::<R>();
    let count = (high - low) / size as usize;
    let done = count * size as usize;
    let start = by_way(way, low, high - done);
    sweep.move_blocks::<O>(straight, word + (start - low), by, start, count, size);
    done
}

// Puts one of them, whose bits are those from the index `by` of a word on.
#[inline(always)]
fn put_whole<R: BitRegister, O: BitOrder<R>>(
    sweep: &mut Sweep<'_, R>,
    straight: Straight<R, O>,
    k: usize,
    word: usize,
    by: usize,
    task: BitMove,
)
    requires run { IsRun R.BITS task.source task.target task.len k (k + 1) word by }
    requires can { CanPut R.BITS sweep.old task.source task.target task.len k (k + 1) }
    ensures { PutsWords (read_by R.BitRegister O.position) 3 sweep.old sweep.new task.source task.target task.len
        k (k + 1) }
{
    let whole = cut::<R, O>(sweep, straight, word, by);
    sweep.put(k, whole);
}

// A word that begins with so many bits of the memory, those from a place on: of the word there, and
// of the next one where they go on in it.
#[inline(always)]
#[tactic(auto, using(crate::proofs::PlaceLemmas::first_word))]
fn bits_from<R: BitRegister, O: BitOrder<R>>(
    sweep: &mut Sweep<'_, R>,
    straight: Straight<R, O>,
    place: usize,
    count: usize,
) -> R
    requires some { 0 < count }
    requires most { count ≤ R.BITS }
    requires within { place + count ≤ length (sweep_words sweep.old) * R.BITS }
    ensures digits { BeginsWith (read_by R.BitRegister O.position) (sweep_words sweep.old) place count result }
    ensures reads { reads_of sweep.new ≡ min (reads_of sweep.old + touched R.BITS place count) (2 ^ 64 - 1) }
    ensures same { SameButReads sweep.old sweep.new }
    ensures lender { sweep_lender sweep.new ≡ sweep_lender sweep.old }
{
    let _read = sweep.reads();
    let bits = bits_of::<R>();
    let word = place / bits;
    let index = place % bits;
    if index + count <= bits {
        let first = sweep.read(word);
        if index == 0 {
            return first;
        }
        return joined::<R, O>(straight.direction, first, first, index as u8);
    }
    cut::<R, O>(sweep, straight, word, index)
}

// The word that begins at the index `by` of the memory's word `word`, and goes on in the next one.
#[inline(always)]
fn cut<R: BitRegister, O: BitOrder<R>>(
    sweep: &mut Sweep<'_, R>,
    straight: Straight<R, O>,
    word: usize,
    by: usize,
) -> R
    requires index { by < R.BITS }
    requires first { word < length (sweep_words sweep.old) }
    requires next { 0 < by → word + 1 < length (sweep_words sweep.old) }
    ensures digits { BeginsWith (read_by R.BitRegister O.position) (sweep_words sweep.old)
        (word * R.BITS + by) R.BITS result }
    ensures reads { reads_of sweep.new ≤ reads_of sweep.old + 2 }
    ensures two { 0 < by → reads_of sweep.new ≡ min (reads_of sweep.old + 2) (2 ^ 64 - 1) }
    ensures same { SameButReads sweep.old sweep.new }
    ensures lender { sweep_lender sweep.new ≡ sweep_lender sweep.old }
{
    let _read = sweep.reads();
    let first = sweep.read(word);
    if by == 0 {
        return first;
    }
    let next = sweep.read(word + 1);
    joined::<R, O>(straight.direction, first, next, by as u8)
}

// A word with the bits of the sweep's words from a place on at its indices from one up to before another. Its other bits
// stay.
#[inline(always)]
pub(crate) fn with_shifted<R: BitRegister, O: BitOrder<R>>(
    sweep: &mut Sweep<'_, R>,
    straight: Straight<R, O>,
    place: usize,
    own: R,
    from: u8,
    upto: u8,
) -> R
    requires order { from < upto }
    requires index { upto ≤ R.BITS }
    requires within { place + (upto - from) ≤ length (sweep_words sweep.old) * R.BITS }
    ensures stored { IsStored (read_by R.BitRegister O.position) own result from upto
        (λ i. entry (read_by R.BitRegister O.position) (sweep_words sweep.old) (place + (i - from))) }
    ensures reads { reads_of sweep.new ≡ min (reads_of sweep.old + touched R.BITS place (upto - from)) (2 ^ 64 - 1) }
    ensures same { SameButReads sweep.old sweep.new }
    ensures lender { sweep_lender sweep.new ≡ sweep_lender sweep.old }
{
    let moved = bits_from::<R, O>(sweep, straight, place, (upto - from) as usize);
    let there = raised::<R, O>(straight.direction, moved, from);
    let head = BitIdx::new_unchecked(from);
    stored::<R, O>(own, there, head, BitEnd::new_unchecked(upto))
}
