//! A sweep over the words of a slice: it goes one way, writes each word at most once, and counts its
//! reads and its writes.
//!
//! While a sweep is there, its words are read and written through it alone.

ghost use Rattle.std.specs.Prelude.{◌≡◌, ◌≢◌, ℕ, List, ◌+◌, ◌-◌, ◌*◌, ◌^◌, ◌<◌, ◌≤◌, length, min, slice_index_or, slice_set};
ghost use Rattle.bit_addressing_memory.specs.Prelude.{Lies, read_by, touched};
ghost use Rattle.bit_addressing_memory.specs.Chunk.{IsChunk, IsOwn};
ghost use Rattle.bit_addressing_memory.specs.Moves.{Moves, changed};
ghost use Rattle.bit_addressing_memory.specs.Ways.{ArePast, IsPast, IsWithin, ReadsFirst, by_way, edge_after, passed, way_for};

use crate::blocks::move_blocks;
use crate::direction::{Direction, Straight, known_direction};
use crate::transfer::read_counted;
use bit_addressing_order::mem::bits_of;
use bit_addressing_order::{BitOrder, BitRegister};

/// The way in which a sweep writes.
#[derive(Clone, Copy, PartialEq, Eq, Debug)]
pub enum Way {
    /// Each word written lies above the one written before it.
    Up,
    /// Each word written lies below the one written before it.
    Down,
}

/// The way in which bits move from one place to another with no source written before it is read: up
/// where the target is not above the source, else down.
pub fn way_for(source: usize, target: usize) -> Way
    ensures { result ≡ way_for source target }
{
    if target <= source { Way::Up } else { Way::Down }
}

// The first of two numbers upwards, the second one downwards.
#[inline(always)]
pub(crate) fn by_way(way: Way, up: usize, down: usize) -> usize
    ensures { result ≡ by_way way up down }
{
    match way {
        Way::Up => up,
        Way::Down => down,
    }
}

impl Sweep<'_, ()> {
    /// `way_for`, by the name of the type that it is for.
    pub fn way_for(source: usize, target: usize) -> Way
        ensures { result ≡ way_for source target }
    {
        way_for(source, target)
    }
}

/// The words of a slice, lent to one sweep over them.
///
/// Any word may be read at any time. A word is written by `put`, and only past the last written one
/// in the sweep's way, so no word is written twice. Both are counted here, and nothing else counts.
/// Whoever made the sweep has the slice again once the sweep is gone, and knows its words.
#[derive(Drop)]
pub struct Sweep<'a, R> {
    words: &'a mut [R],
    way: Way,
    // Up: the first word that may be written. Down: the words below it may be written.
    edge: usize,
    reads: u64,
    writes: usize,
    ghost counted: { writes ≤ passed way edge (length words.now) },
}

impl<'a, R: Copy> Sweep<'a, R> {
    ghost use Rattle.bit_addressing_memory.specs.Sweep.{IsFresh, SameButReads, counted_up, sweep_lender};
    ghost use Rattle.bit_addressing_memory.specs.Sweep.{edge_of, reads_of, way_of, sweep_words, writes_of};

    /// A fresh sweep over these words: nothing is read or written yet.
    pub fn new(words: &'a mut [R], way: Way) -> Sweep<'a, R>
        ensures words { sweep_words result ≡ words.old }
        ensures fresh { IsFresh result way }

        // The sweep stands for the caller's slice.
        ensures lender { sweep_lender result ≡ words.entry.ghost_name }
    {
        let edge = match way {
            Way::Up => 0,
            Way::Down => words.len(),
        };
        Sweep {
            words,
            way,
            edge,
            reads: 0,
            writes: 0,
        }
    }

    /// The word `k`, which is one of the words. The read is counted.
    pub fn read(&mut self, k: usize) -> R
        requires { k < length (sweep_words self.old) }
        ensures value { result ≡ slice_index_or (sweep_words self.old) k result }
        ensures reads { reads_of self.new ≡ counted_up (reads_of self.old) }
        ensures same { SameButReads self.old self.new }
        ensures lender { sweep_lender self.new ≡ sweep_lender self.old }
    {
        if self.reads < u64::MAX {
            self.reads += 1;
        }
        self.words[k]
    }

    // All words. What reads of them counts it.
    #[inline(always)]
    fn all(&self) -> &[R]
        ensures { result.now ≡ sweep_words self.now }
    {
        self.words
    }

    /// Writes the word `k`, which is one of the words and strictly past the last written one in the
    /// sweep's way. The write is counted.
    pub fn put(&mut self, k: usize, word: R)
        requires within { k < length (sweep_words self.old) }
        requires past { IsPast (way_of self.old) (edge_of self.old) k }
        ensures words { sweep_words self.new ≡ slice_set (sweep_words self.old) k word }
        ensures edge { edge_of self.new ≡ edge_after (way_of self.old) k }
        ensures writes { writes_of self.new ≡ writes_of self.old + 1 }

        // What stays.
        ensures way { way_of self.new ≡ way_of self.old }
        ensures reads { reads_of self.new ≡ reads_of self.old }
        ensures lender { sweep_lender self.new ≡ sweep_lender self.old }
    {
        self.edge = match self.way {
            Way::Up => k + 1,
            Way::Down => k,
        };
        self.writes += 1;
        self.words[k] = word;
    }

    /// The way in which this sweep writes.
    pub fn way(&self) -> Way
        ensures { result ≡ way_of self.now }
    {
        self.way
    }

    /// How many words were read, a word that is read again counted again: `u64::MAX` where there were more. A word of 128
    /// bits whose halves are read one by one counts once for each half.
    pub fn reads(&self) -> u64
        ensures { result ≡ reads_of self.now }
    {
        self.reads
    }

    /// How many words were written. Each was written once.
    pub fn writes(&self) -> usize
        ensures { result ≡ writes_of self.now }
    {
        self.writes
    }
}

impl<'a, R: BitRegister> Sweep<'a, R> {
    ghost use Rattle.bit_addressing_memory.specs.Sweep.{SameButReads, edge_of, reads_of, sweep_lender, sweep_words};
    ghost use Rattle.bit_addressing_memory.specs.Sweep.{way_of, writes_of};

    // Moves bits by blocks, those from the index `by` of the word `from` on to the word `low` and those behind it. Each word
    // that is read or written is counted. Out of line, so that the counts stay in registers where words are put one by one; there
    // a compiler finds the direction anew.
    #[inline(never)]
    pub(crate) fn move_blocks<O: BitOrder<R>>(
        &mut self,
        straight: Straight<R, O>,
        from: usize,
        by: usize,
        low: usize,
        count: usize,
        size: u8,
    )
        requires size { size * R.BITS ≡ 64 }
        requires order { ReadsFirst (way_of self.old) (from * R.BITS + by) (low * R.BITS) }
        requires index { by < R.BITS }
        requires source { from * R.BITS + by + 64 * count ≤ length (sweep_words self.old) * R.BITS }
        requires within { low + count * size ≤ length (sweep_words self.old) }
        requires past { ArePast (way_of self.old) (edge_of self.old) low (low + count * size) }
        ensures moved { Moves (read_by R.BitRegister O.position) (sweep_words self.old) (sweep_words self.new)
            (from * R.BITS + by) (low * R.BITS) (64 * count) }
        ensures few { (number : R → ℕ) → (others : List R) → changed number others (sweep_words self.new)
            ≤ changed number others (sweep_words self.old) + count * size }
        ensures edge { IsWithin (way_of self.old) (edge_of self.new) low (low + count * size) }
        ensures writes { writes_of self.new ≡ writes_of self.old + count * size }
        ensures reads { reads_of self.new ≤ reads_of self.old + 2 * (count * size) }
        ensures way { way_of self.new ≡ way_of self.old }
        ensures lender { sweep_lender self.new ≡ sweep_lender self.old }
    {
        let puts = count * size as usize;
        let reads = if by == 0 {
            puts
        } else {
            puts.saturating_add(count)
        };
        self.edge = match self.way {
            Way::Up => low + puts,
            Way::Down => low,
        };
        self.writes += puts;
        self.reads = self.reads.saturating_add(reads as u64);
        let known = straight.again();
        if by == 0 {
            move_blocks::<R, O>(known, self.words, self.way, from, 0, low, count, size);
        } else {
            move_blocks::<R, O>(known, self.words, self.way, from, by, low, count, size);
        }
    }

    // The `count` bits from a place on, 1 to 64, as a chunk, as `read_counted` reads them. A read is counted for each word
    // that they touch, or for each half of a word of 128 bits.
    pub(crate) fn read_bits<O: BitOrder<R>>(
        &mut self,
        direction: Direction,
        place: usize,
        count: usize,
    ) -> u64
        requires own { IsOwn R.BITS O.position direction }
        requires some { 0 < count }
        requires few { count ≤ 64 }
        requires lies { Lies R.BITS (sweep_words self.old) place count }
        ensures digits { IsChunk (read_by R.BitRegister O.position) (sweep_words self.old) place count direction result }
        ensures reads { reads_of self.new
            ≡ min (reads_of self.old + touched (min 64 R.BITS) place count) (2 ^ 64 - 1) }
        ensures same { SameButReads self.old self.new }
        ensures lender { sweep_lender self.new ≡ sweep_lender self.old }
    {
        let bits = bits_of::<R>().min(64);
        let limbs = (place + count - 1) / bits + 1 - place / bits;
        let known = known_direction::<R, O>(direction);
        let chunk = read_counted::<R, O>(known, self.all(), place, count).0;
        self.reads = self.reads.saturating_add(limbs as u64);
        chunk
    }

    /// How many of the first `count` words, which are there, hold the number of `word` before the first one that does not.
    /// That one is read too; each read is counted.
    #[inline(always)]
    pub fn leading(&mut self, count: usize, word: R) -> usize
        requires { count ≤ length (sweep_words self.old) }
        ensures most { result ≤ count }
        ensures equal { (k : ℕ) → k < result
            → R.number (slice_index_or (sweep_words self.old) k word) ≡ R.number word }
        ensures other { result < count → R.number (slice_index_or (sweep_words self.old) result word) ≢ R.number word }
        ensures reads { reads_of self.new ≡ min (reads_of self.old + min (result + 1) count) (2 ^ 64 - 1) }
        ensures same { SameButReads self.old self.new }
        ensures lender { sweep_lender self.new ≡ sweep_lender self.old }
    {
        let equal = equal_words(self.all(), count, word);
        let reads = if equal < count { equal + 1 } else { count };
        self.reads = self.reads.saturating_add(reads as u64);
        equal
    }
}

// How many of the first `count` words hold the number of `word` before the first one that does not.
#[inline(always)]
fn equal_words<R: BitRegister>(words: &[R], count: usize, word: R) -> usize
    requires { count ≤ length words.now }
    ensures most { result ≤ count }
    ensures equal { (k : ℕ) → k < result → R.number (slice_index_or words.now k word) ≡ R.number word }
    ensures other { result < count → R.number (slice_index_or words.now result word) ≢ R.number word }
{
    for k in 0..count {
        if !words[k].equals(word) {
            return k;
        }
    }
    count
}
