//! Bits that move inside one memory: each word of the target is gathered and then written once.

ghost use Rattle.std.specs.Prelude.{◌≡◌, ◌+◌, ◌-◌, ◌*◌, ◌/◌, ◌^◌, ◌<◌, ◌≤◌, IfSome, length, min};
ghost use Rattle.bit_addressing_memory.specs.Prelude.{Lies, read_by, entry, touched, IsStored};
ghost use Rattle.bit_addressing_memory.specs.Straight.{IsStraight};
ghost use Rattle.bit_addressing_memory.specs.Moves.{Moves, changed};
ghost use Rattle.bit_addressing_memory.specs.MoveSteps.{CanPut, IsPart, PutsWords, most_reads};
ghost use Rattle.bit_addressing_memory.specs.Sweep.{IsFresh, SameButReads, sweep_lender, way_of, sweep_words, writes_of};
ghost use Rattle.bit_addressing_memory.specs.Sweep.{reads_of};
ghost use Rattle.bit_addressing_memory.specs.Ways.{way_for};

use crate::bulk_ops::{BulkOp, bit_loop_limit};
use crate::direction::{Straight, direction_for};
use crate::entry::{read_bit, write_bit};
use crate::shifted::{put_straight, with_shifted};
use crate::sweep::{Sweep, by_way};
use crate::transfer::with_part;
use bit_addressing_order::mem::bits_of;
use bit_addressing_order::{BitIdx, BitOrder, BitRegister};

/// Moves `len` bits of the words of a fresh sweep from the place `source` on to the place `target` on,
/// in the order `O`; the two may overlap. A place is a number: word times `BITS`, plus the index there.
///
/// Afterwards the target's bits are what the source's were, and each other bit is as before. Every
/// word is written once at most, and no more words than the target touches. `way_for` has the way of
/// the sweep.
///
/// Where the positions go straight with the indices, up or down over the whole word, each word is made
/// by shifts, and at most three words are read for each that the target touches.
#[inline(always)]
#[tactic(auto, using(crate::proofs::Changes::unchanged, crate::proofs::Puts::can_all))]
pub fn move_in<R: BitRegister, O: BitOrder<R>>(
    sweep: &mut Sweep<'_, R>,
    source: usize,
    target: usize,
    len: usize,
)
    requires fresh { IsFresh sweep.old (way_for source target) }
    requires source_within { source + len ≤ length (sweep_words sweep.old) * R.BITS }
    requires target_within { target + len ≤ length (sweep_words sweep.old) * R.BITS }
    requires source_ends { source + len < 2 ^ 64 }
    requires target_ends { target + len < 2 ^ 64 }
    ensures moved { Moves (read_by R.BitRegister O.position) (sweep_words sweep.old) (sweep_words sweep.new)
        source target len }

    // Its writes: at most the words that the target touches, at least the words that became other ones.
    ensures writes { writes_of sweep.new ≤ touched R.BITS target len }
    ensures changed { changed R.number (sweep_words sweep.old) (sweep_words sweep.new) ≤ writes_of sweep.new }

    // Its reads, where the positions go straight with the indices.
    ensures reads { IsStraight R.BITS O.position → reads_of sweep.new ≤ 3 * touched R.BITS target len }

    // What stays.
    ensures way { way_of sweep.new ≡ way_of sweep.old }
    ensures lender { sweep_lender sweep.new ≡ sweep_lender sweep.old }
{
    if len == 0 {
        return;
    }
    let bits = bits_of::<R>();
    let first = target / bits;
    let last = (target + len - 1) / bits;
    let task = BitMove {
        source,
        target,
        len,
    };
    match Straight::<R, O>::find() {
        Some(straight) => put_straight::<R, O>(sweep, straight, first, last, task),
        None => put_gathered::<R, O>(sweep, first, last, task),
    }
}

// A move of `len` bits from the place `source` on to the place `target` on.
#[derive(Clone, Copy)]
pub(crate) struct BitMove {
    pub(crate) source: usize,
    pub(crate) target: usize,
    pub(crate) len: usize,
}

// Puts the words from `first` to `last`, their bits gathered by limbs, or one by one.
fn put_gathered<R: BitRegister, O: BitOrder<R>>(
    sweep: &mut Sweep<'_, R>,
    first: usize,
    last: usize,
    task: BitMove,
)
    requires order { first ≤ last }
    requires can { CanPut R.BITS sweep.old task.source task.target task.len first (last + 1) }
    ensures { PutsWords (read_by R.BitRegister O.position) (R.BITS + 1) sweep.old sweep.new
        task.source task.target task.len first (last + 1) }
{
    let way = sweep.way();
    for m in first..last + 1 {
        let k = by_way(way, m, last - (m - first));
        put_word::<R, O>(sweep, None, k, task);
    }
}

// Puts the word `k` as the move leaves it: the source's bits inside the target, its own beside it.
#[inline(always)]
pub(crate) fn put_word<R: BitRegister, O: BitOrder<R>>(
    sweep: &mut Sweep<'_, R>,
    straight: Option<Straight<R, O>>,
    k: usize,
    task: BitMove,
)
    requires { CanPut R.BITS sweep.old task.source task.target task.len k (k + 1) }
    ensures { PutsWords (read_by R.BitRegister O.position) (most_reads straight R.BITS) sweep.old sweep.new
        task.source task.target task.len k (k + 1) }
{
    let (from, upto) = part_of::<R>(k, task.target, task.len);
    let own = sweep.read(k);
    let place = task.source + (k * bits_of::<R>() + from - task.target);
    let word = taken::<R, O>(sweep, straight, place, own, from as u8, upto as u8);
    sweep.put(k, word);
}

// From which index of the word `k` on it has bits of the target, and up to before which.
#[inline(always)]
pub(crate) fn part_of<R: BitRegister>(k: usize, target: usize, len: usize) -> (usize, usize)
    requires some { 0 < len }
    requires fits { target + len < 2 ^ 64 }
    requires begins { k * R.BITS < target + len }
    requires ends { target < k * R.BITS + R.BITS }
    ensures { IsPart R.BITS k target len result.0 result.1 }
{
    let bits = bits_of::<R>();
    let start = k * bits;
    let from = target.saturating_sub(start);
    let upto = bits.min(target + len - start);
    (from, upto)
}

/// A word with the bits of a sweep's words from a place on at its indices from one up to before another: by shifts where
/// the positions go in a direction, else by limbs, or one by one. Its other bits stay. Each word that is read is counted
/// where it is read: at least one, at most one for each bit, and in a direction those that the bits touch, each once.
#[inline(always)]
#[tactic(auto, using(crate::proofs::PlaceLemmas::touched_few, crate::proofs::PlaceLemmas::touched_some))]
pub fn taken<R: BitRegister, O: BitOrder<R>>(
    sweep: &mut Sweep<'_, R>,
    straight: Option<Straight<R, O>>,
    place: usize,
    own: R,
    from: u8,
    upto: u8,
) -> R
    requires order { from < upto }
    requires index { upto ≤ R.BITS }
    requires lies { Lies R.BITS (sweep_words sweep.old) place (upto - from) }
    ensures stored { IsStored (read_by R.BitRegister O.position) own result from upto
        (λ i. entry (read_by R.BitRegister O.position) (sweep_words sweep.old) (place + (i - from))) }
    ensures reads { reads_of sweep.new ≤ reads_of sweep.old + (upto - from) }
    ensures some { min (reads_of sweep.old + 1) (2 ^ 64 - 1) ≤ reads_of sweep.new }
    ensures straight { IfSome straight (λ _. reads_of sweep.new
        ≡ min (reads_of sweep.old + touched R.BITS place (upto - from)) (2 ^ 64 - 1)) }
    ensures same { SameButReads sweep.old sweep.new }
    ensures lender { sweep_lender sweep.new ≡ sweep_lender sweep.old }
{
    match straight {
        Some(straight) => with_shifted::<R, O>(sweep, straight, place, own, from, upto),
        None => {
            let count = (upto - from) as usize;
            if count <= bit_loop_limit::<R, O>(BulkOp::Move) {
                return taken_singly::<R, O>(sweep, place, own, from as usize, upto as usize);
            }
            taken_by_limbs::<R, O>(sweep, place, own, from, upto)
        }
    }
}

// The same by limbs. Out of line, so that a few bits are taken by a short function.
#[inline(never)]
fn taken_by_limbs<R: BitRegister, O: BitOrder<R>>(
    sweep: &mut Sweep<'_, R>,
    place: usize,
    own: R,
    from: u8,
    upto: u8,
) -> R
    requires order { from < upto }
    requires index { upto ≤ R.BITS }
    requires lies { Lies R.BITS (sweep_words sweep.old) place (upto - from) }
    ensures stored { IsStored (read_by R.BitRegister O.position) own result from upto
        (λ i. entry (read_by R.BitRegister O.position) (sweep_words sweep.old) (place + (i - from))) }
    ensures reads { reads_of sweep.new ≤ reads_of sweep.old + (upto - from) }
    ensures some { min (reads_of sweep.old + 1) (2 ^ 64 - 1) ≤ reads_of sweep.new }
    ensures same { SameButReads sweep.old sweep.new }
    ensures lender { sweep_lender sweep.new ≡ sweep_lender sweep.old }
{
    if upto <= 64 || from >= 64 {
        return taken_chunk::<R, O>(sweep, place, own, from, upto);
    }
    let begun = taken_chunk::<R, O>(sweep, place, own, from, 64);

    // As many as a `u64` counts.
    let _read = sweep.reads();
    let behind = place + (64 - from) as usize;
    taken_chunk::<R, O>(sweep, behind, begun, 64, upto)
}

// The same of up to 64 bits: one step that counts a read for each of its bits.
#[inline(always)]
#[tactic(auto, using(crate::proofs::PlaceLemmas::touched_few, crate::proofs::PlaceLemmas::touched_some))]
fn taken_chunk<R: BitRegister, O: BitOrder<R>>(
    sweep: &mut Sweep<'_, R>,
    place: usize,
    own: R,
    from: u8,
    upto: u8,
) -> R
    requires order { from < upto }
    requires index { upto ≤ R.BITS }
    requires few { upto ≤ from + 64 }
    requires lies { Lies R.BITS (sweep_words sweep.old) place (upto - from) }
    ensures stored { IsStored (read_by R.BitRegister O.position) own result from upto
        (λ i. entry (read_by R.BitRegister O.position) (sweep_words sweep.old) (place + (i - from))) }
    ensures reads { reads_of sweep.new ≤ reads_of sweep.old + (upto - from) }
    ensures some { min (reads_of sweep.old + 1) (2 ^ 64 - 1) ≤ reads_of sweep.new }
    ensures same { SameButReads sweep.old sweep.new }
    ensures lender { sweep_lender sweep.new ≡ sweep_lender sweep.old }
{
    let direction = direction_for::<R, O>();
    let chunk = sweep.read_bits::<O>(direction, place, (upto - from) as usize);
    with_part::<R, O>(direction, own, from, upto, chunk)
}

// The same bit by bit: each is read by itself.
#[inline(always)]
#[tactic(auto, using(crate::proofs::Sweeps::reads_none))]
fn taken_singly<R: BitRegister, O: BitOrder<R>>(
    sweep: &mut Sweep<'_, R>,
    place: usize,
    own: R,
    from: usize,
    upto: usize,
) -> R
    requires order { from ≤ upto }
    requires index { upto ≤ R.BITS }
    requires lies { Lies R.BITS (sweep_words sweep.old) place (upto - from) }
    ensures stored { IsStored (read_by R.BitRegister O.position) own result from upto
        (λ i. entry (read_by R.BitRegister O.position) (sweep_words sweep.old) (place + (i - from))) }
    ensures reads { reads_of sweep.new ≡ min (reads_of sweep.old + (upto - from)) (2 ^ 64 - 1) }
    ensures same { SameButReads sweep.old sweep.new }
    ensures lender { sweep_lender sweep.new ≡ sweep_lender sweep.old }
{
    // As many as a `u64` counts.
    let _read = sweep.reads();
    let mut made = own;
    for i in from..upto {
        let bit = bit_at_place::<R, O>(sweep, place + (i - from));
        made = write_bit::<R, O>(made, BitIdx::new_unchecked(i as u8), bit);
    }
    made
}

// The bit of the words at a place.
fn bit_at_place<R: BitRegister, O: BitOrder<R>>(sweep: &mut Sweep<'_, R>, place: usize) -> bool
    requires { place < length (sweep_words sweep.old) * R.BITS }
    ensures value { result ≡ entry (read_by R.BitRegister O.position) (sweep_words sweep.old) place }
    ensures reads { reads_of sweep.new ≡ min (reads_of sweep.old + 1) (2 ^ 64 - 1) }
    ensures same { SameButReads sweep.old sweep.new }
    ensures lender { sweep_lender sweep.new ≡ sweep_lender sweep.old }
{
    let _read = sweep.reads();
    let bits = bits_of::<R>();
    let index = BitIdx::new_unchecked((place % bits) as u8);
    read_bit::<R, O>(sweep.read(place / bits), index)
}
