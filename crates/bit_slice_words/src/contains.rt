//! Bits of one memory that stand in those of another.

ghost use Rattle.std.specs.Prelude.{◌≡◌, ◌≢◌, ℕ, ◌+◌, ◌<◌, ◌≤◌, ◌↔◌, IsTrue};
ghost use Rattle.bit_addressing_memory.specs.Prelude.{Lies, entry, memory, piece, read_by};
ghost use Rattle.bit_slice_words.specs.Holds.{Holds};

use crate::agree::{agree_rest, agree_singly, few_to_compare};
use bit_addressing_memory::{BitOrder, BitRegister, BulkOp, bit_loop_limit_of_two};
use bit_slice_paths::seek;

/// Whether the `other_len` bits of the memory `others` from a place on stand, in order and next to each other, in the
/// `len` bits of the memory `words` from another place on. No bits stand everywhere.
///
/// The two may have different words and orders. Where the other list has bits, it answers as `contains` of a slice in
/// bitvec 1.1.1.
pub fn contains_in<R: BitRegister, O: BitOrder<R>, Q: BitRegister, P: BitOrder<Q>>(
    words: &[R],
    place: usize,
    len: usize,
    others: &[Q],
    other_place: usize,
    other_len: usize,
) -> bool
    requires lies { Lies R.BITS words.now place len }
    requires other_lies { Lies Q.BITS others.now other_place other_len }
    ensures { IsTrue result ↔ Holds (piece (memory (read_by R.BitRegister O.position) words.now) place len)
        (piece (memory (read_by Q.BitRegister P.position) others.now) other_place other_len) }
{
    if other_len == 0 {
        return true;
    }
    if len < other_len {
        return false;
    }
    let starts = len - other_len + 1;
    let places = starts.min(bit_loop_limit_of_two::<R, O, Q, P>(BulkOp::Search));
    let few = few_to_compare::<R, O, Q, P>(other_len);
    // Most are passed over by their first bits. What follows the loop is out of line, so that it is a short one.
    for i in 0..places {
        if agree_singly::<R, O, Q, P>(words, place + i, others, other_place, few) == few {
            if few == other_len {
                return true;
            }
            return contains_from::<R, O, Q, P>(
                words,
                place,
                len,
                others,
                other_place,
                other_len,
                i,
                few,
            );
        }
    }
    if places == starts {
        return false;
    }
    contains_rest::<R, O, Q, P>(words, place, len, others, other_place, other_len, places)
}

// The same where the bits stand at no place before one, and their first `few` do there.
#[inline(never)]
#[tactic(auto, using(crate::proofs::SameLemmas::none_more))]
fn contains_from<R: BitRegister, O: BitOrder<R>, Q: BitRegister, P: BitOrder<Q>>(
    words: &[R],
    place: usize,
    len: usize,
    others: &[Q],
    other_place: usize,
    other_len: usize,
    from: usize,
    few: usize,
) -> bool
    requires some { 0 < other_len }
    requires order { from + other_len ≤ len }
    requires few { few ≤ other_len }
    requires lies { Lies R.BITS words.now place len }
    requires other_lies { Lies Q.BITS others.now other_place other_len }
    requires none { (k : ℕ) → k < from
        → piece (memory (read_by R.BitRegister O.position) words.now) (place + k) other_len
        ≢ piece (memory (read_by Q.BitRegister P.position) others.now) other_place other_len }
    requires same { (k : ℕ) → k < few → entry (read_by R.BitRegister O.position) words.now (place + from + k)
        ≡ entry (read_by Q.BitRegister P.position) others.now (other_place + k) }
    ensures { IsTrue result ↔ Holds (piece (memory (read_by R.BitRegister O.position) words.now) place len)
        (piece (memory (read_by Q.BitRegister P.position) others.now) other_place other_len) }
{
    let here = place + from;
    if agree_rest::<R, O, Q, P>(words, here, others, other_place, other_len, few) == other_len {
        return true;
    }
    if len - other_len == from {
        return false;
    }
    contains_rest::<R, O, Q, P>(words, place, len, others, other_place, other_len, from + 1)
}

// The same where the bits stand at none of the first places, by chunks behind them.
#[inline(never)]
fn contains_rest<R: BitRegister, O: BitOrder<R>, Q: BitRegister, P: BitOrder<Q>>(
    words: &[R],
    place: usize,
    len: usize,
    others: &[Q],
    other_place: usize,
    other_len: usize,
    from: usize,
) -> bool
    requires some { 0 < other_len }
    requires order { from + other_len ≤ len }
    requires lies { Lies R.BITS words.now place len }
    requires other_lies { Lies Q.BITS others.now other_place other_len }
    requires none { (k : ℕ) → k < from
        → piece (memory (read_by R.BitRegister O.position) words.now) (place + k) other_len
        ≢ piece (memory (read_by Q.BitRegister P.position) others.now) other_place other_len }
    ensures { IsTrue result ↔ Holds (piece (memory (read_by R.BitRegister O.position) words.now) place len)
        (piece (memory (read_by Q.BitRegister P.position) others.now) other_place other_len) }
{
    let starts = len - other_len + 1 - from;
    seek::start::<R, O, Q, P>(words, place + from, others, other_place, other_len, starts) < starts
}
