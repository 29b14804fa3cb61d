//! Bits of two memories, equal or not.

ghost use Rattle.std.specs.Prelude.{◌≡◌, ℕ, ◌+◌, ◌<◌, ◌≤◌, ◌↔◌, IsTrue};
ghost use Rattle.bit_addressing_memory.specs.Prelude.{Lies, entry, memory, piece, read_by};

use crate::agree::{BLOCK, agree_rest, agree_singly, few_before_block};
use bit_addressing_memory::{BitOrder, BitRegister, direction_of};
use bit_slice_paths::across;
use bit_slice_paths::two_memories::{ROUND, match_behind};

/// Whether the `len` bits of the memory `words` from a place on are those of the memory `others` from another place
/// on, in order. No bits are equal to no bits.
///
/// The two may have different words and orders. It answers as `==` of two slices of one length in bitvec 1.1.1.
#[tactic(auto, using(crate::proofs::SameLemmas::answers_no, crate::proofs::SameLemmas::answers_yes, crate::proofs::SameLemmas::windows_equal, crate::proofs::SameLemmas::windows_part))]
pub fn equal_in<R: BitRegister, O: BitOrder<R>, Q: BitRegister, P: BitOrder<Q>>(
    words: &[R],
    place: usize,
    others: &[Q],
    other_place: usize,
    len: usize,
) -> bool
    requires lies { Lies R.BITS words.now place len }
    requires other_lies { Lies Q.BITS others.now other_place len }
    ensures { IsTrue result ↔ (piece (memory (read_by R.BitRegister O.position) words.now) place len
        ≡ piece (memory (read_by Q.BitRegister P.position) others.now) other_place len) }
{
    let few = few_before_block::<R, O, Q, P>(len);
    // Lists that differ mostly do so early.
    if agree_singly::<R, O, Q, P>(words, place, others, other_place, few) < few {
        return false;
    }
    if few == len {
        return true;
    }
    equal_behind::<R, O, Q, P>(words, place, others, other_place, len, few)
}

// `equal_in` where the first `few` bits are the same: of at least 64 bits by the first 64 as one block, which costs less than
// a part of one, so those are read again with it. Out of line, so that lists that differ early are compared by a short
// function.
#[inline(never)]
#[tactic(auto, using(crate::proofs::SameLemmas::answers_no, crate::proofs::SameLemmas::answers_yes, crate::proofs::SameLemmas::windows_equal, crate::proofs::SameLemmas::windows_part))]
fn equal_behind<R: BitRegister, O: BitOrder<R>, Q: BitRegister, P: BitOrder<Q>>(
    words: &[R],
    place: usize,
    others: &[Q],
    other_place: usize,
    len: usize,
    few: usize,
) -> bool
    requires few { few ≤ len }
    requires lies { Lies R.BITS words.now place len }
    requires other_lies { Lies Q.BITS others.now other_place len }
    requires same { (k : ℕ) → k < few → entry (read_by R.BitRegister O.position) words.now (place + k)
        ≡ entry (read_by Q.BitRegister P.position) others.now (other_place + k) }
    ensures { IsTrue result ↔ (piece (memory (read_by R.BitRegister O.position) words.now) place len
        ≡ piece (memory (read_by Q.BitRegister P.position) others.now) other_place len) }
{
    let mut known = few;
    if few < BLOCK && BLOCK <= len {
        let same = across::difference_of_part::<R, O, Q, P>(
            words,
            place,
            others,
            other_place,
            BLOCK,
        );
        if same < BLOCK {
            return false;
        }
        known = BLOCK;
    }
    if known == len {
        return true;
    }
    // By whole words behind the last border in these, as far as they go, and by blocks behind them.
    let reached = match_behind::<R, O, Q, P>(words, place, others, other_place, len, known);
    if reached.done < reached.seen {
        return false;
    }
    let same = reached.done;
    if direction_of::<R, O>().is_some() && ROUND <= len && len - same <= ROUND {
        let before = len - ROUND;
        let (last, other_last) = (place + before, other_place + before);
        return before + across::difference::<R, O, Q, P>(words, last, others, other_last, ROUND)
            == len;
    }
    agree_rest::<R, O, Q, P>(words, place, others, other_place, len, same) == len
}
