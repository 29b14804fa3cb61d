//! How bits of two memories compare as lists.

ghost use Rattle.std.specs.Prelude.{◌≡◌, ℕ, ◌+◌, ◌<◌, ◌≤◌, min};
ghost use Rattle.bit_addressing_memory.specs.Prelude.{Lies, entry, memory, piece, read_by};
ghost use Rattle.bit_slice_paths.specs.Agrees.{Agrees};
ghost use Rattle.std.specs.Cmp.Lexicographic.{slice_cmp};
ghost use Rattle.std.specs.Ordering.{bool_cmp};

use crate::agree::{BLOCK, agree_rest, agree_singly, few_before_block};
use bit_addressing_memory::{BitOrder, BitRegister, read_entry};
use bit_slice_paths::across;
use std::cmp::Ordering;

/// How the `len` bits of the memory `words` from a place on compare with the `other_len` bits of the memory `others`
/// from another place on: the first two that differ decide, 0 before 1, and where none does the shorter list is less.
///
/// The two may have different words and orders. It answers what `partial_cmp` of two slices in bitvec 1.1.1 has in its
/// `Some`.
pub fn compare_in<R: BitRegister, O: BitOrder<R>, Q: BitRegister, P: BitOrder<Q>>(
    words: &[R],
    place: usize,
    len: usize,
    others: &[Q],
    other_place: usize,
    other_len: usize,
) -> Ordering
    requires lies { Lies R.BITS words.now place len }
    requires other_lies { Lies Q.BITS others.now other_place other_len }
    ensures { result ≡ slice_cmp bool_cmp (piece (memory (read_by R.BitRegister O.position) words.now) place len)
        (piece (memory (read_by Q.BitRegister P.position) others.now) other_place other_len) }
{
    let shorter = len.min(other_len);
    let few = few_before_block::<R, O, Q, P>(shorter);
    // Lists that differ early are answered here.
    let same = agree_singly::<R, O, Q, P>(words, place, others, other_place, few);
    if same < few || few == shorter {
        return compare_at::<R, O, Q, P>(words, place, len, others, other_place, other_len, same);
    }
    compare_behind::<R, O, Q, P>(words, place, len, others, other_place, other_len, few)
}

// The same where the first bits are the same, of at least 64 bits by the first 64 as one block: it costs less than a part
// of one, so those are read again with it. Out of line, so that lists that differ early are compared by a short function.
#[inline(never)]
fn compare_behind<R: BitRegister, O: BitOrder<R>, Q: BitRegister, P: BitOrder<Q>>(
    words: &[R],
    place: usize,
    len: usize,
    others: &[Q],
    other_place: usize,
    other_len: usize,
    from: usize,
) -> Ordering
    requires lies { Lies R.BITS words.now place len }
    requires other_lies { Lies Q.BITS others.now other_place other_len }
    requires least { from ≤ len }
    requires other_least { from ≤ other_len }
    requires same { (k : ℕ) → k < from → entry (read_by R.BitRegister O.position) words.now (place + k)
        ≡ entry (read_by Q.BitRegister P.position) others.now (other_place + k) }
    ensures { result ≡ slice_cmp bool_cmp (piece (memory (read_by R.BitRegister O.position) words.now) place len)
        (piece (memory (read_by Q.BitRegister P.position) others.now) other_place other_len) }
{
    let shorter = len.min(other_len);
    let mut known = from;
    if from < BLOCK && BLOCK <= shorter {
        let same = across::difference_of_part::<R, O, Q, P>(
            words,
            place,
            others,
            other_place,
            BLOCK,
        );
        if same < BLOCK || shorter == BLOCK {
            return compare_at::<R, O, Q, P>(
                words,
                place,
                len,
                others,
                other_place,
                other_len,
                same,
            );
        }
        known = BLOCK;
    }
    let same = agree_rest::<R, O, Q, P>(words, place, others, other_place, shorter, known);
    compare_at::<R, O, Q, P>(words, place, len, others, other_place, other_len, same)
}

// The same where it is known how many first bits agree: the next ones decide, and where none are left the lengths do.
#[inline(always)]
#[tactic(auto, using(crate::proofs::CompareLemmas::windows_compare_ends))]
fn compare_at<R: BitRegister, O: BitOrder<R>, Q: BitRegister, P: BitOrder<Q>>(
    words: &[R],
    place: usize,
    len: usize,
    others: &[Q],
    other_place: usize,
    other_len: usize,
    same: usize,
) -> Ordering
    requires lies { Lies R.BITS words.now place len }
    requires other_lies { Lies Q.BITS others.now other_place other_len }
    requires agrees { Agrees (read_by R.BitRegister O.position) words.now place
        (read_by Q.BitRegister P.position) others.now other_place (min len other_len) same }
    ensures { result ≡ slice_cmp bool_cmp (piece (memory (read_by R.BitRegister O.position) words.now) place len)
        (piece (memory (read_by Q.BitRegister P.position) others.now) other_place other_len) }
{
    if same < len.min(other_len) {
        let bit = read_entry::<R, O>(words, place + same);
        let other = read_entry::<Q, P>(others, other_place + same);
        return bit.cmp(&other);
    }
    len.cmp(&other_len)
}
