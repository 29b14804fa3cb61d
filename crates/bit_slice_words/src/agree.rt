//! How far bits of two memories are the same.

ghost use Rattle.std.specs.Prelude.{◌≡◌, ℕ, ◌+◌, ◌<◌, ◌≤◌};
ghost use Rattle.bit_addressing_memory.specs.Prelude.{Lies, entry, read_by};
ghost use Rattle.bit_slice_paths.specs.Agrees.{Agrees};

use bit_addressing_memory::{BitOrder, BitRegister, BulkOp, bit_loop_limit_of_two, read_entry};
use bit_slice_paths::across;

// So many bits are a block.
pub(crate) const BLOCK: usize = 64;

// How many of `len` bits are compared one by one first.
#[inline(always)]
pub(crate) fn few_to_compare<R: BitRegister, O: BitOrder<R>, Q: BitRegister, P: BitOrder<Q>>(
    len: usize,
) -> usize
    ensures { result ≤ len }
{
    len.min(bit_loop_limit_of_two::<R, O, Q, P>(BulkOp::Compare))
}

// The same, if a block of 64 bits may follow.
#[inline(always)]
pub(crate) fn few_before_block<R: BitRegister, O: BitOrder<R>, Q: BitRegister, P: BitOrder<Q>>(
    len: usize,
) -> usize
    ensures { result ≤ len }
{
    if len < BLOCK {
        few_to_compare::<R, O, Q, P>(len)
    } else {
        len.min(bit_loop_limit_of_two::<R, O, Q, P>(BulkOp::CompareBlock))
    }
}

// How many of `len` bits behind these: some where no whole chunk is left.
#[inline(always)]
fn few_behind<R: BitRegister, O: BitOrder<R>, Q: BitRegister, P: BitOrder<Q>>(len: usize) -> usize
    ensures { result ≤ len }
{
    if len < BLOCK {
        len.min(bit_loop_limit_of_two::<R, O, Q, P>(BulkOp::CompareRest))
    } else {
        0
    }
}

// How many of `len` bits of two memories are the same, from the first on, bit by bit.
#[inline(always)]
#[tactic(auto, using(bit_slice_paths::proofs::AcrossLemmas::agrees_all))]
pub(crate) fn agree_singly<R: BitRegister, O: BitOrder<R>, Q: BitRegister, P: BitOrder<Q>>(
    words: &[R],
    place: usize,
    others: &[Q],
    other_place: usize,
    len: usize,
) -> usize
    requires lies { Lies R.BITS words.now place len }
    requires other_lies { Lies Q.BITS others.now other_place len }
    ensures { Agrees (read_by R.BitRegister O.position) words.now place
        (read_by Q.BitRegister P.position) others.now other_place len result }
{
    for k in 0..len {
        if read_entry::<R, O>(words, place + k) != read_entry::<Q, P>(others, other_place + k) {
            return k;
        }
    }
    len
}

// The same where the first `few` are the same. Out of line, so that bits that differ early are compared by a short function.
#[inline(never)]
pub(crate) fn agree_rest<R: BitRegister, O: BitOrder<R>, Q: BitRegister, P: BitOrder<Q>>(
    words: &[R],
    place: usize,
    others: &[Q],
    other_place: usize,
    len: usize,
    few: usize,
) -> usize
    requires few { few ≤ len }
    requires lies { Lies R.BITS words.now place len }
    requires other_lies { Lies Q.BITS others.now other_place len }
    requires same { (k : ℕ) → k < few → entry (read_by R.BitRegister O.position) words.now (place + k)
        ≡ entry (read_by Q.BitRegister P.position) others.now (other_place + k) }
    ensures { Agrees (read_by R.BitRegister O.position) words.now place
        (read_by Q.BitRegister P.position) others.now other_place len result }
{
    let (at, other_at, left) = (place + few, other_place + few, len - few);
    let next = few_behind::<R, O, Q, P>(left);
    let same = agree_singly::<R, O, Q, P>(words, at, others, other_at, next);
    if same < next || next == left {
        return few + same;
    }
    let known = few + next;
    let (at, other_at) = (place + known, other_place + known);
    known + across::difference::<R, O, Q, P>(words, at, others, other_at, len - known)
}
