//! Bits in reverse.

ghost use Rattle.std.specs.Prelude.{◌+◌, ◌-◌};
ghost use Rattle.bit_addressing_memory.specs.Prelude.{Lies, entry, read_by, Overwrites};

use bit_addressing_memory::{BitOrder, BitRegister, BulkOp, bit_loop_limit, swap_entries};
use bit_slice_paths::mirror;

/// Turns `len` bits of a memory round, those from `place` on: the last comes first. They lie in the memory,
/// and `place + len` fits a `usize`. Every other bit of the memory stays.
///
/// What `reverse` of a bitvec slice does.
pub fn reverse_in<R: BitRegister, O: BitOrder<R>>(words: &mut [R], place: usize, len: usize)
    requires lies { Lies R.BITS words.old place len }
    ensures reversed { Overwrites (read_by R.BitRegister O.position) words.old words.new place len
        (λ k. entry (read_by R.BitRegister O.position) words.old (place + (len - 1 - k))) }
{
    if len <= bit_loop_limit::<R, O>(BulkOp::Reverse) {
        reverse_singly::<R, O>(words, place, len);
        return;
    }
    mirror::reverse::<R, O>(words, place, len);
}

// The same, bit by bit.
#[inline(always)]
#[tactic(auto, using(crate::proofs::MirrorLemmas::mirror_steps))]
fn reverse_singly<R: BitRegister, O: BitOrder<R>>(words: &mut [R], place: usize, len: usize)
    requires lies { Lies R.BITS words.old place len }
    ensures reversed { Overwrites (read_by R.BitRegister O.position) words.old words.new place len
        (λ k. entry (read_by R.BitRegister O.position) words.old (place + (len - 1 - k))) }
{
    for k in 0..len / 2 {
        swap_entries::<R, O>(words, place + k, place + (len - 1 - k));
    }
}
