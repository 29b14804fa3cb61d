//! Bits flipped.

ghost use Rattle.std.specs.Prelude.{◌+◌, not};
ghost use Rattle.bit_addressing_memory.specs.Prelude.{Lies, entry, read_by, Overwrites};

use crate::change::change_in;
use bit_addressing_memory::{BitOrder, BitRegister};
use bit_slice_paths::combining::XorOp;

/// Flips `len` bits of a memory, those from `place` on. They lie in the memory, and `place + len` fits a
/// `usize`. Every other bit of the memory stays.
///
/// What `!` of a writable bitvec slice does.
pub fn not_in<R: BitRegister, O: BitOrder<R>>(words: &mut [R], place: usize, len: usize)
    requires lies { Lies R.BITS words.old place len }
    ensures flipped { Overwrites (read_by R.BitRegister O.position) words.old words.new place len
        (λ k. not (entry (read_by R.BitRegister O.position) words.old (place + k))) }
{
    change_in::<XorOp, R, O>(words, place, len, true);
}
