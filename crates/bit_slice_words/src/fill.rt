//! Bits made all the same.

ghost use Rattle.std.specs.Prelude.{◌≡◌};
ghost use Rattle.bit_addressing_memory.specs.Prelude.{Lies, read_by, touched, Overwrites};

use crate::change::change_in;
use bit_addressing_memory::{BitOrder, BitRegister};
use bit_slice_paths::combining::CopyOp;

/// Makes `len` bits of a memory, those from `place` on, `bit`. They lie in the memory, and `place + len` fits a
/// `usize`. Every other bit of the memory stays, also in the words that hold the first and the last of them.
///
/// What `fill` of a bitvec slice does.
pub fn fill_in<R: BitRegister, O: BitOrder<R>>(words: &mut [R], place: usize, len: usize, bit: bool)
    requires lies { Lies R.BITS words.old place len }
    ensures filled { Overwrites (read_by R.BitRegister O.position) words.old words.new place len (λ _. bit) }
{
    fill_counted::<R, O>(words, place, len, bit);
}

/// `fill_in`, which answers how many words it wrote: each that holds one of the bits, once.
pub fn fill_counted<R: BitRegister, O: BitOrder<R>>(
    words: &mut [R],
    place: usize,
    len: usize,
    bit: bool,
) -> usize
    requires lies { Lies R.BITS words.old place len }
    ensures filled { Overwrites (read_by R.BitRegister O.position) words.old words.new place len (λ _. bit) }
    ensures writes { result ≡ touched R.BITS place len }
{
    change_in::<CopyOp, R, O>(words, place, len, bit)
}
