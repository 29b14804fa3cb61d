//! Two stretches of one memory exchanged.

ghost use Rattle.std.specs.Prelude.{◌+◌, ◌≤◌};
ghost use Rattle.bit_addressing_memory.specs.Prelude.{Lies, read_by, Swaps};

use bit_addressing_memory::{BitOrder, BitRegister, BulkOp, bit_loop_limit, swap_within};
use bit_slice_paths::exchange;

/// Exchanges `len` bits of a memory, those from `first` on, with those from `second` on. The first stretch ends before
/// the second begins, which lies in the memory, and its end fits a `usize`. Every other bit stays.
///
/// It does what `swap_within` of `bit_addressing_memory` does: a few bits as that call does, one by one, and more by chunks
/// of 64, but for orders that turn no word quickly.
pub fn exchange_in<R: BitRegister, O: BitOrder<R>>(
    words: &mut [R],
    first: usize,
    second: usize,
    len: usize,
)
    requires apart { first + len ≤ second }
    requires lies { Lies R.BITS words.old second len }
    ensures swapped { Swaps (read_by R.BitRegister O.position) words.old words.new first second len }
{
    if len <= bit_loop_limit::<R, O>(BulkOp::SwapWithin) {
        swap_within::<R, O>(words, first, second, len);
        return;
    }
    exchange::exchange::<R, O>(words, first, second, len);
}
