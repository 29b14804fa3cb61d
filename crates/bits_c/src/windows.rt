//! Whether a window lies in a memory: what a call asks before anything else, since nothing proves it of a caller in C.

ghost use Rattle.std.specs.Prelude.{◌≡◌, ◌↔◌, IfSome, IsSome, IsTrue, length};
ghost use Rattle.bit_addressing_memory.specs.Memory.{read_by};
ghost use Rattle.bit_slice_views.specs.View.{view_bits};
ghost use Rattle.bits_c.specs.Windows.{Lies, window};

use bit_addressing_memory::{BitOrder, BitRegister, mem};
use bit_slice_views::{BitSlice, MAX_BITS};

// Whether the `len` bits from `start` on lie in the words.
pub(crate) fn lies<T: BitRegister, O: BitOrder<T>>(words: &[T], start: usize, len: usize) -> bool
    ensures { IsTrue result ↔ Lies (read_by T.BitRegister O.position) words.now start len }
{
    let all = words.len().saturating_mul(mem::bits_of::<T>());
    all <= MAX_BITS && start <= all && len <= all - start
}

// These bits, or `None` where they do not.
pub(crate) fn window_of<T: BitRegister, O: BitOrder<T>>(
    words: &[T],
    start: usize,
    len: usize,
) -> Option<BitSlice<'_, T, O>>
    ensures variant { IsSome result ↔ Lies (read_by T.BitRegister O.position) words.now start len }
    ensures bits { IfSome result (λ view. view_bits (read_by T.BitRegister O.position) view
        ≡ window (read_by T.BitRegister O.position) words.now start len) }
    ensures len { IfSome result (λ view. length (view_bits (read_by T.BitRegister O.position) view) ≡ len) }
{
    if !lies::<T, O>(words, start, len) {
        return None;
    }
    Some(BitSlice::from_place(words, start, len))
}
