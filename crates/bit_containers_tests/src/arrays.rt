//! Callers of arrays of bits, each with a contract that follows from those of its calls.

ghost use Rattle.std.specs.Prelude.{◌≡◌, ◌&&◌, ◌*◌, ◌-◌, ◌<◌, ◌≤◌, IfSome, IsSome, ◌↔◌, false, true, length};
ghost use Rattle.std.specs.Prelude.{map, min, not, replicate, reverse, slice_index_or, slice_set};
ghost use Rattle.bit_addressing_memory.specs.Memory.{memory, piece, read_by, with_piece};
ghost use Rattle.bit_addressing_span.specs.declared.span.TheConstants.{MAX_BITS};
ghost use Rattle.bit_containers_array.specs.Array.{array_bits};
ghost use Rattle.bit_slice_views_mut.specs.Combined.{combined};

use bit_addressing_memory::{BitOrder, BitRegister, Msb0, write_entry};
use bit_containers_array::{BitArray, BitArrayZero, BitsOwned};
use bit_slice_views::{BitViewSized, Bits};
use bit_slice_views_mut::BitsMut;
use bit_slice_words::WordPaths;

/// Two bits of an array set: its list is known.
pub fn set_two<A: BitViewSized, O: BitOrder<A::Store>>(
    array: &mut BitArray<A, O>,
    first: usize,
    second: usize,
)
    requires short { A.COUNT * A.Store.BITS ≤ MAX_BITS }
    requires first { first < A.COUNT * A.Store.BITS }
    requires second { second < A.COUNT * A.Store.BITS }
    ensures { array_bits (read_by A.Store.BitRegister O.position) A.words array.new
        ≡ slice_set (slice_set (array_bits (read_by A.Store.BitRegister O.position) A.words array.old) first true)
        second true }
{
    let _ = array.len();
    array.set(first, true);
    array.set(second, true);
}

/// One bit of an array that had none: its list is known from nothing.
pub fn one_bit<A: BitViewSized, O: BitOrder<A::Store>>(i: usize) -> BitArray<A, O>
    requires { i < min (A.COUNT * A.Store.BITS) MAX_BITS }
    ensures { array_bits (read_by A.Store.BitRegister O.position) A.words result
        ≡ slice_set (replicate (min (A.COUNT * A.Store.BITS) MAX_BITS) false) i true }
{
    let mut array = BitArray::<A, O>::default();
    array.set(i, true);
    array
}

/// The same at one type.
pub fn one_bit_of_16(i: usize) -> BitArray<[u8; 2], Msb0>
    requires { i < 16 }
    ensures { array_bits (read_by ⟦<u8 as BitRegister>⟧ (⟦<Msb0 as BitOrder<u8>>⟧.position)) (λ words. words) result
        ≡ slice_set (replicate 16 false) i true }
{
    one_bit::<[u8; 2], Msb0>(i)
}

/// The first bits moved on by one place, and all bits turned round.
pub fn moved_and_turned<A: BitViewSized, O: BitOrder<A::Store>>(array: &mut BitArray<A, O>)
    requires { 8 ≤ length (array_bits (read_by A.Store.BitRegister O.position) A.words array.old) }
    ensures { array_bits (read_by A.Store.BitRegister O.position) A.words array.new
        ≡ reverse (with_piece (array_bits (read_by A.Store.BitRegister O.position) A.words array.old) 1
        (piece (array_bits (read_by A.Store.BitRegister O.position) A.words array.old) 0 7)) }
{
    array.move_within(0, 1, 7);
    array.reverse();
}

/// The array without a bit set, as the constant that it is.
pub fn no_bits<A: BitViewSized, O: BitOrder<A::Store>>() -> BitArray<A, O>
    ensures { result.words ≡ A.ZERO }
{
    BitArray::<A, O>::ZERO
}

/// The bits that are in one list and not in another.
pub fn without<A: BitViewSized, O: WordPaths<A::Store>>(
    array: BitArray<A, O>,
    other: BitArray<A, O>,
) -> BitArray<A, O>
    ensures { array_bits (read_by A.Store.BitRegister O.position) A.words result
        ≡ combined (λ a b. a && b) (array_bits (read_by A.Store.BitRegister O.position) A.words array)
        (map not (array_bits (read_by A.Store.BitRegister O.position) A.words other)) }
{
    array & !other
}

/// The last bit, taken off the end.
pub fn last_of<A: BitViewSized, O: BitOrder<A::Store>>(array: BitArray<A, O>) -> Option<bool>
    ensures variant { IsSome result
        ↔ (0 < length (array_bits (read_by A.Store.BitRegister O.position) A.words array)) }
    ensures value { IfSome result (λ bit. bit
        ≡ slice_index_or (array_bits (read_by A.Store.BitRegister O.position) A.words array)
        (length (array_bits (read_by A.Store.BitRegister O.position) A.words array) - 1) false) }
{
    array.into_iter().next_back()
}

// The first bit of some words set.
#[tactic(auto, using(bit_addressing_memory::proofs::MemoryLemmas::memory_written))]
fn set_first<T: BitRegister, O: BitOrder<T>>(words: &mut [T])
    requires { 0 < length words.old * T.BITS }
    ensures bits { memory (read_by T.BitRegister O.position) words.new
        ≡ slice_set (memory (read_by T.BitRegister O.position) words.old) 0 true }
    ensures count { length words.new ≡ length words.old }
{
    write_entry::<T, O>(words, 0, true);
}

/// The words of whatever owns its bits, written by themselves.
pub fn set_first_by_words<V: BitsOwned>(owned: &mut V)
    requires { 0 < length (V.words owned.old) * V.Store.BITS }
    ensures { memory (read_by V.Store.BitRegister V.Order.position) (V.words owned.new)
        ≡ slice_set (memory (read_by V.Store.BitRegister V.Order.position) (V.words owned.old)) 0 true }
{
    set_first::<V::Store, V::Order>(owned.as_raw_mut_slice());
}
