//! Callers of windows, each with a contract that follows from those of its calls.

ghost use Rattle.std.specs.Prelude.{◌≡◌, ◌+◌, ◌*◌, ◌^◌, ◌<◌, ◌≤◌, ◌↔◌, length, replicate, slice_set, true, false};
ghost use Rattle.std.specs.Prelude.{IsTrue};
ghost use Rattle.bit_addressing_memory.specs.Memory.{memory, piece, read_by, touched, with_piece};
ghost use Rattle.bit_slice_views_mut.specs.Frame.{KeepsBeside};
ghost use Rattle.bit_slice_views_mut.specs.Pair.{PairLies};

use bit_addressing_memory::{BitOrder, BitRegister, Lsb0, Msb0};
use bit_addressing_span::MAX_BITS;
use bit_slice_views::{BitSlice, Bits};
use bit_slice_views_mut::{BitSliceMut, BitsMut, BitsWindow, Pair};

/// A window of one's own words filled: its list is known, and every bit beside it is as it was, in a shared word too.
#[tactic(auto, using(bit_slice_views_mut::proofs::FrameLemmas::frames))]
pub fn fill_middle<T: BitRegister, O: BitOrder<T>>(words: &mut [T], place: usize, len: usize)
    requires short { len ≤ MAX_BITS }
    requires ends { place + len < 2 ^ 63 }
    requires fits { place + len ≤ length words.old * T.BITS }
    ensures list { piece (memory (read_by T.BitRegister O.position) words.new) place len ≡ replicate len true }
    ensures beside { KeepsBeside (read_by T.BitRegister O.position) words.old words.new place len }
{
    let mut view = BitSliceMut::<T, O>::from_place_mut(words, place, len);
    view.fill(true);
}

/// Both parts of a window, written in turn.
pub fn set_both<V: BitsWindow>(view: &mut V, mid: usize, left: usize, right: usize)
    requires within { mid ≤ length (V.bits view.old) }
    requires left { left < mid }
    requires right { mid + right < length (V.bits view.old) }
    ensures bits { V.bits view.new ≡ slice_set (slice_set (V.bits view.old) left true) (mid + right) true }
    ensures len { length (V.bits view.new) ≡ length (V.bits view.old) }
    ensures frame { V.frame view.new ≡ V.frame view.old }
{
    let mut pair = view.split_at_mut(mid);
    pair.left_mut().set(left, true);
    pair.right_mut().set(right, true);
}

/// The first part of a pair that was handed in, filled: what its calls ask is asked in one line.
pub fn fill_left<V: BitsWindow>(pair: &mut Pair<'_, V>)
    requires { PairLies V.Store.BITS V.words pair.old }
{
    pair.left_mut().fill(true);
}

/// Both parts of all bits of one's own words.
#[tactic(auto, using(bit_slice_views_mut::proofs::FrameLemmas::frames, bit_slice_views::proofs::ViewLemmas::views))]
pub fn set_both_in<T: BitRegister, O: BitOrder<T>>(
    words: &mut [T],
    mid: usize,
    left: usize,
    right: usize,
)
    requires small { length words.old * T.BITS ≤ MAX_BITS }
    requires within { mid ≤ length words.old * T.BITS }
    requires left { left < mid }
    requires right { mid + right < length words.old * T.BITS }
    ensures { memory (read_by T.BitRegister O.position) words.new
        ≡ slice_set (slice_set (memory (read_by T.BitRegister O.position) words.old) left true) (mid + right) true }
{
    let mut view = BitSliceMut::<T, O>::from_slice_mut(words);
    set_both(&mut view, mid, left, right);
}

/// Whether bytes and wider words, their bits counted from other ends, are the same list.
pub fn same_list(bytes: &[u8], others: &[u16]) -> bool
    requires small { length bytes.now * 8 ≤ MAX_BITS }
    requires others_small { length others.now * 16 ≤ MAX_BITS }
    ensures { IsTrue result ↔ (memory (read_by ⟦<u8 as BitRegister>⟧ (⟦<Lsb0 as BitOrder<u8>>⟧.position)) bytes.now
        ≡ memory (read_by ⟦<u16 as BitRegister>⟧ (⟦<Msb0 as BitOrder<u16>>⟧.position)) others.now) }
{
    let left = BitSlice::<u8, Lsb0>::from_slice(bytes);
    let right = BitSlice::<u16, Msb0>::from_slice(others);
    left.eq_bits(&right)
}

/// A move inside all bits of one's own words: what stands there then, and how many words were written.
#[tactic(auto, using(bit_slice_views_mut::proofs::FrameLemmas::frames, bit_slice_views::proofs::ViewLemmas::views))]
pub fn moved<T: BitRegister, O: BitOrder<T>>(words: &mut [T]) -> usize
    requires small { length words.old * T.BITS ≤ MAX_BITS }
    requires long { 40 ≤ length words.old * T.BITS }
    ensures moved { memory (read_by T.BitRegister O.position) words.new
        ≡ with_piece (memory (read_by T.BitRegister O.position) words.old) 3
        (piece (memory (read_by T.BitRegister O.position) words.old) 20 15) }
    ensures writes { result ≤ touched T.BITS 3 15 }
{
    let mut view = BitSliceMut::<T, O>::from_slice_mut(words);
    view.move_within(20, 3, 15)
}
