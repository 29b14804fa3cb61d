//! Bits of a window copied inside it, and exchanged with those of another.

ghost use Rattle.std.specs.Prelude.{◌≡◌, ◌+◌, ◌-◌, ◌*◌, ◌≤◌, length};
ghost use Rattle.bit_addressing_memory.specs.Memory.{memory, piece, read_by, with_piece};

use crate::edits::BitsEdits;
use crate::parts::BitsParts;
use bit_addressing_memory::mem::bits_of;
use bit_addressing_memory::{
    BitOrder, BitRegister, BulkOp, Lsb0, SWAPPED_BY_WORDS, bit_loop_limit_of_two, direction_of,
    goes,
};
use bit_slice_views_mut::{BitRange, BitSlice, Bits, BitsMut, copy_in};

/// The copies of a window that no single lower call makes: of every `BitsMut`.
pub trait BitsCopy: BitsMut {
    /// Copies the bits of a range to the places from `dest` on, overlap allowed. The range and the places have to lie
    /// in the window.
    final fn copy_within<I: BitRange + Drop>(&mut self, range: I, dest: usize)
        requires ordered { I.start range ≤ I.end range (length (Self.bits self.old)) }
        requires source { I.end range (length (Self.bits self.old)) ≤ length (Self.bits self.old) }
        requires target { dest + (I.end range (length (Self.bits self.old)) - I.start range)
            ≤ length (Self.bits self.old) }
        ensures bits { Self.bits self.new ≡ with_piece (Self.bits self.old) dest
            (piece (Self.bits self.old) (I.start range)
            (I.end range (length (Self.bits self.old)) - I.start range)) }
        ensures len { length (Self.bits self.new) ≡ length (Self.bits self.old) }
        ensures frame { Self.frame self.new ≡ Self.frame self.old }
    {
        let len = self.len();
        let (from, count) = place_in(&range, len);
        self.move_within(from, dest, count);
    }

    /// What `copy_within` does.
    final fn copy_within_unchecked<I: BitRange + Drop>(&mut self, range: I, dest: usize)
        requires ordered { I.start range ≤ I.end range (length (Self.bits self.old)) }
        requires source { I.end range (length (Self.bits self.old)) ≤ length (Self.bits self.old) }
        requires target { dest + (I.end range (length (Self.bits self.old)) - I.start range)
            ≤ length (Self.bits self.old) }
        ensures bits { Self.bits self.new ≡ with_piece (Self.bits self.old) dest
            (piece (Self.bits self.old) (I.start range)
            (I.end range (length (Self.bits self.old)) - I.start range)) }
        ensures len { length (Self.bits self.new) ≡ length (Self.bits self.old) }
        ensures frame { Self.frame self.new ≡ Self.frame self.old }
    {
        self.copy_within(range, dest);
    }

    /// Exchanges the bits with those of another window as long, whatever its words and their order.
    final fn swap_with_bitslice<W: BitsMut>(&mut self, other: &mut W)
        requires { length (W.bits other.old) ≡ length (Self.bits self.old) }
        ensures bits { Self.bits self.new ≡ W.bits other.old }
        ensures len { length (Self.bits self.new) ≡ length (Self.bits self.old) }
        ensures frame { Self.frame self.new ≡ Self.frame self.old }

        // And the other window's.
        ensures other_bits { W.bits other.new ≡ Self.bits self.old }
        ensures other_len { length (W.bits other.new) ≡ length (W.bits other.old) }
        ensures other_frame { W.frame other.new ≡ W.frame other.old }
    {
        let few = bit_loop_limit_of_two::<Self::Store, Self::Order, W::Store, W::Order>(
            BulkOp::Swap,
        );
        if self.len() <= few {
            swap_singly(self, other);
        } else if go_by_words::<Self, W>(self.len()) {
            swap_by_words(self, other);
        } else {
            swap_by_chunks(self, other);
        }
    }

    /// Another name of `swap_with_bitslice`.
    final fn swap_with_slice<W: BitsMut>(&mut self, other: &mut W)
        requires { length (W.bits other.old) ≡ length (Self.bits self.old) }
        ensures bits { Self.bits self.new ≡ W.bits other.old }
        ensures len { length (Self.bits self.new) ≡ length (Self.bits self.old) }
        ensures frame { Self.frame self.new ≡ Self.frame self.old }

        // And the other window's.
        ensures other_bits { W.bits other.new ≡ Self.bits self.old }
        ensures other_len { length (W.bits other.new) ≡ length (W.bits other.old) }
        ensures other_frame { W.frame other.new ≡ W.frame other.old }
    {
        self.swap_with_bitslice(other);
    }
}

impl<V: BitsMut> BitsCopy for V {}

// How many words hold bits of a window while others are written over them, and how many bits they have.
const HELD: usize = 16;

const HELD_BITS: usize = 1024;

// `swap_with_bitslice`, bit by bit.
#[inline(always)]
fn swap_singly<V: BitsMut, W: BitsMut>(view: &mut V, other: &mut W)
    requires { length (W.bits other.old) ≡ length (V.bits view.old) }
    ensures bits { V.bits view.new ≡ W.bits other.old }
    ensures len { length (V.bits view.new) ≡ length (V.bits view.old) }
    ensures frame { V.frame view.new ≡ V.frame view.old }
    ensures other_bits { W.bits other.new ≡ V.bits view.old }
    ensures other_len { length (W.bits other.new) ≡ length (W.bits other.old) }
    ensures other_frame { W.frame other.new ≡ W.frame other.old }
{
    let len = view.len();
    for i in 0..len {
        let was = view.bit(i);
        let bit = other.replace(i, was);
        view.set(i, bit);
    }
}

// Whether windows of so many bits have many words, all of as many bits, whose positions go straight in one direction.
#[inline(always)]
fn go_by_words<V: BitsMut, W: BitsMut>(len: usize) -> bool {
    if len < SWAPPED_BY_WORDS * bits_of::<V::Store>() {
        return false;
    }
    match direction_of::<V::Store, V::Order>() {
        Some(direction) => {
            V::Store::BITS == W::Store::BITS && goes::<W::Store, W::Order>(direction)
        }
        None => false,
    }
}

// `swap_with_bitslice`: bits that differ are flipped in both. Of words that are alike three combinations cost less than
// three copies, one of them to words beside the windows.
fn swap_by_words<V: BitsMut, W: BitsMut>(view: &mut V, other: &mut W)
    requires { length (W.bits other.old) ≡ length (V.bits view.old) }
    ensures bits { V.bits view.new ≡ W.bits other.old }
    ensures len { length (V.bits view.new) ≡ length (V.bits view.old) }
    ensures frame { V.frame view.new ≡ V.frame view.old }
    ensures other_bits { W.bits other.new ≡ V.bits view.old }
    ensures other_len { length (W.bits other.new) ≡ length (W.bits other.old) }
    ensures other_frame { W.frame other.new ≡ W.frame other.old }
{
    view.xor_bits(other);
    other.xor_bits(view);
    view.xor_bits(other);
}

// `swap_with_bitslice`, by parts of 1,024 bits. Out of line, since the words that hold them are cleared where they stand.
#[inline(never)]
fn swap_by_chunks<V: BitsMut, W: BitsMut>(view: &mut V, other: &mut W)
    requires { length (W.bits other.old) ≡ length (V.bits view.old) }
    ensures bits { V.bits view.new ≡ W.bits other.old }
    ensures len { length (V.bits view.new) ≡ length (V.bits view.old) }
    ensures frame { V.frame view.new ≡ V.frame view.old }
    ensures other_bits { W.bits other.new ≡ V.bits view.old }
    ensures other_len { length (W.bits other.new) ≡ length (W.bits other.old) }
    ensures other_frame { W.frame other.new ≡ W.frame other.old }
{
    let len = view.len();
    let mut held = [0u64; HELD];
    for k in 0..len / HELD_BITS {
        swap_held::<V, W, u64, Lsb0>(view, other, HELD_BITS * k, HELD_BITS, &mut held);
    }
    let done = len / HELD_BITS * HELD_BITS;
    swap_held::<V, W, u64, Lsb0>(view, other, done, len - done, &mut held);
}

// Exchanges up to 1,024 bits of two windows, from an index on. The words of the memory `held` have those of the first
// window meanwhile.
fn swap_held<V: BitsMut, W: BitsMut, R: BitRegister, O: BitOrder<R>>(
    view: &mut V,
    other: &mut W,
    at: usize,
    count: usize,
    held: &mut [R],
)
    requires few { count ≤ 1024 }
    requires within { at + count ≤ length (V.bits view.old) }
    requires other_within { at + count ≤ length (W.bits other.old) }
    requires room { count ≤ length held.old * R.BITS }
    ensures bits { V.bits view.new ≡ with_piece (V.bits view.old) at (piece (W.bits other.old) at count) }
    ensures len { length (V.bits view.new) ≡ length (V.bits view.old) }
    ensures frame { V.frame view.new ≡ V.frame view.old }
    ensures other_bits { W.bits other.new ≡ with_piece (W.bits other.old) at (piece (V.bits view.old) at count) }
    ensures other_len { length (W.bits other.new) ≡ length (W.bits other.old) }
    ensures other_frame { W.frame other.new ≡ W.frame other.old }
    ensures held { length held.new ≡ length held.old }
{
    hold::<V, R, O>(view, at, count, held);
    view.write_part(at, &other.part(at, count));
    other.write_part(at, &BitSlice::<R, O>::from_place(held, 0, count));
}

// Makes the first bits of a memory `count` bits of a window, from an index on.
pub(crate) fn hold<V: Bits, R: BitRegister, O: BitOrder<R>>(
    view: &V,
    at: usize,
    count: usize,
    held: &mut [R],
)
    requires few { count ≤ 1024 }
    requires within { at + count ≤ length (V.bits view.now) }
    requires room { count ≤ length held.old * R.BITS }
    ensures bits { piece (memory (read_by R.BitRegister O.position) held.new) 0 count
        ≡ piece (V.bits view.now) at count }
    ensures held { length held.new ≡ length held.old }
{
    let (words, head, _) = view.part(at, count).parts();
    copy_in::<V::Store, V::Order, R, O>(words, head as usize, held, 0, count);
}

// Where a range of a list of `len` begins, and how many it has.
pub(crate) fn place_in<I: BitRange>(range: &I, len: usize) -> (usize, usize)
    requires ordered { I.start range.now ≤ I.end range.now len }
    requires within { I.end range.now len ≤ len }
    ensures from { result.0 ≡ I.start range.now }
    ensures count { result.1 ≡ I.end range.now len - I.start range.now }
{
    match range.ends_in(len) {
        Some((from, upto)) => (from, upto - from),
        None => (0, 0),
    }
}
