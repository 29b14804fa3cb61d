//! Bits put in and taken out in the middle of a vector.

ghost use Rattle.std.specs.Prelude.{◌≡◌, ◌+◌, ◌-◌, ◌%◌, ◌<◌, ◌≤◌, drop, false, length, slice_index_or, IsOk, IfOk, OnOk, OnErr};
ghost use Rattle.std.specs.List.{insert, remove, swap_remove};
ghost use Rattle.bit_addressing_memory.specs.Memory.{read_by};
ghost use Rattle.bit_addressing_span.specs.declared.span.TheConstants.{MAX_BITS};
ghost use Rattle.bit_containers_vector.specs.Grown.{HoldsAlone};
ghost use Rattle.bit_containers_vector.specs.Vector.{vec_bits, vec_head, room, HasRoomFor, IsAsBefore, Shortens};

use crate::vector::BitVec;
use bit_addressing_memory::{BitOrder, BitRegister};
use bit_slice_views::{BitSlice, BitStore, Bits};
use bit_slice_views_mut::BitsMut;
use std::alloc::AllocError;

#[tactic(auto, using(crate::proofs::EditLemmas::edits))]
impl<T: BitStore, O: BitOrder<T>> BitVec<T, O> {
    /// Puts a bit in at an index, where the bits from there on move one place towards the end. The index may be the
    /// length.
    ///
    /// A refusal leaves all as it was.
    pub fn insert(&mut self, index: usize, bit: bool) -> Result<(), AllocError>
        requires inside { index ≤ length (vec_bits (read_by T.BitRegister O.position) self.old) }
        requires most { length (vec_bits (read_by T.BitRegister O.position) self.old) + 1 ≤ MAX_BITS }
        ensures bits { OnOk result (vec_bits (read_by T.BitRegister O.position) self.new
            ≡ insert (vec_bits (read_by T.BitRegister O.position) self.old) index bit) }
        ensures head { vec_head self.new ≡ vec_head self.old }
        ensures err { OnErr result (IsAsBefore (read_by T.BitRegister O.position) self.old self.new) }
        ensures succeeds { HasRoomFor (read_by T.BitRegister O.position) self.old 1 → IsOk result }
        ensures room { room (read_by T.BitRegister O.position) self.old
            ≤ room (read_by T.BitRegister O.position) self.new }
    {
        let len = self.len();
        self.push(bit)?;
        self.move_within(index, index + 1, len - index);
        self.set(index, bit);
        Ok(())
    }

    /// Takes the bit at an index out, and answers it. The bits behind it move one place towards the front.
    pub fn remove(&mut self, index: usize) -> bool
        requires { index < length (vec_bits (read_by T.BitRegister O.position) self.old) }
        ensures value { result ≡ slice_index_or (vec_bits (read_by T.BitRegister O.position) self.old) index false }
        ensures bits { vec_bits (read_by T.BitRegister O.position) self.new
            ≡ remove (vec_bits (read_by T.BitRegister O.position) self.old) index }
        ensures head { vec_head self.new ≡ vec_head self.old }
        ensures room { room (read_by T.BitRegister O.position) self.new
            ≡ room (read_by T.BitRegister O.position) self.old }
    {
        let bit = self.bit(index);
        let last = self.len() - 1;
        self.move_within(index + 1, index, last - index);
        self.truncate(last);
        bit
    }

    /// Takes the bit at an index out, and answers it. The last bit takes its place.
    pub fn swap_remove(&mut self, index: usize) -> bool
        requires { index < length (vec_bits (read_by T.BitRegister O.position) self.old) }
        ensures value { result ≡ slice_index_or (vec_bits (read_by T.BitRegister O.position) self.old) index false }
        ensures bits { vec_bits (read_by T.BitRegister O.position) self.new
            ≡ swap_remove (vec_bits (read_by T.BitRegister O.position) self.old) index false }
        ensures head { vec_head self.new ≡ vec_head self.old }
        ensures room { room (read_by T.BitRegister O.position) self.new
            ≡ room (read_by T.BitRegister O.position) self.old }
    {
        let last = self.len() - 1;
        let end = self.bit(last);
        let bit = self.replace(index, end);
        self.truncate(last);
        bit
    }

    /// Takes the bits from an index on out, and answers them as a vector whose head is the index of the first of them
    /// in its word.
    ///
    /// A refusal leaves all as it was.
    pub fn split_off(&mut self, index: usize) -> Result<BitVec<T, O>, AllocError>
        requires { index ≤ length (vec_bits (read_by T.BitRegister O.position) self.old) }
        ensures ok { IfOk result (λ rest. HoldsAlone (read_by T.BitRegister O.position) rest
            ((vec_head self.old + index) % T.BITS)
            (drop index (vec_bits (read_by T.BitRegister O.position) self.old))) }
        ensures cut { OnOk result (Shortens (read_by T.BitRegister O.position) self.old self.new index) }
        ensures err { OnErr result (self.new ≡ self.old) }
    {
        let rest = self.copy_from_index(index)?;
        self.truncate(index);
        Ok(rest)
    }

    // The bits from an index on, as a vector of its own.
    fn copy_from_index(&self, index: usize) -> Result<BitVec<T, O>, AllocError>
        requires { index ≤ length (vec_bits (read_by T.BitRegister O.position) self.now) }
        ensures { IfOk result (λ rest. HoldsAlone (read_by T.BitRegister O.position) rest
            ((vec_head self.now + index) % T.BITS)
            (drop index (vec_bits (read_by T.BitRegister O.position) self.now))) }
    {
        let place = self.head + index;
        let rest = BitSlice::<T, O>::from_place(self.words.as_slice(), place, self.len - index);
        BitVec::from_bitslice(*self.words.allocator(), rest)
    }
}
