//! How many bits a vector has, and how many it has memory for.

ghost use Rattle.std.specs.Prelude.{◌≡◌, ◌+◌, ◌-◌, ◌*◌, ◌^◌, ◌<◌, ◌≤◌, ◌++◌, [], length, min, replicate, take, IsOk, OnOk, OnErr};
ghost use Rattle.bit_addressing_memory.specs.Memory.{read_by};
ghost use Rattle.bit_addressing_span.specs.declared.span.TheConstants.{MAX_BITS};
ghost use Rattle.bit_containers_vector.specs.Grown.{Extends};
ghost use Rattle.bit_containers_vector.specs.Vector.{vec_bits, vec_head, visible, room, HasRoomFor, IsAsBefore, IsSame};
ghost use Rattle.bit_containers_vector.specs.Vector.{Shortens, Shows};

use crate::vector::BitVec;
use crate::words::{fill, words_taken};
use bit_addressing_memory::{BitOrder, BitRegister, mem};
use bit_slice_views::BitStore;
use std::alloc::AllocError;

#[tactic(auto, using(crate::proofs::VectorLemmas::unchanged))]
impl<T: BitStore, O: BitOrder<T>> BitVec<T, O> {
    // ---- memory

    /// How many bits it can have before it takes memory: those of the words that its memory is for, less the head.
    ///
    /// Where their number passes `usize::MAX`, the answer is `usize::MAX`.
    pub fn capacity(&self) -> usize
        ensures { result ≡ min (room (read_by T.BitRegister O.position) self.now) (2 ^ 64 - 1) }
    {
        let bits = self.words.capacity() as u128 * mem::bits_of::<T>() as u128 - self.head as u128;
        bits.min(usize::MAX as u128) as usize
    }

    /// Makes room for `more` bits behind those that there are.
    ///
    /// A refusal leaves all as it was, and the room that there is too.
    pub fn reserve(&mut self, more: usize) -> Result<(), AllocError>
        requires { length (vec_bits (read_by T.BitRegister O.position) self.old) + more ≤ MAX_BITS }
        ensures ok { OnOk result (HasRoomFor (read_by T.BitRegister O.position) self.new more) }
        ensures same { IsAsBefore (read_by T.BitRegister O.position) self.old self.new }
        ensures succeeds { HasRoomFor (read_by T.BitRegister O.position) self.old more → IsOk result }
    {
        let need = words_taken::<T>(self.head + self.len + more);
        self.words.reserve(need.saturating_sub(self.words.len()))
    }

    /// Makes room for `more` bits behind those that there are, and asks for no more words than they need.
    ///
    /// A refusal leaves all as it was, and the room that there is too.
    pub fn reserve_exact(&mut self, more: usize) -> Result<(), AllocError>
        requires { length (vec_bits (read_by T.BitRegister O.position) self.old) + more ≤ MAX_BITS }
        ensures ok { OnOk result (HasRoomFor (read_by T.BitRegister O.position) self.new more) }
        ensures same { IsAsBefore (read_by T.BitRegister O.position) self.old self.new }
        ensures succeeds { HasRoomFor (read_by T.BitRegister O.position) self.old more → IsOk result }
    {
        let need = words_taken::<T>(self.head + self.len + more);
        self.words
            .reserve_exact(need.saturating_sub(self.words.len()))
    }

    /// Gives back memory that no visible word needs, as far as the source of memory takes it.
    pub fn shrink_to_fit(&mut self) -> Result<(), AllocError>
        ensures done { IsOk result }
        ensures same { IsSame (read_by T.BitRegister O.position) self.old self.new }
        ensures room { room (read_by T.BitRegister O.position) self.new
            ≤ room (read_by T.BitRegister O.position) self.old }
    {
        self.words.truncate(words_taken::<T>(self.head + self.len));
        self.words.shrink_to_fit();
        Ok(())
    }

    // ---- length

    /// Leaves the first `len` bits, or all where there are no more. What is cut stays as dead bits in words that stay
    /// visible.
    pub fn truncate(&mut self, len: usize)
        ensures { Shortens (read_by T.BitRegister O.position) self.old self.new len }
    {
        if len < self.len {
            self.len = len;
        }
    }

    /// Leaves no bits, as `truncate` does.
    pub fn clear(&mut self)
        ensures { Shortens (read_by T.BitRegister O.position) self.old self.new 0 }
    {
        self.truncate(0);
    }

    /// Makes the list `len` bits long, where that many lie in the visible words: it ends sooner, or with dead bits.
    pub fn set_len(&mut self, len: usize)
        requires shown { vec_head self.old + len
            ≤ length (visible (read_by T.BitRegister O.position) self.old) * T.BITS }
        requires short { len ≤ MAX_BITS }
        ensures { Shows (read_by T.BitRegister O.position) self.old self.new len }
    {
        self.len = len;
    }

    /// Makes the list `len` bits long: it is cut as by `truncate`, or `bit` comes behind it as often as it needs.
    ///
    /// A refusal leaves all as it was.
    pub fn resize(&mut self, len: usize, bit: bool) -> Result<(), AllocError>
        requires { len ≤ MAX_BITS }
        ensures longer { OnOk result (length (vec_bits (read_by T.BitRegister O.position) self.old) < len
            → Extends (read_by T.BitRegister O.position) self.old self.new
            (replicate (len - length (vec_bits (read_by T.BitRegister O.position) self.old)) bit)) }
        ensures shorter { OnOk result (len ≤ length (vec_bits (read_by T.BitRegister O.position) self.old)
            → Shortens (read_by T.BitRegister O.position) self.old self.new len) }
        ensures err { OnErr result (IsAsBefore (read_by T.BitRegister O.position) self.old self.new) }
        ensures succeeds { len ≤ room (read_by T.BitRegister O.position) self.old → IsOk result }
        ensures room { room (read_by T.BitRegister O.position) self.old
            ≤ room (read_by T.BitRegister O.position) self.new }
    {
        if len <= self.len {
            self.truncate(len);
            return Ok(());
        }
        let end = self.head + self.len;
        let more = len - self.len;
        self.lengthen(more)?;
        fill::<T, O>(&mut self.words, end, more, bit);
        Ok(())
    }
}
