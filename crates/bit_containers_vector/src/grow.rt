//! A vector of bits that grows at its end.

ghost use Rattle.std.specs.Prelude.{◌≡◌, ◌+◌, ◌-◌, ◌*◌, ◌<◌, ◌≤◌, ◌↔◌, ◌∷◌, ◌++◌, [], List, Bool, length, IsOk, OnOk, OnErr};
ghost use Rattle.std.specs.Prelude.{◌^◌, IsSome, IfSome};
ghost use Rattle.bit_addressing_memory.specs.Memory.{memory, piece, read_by};
ghost use Rattle.bit_addressing_span.specs.declared.span.TheConstants.{MAX_BITS};
ghost use Rattle.bit_containers_vector.specs.Gathered.{Gathers};
ghost use Rattle.bit_containers_vector.specs.Grown.{Extends, Lengthened};
ghost use Rattle.bit_containers_vector.specs.Vector.{vec_bits, room, HasRoomFor, IsAsBefore, Shortens};

use crate::vector::BitVec;
use crate::words::{copy, extend_words, put, shift};
use bit_addressing_memory::{BitOrder, BitRegister, Lsb0, mem};
use bit_slice_views::{BitRange, BitStore, Bits};
use std::alloc::AllocError;

impl<T: BitStore, O: BitOrder<T>> BitVec<T, O> {
    // Makes the list `more` bits longer, by dead bits and by bits of words that are zero.
    pub(crate) fn lengthen(&mut self, more: usize) -> Result<(), AllocError>
        requires { length (vec_bits (read_by T.BitRegister O.position) self.old) + more ≤ MAX_BITS }
        ensures ok { OnOk result (Lengthened (read_by T.BitRegister O.position) T.ZERO self.old self.new more) }
        ensures err { OnErr result (IsAsBefore (read_by T.BitRegister O.position) self.old self.new) }
        ensures succeeds { HasRoomFor (read_by T.BitRegister O.position) self.old more → IsOk result }
        ensures room { room (read_by T.BitRegister O.position) self.old
            ≤ room (read_by T.BitRegister O.position) self.new }
    {
        let end = self.head + self.len;
        extend_words::<T>(&mut self.words, end, end + more)?;
        self.len += more;
        Ok(())
    }

    /// Adds a bit at the end.
    ///
    /// It takes memory where there is no room for a bit more, and a refusal leaves all as it was.
    #[inline]
    pub fn push(&mut self, bit: bool) -> Result<(), AllocError>
        requires { length (vec_bits (read_by T.BitRegister O.position) self.old) + 1 ≤ MAX_BITS }
        ensures ok { OnOk result (Extends (read_by T.BitRegister O.position) self.old self.new (bit ∷ [])) }
        ensures err { OnErr result (IsAsBefore (read_by T.BitRegister O.position) self.old self.new) }
        ensures succeeds { HasRoomFor (read_by T.BitRegister O.position) self.old 1 → IsOk result }
        ensures room { room (read_by T.BitRegister O.position) self.old
            ≤ room (read_by T.BitRegister O.position) self.new }
    {
        let end = self.head + self.len;
        let index = end % mem::bits_of::<T>();
        let word = end / mem::bits_of::<T>();

        // Most bits come into the last word, behind others.
        if index == 0 || word + 1 != self.words.len() {
            return self.push_word(bit);
        }
        self.len += 1;
        put::<T, O>(&mut self.words, end, bit);
        Ok(())
    }

    // What `push` does where the words that it leaves may be others.
    #[inline(never)]
    fn push_word(&mut self, bit: bool) -> Result<(), AllocError>
        requires { length (vec_bits (read_by T.BitRegister O.position) self.old) + 1 ≤ MAX_BITS }
        ensures ok { OnOk result (Extends (read_by T.BitRegister O.position) self.old self.new (bit ∷ [])) }
        ensures err { OnErr result (IsAsBefore (read_by T.BitRegister O.position) self.old self.new) }
        ensures succeeds { HasRoomFor (read_by T.BitRegister O.position) self.old 1 → IsOk result }
        ensures room { room (read_by T.BitRegister O.position) self.old
            ≤ room (read_by T.BitRegister O.position) self.new }
    {
        let end = self.head + self.len;
        self.lengthen(1)?;
        put::<T, O>(&mut self.words, end, bit);
        Ok(())
    }

    /// Adds the bits of a list at the end, whatever its words and their order.
    ///
    /// A refusal leaves all as it was.
    pub fn extend_from_bitslice<V: Bits>(&mut self, other: &V) -> Result<(), AllocError>
        requires { length (vec_bits (read_by T.BitRegister O.position) self.old) + length (V.bits other.now)
            ≤ MAX_BITS }
        ensures ok { OnOk result (Extends (read_by T.BitRegister O.position) self.old self.new (V.bits other.now)) }
        ensures err { OnErr result (IsAsBefore (read_by T.BitRegister O.position) self.old self.new) }
        ensures succeeds { HasRoomFor (read_by T.BitRegister O.position) self.old (length (V.bits other.now))
            → IsOk result }
        ensures room { room (read_by T.BitRegister O.position) self.old
            ≤ room (read_by T.BitRegister O.position) self.new }
    {
        let (words, head, len) = other.as_bitslice().parts();
        self.extend_from_words::<V::Store, V::Order>(words, head as usize, len)
    }

    /// Another name of `extend_from_bitslice`.
    pub fn extend_from_slice<V: Bits>(&mut self, other: &V) -> Result<(), AllocError>
        requires { length (vec_bits (read_by T.BitRegister O.position) self.old) + length (V.bits other.now)
            ≤ MAX_BITS }
        ensures ok { OnOk result (Extends (read_by T.BitRegister O.position) self.old self.new (V.bits other.now)) }
        ensures err { OnErr result (IsAsBefore (read_by T.BitRegister O.position) self.old self.new) }
        ensures succeeds { HasRoomFor (read_by T.BitRegister O.position) self.old (length (V.bits other.now))
            → IsOk result }
        ensures room { room (read_by T.BitRegister O.position) self.old
            ≤ room (read_by T.BitRegister O.position) self.new }
    {
        self.extend_from_bitslice(other)
    }

    /// Adds all bits of these words at the end.
    ///
    /// A refusal leaves all as it was.
    #[tactic(auto, using(crate::proofs::VectorLemmas::all_words))]
    pub fn extend_from_raw_slice(&mut self, words: &[T]) -> Result<(), AllocError>
        requires { length (vec_bits (read_by T.BitRegister O.position) self.old) + length words.now * T.BITS
            ≤ MAX_BITS }
        ensures ok { OnOk result (Extends (read_by T.BitRegister O.position) self.old self.new
            (memory (read_by T.BitRegister O.position) words.now)) }
        ensures err { OnErr result (IsAsBefore (read_by T.BitRegister O.position) self.old self.new) }
        ensures succeeds { HasRoomFor (read_by T.BitRegister O.position) self.old (length words.now * T.BITS)
            → IsOk result }
        ensures room { room (read_by T.BitRegister O.position) self.old
            ≤ room (read_by T.BitRegister O.position) self.new }
    {
        let len = words.len() * mem::bits_of::<T>();
        self.extend_from_words::<T, O>(words, 0, len)
    }

    // Adds bits of some words at the end.
    fn extend_from_words<Q: BitRegister, P: BitOrder<Q>>(
        &mut self,
        words: &[Q],
        head: usize,
        len: usize,
    ) -> Result<(), AllocError>
        requires most { length (vec_bits (read_by T.BitRegister O.position) self.old) + len ≤ MAX_BITS }
        requires within { head + len ≤ length words.now * Q.BITS }
        requires ends { head + len < 2 ^ 64 }
        ensures ok { OnOk result (Extends (read_by T.BitRegister O.position) self.old self.new
            (piece (memory (read_by Q.BitRegister P.position) words.now) head len)) }
        ensures err { OnErr result (IsAsBefore (read_by T.BitRegister O.position) self.old self.new) }
        ensures succeeds { HasRoomFor (read_by T.BitRegister O.position) self.old len → IsOk result }
        ensures room { room (read_by T.BitRegister O.position) self.old
            ≤ room (read_by T.BitRegister O.position) self.new }
    {
        let end = self.head + self.len;
        self.lengthen(len)?;
        copy::<T, O, Q, P>(&mut self.words, end, words, head, len);
        Ok(())
    }

    // Adds the lowest digits of a number at the end, up to 64.
    pub(crate) fn extend_from_digits(&mut self, number: u64, count: u8) -> Result<(), AllocError>
        requires few { count ≤ 64 }
        requires most { length (vec_bits (read_by T.BitRegister O.position) self.old) + count ≤ MAX_BITS }
        ensures ok { OnOk result ((xs : List Bool) → Gathers number count xs
            → Extends (read_by T.BitRegister O.position) self.old self.new xs) }
        ensures err { OnErr result (IsAsBefore (read_by T.BitRegister O.position) self.old self.new) }
        ensures succeeds { HasRoomFor (read_by T.BitRegister O.position) self.old count → IsOk result }
        ensures room { room (read_by T.BitRegister O.position) self.old
            ≤ room (read_by T.BitRegister O.position) self.new }
    {
        self.extend_from_words::<u64, Lsb0>(std::slice::from_ref(&number), 0, count as usize)?;
        Ok(())
    }

    /// Adds the bits of a range of its own at the end. The range has to lie in the list.
    ///
    /// A refusal leaves all as it was.
    pub fn extend_from_within<I: BitRange + Drop>(&mut self, range: I) -> Result<(), AllocError>
        requires ordered { I.start range ≤ I.end range (length (vec_bits (read_by T.BitRegister O.position) self.old)) }
        requires within { I.end range (length (vec_bits (read_by T.BitRegister O.position) self.old))
            ≤ length (vec_bits (read_by T.BitRegister O.position) self.old) }
        requires most { length (vec_bits (read_by T.BitRegister O.position) self.old)
            + (I.end range (length (vec_bits (read_by T.BitRegister O.position) self.old)) - I.start range)
            ≤ MAX_BITS }
        ensures ok { OnOk result (Extends (read_by T.BitRegister O.position) self.old self.new
            (piece (vec_bits (read_by T.BitRegister O.position) self.old) (I.start range)
            (I.end range (length (vec_bits (read_by T.BitRegister O.position) self.old)) - I.start range))) }
        ensures err { OnErr result (IsAsBefore (read_by T.BitRegister O.position) self.old self.new) }
        ensures succeeds { HasRoomFor (read_by T.BitRegister O.position) self.old
            (I.end range (length (vec_bits (read_by T.BitRegister O.position) self.old)) - I.start range)
            → IsOk result }
        ensures room { room (read_by T.BitRegister O.position) self.old
            ≤ room (read_by T.BitRegister O.position) self.new }
    {
        match range.ends_in(self.len()) {
            Some((from, upto)) => self.repeat_part(from, upto - from),
            None => Ok(()),
        }
    }

    // Adds `len` bits of its own at the end, those from `from` on.
    fn repeat_part(&mut self, from: usize, len: usize) -> Result<(), AllocError>
        requires within { from + len ≤ length (vec_bits (read_by T.BitRegister O.position) self.old) }
        requires most { length (vec_bits (read_by T.BitRegister O.position) self.old) + len ≤ MAX_BITS }
        ensures ok { OnOk result (Extends (read_by T.BitRegister O.position) self.old self.new
            (piece (vec_bits (read_by T.BitRegister O.position) self.old) from len)) }
        ensures err { OnErr result (IsAsBefore (read_by T.BitRegister O.position) self.old self.new) }
        ensures succeeds { HasRoomFor (read_by T.BitRegister O.position) self.old len → IsOk result }
        ensures room { room (read_by T.BitRegister O.position) self.old
            ≤ room (read_by T.BitRegister O.position) self.new }
    {
        let end = self.head + self.len;
        self.lengthen(len)?;
        shift::<T, O>(&mut self.words, self.head + from, end, len);
        Ok(())
    }

    /// Adds the bits of another vector at the end, and empties it, whatever its words and their order.
    ///
    /// A refusal leaves both as they were.
    pub fn append<Q: BitStore, P: BitOrder<Q>>(
        &mut self,
        other: &mut BitVec<Q, P>,
    ) -> Result<(), AllocError>
        requires { length (vec_bits (read_by T.BitRegister O.position) self.old)
            + length (vec_bits (read_by Q.BitRegister P.position) other.old) ≤ MAX_BITS }
        ensures ok { OnOk result (Extends (read_by T.BitRegister O.position) self.old self.new
            (vec_bits (read_by Q.BitRegister P.position) other.old)) }
        ensures emptied { OnOk result (Shortens (read_by Q.BitRegister P.position) other.old other.new 0) }
        ensures err { OnErr result (IsAsBefore (read_by T.BitRegister O.position) self.old self.new) }
        ensures kept { OnErr result (other.new ≡ other.old) }
        ensures succeeds { HasRoomFor (read_by T.BitRegister O.position) self.old
            (length (vec_bits (read_by Q.BitRegister P.position) other.old)) → IsOk result }
        ensures room { room (read_by T.BitRegister O.position) self.old
            ≤ room (read_by T.BitRegister O.position) self.new }
    {
        self.extend_from_bitslice(other)?;
        other.clear();
        Ok(())
    }

    // ---- at the end, taken off

    /// Takes the last bit off, or answers `None` where there is none.
    pub fn pop(&mut self) -> Option<bool>
        ensures variant { IsSome result ↔ (0 < length (vec_bits (read_by T.BitRegister O.position) self.old)) }
        ensures value { IfSome result (λ bit. vec_bits (read_by T.BitRegister O.position) self.old
            ≡ vec_bits (read_by T.BitRegister O.position) self.new ++ bit ∷ []) }
        ensures cut { Shortens (read_by T.BitRegister O.position) self.old self.new
            (length (vec_bits (read_by T.BitRegister O.position) self.old) - 1) }
    {
        let len = self.len();
        if len == 0 {
            self.truncate(0);
            return None;
        }
        let bit = self.bit(len - 1);
        self.truncate(len - 1);
        Some(bit)
    }
}
