//! Vectors of bits made of windows, of words and of nothing, and given back as words.

ghost use Rattle.std.specs.Prelude.{◌≡◌, ◌+◌, ◌-◌, ◌*◌, ◌<◌, ◌≤◌, ◌↔◌, [], ◌∷◌, length, replicate, IfErr, IfOk, IsOk};
ghost use Rattle.std.specs.Prelude.{vec_capacity};
ghost use Rattle.bit_addressing_memory.specs.Memory.{memory, piece, read_by};
ghost use Rattle.bit_addressing_span.specs.declared.span.TheConstants.{MAX_BITS};
ghost use Rattle.bit_containers_vector.specs.Count.{words_for};
ghost use Rattle.bit_containers_vector.specs.Grown.{HoldsAlone, Repeats};
ghost use Rattle.bit_containers_vector.specs.Vector.{vec_bits, vec_head, vec_words, visible, words_held};
ghost use Rattle.bit_containers_vector.specs.Vector.{room, HasRoomFor, HoldsBlock};
ghost use Rattle.bit_slice_views.specs.View.{view_bits, view_head};

use crate::vector::BitVec;
use crate::words::{copy, extend_words, fill, words_taken};
use bit_addressing_memory::{BitOrder, BitRegister, mem};
use bit_addressing_span::MAX_BITS;
use bit_slice_views::{BitSlice, BitStore, BitViewSized, Bits};
use std::alloc::{AllocError, Global};
use std::marker::PhantomData;

impl<T: BitStore, O: BitOrder<T>> BitVec<T, O> {
    // ---- of nothing

    /// No bits, and memory for so many.
    pub fn with_capacity(alloc: Global, bits: usize) -> Result<BitVec<T, O>, AllocError>
        requires { bits ≤ MAX_BITS }
        ensures bits { IfOk result (λ made. vec_bits (read_by T.BitRegister O.position) made ≡ []) }
        ensures head { IfOk result (λ made. vec_head made ≡ 0) }
        ensures room { IfOk result (λ made. HasRoomFor (read_by T.BitRegister O.position) made bits) }
    {
        let mut made = BitVec::new(alloc);
        made.reserve(bits)?;
        Ok(made)
    }

    /// One bit, so often, in words that are filled with it.
    pub fn repeat(alloc: Global, bit: bool, len: usize) -> Result<BitVec<T, O>, AllocError>
        requires { len ≤ MAX_BITS }
        ensures { IfOk result (λ made. Repeats (read_by T.BitRegister O.position) made bit len) }
    {
        let mut made = BitVec::zeroed(alloc, 0, len)?;
        let all = words_taken::<T>(len) * mem::bits_of::<T>();
        fill::<T, O>(&mut made.words, 0, all, bit);
        Ok(made)
    }

    // So many bits that are 0, from a head on, in words that are 0.
    fn zeroed(alloc: Global, head: usize, len: usize) -> Result<BitVec<T, O>, AllocError>
        requires inside { head < T.BITS }
        requires short { len ≤ MAX_BITS }
        ensures words { IfOk result (λ made. vec_words made ≡ replicate (words_for T.BITS (head + len)) T.ZERO) }
        ensures head { IfOk result (λ made. made.head ≡ head) }
        ensures len { IfOk result (λ made. made.len ≡ len) }
    {
        let mut words = Vec::new(alloc);
        extend_words::<T>(&mut words, 0, head + len)?;
        Ok(BitVec {
            words,
            head,
            len,
            order: PhantomData,
        })
    }

    // ---- of bits and words

    /// The bits of a window, from the same head on, with dead bits that are 0.
    pub fn from_bitslice(
        alloc: Global,
        view: BitSlice<'_, T, O>,
    ) -> Result<BitVec<T, O>, AllocError>
        ensures { IfOk result (λ made. HoldsAlone (read_by T.BitRegister O.position) made (view_head view.entry)
            (view_bits (read_by T.BitRegister O.position) view.entry)) }
    {
        let (words, head, len) = view.parts();
        let head = head as usize;
        let mut made = BitVec::zeroed(alloc, head, len)?;
        copy::<T, O, T, O>(&mut made.words, head, words, head, len);
        Ok(made)
    }

    /// The same bits, from the same head on, with dead bits that are 0.
    pub fn clone(&self) -> Result<BitVec<T, O>, AllocError>
        ensures { IfOk result (λ made. HoldsAlone (read_by T.BitRegister O.position) made (vec_head self.now)
            (vec_bits (read_by T.BitRegister O.position) self.now)) }
    {
        let len = self.len;
        let mut made = BitVec::zeroed(*self.words.allocator(), self.head, len)?;
        copy::<T, O, T, O>(
            &mut made.words,
            self.head,
            self.words.as_slice(),
            self.head,
            len,
        );
        Ok(made)
    }

    /// All bits of a word.
    pub fn from_element(alloc: Global, word: T) -> Result<BitVec<T, O>, AllocError>
        ensures bits { IfOk result (λ made. vec_bits (read_by T.BitRegister O.position) made
            ≡ memory (read_by T.BitRegister O.position) (word ∷ [])) }
        ensures head { IfOk result (λ made. vec_head made ≡ 0) }
        ensures words { IfOk result (λ made. vec_words made ≡ word ∷ []) }
    {
        BitVec::from_slice(alloc, std::slice::from_ref(&word))
    }

    /// All bits of these words.
    pub fn from_slice(alloc: Global, words: &[T]) -> Result<BitVec<T, O>, AllocError>
        requires { length words.now * T.BITS ≤ MAX_BITS }
        ensures bits { IfOk result (λ made. vec_bits (read_by T.BitRegister O.position) made
            ≡ memory (read_by T.BitRegister O.position) words.now) }
        ensures head { IfOk result (λ made. vec_head made ≡ 0) }
        ensures words { IfOk result (λ made. vec_words made ≡ words.now) }
    {
        Ok(BitVec::from_vec(Vec::from_slice(alloc, words)?))
    }

    /// All bits of a word or of an array of words.
    pub fn from_array<A: BitViewSized<Store = T>>(
        alloc: Global,
        array: &A,
    ) -> Result<BitVec<T, O>, AllocError>
        requires { A.COUNT * T.BITS ≤ MAX_BITS }
        ensures bits { IfOk result (λ made. vec_bits (read_by T.BitRegister O.position) made
            ≡ memory (read_by T.BitRegister O.position) (A.words array.now)) }
        ensures head { IfOk result (λ made. vec_head made ≡ 0) }
        ensures words { IfOk result (λ made. vec_words made ≡ A.words array.now) }
    {
        BitVec::from_slice(alloc, array.as_raw_slice())
    }

    /// All bits of a vector's words. It takes no memory, and the capacity stays.
    #[tactic(auto, using(crate::proofs::VectorLemmas::all_words))]
    pub fn from_vec(words: Vec<T>) -> BitVec<T, O>
        requires { length words.items * T.BITS ≤ MAX_BITS }
        ensures bits { vec_bits (read_by T.BitRegister O.position) result
            ≡ memory (read_by T.BitRegister O.position) words.items }
        ensures head { vec_head result ≡ 0 }
        ensures words { vec_words result ≡ words.items }
        ensures room { room (read_by T.BitRegister O.position) result ≡ vec_capacity words * T.BITS }
        ensures block { HoldsBlock words result }
    {
        let len = words.len() * mem::bits_of::<T>();
        BitVec {
            words,
            head: 0,
            len,
            order: PhantomData,
        }
    }

    /// `len` bits of a vector's words, from an index in the first of them on. It takes no memory, and the capacity stays.
    pub fn from_place(words: Vec<T>, head: usize, len: usize) -> BitVec<T, O>
        requires inside { head < T.BITS }
        requires short { len ≤ MAX_BITS }
        requires fits { head + len ≤ length words.items * T.BITS }
        ensures bits { vec_bits (read_by T.BitRegister O.position) result
            ≡ piece (memory (read_by T.BitRegister O.position) words.items) head len }
        ensures head { vec_head result ≡ head }
        ensures words { vec_words result ≡ words.items }
        ensures room { room (read_by T.BitRegister O.position) result ≡ vec_capacity words * T.BITS - head }
        ensures block { HoldsBlock words result }
    {
        BitVec {
            words,
            head,
            len,
            order: PhantomData,
        }
    }

    /// All bits of a vector's words, or that vector where they are more than `MAX_BITS`. It takes no memory, and the
    /// capacity stays.
    pub fn try_from_vec(words: Vec<T>) -> Result<BitVec<T, O>, Vec<T>>
        ensures variant { IsOk result ↔ (length words.items * T.BITS ≤ MAX_BITS) }
        ensures bits { IfOk result (λ made. vec_bits (read_by T.BitRegister O.position) made
            ≡ memory (read_by T.BitRegister O.position) words.items) }
        ensures head { IfOk result (λ made. vec_head made ≡ 0) }
        ensures words { IfOk result (λ made. vec_words made ≡ words.items) }
        ensures room { IfOk result (λ made. room (read_by T.BitRegister O.position) made
            ≡ vec_capacity words * T.BITS) }
        ensures block { IfOk result (HoldsBlock words) }
        ensures err { IfErr result (λ back. back ≡ words) }
    {
        if words.len().saturating_mul(mem::bits_of::<T>()) > MAX_BITS {
            return Err(words);
        }
        Ok(BitVec::from_vec(words))
    }

    // ---- end

    /// The visible words. It takes no memory, and the capacity stays.
    pub fn into_vec(self) -> Vec<T>
        ensures items { result.items ≡ visible (read_by T.BitRegister O.position) self }
        ensures capacity { vec_capacity result ≡ words_held self }
    {
        let count = words_taken::<T>(self.head + self.len);
        let mut words = self.words;
        words.truncate(count);
        words
    }
}
