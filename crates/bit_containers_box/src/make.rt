//! Boxes of bits made of windows, of vectors and of words, and taken apart.

ghost use Rattle.std.specs.Prelude.{◌≡◌, ◌*◌, ◌≤◌, ◌↔◌, [], ◌∷◌, List, Bool, length, IfErr, IfOk, IsOk};
ghost use Rattle.std.specs.Box.{boxed_slice_items};
ghost use Rattle.std.specs.Iterator.{Drains, IsFinite, size};
ghost use Rattle.bit_addressing_memory.specs.Memory.{memory, read_by};
ghost use Rattle.bit_slice_views.specs.SpanLimits.{MAX_BITS};
ghost use Rattle.bit_containers_box.specs.Box.{box_bits, box_head, box_rest, box_words, IsBoxed};
ghost use Rattle.bit_containers_box.specs.Box.{box_held, box_room, KeepsBlock};
ghost use Rattle.bit_containers_box.specs.Fill.{HoldsAlone};
ghost use Rattle.bit_containers_vector.specs.Vector.{vec_bits, vec_head, vec_words, visible, words_held, room};
ghost use Rattle.bit_slice_views.specs.View.{view_bits, view_head};

use crate::boxed::BitBox;
use bit_addressing_memory::{BitOrder, BitRegister};
use bit_containers_vector::BitVec;
use bit_slice_views::{BitSlice, BitStore, BitViewSized, Bits};
use bit_slice_views_mut::BitsMut;
use std::alloc::{AllocError, AllocFailed, Global};
use std::boxed::BoxedSlice;
use std::marker::PhantomData;

impl<T: BitStore, O: BitOrder<T>> BitBox<T, O> {
    // ---- of bits

    /// No bits. It takes no memory.
    pub fn empty(alloc: Global) -> BitBox<T, O>
        ensures same { IsBoxed (read_by T.BitRegister O.position) [] 0 [] result }
        ensures held { box_held result ≡ 0 }
    {
        BitBox::of_vector(BitVec::new(alloc))
    }

    /// The bits of a window, from the same head on, with dead bits that are 0.
    pub fn from_bitslice(
        alloc: Global,
        view: BitSlice<'_, T, O>,
    ) -> Result<BitBox<T, O>, AllocError>
        ensures { IfOk result (λ made. HoldsAlone (read_by T.BitRegister O.position) made (view_head view.entry)
            (view_bits (read_by T.BitRegister O.position) view.entry)) }
    {
        let copied = BitVec::from_bitslice(alloc, view)?;
        Ok(BitBox::of_vector(copied))
    }

    /// The bits of a vector, in its visible words. It takes no memory, and so it is never refused; the box keeps the
    /// capacity of the vector.
    pub fn from_vec(vector: BitVec<T, O>) -> Result<BitBox<T, O>, AllocFailed<BitVec<T, O>>>
        ensures done { IsOk result }
        ensures same { IfOk result (IsBoxed (read_by T.BitRegister O.position)
            (vec_bits (read_by T.BitRegister O.position) vector) (vec_head vector)
            (visible (read_by T.BitRegister O.position) vector)) }
        ensures held { IfOk result (λ made. box_held made ≡ words_held vector) }
    {
        Ok(BitBox::of_vector(vector))
    }

    // The bits of a vector, in its visible words.
    fn of_vector(vector: BitVec<T, O>) -> BitBox<T, O>
        ensures same { IsBoxed (read_by T.BitRegister O.position)
            (vec_bits (read_by T.BitRegister O.position) vector) (vec_head vector)
            (visible (read_by T.BitRegister O.position) vector) result }
        ensures held { box_held result ≡ words_held vector }
    {
        let head = vector.first_place();
        let len = vector.len();
        let words = vector.into_vec();
        BitBox {
            words,
            head,
            len,
            order: PhantomData,
        }
    }

    /// The bits that an iterator gives.
    pub fn collect<I: Iterator<Item = bool>>(
        alloc: Global,
        items: I,
    ) -> Result<BitBox<T, O>, AllocError>
        requires can { I.can_next items }
        requires finite { IsFinite (I.remaining items) }
        requires most { size (I.remaining items) ≤ MAX_BITS }
        ensures bits { IfOk result (λ made. (xs : List Bool) × Drains I.next_gives items xs
            × (box_bits (read_by T.BitRegister O.position) made ≡ xs)) }
        ensures head { IfOk result (λ made. box_head made ≡ 0) }
        ensures rest { IfOk result (λ made. box_rest (read_by T.BitRegister O.position) made ≡ []) }
    {
        let collected = BitVec::collect(alloc, items)?;
        Ok(BitBox::of_vector(collected))
    }

    /// The same bits, from the same head on, with dead bits that are 0.
    pub fn clone(&self) -> Result<BitBox<T, O>, AllocError>
        ensures { IfOk result (λ made. HoldsAlone (read_by T.BitRegister O.position) made (box_head self.now)
            (box_bits (read_by T.BitRegister O.position) self.now)) }
    {
        let bits = BitSlice::<T, O>::from_place(self.words.as_slice(), self.head, self.len);
        BitBox::from_bitslice(*self.words.allocator(), bits)
    }

    // ---- of words

    /// All bits of a word or of an array of words.
    pub fn from_array<A: BitViewSized<Store = T>>(
        alloc: Global,
        array: &A,
    ) -> Result<BitBox<T, O>, AllocError>
        requires { A.COUNT * T.BITS ≤ MAX_BITS }
        ensures { IfOk result (IsBoxed (read_by T.BitRegister O.position)
            (memory (read_by T.BitRegister O.position) (A.words array.now)) 0 (A.words array.now)) }
    {
        let words = BitVec::from_slice(alloc, array.as_raw_slice())?;
        Ok(BitBox::of_vector(words))
    }

    /// All bits of a box of words. It takes no memory.
    pub fn from_boxed_slice(words: BoxedSlice<T>) -> BitBox<T, O>
        requires { length (boxed_slice_items words) * T.BITS ≤ MAX_BITS }
        ensures { IsBoxed (read_by T.BitRegister O.position)
            (memory (read_by T.BitRegister O.position) (boxed_slice_items words)) 0 (boxed_slice_items words) result }
    {
        BitBox::of_vector(BitVec::from_vec(words.into_vec()))
    }

    /// All bits of a box of words, or that box where they are more than `MAX_BITS`.
    pub fn try_from_boxed_slice(words: BoxedSlice<T>) -> Result<BitBox<T, O>, BoxedSlice<T>>
        ensures variant { IsOk result ↔ (length (boxed_slice_items words) * T.BITS ≤ MAX_BITS) }
        ensures ok { IfOk result (IsBoxed (read_by T.BitRegister O.position)
            (memory (read_by T.BitRegister O.position) (boxed_slice_items words)) 0 (boxed_slice_items words)) }
        ensures err { IfErr result (λ back. boxed_slice_items back ≡ boxed_slice_items words) }
    {
        match BitVec::try_from_vec(words.into_vec()) {
            Ok(made) => Ok(BitBox::of_vector(made)),
            Err(back) => Err(back.into_boxed_slice()),
        }
    }

    /// All bits of a word in a box, or that box where there is no memory.
    pub fn from_element_box(word: Box<T>) -> Result<BitBox<T, O>, AllocFailed<Box<T>>>
        ensures ok { IfOk result (IsBoxed (read_by T.BitRegister O.position)
            (memory (read_by T.BitRegister O.position) (word.value ∷ [])) 0 (word.value ∷ [])) }
        ensures err { IfErr result (λ refused. refused.value ≡ word) }
    {
        match BitVec::from_element(*Box::allocator(&word), *word) {
            Ok(made) => Ok(BitBox::of_vector(made)),
            Err(_) => Err(AllocFailed { value: word }),
        }
    }

    // ---- end

    /// The words: the visible ones, and behind them that which `force_align` left. It takes no memory.
    pub fn into_boxed_slice(self) -> BoxedSlice<T>
        ensures { boxed_slice_items result ≡ box_words self }
    {
        self.words.into_boxed_slice()
    }

    /// The same bits as a vector, in the same words. It takes no memory, and the capacity is that of the box.
    pub fn into_bitvec(self) -> BitVec<T, O>
        ensures bits { vec_bits (read_by T.BitRegister O.position) result
            ≡ box_bits (read_by T.BitRegister O.position) self }
        ensures head { vec_head result ≡ box_head self }
        ensures words { vec_words result ≡ box_words self }
        ensures room { room (read_by T.BitRegister O.position) result ≡ box_room (read_by T.BitRegister O.position) self }
        ensures block { KeepsBlock self result }
    {
        BitVec::from_place(self.words, self.head, self.len)
    }

    /// What `into_bitvec` does.
    pub fn into_vec(self) -> BitVec<T, O>
        ensures bits { vec_bits (read_by T.BitRegister O.position) result
            ≡ box_bits (read_by T.BitRegister O.position) self }
        ensures head { vec_head result ≡ box_head self }
        ensures words { vec_words result ≡ box_words self }
        ensures room { room (read_by T.BitRegister O.position) result ≡ box_room (read_by T.BitRegister O.position) self }
        ensures block { KeepsBlock self result }
    {
        self.into_bitvec()
    }
}
