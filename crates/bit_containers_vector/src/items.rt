//! Vectors of bits that take what an iterator or a closure gives.

ghost use Rattle.std.specs.Prelude.{◌≡◌, ℕ, ◌+◌, ◌-◌, ◌*◌, ◌<◌, ◌≤◌, ◌++◌, ◌∷◌, [], List, Bool, length, take, drop, IfOk, IsOk, OnErr, OnOk};
ghost use Rattle.std.specs.Iterator.{Drains, Yields, IsFinite, size};
ghost use Rattle.bit_addressing_memory.specs.Memory.{memory, read_by};
ghost use Rattle.bit_addressing_span.specs.declared.span.TheConstants.{MAX_BITS};
ghost use Rattle.bit_containers_vector.specs.Answers.{Answers};
ghost use Rattle.bit_containers_vector.specs.Grown.{Extends};
ghost use Rattle.bit_containers_vector.specs.Vector.{vec_bits, vec_head, room, HasRoomFor, IsAsBefore, Shortens};

use crate::vector::BitVec;
use bit_addressing_memory::{BitIdx, BitOrder, BitRegister, Lsb0, write_bit};
use bit_slice_views::{BitStore, Bits};
use std::alloc::{AllocError, Global};

impl<T: BitStore, O: BitOrder<T>> BitVec<T, O> {
    // ---- bits of an iterator

    /// Adds the bits that an iterator gives at the end. A word that comes to sight is zero beside them.
    ///
    /// At a refusal the list has the first of them behind its own, and up to 64 more have been taken from the iterator.
    pub fn extend<I: Iterator<Item = bool>>(&mut self, items: I) -> Result<(), AllocError>
        requires can { I.can_next items }
        requires finite { IsFinite (I.remaining items) }
        requires most { length (vec_bits (read_by T.BitRegister O.position) self.old) + size (I.remaining items)
            ≤ MAX_BITS }
        ensures ok { OnOk result ((xs : List Bool) × Drains I.next_gives items xs
            × (vec_bits (read_by T.BitRegister O.position) self.new
            ≡ vec_bits (read_by T.BitRegister O.position) self.old ++ xs)) }
        ensures err { OnErr result ((xs : List Bool) × (rest : I) × Yields I.next_gives items xs rest
            × (vec_bits (read_by T.BitRegister O.position) self.new
            ≡ vec_bits (read_by T.BitRegister O.position) self.old ++ xs)) }

        // Items that are as few as there is room for bits are not refused.
        ensures succeeds { HasRoomFor (read_by T.BitRegister O.position) self.old (size (I.remaining items))
            → IsOk result }
        ensures head { vec_head self.new ≡ vec_head self.old }
        ensures words { (xs : List Bool) × Extends (read_by T.BitRegister O.position) self.old self.new xs }
        ensures room { room (read_by T.BitRegister O.position) self.old
            ≤ room (read_by T.BitRegister O.position) self.new }
    {
        // As many as a number has digits are added at once.
        let mut gathered = 0u64;
        let mut count = 0;
        for item in items {
            let index = BitIdx::new_unchecked(count);
            gathered = write_bit::<u64, Lsb0>(gathered, index, item);
            count += 1;
            if count == 64 {
                self.extend_from_digits(gathered, 64)?;
                count = 0;
            }
        }
        self.extend_from_digits(gathered, count)?;
        Ok(())
    }

    /// The bits that an iterator gives.
    pub fn collect<I: Iterator<Item = bool>>(
        alloc: Global,
        items: I,
    ) -> Result<BitVec<T, O>, AllocError>
        requires can { I.can_next items }
        requires finite { IsFinite (I.remaining items) }
        requires most { size (I.remaining items) ≤ MAX_BITS }
        ensures bits { IfOk result (λ made. (xs : List Bool) × Drains I.next_gives items xs
            × (vec_bits (read_by T.BitRegister O.position) made ≡ xs)) }
        ensures head { IfOk result (λ made. vec_head made ≡ 0) }
    {
        let mut made = BitVec::new(alloc);
        made.extend(items)?;
        Ok(made)
    }

    // ---- words of an iterator

    /// Adds all bits of the words that an iterator gives at the end. A word that comes to sight is zero beside them.
    ///
    /// At a refusal the list has those of the first words behind its own.
    pub fn extend_elements<I: Iterator<Item = T>>(&mut self, items: I) -> Result<(), AllocError>
        requires can { I.can_next items }
        requires finite { IsFinite (I.remaining items) }
        requires most { length (vec_bits (read_by T.BitRegister O.position) self.old)
            + size (I.remaining items) * T.BITS ≤ MAX_BITS }
        ensures ok { OnOk result ((xs : List T) × Drains I.next_gives items xs
            × (vec_bits (read_by T.BitRegister O.position) self.new
            ≡ vec_bits (read_by T.BitRegister O.position) self.old ++ memory (read_by T.BitRegister O.position) xs)) }
        ensures err { OnErr result ((xs : List T) × (rest : I) × Yields I.next_gives items xs rest
            × (vec_bits (read_by T.BitRegister O.position) self.new
            ≡ vec_bits (read_by T.BitRegister O.position) self.old ++ memory (read_by T.BitRegister O.position) xs)) }

        // Words that are as few as there is room for their bits are not refused.
        ensures succeeds { HasRoomFor (read_by T.BitRegister O.position) self.old (size (I.remaining items) * T.BITS)
            → IsOk result }
        ensures head { vec_head self.new ≡ vec_head self.old }
        ensures words { (xs : List Bool) × Extends (read_by T.BitRegister O.position) self.old self.new xs }
        ensures room { room (read_by T.BitRegister O.position) self.old
            ≤ room (read_by T.BitRegister O.position) self.new }
    {
        for word in items {
            self.extend_from_raw_slice(std::slice::from_ref(&word))?;
        }
        Ok(())
    }

    /// All bits of the words that an iterator gives.
    pub fn collect_elements<I: Iterator<Item = T>>(
        alloc: Global,
        items: I,
    ) -> Result<BitVec<T, O>, AllocError>
        requires can { I.can_next items }
        requires finite { IsFinite (I.remaining items) }
        requires most { size (I.remaining items) * T.BITS ≤ MAX_BITS }
        ensures bits { IfOk result (λ made. (xs : List T) × Drains I.next_gives items xs
            × (vec_bits (read_by T.BitRegister O.position) made
            ≡ memory (read_by T.BitRegister O.position) xs)) }
        ensures head { IfOk result (λ made. vec_head made ≡ 0) }
    {
        let mut made = BitVec::new(alloc);
        made.extend_elements(items)?;
        Ok(made)
    }

    // ---- bits of a closure

    /// Makes the list `len` bits long: it is cut as by `truncate`, or what `f` answers at each new index comes behind
    /// it, ascending. The memory is taken first.
    ///
    /// A refusal leaves all as it was, and does not call `f`.
    pub fn resize_with<F: FnMut(usize) -> bool + Drop>(
        &mut self,
        len: usize,
        mut f: F,
    ) -> Result<(), AllocError>
        requires can { F.IsAlwaysCallable f }
        requires most { len ≤ MAX_BITS }
        ensures bits { OnOk result ((ys : List Bool) × (last : F)
            × (vec_bits (read_by T.BitRegister O.position) self.new
            ≡ take len (vec_bits (read_by T.BitRegister O.position) self.old) ++ ys)
            × Answers F.step f (length (vec_bits (read_by T.BitRegister O.position) self.old)) len ys last) }
        ensures longer { OnOk result (length (vec_bits (read_by T.BitRegister O.position) self.old) < len
            → (ys : List Bool) × Extends (read_by T.BitRegister O.position) self.old self.new ys) }
        ensures shorter { OnOk result (len ≤ length (vec_bits (read_by T.BitRegister O.position) self.old)
            → Shortens (read_by T.BitRegister O.position) self.old self.new len) }
        ensures head { vec_head self.new ≡ vec_head self.old }
        ensures err { OnErr result (IsAsBefore (read_by T.BitRegister O.position) self.old self.new) }
        ensures succeeds { len ≤ room (read_by T.BitRegister O.position) self.old → IsOk result }
        ensures room { room (read_by T.BitRegister O.position) self.old
            ≤ room (read_by T.BitRegister O.position) self.new }
    {
        let old = self.len();
        if len <= old {
            self.truncate(len);
            return Ok(());
        }
        self.reserve(len - old)?;
        for i in old..len {
            self.push_within(f(i));
        }
        Ok(())
    }

    // Adds a bit at the end, for which there is room.
    fn push_within(&mut self, bit: bool)
        requires room { HasRoomFor (read_by T.BitRegister O.position) self.old 1 }
        requires most { length (vec_bits (read_by T.BitRegister O.position) self.old) + 1 ≤ MAX_BITS }
        ensures grown { Extends (read_by T.BitRegister O.position) self.old self.new (bit ∷ []) }
        ensures room { room (read_by T.BitRegister O.position) self.old
            ≤ room (read_by T.BitRegister O.position) self.new }
    {
        let _room_was_reserved = self.push(bit);
    }

    // Puts the bits that an iterator gives in at an index. At a refusal the first of them stand there.
    pub(crate) fn insert_all<I: Iterator<Item = bool>>(
        &mut self,
        index: usize,
        items: I,
    ) -> Result<(), AllocError>
        requires inside { index ≤ length (vec_bits (read_by T.BitRegister O.position) self.old) }
        requires can { I.can_next items }
        requires finite { IsFinite (I.remaining items) }
        requires most { length (vec_bits (read_by T.BitRegister O.position) self.old) + size (I.remaining items)
            ≤ MAX_BITS }
        ensures ok { OnOk result ((xs : List Bool) × Drains I.next_gives items xs
            × (vec_bits (read_by T.BitRegister O.position) self.new
            ≡ take index (vec_bits (read_by T.BitRegister O.position) self.old) ++ xs
            ++ drop index (vec_bits (read_by T.BitRegister O.position) self.old))) }
        ensures err { OnErr result ((xs : List Bool) × (rest : I) × Yields I.next_gives items xs rest
            × (vec_bits (read_by T.BitRegister O.position) self.new
            ≡ take index (vec_bits (read_by T.BitRegister O.position) self.old) ++ xs
            ++ drop index (vec_bits (read_by T.BitRegister O.position) self.old))) }
        ensures succeeds { HasRoomFor (read_by T.BitRegister O.position) self.old (size (I.remaining items))
            → IsOk result }
        ensures head { vec_head self.new ≡ vec_head self.old }
        ensures room { room (read_by T.BitRegister O.position) self.old
            ≤ room (read_by T.BitRegister O.position) self.new }
    {
        let mut place = index;
        for item in items {
            self.insert(place, item)?;
            place += 1;
        }
        Ok(())
    }
}
