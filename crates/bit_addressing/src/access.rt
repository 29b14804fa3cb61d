//! What a pointer reads and writes, in a memory that is handed in.
//!
//! The places of every call lie in that memory. In bitvec a pointer finds its memory by its address.

ghost use Rattle.std.specs.Prelude.{◌≡◌, ◌+◌, ◌*◌, ◌≤◌, ◌↔◌, length, pos, ◌≤ℤ◌, IsTrue};
ghost use Rattle.bit_addressing_memory.specs.Memory.{entry, read_by, Copies, Swaps, Writes};
ghost use Rattle.bit_addressing_memory.specs.Place.{place_of};
ghost use Rattle.bit_addressing.specs.Pointer.{memory_place, LiesIn};

use crate::pointer::BitPtr;
use bit_addressing_memory::places::{
    Place, copy_between_at, copy_within_at, read_at, swap_at, swap_between_at, write_at,
};
use bit_addressing_order::{BitIdx, BitOrder, BitRegister};

// Test.
impl<R: BitRegister, O: BitOrder<R>> BitPtr<R, O> {
    /// Whether the `count` bits from this one on lie in a memory of so many words, as the calls below ask. No bits lie
    /// in any memory.
    pub fn lies_in(self, count: usize, words: usize) -> bool
        ensures { IsTrue result ↔ LiesIn R.BITS self count words }
    {
        let (word, bit) = self.raw_parts();
        if count == 0 {
            return true;
        }
        if word < 0 {
            return false;
        }
        ends_in::<R>(word as usize, bit, count, words)
    }
}

// One bit.
impl<R: BitRegister, O: BitOrder<R>> BitPtr<R, O> {
    /// The bit that the pointer points to.
    pub fn read(self, words: &[R]) -> bool
        requires within { LiesIn R.BITS self 1 (length words.now) }
        ensures value { result ≡ entry (read_by R.BitRegister O.position) words.now (memory_place R.BITS self) }
    {
        read_at::<R, O>(words, place_in(self))
    }

    /// Makes the bit that the pointer points to `bit`. Every other bit stays.
    pub fn write(self, words: &mut [R], bit: bool)
        requires within { LiesIn R.BITS self 1 (length words.old) }
        ensures written { Writes (read_by R.BitRegister O.position) words.old words.new
            (memory_place R.BITS self) bit }
    {
        write_at::<R, O>(words, place_in(self), bit);
    }

    /// Makes the bit that the pointer points to `bit`, and answers what it was. Every other bit stays.
    pub fn replace(self, words: &mut [R], bit: bool) -> bool
        requires within { LiesIn R.BITS self 1 (length words.old) }
        ensures value { result ≡ entry (read_by R.BitRegister O.position) words.old (memory_place R.BITS self) }
        ensures written { Writes (read_by R.BitRegister O.position) words.old words.new
            (memory_place R.BITS self) bit }
    {
        let place = place_in(self);
        let old = read_at::<R, O>(words, place);
        write_at::<R, O>(words, place, bit);
        old
    }

    /// Exchanges the bit here with the one that `with` points to in another memory, whose words and order
    /// may be others.
    pub fn swap<Q: BitRegister, P: BitOrder<Q>>(
        self,
        words: &mut [R],
        with: BitPtr<Q, P>,
        others: &mut [Q],
    )
        requires within { LiesIn R.BITS self 1 (length words.old) }
        requires with_within { LiesIn Q.BITS with 1 (length others.old) }
        ensures to_words { Copies (read_by R.BitRegister O.position) words.old words.new
            (read_by Q.BitRegister P.position) others.old (memory_place Q.BITS with) (memory_place R.BITS self) 1 }
        ensures to_others { Copies (read_by Q.BitRegister P.position) others.old others.new
            (read_by R.BitRegister O.position) words.old (memory_place R.BITS self) (memory_place Q.BITS with) 1 }
    {
        swap_between_at::<R, O, Q, P>(words, place_in(self), others, place_in(with), 1);
    }

    /// Exchanges the bit here with the one that `with` points to in the same memory, perhaps the same bit.
    pub fn swap_within(self, words: &mut [R], with: BitPtr<R, O>)
        requires within { LiesIn R.BITS self 1 (length words.old) }
        requires with_within { LiesIn R.BITS with 1 (length words.old) }
        ensures swapped { Swaps (read_by R.BitRegister O.position) words.old words.new
            (memory_place R.BITS self) (memory_place R.BITS with) 1 }
    {
        swap_at::<R, O>(words, place_in(self), place_in(with));
    }
}

// Many bits.
impl<R: BitRegister, O: BitOrder<R>> BitPtr<R, O> {
    /// Copies `count` bits, from this one on, to those from `target` on in another memory, whose words
    /// and order may be others.
    #[tactic(auto, using(bit_addressing_memory::proofs::CopyLemmas::copies_none))]
    pub fn copy_to<Q: BitRegister, P: BitOrder<Q>>(
        self,
        words: &[R],
        target: BitPtr<Q, P>,
        others: &mut [Q],
        count: usize,
    )
        requires within { LiesIn R.BITS self count (length words.now) }
        requires target_within { LiesIn Q.BITS target count (length others.old) }
        ensures copied { Copies (read_by Q.BitRegister P.position) others.old others.new
            (read_by R.BitRegister O.position) words.now
            (memory_place R.BITS self) (memory_place Q.BITS target) count }
    {
        if count > 0 {
            copy_between_at::<R, O, Q, P>(words, place_in(self), others, place_in(target), count);
        }
    }

    /// `copy_to`: two memories never overlap.
    pub fn copy_to_nonoverlapping<Q: BitRegister, P: BitOrder<Q>>(
        self,
        words: &[R],
        target: BitPtr<Q, P>,
        others: &mut [Q],
        count: usize,
    )
        requires within { LiesIn R.BITS self count (length words.now) }
        requires target_within { LiesIn Q.BITS target count (length others.old) }
        ensures copied { Copies (read_by Q.BitRegister P.position) others.old others.new
            (read_by R.BitRegister O.position) words.now
            (memory_place R.BITS self) (memory_place Q.BITS target) count }
    {
        self.copy_to(words, target, others, count);
    }

    /// Copies `count` bits of another memory, those from `source` on, to the bits from this one on. The
    /// other memory's words and order may be others.
    #[tactic(auto, using(bit_addressing_memory::proofs::CopyLemmas::copies_none))]
    pub fn copy_from<Q: BitRegister, P: BitOrder<Q>>(
        self,
        words: &mut [R],
        source: BitPtr<Q, P>,
        others: &[Q],
        count: usize,
    )
        requires within { LiesIn R.BITS self count (length words.old) }
        requires source_within { LiesIn Q.BITS source count (length others.now) }
        ensures copied { Copies (read_by R.BitRegister O.position) words.old words.new
            (read_by Q.BitRegister P.position) others.now
            (memory_place Q.BITS source) (memory_place R.BITS self) count }
    {
        if count > 0 {
            copy_between_at::<Q, P, R, O>(others, place_in(source), words, place_in(self), count);
        }
    }

    /// `copy_from`: two memories never overlap.
    pub fn copy_from_nonoverlapping<Q: BitRegister, P: BitOrder<Q>>(
        self,
        words: &mut [R],
        source: BitPtr<Q, P>,
        others: &[Q],
        count: usize,
    )
        requires within { LiesIn R.BITS self count (length words.old) }
        requires source_within { LiesIn Q.BITS source count (length others.now) }
        ensures copied { Copies (read_by R.BitRegister O.position) words.old words.new
            (read_by Q.BitRegister P.position) others.now
            (memory_place Q.BITS source) (memory_place R.BITS self) count }
    {
        self.copy_from(words, source, others, count);
    }

    /// Copies `count` bits, from this one on, to those from `target` on in the same memory. The two
    /// stretches may overlap: what is copied is the bits as they were.
    #[tactic(auto, using(bit_addressing_memory::proofs::CopyLemmas::copies_none))]
    pub fn copy_within(self, words: &mut [R], target: BitPtr<R, O>, count: usize)
        requires within { LiesIn R.BITS self count (length words.old) }
        requires target_within { LiesIn R.BITS target count (length words.old) }
        ensures copied { Copies (read_by R.BitRegister O.position) words.old words.new
            (read_by R.BitRegister O.position) words.old
            (memory_place R.BITS self) (memory_place R.BITS target) count }
    {
        if count > 0 {
            let source = place_in(self);
            let target = place_in(target);
            copy_within_at::<R, O>(words, source, target, count, !source.is_before(target));
        }
    }
}

// The place of a pointer into a memory.
fn place_in<R: BitRegister, O: BitOrder<R>>(pointer: BitPtr<R, O>) -> Place<R>
    requires { pos 0 ≤ℤ pointer.word }
    ensures { place_of R.BITS result ≡ memory_place R.BITS pointer }
{
    let (word, bit) = pointer.raw_parts();
    Place::at(word as usize, bit)
}

// Whether so many bits from this index of a word on end in a memory of so many words.
fn ends_in<R: BitRegister>(word: usize, bit: BitIdx<R>, count: usize, words: usize) -> bool
    ensures { IsTrue result ↔ (word * R.BITS + bit + count ≤ words * R.BITS) }
{
    let bits = R::BITS as u128;
    word as u128 * bits + bit.into_inner() as u128 + count as u128 <= words as u128 * bits
}
