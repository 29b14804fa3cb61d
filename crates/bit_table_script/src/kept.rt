//! The rows that a table keeps.

ghost use Rattle.std.specs.Prelude.{◌≡◌, ◌≤◌, length, IfOk};
ghost use Rattle.bit_addressing_memory.specs.Memory.{read_by};
ghost use Rattle.bit_slice_views.specs.SpanLimits.{MAX_BITS};
ghost use Rattle.bit_containers_vector.specs.Vector.{vec_bits, vec_head};

use bit_addressing_memory::{BitOrder, BitRegister};
use bit_containers_vector::BitVec;
use bit_slice_views::{BitStore, BitViewSized};
use bit_slice_words::WordPaths;
use bit_table_fields::Digits;
use bit_table_rows::Letters;
use std::alloc::{AllocError, Global};
use std::marker::Model;

// Rows that are kept: how many there are, their bits, end to end, and their letters.
#[derive(Drop)]
pub(crate) struct Kept<A: BitViewSized, O: WordPaths<A::Store> + Digits<A::Store>> {
    rows: usize,
    bits: BitVec<A::Store, O>,
    letters: Letters<A::Store, O>,
}

impl<A: BitViewSized, O: WordPaths<A::Store> + Digits<A::Store>> Model for Kept<A, O> {
    ghost use Rattle.std.specs.Prelude.{◌≡◌, ◌≤◌, length};
    ghost use Rattle.std.specs.Coded.{codes};
    ghost use Rattle.bit_addressing_memory.specs.Memory.{read_by};
    ghost use Rattle.bit_containers_vector.specs.Vector.{vec_bits, vec_head};
    ghost use Rattle.bit_table_layout.specs.LetterSets.{letters_code};
    ghost use Rattle.bit_table_script.specs.View.{StoredRows};

    ghost Value = { StoredRows };

    ghost coded = { Prim.hlevel (codes, letters_code) };

    ghost view = { λ k. record {
      rows = k.rows;
      bits = vec_bits (read_by A.Store.BitRegister O.position) k.bits;
      letters = k.letters.sets;
    } };

    ghost invariant = { λ k. (vec_head k.bits ≡ 0) × (length k.letters.sets ≤ k.letters.space) };
}

impl<A: BitViewSized, O: WordPaths<A::Store> + Digits<A::Store>> Kept<A, O> {
    // A copy of so many rows that have these bits and letters.
    pub(crate) fn copy_of(
        alloc: Global,
        rows: usize,
        bits: &BitVec<A::Store, O>,
        letters: &Letters<A::Store, O>,
    ) -> Result<Kept<A, O>, AllocError>
        requires { length (vec_bits (read_by A.Store.BitRegister O.position) bits.now) ≤ MAX_BITS }
        ensures rows { IfOk result (λ kept. kept.rows ≡ rows) }
        ensures bits { IfOk result (λ kept. kept.bits ≡ vec_bits (read_by A.Store.BitRegister O.position) bits.now) }
        ensures letters { IfOk result (λ kept. kept.letters ≡ letters.now.sets) }
    {
        Ok(Kept {
            rows,
            bits: copy_of(alloc, bits)?,
            letters: Letters::copy_of(alloc, letters)?,
        })
    }

    // The same rows in other words or another order.
    pub(crate) fn relay<A2: BitViewSized, O2: WordPaths<A2::Store> + Digits<A2::Store>>(
        &self,
        alloc: Global,
    ) -> Result<Kept<A2, O2>, AllocError>
        requires { length self.now.bits ≤ MAX_BITS }
        ensures { IfOk result (λ other. other ≡ self.now) }
    {
        Ok(Kept {
            rows: self.rows,
            bits: copy_of(alloc, &self.bits)?,
            letters: Letters::copy_of(alloc, &self.letters)?,
        })
    }

    // How many rows there are, their bits and their letters.
    pub(crate) fn into_parts(self) -> (usize, BitVec<A::Store, O>, Letters<A::Store, O>)
        ensures rows { result.0 ≡ self.rows }
        ensures bits { vec_bits (read_by A.Store.BitRegister O.position) result.1 ≡ self.bits }
        ensures head { vec_head result.1 ≡ 0 }
        ensures letters { result.2.sets ≡ self.letters }
        ensures space { length self.letters ≤ result.2.space }
    {
        (self.rows, self.bits, self.letters)
    }
}

// The same bits in words of any width and order, from the first bit of the first word on.
pub(crate) fn copy_of<T: BitStore, O: BitOrder<T>, Q: BitStore, P: BitOrder<Q>>(
    alloc: Global,
    bits: &BitVec<Q, P>,
) -> Result<BitVec<T, O>, AllocError>
    requires { length (vec_bits (read_by Q.BitRegister P.position) bits.now) ≤ MAX_BITS }
    ensures bits { IfOk result (λ copy. vec_bits (read_by T.BitRegister O.position) copy
        ≡ vec_bits (read_by Q.BitRegister P.position) bits.now) }
    ensures head { IfOk result (λ copy. vec_head copy ≡ 0) }
{
    let mut copy = BitVec::<T, O>::new(alloc);
    copy.extend_from_bitslice(bits)?;
    Ok(copy)
}
