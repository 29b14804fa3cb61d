//! The letters that rows bear.

ghost use Rattle.std.specs.Prelude.{◌≡◌, ◌≢◌, ◌+◌, ◌*◌, ◌≤◌, ◌<◌, [], length, map, replicate, slice_set};
ghost use Rattle.std.specs.Prelude.{slice_index, slice_index_or, IfOk, IsOk, OnOk, OnErr, not};
ghost use Rattle.std.specs.List.{All, count_by, filter};
ghost use Rattle.std.specs.FinSet as set;
ghost use Rattle.bit_addressing_memory.specs.Bits.{digit_at};
ghost use Rattle.bit_addressing_memory.specs.Memory.{read_by, touched};
ghost use Rattle.bit_slice_views.specs.SpanLimits.{MAX_BITS};
ghost use Rattle.bit_slice_words.specs.Steps.{groups, Takes};
ghost use Rattle.bit_slice_views.specs.View.{view_bits, view_head};
ghost use Rattle.bit_table_rows.specs.Lists.{AreColumns};
ghost use Rattle.bit_table_layout.specs.Letters.{combined};
ghost use Rattle.bit_table_layout.specs.LetterSets.{bears, letter_count, with_letter};
ghost use Rattle.bit_table_rows.specs.Marks.{decided, TellsRows};
ghost use Rattle.bit_table_rows.specs.RowEdit.{added, edited_by, most_moved, LiesIn};

use crate::combine::combine_lists;
use crate::drops::drop_marked;
use crate::edit::RowEdit;
use crate::lists::{copy_lists, edit_lists, extend_lists, make_space};
use crate::put::put_bits;
use bit_addressing_memory::BitOrder;
use bit_containers_vector::BitVec;
use bit_slice_views::{BitSlice, BitStore, Bits};
use bit_slice_views_mut::BitsMut;
use bit_slice_words::{Steps, WordPaths};
use bit_table_layout::BoolOp;
use std::alloc::{AllocError, Global};
use std::array;
use std::marker::Model;

/// How many letters there are.
pub const LETTERS: usize = 26;

/// The letters that the rows of a table bear, each as its place in the alphabet: 26 lists of bits, each with one bit a
/// row.
///
/// Clauses see one set of letters a row, and for how many rows there is memory.
#[derive(Drop)]
pub struct Letters<T: BitStore, O: WordPaths<T>> {
    rows: usize,
    // For how many rows each list has memory, at least.
    space: usize,
    lists: [BitVec<T, O>; LETTERS],
}

impl<T: BitStore, O: WordPaths<T>> Model for Letters<T, O> {
    ghost use Rattle.std.specs.Prelude.{◌≡◌, ◌*◌, ◌≤◌, length, map};
    ghost use Rattle.std.specs.Coded.{codes};
    ghost use Rattle.bit_addressing_memory.specs.Memory.{read_by};
    ghost use Rattle.bit_slice_views.specs.SpanLimits.{MAX_BITS};
    ghost use Rattle.bit_containers_vector.specs.Vector.{vec_bits};
    ghost use Rattle.bit_table_layout.specs.LetterSets.{letters_code, letter_count};
    ghost use Rattle.bit_table_rows.specs.Marks.{marks_of, LettersView};
    ghost use Rattle.bit_table_rows.specs.Lists.{AreColumns, HaveSpace};

    ghost Value = { LettersView };

    ghost coded = { Prim.hlevel (codes, letters_code) };

    ghost view = { λ t. record {
      sets = marks_of t.rows (map (vec_bits (read_by T.BitRegister O.position)) t.lists);
      space = t.space;
    } };

    ghost invariant = { λ t. AreColumns (read_by T.BitRegister O.position) t.rows t.lists
        × HaveSpace (read_by T.BitRegister O.position) t.rows t.space t.lists };
}

impl<T: BitStore, O: WordPaths<T>> Letters<T, O> {
    /// The letters of no rows. It takes no memory.
    pub fn new(alloc: Global) -> Letters<T, O>
        ensures sets { result.sets ≡ [] }
        ensures space { result.space ≡ 0 }
    {
        Letters {
            rows: 0,
            space: 0,
            lists: empty_lists::<T, O>(alloc),
        }
    }

    /// How many rows there are.
    pub fn rows(&self) -> usize
        ensures { result ≡ length self.now.sets }
    {
        self.rows
    }

    /// One bit a row: whether it bears the letter.
    pub fn list(&self, letter: usize) -> BitSlice<'_, T, O>
        requires { letter < letter_count }
        ensures bits { view_bits (read_by T.BitRegister O.position) result ≡ map (bears letter) self.now.sets }
        ensures head { view_head result ≡ 0 }
    {
        self.lists[letter].as_bitslice()
    }

    /// Makes room for so many rows more. A refusal changes nothing, and where there is room no memory is asked for.
    pub fn reserve(&mut self, more: usize) -> Result<(), AllocError>
        requires { length self.old.sets + more ≤ MAX_BITS }
        ensures ok { OnOk result (length self.new.sets + more ≤ self.new.space) }
        ensures sets { self.new.sets ≡ self.old.sets }
        ensures space { self.old.space ≤ self.new.space }
        ensures err { OnErr result (self.new ≡ self.old) }
        ensures succeeds { length self.old.sets + more ≤ self.old.space → IsOk result }
    {
        let space = make_space(&mut self.lists, self.rows, self.space, more)?;
        self.space = space;
        Ok(())
    }

    /// Edits the rows, with their letters; a new row bears none. It answers how many words the moves of an insertion or
    /// a deletion wrote, letter by letter.
    ///
    /// Memory for all lists is asked for before the first is edited, so a refusal changes nothing; an edit asks for
    /// none where there is room for the rows that it adds.
    pub fn edit(&mut self, edit: RowEdit) -> Result<[usize; LETTERS], AllocError>
        requires range { LiesIn (length self.old.sets) edit }
        requires most { length self.old.sets + added edit ≤ MAX_BITS }
        ensures ok { OnOk result (self.new.sets ≡ edited_by set.empty edit self.old.sets) }
        ensures err { OnErr result (self.new ≡ self.old) }
        ensures space { self.old.space ≤ self.new.space }
        ensures succeeds { length self.old.sets + added edit ≤ self.old.space → IsOk result }
        ensures writes { IfOk result (λ writes. All (λ k. k ≤ most_moved T.BITS 1 (length self.old.sets) edit) writes) }
    {
        let rows = self.rows;
        let space = make_space(&mut self.lists, rows, self.space, edit.rows_added())?;
        let mut writes = [0; LETTERS];
        edit_lists(&mut self.lists, rows, edit, &mut writes);
        self.rows = edit.rows_after(rows);
        self.space = space;
        Ok(writes)
    }

    /// Makes one row bear a letter, or not.
    pub fn put(&mut self, letter: usize, row: usize, bears_it: bool)
        requires letter { letter < letter_count }
        requires row { row < length self.old.sets }
        ensures sets { self.new.sets
            ≡ slice_set self.old.sets row (with_letter letter bears_it (slice_index_or self.old.sets row set.empty)) }
        ensures space { self.new.space ≡ self.old.space }
    {
        self.lists[letter].set(row, bears_it);
    }

    /// Makes each of so many rows from `first` on, 1 to 64, bear a letter exactly where a digit of a number is 1: digit
    /// k says it of row `first + k`.
    pub fn put_many(&mut self, letter: usize, first: usize, count: usize, digits: u64)
        requires letter { letter < letter_count }
        requires some { 0 < count }
        requires few { count ≤ 64 }
        requires rows { first + count ≤ length self.old.sets }
        ensures sets { TellsRows letter first count (digit_at digits) self.old.sets self.new.sets }
        ensures space { self.new.space ≡ self.old.space }
    {
        put_bits(&mut self.lists[letter], first, count, digits);
    }

    /// Turns a letter round in each row: the rows that bore it do not, and the others do.
    pub fn invert(&mut self, letter: usize)
        requires { letter < letter_count }
        ensures sets { self.new.sets ≡ decided letter (λ letters. not (bears letter letters)) self.old.sets }
        ensures space { self.new.space ≡ self.old.space }
    {
        self.lists[letter].invert();
    }

    /// Makes a letter of each row what an operation makes of it and of another letter of the row, or of itself.
    pub fn combine(&mut self, op: BoolOp, letter: usize, other: usize, steps: &mut Steps)
        requires letter { letter < letter_count }
        requires other { other < letter_count }
        ensures sets { self.new.sets ≡ decided letter
            (λ letters. combined op (bears letter letters) (bears other letters)) self.old.sets }
        ensures space { self.new.space ≡ self.old.space }

        // Of two letters as many word steps as of that many bits; of a letter and itself none.
        ensures steps { letter ≢ other
            → Takes steps.old steps.new (groups (length self.old.sets) 64) (groups (length self.old.sets) O.SPAN) }
        ensures alone { letter ≡ other → steps.new ≡ steps.old }
    {
        combine_lists(&mut self.lists, self.rows, op, letter, other, steps);
    }

    /// Takes out the rows that bear a letter: the others move together, in their order. It answers how many words the
    /// move of each letter's list wrote.
    ///
    /// No memory is taken, and none is given back.
    pub fn drop_rows(&mut self, letter: usize) -> [usize; LETTERS]
        requires { letter < letter_count }
        ensures sets { self.new.sets ≡ filter (λ letters. not (bears letter letters)) self.old.sets }
        ensures space { self.new.space ≡ self.old.space }

        // At most the words that the rows that stay touch, and of the letter itself none.
        ensures writes { All (λ k. k ≤ touched T.BITS 0 (length self.new.sets)) result }
        ensures own { slice_index result letter ≡ 0 }
    {
        let mut writes = [0; LETTERS];
        self.rows = drop_marked(&mut self.lists, self.rows, letter, &mut writes);
        writes
    }

    /// How many rows bear a letter.
    pub fn count(&self, letter: usize) -> usize
        requires { letter < letter_count }
        ensures { result ≡ count_by (bears letter) self.now.sets }
    {
        self.lists[letter].count_ones()
    }

    /// The letters of so many new rows, which bear none.
    pub fn of_rows(alloc: Global, rows: usize) -> Result<Letters<T, O>, AllocError>
        requires { rows ≤ MAX_BITS }
        ensures sets { IfOk result (λ letters. letters.sets ≡ replicate rows set.empty) }
        ensures space { IfOk result (λ letters. letters.space ≡ rows) }
    {
        let blank = BitVec::<T, O>::repeat(alloc, false, rows)?;
        let mut lists = empty_lists::<T, O>(alloc);
        extend_lists(&mut lists, &blank)?;
        Ok(Letters {
            rows,
            space: rows,
            lists,
        })
    }

    /// The letters of other rows, whatever their words and their order.
    pub fn copy_of<Q: BitStore, P: WordPaths<Q>>(
        alloc: Global,
        others: &Letters<Q, P>,
    ) -> Result<Letters<T, O>, AllocError>
        ensures sets { IfOk result (λ letters. letters.sets ≡ others.now.sets) }
        ensures space { IfOk result (λ letters. letters.space ≡ length others.now.sets) }
    {
        let mut lists = empty_lists::<T, O>(alloc);
        copy_lists(&mut lists, &others.lists)?;
        Ok(Letters {
            rows: others.rows,
            space: others.rows,
            lists,
        })
    }
}

// A list without a bit for each letter.
fn empty_lists<T: BitStore, O: BitOrder<T>>(alloc: Global) -> [BitVec<T, O>; LETTERS]
    ensures { AreColumns (read_by T.BitRegister O.position) 0 result }
{
    array::from_fn(|_letter| BitVec::new(alloc))
}
