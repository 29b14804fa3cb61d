//! A table: rows of a layout, packed bit by bit in words of any width and order.

ghost use Rattle.std.specs.Prelude.{◌≡◌, ◌≢◌, ◌+◌, ◌*◌, ◌≤◌, ◌∷◌, false, true, length, map, replicate, take, None};
ghost use Rattle.std.specs.Prelude.{ℤ, List, option_map, slice_get};
ghost use Rattle.std.specs.Prelude.{is_some, IfOk, IsOk, OnOk, OnErr, IsOkUnless, IsTrue, MatchOption};
ghost use Rattle.bit_addressing_memory.specs.Memory.{read_by};
ghost use Rattle.bit_containers_array.specs.Array.{array_bits};
ghost use Rattle.bit_slice_words.specs.Steps.{groups, Takes};
ghost use Rattle.bit_slice_views.specs.View.{view_bits, view_head};
ghost use Rattle.bit_table_layout.specs.Images.{image_bytes, HasOnlyNumbers};
ghost use Rattle.bit_table_layout.specs.declared.layout.TheConstants.{MAX_BITS, MAX_ROW_BITS};
ghost use Rattle.bit_table_layout.specs.Layouts.{row_width};
ghost use Rattle.bit_table_layout.specs.Rows.{new_row, numbers_bits, table_bits, take_all, Row};
ghost use Rattle.bit_table_commands.specs.Accepted.{IsAccepted};
ghost use Rattle.bit_table_commands.specs.Causes.{cause_in};
ghost use Rattle.bit_table_commands.specs.Edits.{edit, reply_to};
ghost use Rattle.bit_table_commands.specs.Marks.{row_bears, rows_passing};
ghost use Rattle.bit_table_commands.specs.declared.reply.Reply.TheVariants.{Done};
ghost use Rattle.bit_table_commands.specs.Tables.{new_table, IsTable};
ghost use Rattle.bit_table_rows.specs.RowEdit.{added, edited_by, moves_rows, taken_out, LiesIn, WhereNew};
ghost use Rattle.bit_table_script.specs.Moved.{Moved, MovedBy};
ghost use Rattle.bit_table_script.specs.Room.{IsWithinRoom, RoomAfter};
ghost use Rattle.bit_table_script.specs.RowCommands.{AsksFor, HasRowBits};
ghost use Rattle.bit_table_script.specs.View.{may_want_memory};

use super::kept::{Kept, copy_of};
use super::marks::{mark_rows, places_of_ones};
use bit_addressing_memory::BitRegister;
use bit_containers_array::BitArray;
use bit_containers_vector::BitVec;
use bit_slice_views::{BitSlice, BitViewSized, Bits};
use bit_slice_words::{Steps, WordPaths};
use bit_table_commands::{Command, ImageBytes, Numbers, Reply, RowNumbers, Test};
use bit_table_fields::{Digits, bits_before, load_row, store_number, store_row};
use bit_table_image::{read, write};
use bit_table_layout::{BoolOp, Fault, Layout, Letter};
use bit_table_rows::{LETTERS, Letters, RowEdit, edit_rows, keep_rows_of};
use std::alloc::{AllocError, Global};
use std::marker::Model;

/// A table: rows of one layout, whose bits lie end to end in words of `A::Store` in the order `O`. `A` is the buffer of
/// one row.
///
/// It begins with no rows, and each command that it carries out edits its rows or tells of them. What it answers does
/// not depend on its words or their order.
#[derive(Drop)]
pub struct Table<A: BitViewSized, O: WordPaths<A::Store> + Digits<A::Store>> {
    alloc: Global,
    layout: Layout,
    rows: usize,
    // For how many rows all lists have memory, at least.
    space: usize,
    bits: BitVec<A::Store, O>,
    letters: Letters<A::Store, O>,
    kept: Option<Kept<A, O>>,
    moved: [usize; 27],
}

impl<A: BitViewSized, O: WordPaths<A::Store> + Digits<A::Store>> Model for Table<A, O> {
    ghost use Rattle.std.specs.Prelude.{◌≡◌, ◌-◌, ◌*◌, ◌≤◌, length, true, IfSome};
    ghost use Rattle.std.specs.Coded.{codes};
    ghost use Rattle.bit_addressing_memory.specs.Memory.{read_by};
    ghost use Rattle.bit_slice_views.specs.SpanLimits.{MAX_BITS};
    ghost use Rattle.bit_containers_vector.specs.Vector.{vec_bits, vec_head, room};
    ghost use Rattle.bit_table_layout.specs.declared.layout.TheConstants.{MAX_ROW_BITS};
    ghost use Rattle.bit_table_layout.specs.Layouts.{is_layout, row_width};
    ghost use Rattle.bit_table_layout.specs.LetterSets.{letters_code};
    ghost use Rattle.bit_table_script.specs.View.{table_from, AreStored, HaveSpace, StoredRows, TableView};

    ghost Value = { TableView };

    ghost coded = { Prim.hlevel (codes, letters_code) };

    ghost view = { λ t. record {
      shape = table_from t.layout (record {
        rows = t.rows;
        bits = vec_bits (read_by A.Store.BitRegister O.position) t.bits;
        letters = t.letters.sets;
      }) t.kept;
      moved = t.moved;
      room = t.space - t.rows;
    } };

    ghost invariant = { λ t. (is_layout t.layout ≡ true)
        × AreStored t.layout (record {
          rows = t.rows;
          bits = vec_bits (read_by A.Store.BitRegister O.position) t.bits;
          letters = t.letters.sets;
        })
        × IfSome t.kept (AreStored t.layout)
        × (MAX_ROW_BITS ≤ A.COUNT * A.Store.BITS)
        × (vec_head t.bits ≡ 0)
        × HaveSpace t.rows t.space (row_width t.layout.fields) (room (read_by A.Store.BitRegister O.position) t.bits)
        t.letters.space };
}

impl<A: BitViewSized, O: WordPaths<A::Store> + Digits<A::Store>> Table<A, O> {
    /// A table of a layout, with no rows and nothing kept. It takes no memory until there are rows.
    ///
    /// A row has at most `MAX_ROW_BITS` bits, and so the buffer has to have as many.
    pub fn new(alloc: Global, layout: Layout) -> Table<A, O>
        requires buffer { MAX_ROW_BITS ≤ A.COUNT * A.Store.BITS }
        ensures shape { result.shape ≡ new_table layout }
        ensures moved { result.moved ≡ replicate 27 0 }
        ensures room { result.room ≡ 0 }
    {
        let _ = layout.row_bits();
        Table {
            alloc,
            layout,
            rows: 0,
            space: 0,
            bits: BitVec::new(alloc),
            letters: Letters::new(alloc),
            kept: None,
            moved: [0; 27],
        }
    }

    /// The layout.
    pub fn layout(&self) -> &Layout
        ensures layout { result.now ≡ self.now.shape.layout }
        ensures lawful { IsTable self.now.shape }
    {
        &self.layout
    }

    /// How many rows there are.
    pub fn rows(&self) -> usize
        ensures rows { result ≡ length self.now.shape.rows }
        ensures lawful { IsTable self.now.shape }
    {
        self.rows
    }

    /// The bits of all rows, end to end.
    pub fn row_bits(&self) -> BitSlice<'_, A::Store, O>
        ensures bits { view_bits (read_by A.Store.BitRegister O.position) result
            ≡ table_bits self.now.shape.layout self.now.shape.rows }
        ensures head { view_head result ≡ 0 }
    {
        self.bits.as_bitslice()
    }

    /// One bit a row: whether it bears the letter.
    pub fn letter_bits(&self, letter: Letter) -> BitSlice<'_, A::Store, O>
        ensures bits { view_bits (read_by A.Store.BitRegister O.position) result
            ≡ map (row_bears letter) self.now.shape.rows }
        ensures head { view_head result ≡ 0 }
    {
        self.letters.list(letter.index())
    }

    /// The numbers of a row, one a field, in order; `None` where there is no such row.
    pub fn row(&self, row: u64) -> Result<Option<Numbers>, AllocError>
        ensures { IfOk result (λ found. found
            ≡ option_map (λ (row : Row). row.numbers) (slice_get self.now.shape.rows row)) }
    {
        if row >= self.rows() as u64 {
            return Ok(None);
        }
        match self.get(row)? {
            Reply::Numbers(numbers) => Ok(Some(numbers)),
            // It is numbers that a row is told by.
            _ => Ok(None),
        }
    }

    /// Which rows bear the letter, ascending.
    pub fn marked(&self, letter: Letter) -> Result<RowNumbers, AllocError>
        ensures { IfOk result (λ rows. rows ≡ rows_passing (row_bears letter) 0 self.now.shape.rows) }
    {
        Ok(RowNumbers::new(places_of_ones(self.alloc, self.letter_bits(letter))?))
    }

    /// How many words the moves of the last edit that moved rows wrote: those of the rows' list first, then those of
    /// the lists of the letters `a` to `z`. Insertions, deletions and `Drop` move rows so, and `apply` bounds the numbers;
    /// all are 0 before the first.
    pub fn moved(&self) -> [usize; 27]
        ensures { result ≡ self.now.moved }
    {
        self.moved
    }

    // ---- room

    /// How many rows more surely fit without memory: an insertion, or a copy of rows behind the last one, that adds no
    /// more of them takes none. A row that is taken out makes room for one.
    pub fn room(&self) -> usize
        ensures { result ≡ self.now.room }
    {
        self.space - self.rows
    }

    /// Makes room for so many rows more, in the rows' list and in those of all letters. A refusal changes nothing, and
    /// where there is room no memory is asked for.
    pub fn reserve(&mut self, k: usize) -> Result<(), AllocError>
        requires { (length self.old.shape.rows + k) * row_width self.old.shape.layout.fields ≤ MAX_BITS }
        ensures ok { OnOk result (k ≤ self.new.room) }
        ensures err { OnErr result (self.new ≡ self.old) }
        ensures succeeds { k ≤ self.old.room → IsOk result }
        ensures shape { self.new.shape ≡ self.old.shape }
        ensures moved { self.new.moved ≡ self.old.moved }
        ensures room { self.old.room ≤ self.new.room }
    {
        if k <= self.space - self.rows {
            return Ok(());
        }
        self.bits.reserve(k * self.layout.row_bits())?;
        self.letters.reserve(k)?;
        self.space = self.rows + k;
        Ok(())
    }

    // ---- what is kept

    /// Keeps the rows in place of those that were kept. Where no memory is found, the older ones stay.
    // Out of line, as `back` and `load`: where they are inlined, their room for lists is cleared at each command.
    #[inline(never)]
    pub fn keep(&mut self) -> Result<(), AllocError>
        ensures ok { OnOk result (self.new.shape ≡ edit self.old.shape Command.Keep) }
        ensures err { OnErr result (self.new ≡ self.old) }
        ensures moved { self.new.moved ≡ self.old.moved }
        ensures room { self.new.room ≡ self.old.room }
    {
        self.kept = Some(Kept::copy_of(self.alloc, self.rows, &self.bits, &self.letters)?);
        Ok(())
    }

    /// Puts the kept rows in place of the rows, after which nothing is kept, and answers whether there were any: where
    /// nothing is kept, nothing changes. It takes no memory; the room may be any number afterwards.
    #[inline(never)]
    pub fn back(&mut self) -> bool
        ensures told { result ≡ is_some self.old.shape.kept }
        ensures back { IsTrue result → self.new.shape ≡ edit self.old.shape Command.Back }
        ensures same { result ≡ false → self.new ≡ self.old }
        ensures moved { self.new.moved ≡ self.old.moved }
    {
        let Some(kept) = self.kept.take() else {
            return false;
        };
        let (rows, bits, letters) = kept.into_parts();
        self.rows = rows;
        self.space = rows;
        self.bits = bits;
        self.letters = letters;
        true
    }

    /// A table of the same layout, rows, letters and kept rows, in other words or another order: it answers each command
    /// as this one does. Its `moved` is all 0, and its room may be any number.
    pub fn relay<A2: BitViewSized, O2: WordPaths<A2::Store> + Digits<A2::Store>>(
        &self,
    ) -> Result<Table<A2, O2>, AllocError>
        requires buffer { MAX_ROW_BITS ≤ A2.COUNT * A2.Store.BITS }
        ensures shape { IfOk result (λ other. other.shape ≡ self.now.shape) }
        ensures moved { IfOk result (λ other. other.moved ≡ replicate 27 0) }
    {
        let layout = self.layout.clone()?;
        let bits = copy_of(self.alloc, &self.bits)?;
        let letters = Letters::copy_of(self.alloc, &self.letters)?;
        let kept = match &self.kept {
            Some(kept) => Some(kept.relay(self.alloc)?),
            None => None,
        };
        Ok(Table {
            alloc: self.alloc,
            layout,
            rows: self.rows,
            space: self.rows,
            bits,
            letters,
            kept,
            moved: [0; 27],
        })
    }

    // ---- letters

    /// Makes letter `x` of each row what an operation makes of it and letter `y`, which may be the same. Its word steps
    /// are counted: for two letters of `n` rows, a step for each `O::SPAN` rows at most, and one for each 64 at least; for a
    /// letter and itself none.
    pub fn combine(&mut self, op: BoolOp, x: Letter, y: Letter, steps: &mut Steps)
        ensures shape { self.new.shape ≡ edit self.old.shape (Command.Combine op x y) }
        ensures moved { self.new.moved ≡ self.old.moved }
        ensures room { self.new.room ≡ self.old.room }
        ensures steps { x ≢ y → Takes steps.old steps.new (groups (length self.old.shape.rows) 64)
            (groups (length self.old.shape.rows) O.SPAN) }
        ensures alone { x ≡ y → steps.new ≡ steps.old }
    {
        self.letters.combine(op, x.index(), y.index(), steps);
    }

    // ---- commands

    /// Carries a command out and replies to it.
    ///
    /// A command to which a cause applies is refused for the first that does, without memory being taken. Any other is
    /// carried out, unless memory is wanted: only insertions, copies of rows behind the last one, `Load`, `Keep` and
    /// replies that tell of rows may want it. A command that is not carried out changes nothing.
    pub fn apply(&mut self, command: &Command) -> Result<Reply, Fault>
        // The first cause that applies refuses, and nothing else does.
        ensures cause { MatchOption (cause_in self.old.shape command.now) (IsOkUnless result Fault.Memory)
            (λ c. result ≡ Err (Fault.Refused c)) }
        ensures succeeds { may_want_memory command.now ≡ false → cause_in self.old.shape command.now ≡ None
            → IsOk result }

        // Within the room no memory is wanted.
        ensures within { IsWithinRoom self.old command.now → cause_in self.old.shape command.now ≡ None → IsOk result }

        // What a command does and answers.
        ensures ok { OnOk result (self.new.shape ≡ edit self.old.shape command.now) }
        ensures reply { IfOk result (λ reply. reply ≡ reply_to self.old.shape command.now) }
        ensures err { OnErr result (self.new ≡ self.old) }

        // An insertion, a deletion or `Drop` writes at most the words that the rows which move touch at their new places,
        // in the rows' list and in each letter's, and none in that of the letter that is dropped by.
        ensures moved { OnOk result (Moved A.Store.BITS self.old command.now self.new) }

        // What is left of the room: rows that come take at most their number of it, and rows that go give theirs back.
        ensures room { OnOk result (RoomAfter self.old command.now self.new) }

        // The rows with this image have the table's numbers.
        ensures image { HasOnlyNumbers self.old.shape.layout (length self.old.shape.rows)
            (image_bytes self.old.shape.layout self.old.shape.rows) self.old.shape.rows }
    {
        if let Some(cause) = command.cause(&self.layout, self.rows, self.kept.is_some()) {
            return Err(Fault::Refused(cause));
        }
        match self.carry_out(command) {
            Ok(reply) => Ok(reply),
            Err(_) => Err(Fault::Memory),
        }
    }

    // Carries out a command that no cause refuses.
    fn carry_out(&mut self, command: &Command) -> Result<Reply, AllocError>
        requires { IsAccepted self.old.shape command.now }
        ensures succeeds { may_want_memory command.now ≡ false → IsOk result }
        ensures ok { OnOk result (self.new.shape ≡ edit self.old.shape command.now) }
        ensures reply { IfOk result (λ reply. reply ≡ reply_to self.old.shape command.now) }
        ensures err { OnErr result (self.new ≡ self.old) }
        ensures moved { OnOk result (Moved A.Store.BITS self.old command.now self.new) }
        ensures within { IsWithinRoom self.old command.now → IsOk result }
        ensures room { OnOk result (RoomAfter self.old command.now self.new) }
    {
        match command {
            Command::Insert { place, values } => self.insert(*place, values.as_slice()),
            Command::Delete { start, upto } => {
                let (start, upto) = (*start as usize, *upto as usize);
                self.edit_by(command, RowEdit::Delete { start, upto })
            }
            Command::Set {
                row,
                field: Some(index),
                value,
            } => Ok(self.set(*row, *index, *value)),
            // A field that the layout lacks is a cause.
            Command::Set { .. } => Ok(Reply::Done),
            Command::Get { row } => self.get(*row),
            Command::Copy { start, upto, place } => {
                let (start, upto) = (*start as usize, *upto as usize);
                let place = *place as usize;
                self.edit_by(command, RowEdit::Copy { start, upto, place })
            }
            Command::Swap { row, other } => {
                let (row, other) = (*row as usize, *other as usize);
                self.edit_by(command, RowEdit::Swap { row, other })
            }
            Command::Rotate {
                start,
                upto,
                amount,
            } => {
                let (start, upto) = (*start as usize, *upto as usize);
                let amount = *amount as usize;
                self.edit_by(
                    command,
                    RowEdit::Rotate {
                        start,
                        upto,
                        amount,
                    },
                )
            }
            Command::Dup { start, upto } => {
                let (start, upto) = (*start as usize, *upto as usize);
                self.edit_by(command, RowEdit::Dup { start, upto })
            }
            Command::Image => self.image(),
            Command::Load { rows, bytes } => self.load(*rows, bytes.as_slice()),
            Command::Keep => {
                self.keep()?;
                Ok(Reply::Done)
            }
            // Nothing kept is a cause.
            Command::Back => {
                self.back();
                Ok(Reply::Done)
            }
            Command::Mark {
                letter,
                field,
                test,
                value,
            } => Ok(self.mark(*letter, *field, *test, *value)),
            Command::Combine { op, letter, other } => {
                self.combine(*op, *letter, *other, &mut Steps::new());
                Ok(Reply::Done)
            }
            Command::Not(letter) => Ok(self.invert(*letter)),
            Command::Count(letter) => Ok(self.count(*letter)),
            Command::List(letter) => self.list(*letter),
            Command::Drop(letter) => Ok(self.drop_marked(*letter)),
        }
    }

    // Carries out a command that asks for an edit of the rows alone.
    fn edit_by(&mut self, command: &Command, row_edit: RowEdit) -> Result<Reply, AllocError>
        requires accepted { IsAccepted self.old.shape command.now }
        requires edit { AsksFor row_edit command.now }
        ensures succeeds { may_want_memory command.now ≡ false → IsOk result }
        ensures ok { OnOk result (self.new.shape ≡ edit self.old.shape command.now) }
        ensures reply { IfOk result (λ reply. reply ≡ reply_to self.old.shape command.now) }
        ensures err { OnErr result (self.new ≡ self.old) }
        ensures moved { OnOk result (Moved A.Store.BITS self.old command.now self.new) }
        ensures within { IsWithinRoom self.old command.now → IsOk result }
        ensures room { OnOk result (RoomAfter self.old command.now self.new) }
    {
        // They are no more than a table may have.
        let _rows = self.rows();
        self.edit_rows(row_edit, BitSlice::empty())
    }

    fn insert(&mut self, place: u64, values: &[i128]) -> Result<Reply, AllocError>
        requires { IsAccepted self.old.shape (Command.Insert place values.now) }
        ensures ok { OnOk result (self.new.shape ≡ edit self.old.shape (Command.Insert place values.now)) }
        ensures reply { IfOk result (λ reply. reply ≡ Done) }
        ensures err { OnErr result (self.new ≡ self.old) }
        ensures moved { OnOk result (Moved A.Store.BITS self.old (Command.Insert place values.now) self.new) }
        ensures succeeds { 1 ≤ self.old.room → IsOk result }
        ensures room { OnOk result (self.old.room ≤ self.new.room + 1) }
    {
        let width = self.layout.row_bits();
        let buffer = row_of::<A, O>(&self.layout, values);
        let place = place as usize;
        self.edit_rows(
            RowEdit::Insert { place },
            buffer.as_bitslice().part(0, width),
        )
    }

    // Edits the rows and their letters, or, where memory is wanted, neither. `row` has the bits of a new row.
    fn edit_rows(
        &mut self,
        edit: RowEdit,
        row: BitSlice<'_, A::Store, O>,
    ) -> Result<Reply, AllocError>
        requires range { LiesIn (length self.old.shape.rows) edit }
        requires most { (length self.old.shape.rows + added edit) * row_width self.old.shape.layout.fields ≤ MAX_BITS }
        requires width { WhereNew edit (length (view_bits (read_by A.Store.BitRegister O.position) row)
            ≡ row_width self.old.shape.layout.fields) }
        ensures succeeds { added edit ≤ self.old.room → IsOk result }

        // Where `row` has the bits of a row of the numbers `vs`, this is the new row.
        ensures ok { OnOk result ((vs : List ℤ)
            → WhereNew edit (HasRowBits self.old.shape.layout vs (view_bits (read_by A.Store.BitRegister O.position) row.entry))
            → self.new.shape ≡ record self.old.shape { rows = edited_by (new_row vs) edit self.old.shape.rows }) }
        ensures reply { IfOk result (λ reply. reply ≡ Done) }
        ensures err { OnErr result (self.new ≡ self.old) }
        ensures moved { OnOk result (MovedBy A.Store.BITS self.old edit self.new.moved) }
        ensures room { OnOk result (self.old.room + taken_out edit ≤ self.new.room + added edit) }
    {
        self.reserve(edit.rows_added())?;
        Ok(self.edit_within(edit, row))
    }

    // The same where there is room for the rows that the edit adds.
    fn edit_within(&mut self, edit: RowEdit, row: BitSlice<'_, A::Store, O>) -> Reply
        requires range { LiesIn (length self.old.shape.rows) edit }
        requires most { (length self.old.shape.rows + added edit) * row_width self.old.shape.layout.fields ≤ MAX_BITS }
        requires width { WhereNew edit (length (view_bits (read_by A.Store.BitRegister O.position) row)
            ≡ row_width self.old.shape.layout.fields) }
        requires room { added edit ≤ self.old.room }
        ensures shape { (vs : List ℤ)
            → WhereNew edit (HasRowBits self.old.shape.layout vs (view_bits (read_by A.Store.BitRegister O.position) row.entry))
            → self.new.shape ≡ record self.old.shape { rows = edited_by (new_row vs) edit self.old.shape.rows } }
        ensures reply { result ≡ Done }
        ensures moved { MovedBy A.Store.BITS self.old edit self.new.moved }
        ensures room { self.old.room + taken_out edit ≤ self.new.room + added edit }
    {
        let width = self.layout.row_bits();
        let letters = self.letters.edit(edit).unwrap();
        let rows = edit_rows(&mut self.bits, self.rows, width, edit, &row).unwrap();
        self.rows = edit.rows_after(self.rows);
        self.moved = writes_told(edit, rows, letters, self.moved);
        Reply::Done
    }

    fn set(&mut self, row: u64, field: usize, value: i128) -> Reply
        requires { IsAccepted self.old.shape (Command.Set row (Some field) value) }
        ensures shape { self.new.shape ≡ edit self.old.shape (Command.Set row (Some field) value) }
        ensures reply { result ≡ Done }
        ensures moved { self.new.moved ≡ self.old.moved }
        ensures room { self.new.room ≡ self.old.room }
    {
        let at = row as usize * self.layout.row_bits() + bits_before(&self.layout, field);
        let width = self.layout.fields()[field].width();
        store_number(
            &mut self.bits,
            at,
            self.layout.rule(),
            width,
            value,
            &mut Steps::new(),
        );
        Reply::Done
    }

    fn get(&self, row: u64) -> Result<Reply, AllocError>
        requires { IsAccepted self.now.shape (Command.Get row) }
        ensures { IfOk result (λ reply. reply ≡ reply_to self.now.shape (Command.Get row)) }
    {
        let at = row as usize * self.layout.row_bits();
        let numbers = load_row(self.alloc, &self.bits, at, &self.layout, &mut Steps::new())?;
        Ok(Reply::Numbers(Numbers::new(numbers)))
    }

    // No memory is taken before the bytes are known to be an image; all new lists are made before the old ones go.
    #[inline(never)]
    fn load(&mut self, rows: u64, bytes: &[u8]) -> Result<Reply, AllocError>
        requires { IsAccepted self.old.shape (Command.Load rows bytes.now) }
        ensures ok { OnOk result (self.new.shape ≡ edit self.old.shape (Command.Load rows bytes.now)) }
        ensures reply { IfOk result (λ reply. reply ≡ Done) }
        ensures err { OnErr result (self.new ≡ self.old) }
        ensures moved { OnOk result (self.new.moved ≡ self.old.moved) }
    {
        let bits = match read::<A::Store, O>(self.alloc, &self.layout, rows, bytes) {
            Ok(bits) => bits,
            // The bytes are an image of so many rows, and these are not too many.
            Err(_) => return Err(AllocError),
        };
        let rows = rows as usize;
        let letters = Letters::of_rows(self.alloc, rows)?;
        self.rows = rows;
        self.space = rows;
        self.bits = bits;
        self.letters = letters;
        Ok(Reply::Done)
    }

    fn mark(&mut self, letter: Letter, field: Option<usize>, test: Test, value: i128) -> Reply
        requires { IsAccepted self.old.shape (Command.Mark letter field test value) }
        ensures shape { self.new.shape ≡ edit self.old.shape (Command.Mark letter field test value) }
        ensures reply { result ≡ Done }
        ensures moved { self.new.moved ≡ self.old.moved }
        ensures room { self.new.room ≡ self.old.room }
    {
        // A field that the layout lacks is a cause.
        let Some(field) = field else {
            return Reply::Done;
        };
        let letter = letter.index();
        mark_rows(
            &mut self.letters,
            &self.layout,
            &self.bits,
            letter,
            field,
            test,
            value,
        );
        Reply::Done
    }

    fn invert(&mut self, letter: Letter) -> Reply
        ensures shape { self.new.shape ≡ edit self.old.shape (Command.Not letter) }
        ensures reply { result ≡ Done }
        ensures moved { self.new.moved ≡ self.old.moved }
        ensures room { self.new.room ≡ self.old.room }
    {
        self.letters.invert(letter.index());
        Reply::Done
    }

    fn count(&self, letter: Letter) -> Reply
        ensures { result ≡ reply_to self.now.shape (Command.Count letter) }
    {
        Reply::Count(self.letters.count(letter.index()))
    }

    fn list(&self, letter: Letter) -> Result<Reply, AllocError>
        ensures { IfOk result (λ reply. reply ≡ reply_to self.now.shape (Command.List letter)) }
    {
        Ok(Reply::Rows(self.marked(letter)?))
    }

    fn drop_marked(&mut self, letter: Letter) -> Reply
        ensures shape { self.new.shape ≡ edit self.old.shape (Command.Drop letter) }
        ensures reply { result ≡ Done }
        ensures moved { Moved A.Store.BITS self.old (Command.Drop letter) self.new }
        ensures room { self.old.room + length self.old.shape.rows ≤ self.new.room + length self.new.shape.rows }
    {
        let width = self.layout.row_bits();
        let letter = letter.index();
        let marked = self.letters.list(letter);
        let (left, rows) = keep_rows_of(&mut self.bits, self.rows, width, marked);
        let letters = self.letters.drop_rows(letter);
        self.moved = all_writes(rows, letters);
        self.rows = left;
        Reply::Done
    }

    fn image(&self) -> Result<Reply, AllocError>
        ensures { IfOk result (λ reply. reply ≡ reply_to self.now.shape Command.Image) }
    {
        let bytes = write(self.alloc, &self.layout, self.bits.as_bitslice())?;
        Ok(Reply::Image {
            rows: self.rows,
            bytes: ImageBytes::new(bytes),
        })
    }
}

// A buffer that begins with a row of these values, one a field.
fn row_of<A: BitViewSized, O: WordPaths<A::Store> + Digits<A::Store>>(
    layout: &Layout,
    values: &[i128],
) -> BitArray<A, O>
    requires buffer { MAX_ROW_BITS ≤ A.COUNT * A.Store.BITS }
    requires narrow { row_width layout.now.fields ≤ MAX_ROW_BITS }
    requires count { length values.now ≡ length layout.now.fields }
    requires taken { take_all layout.now.fields values.now ≡ true }
    ensures len { MAX_ROW_BITS ≤ length (array_bits (read_by A.Store.BitRegister O.position) A.words result) }
    ensures bits { take (row_width layout.now.fields)
        (array_bits (read_by A.Store.BitRegister O.position) A.words result)
        ≡ numbers_bits layout.now.rule layout.now.fields values.now }
{
    let mut row = BitArray::<A, O>::new(A::ZERO);
    // As many bits as the buffer has, and so room for each row.
    let _bits = BitArray::len(&row);
    store_row(&mut row, 0, layout, values, &mut Steps::new());
    row
}

// The word writes of an edit's moves, where it moves rows by a sweep, and else those told before.
fn writes_told(
    edit: RowEdit,
    rows: usize,
    letters: [usize; LETTERS],
    before: [usize; 27],
) -> [usize; 27]
    ensures moves { moves_rows edit ≡ true → result ≡ rows ∷ letters }
    ensures rests { moves_rows edit ≡ false → result ≡ before }
{
    match edit {
        RowEdit::Insert { .. } | RowEdit::Delete { .. } => all_writes(rows, letters),
        _ => before,
    }
}

// The word writes of the moves of the rows' list, and then those of the letters' lists.
fn all_writes(rows: usize, letters: [usize; LETTERS]) -> [usize; 27]
    ensures { result ≡ rows ∷ letters }
{
    let mut all = [rows; 27];
    all[1..].copy_from_slice(&letters);
    all
}
