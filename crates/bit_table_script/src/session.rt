//! A script's lines, answered one after another.
ghost use Rattle.std.specs.Prelude.{◌≡◌, ◌*◌, ◌≤◌, IfOk, OnOk, None, Some};
ghost use Rattle.bit_table_layout.specs.declared.layout.TheConstants.{MAX_ROW_BITS};
ghost use Rattle.bit_table_commands.specs.Causes.{line_cause};
ghost use Rattle.bit_table_script.specs.Scripts.{has_word, answer_by, after_by, state_of};
ghost use Rattle.bit_table_script.specs.Shapes.{shape_in};
ghost use Rattle.bit_table_commands.specs.Tables.{start, state_with};

use crate::table::Table;
use bit_slice_views::BitViewSized;
use bit_slice_words::WordPaths;
use bit_table_commands::{Command, Reply};
use bit_table_fields::Digits;
use bit_table_layout::{Cause, Fault, Layout, LayoutError, Words};
use bit_table_lines::LineMachine;
use std::alloc::{AllocError, Global};

// What has come of a script so far: no layout yet, or a table.
#[derive(Drop)]
pub(crate) struct Session<A: BitViewSized, O: WordPaths<A::Store> + Digits<A::Store>> {
    alloc: Global,
    table: Option<Table<A, O>>,

    ghost buffer: { MAX_ROW_BITS ≤ A.COUNT * A.Store.BITS },
}

impl<A: BitViewSized, O: WordPaths<A::Store> + Digits<A::Store>> Session<A, O> {
    ghost use Rattle.std.specs.Prelude.{List, ℕ, ◌∷◌, ◌++◌, true};
    ghost use Rattle.bit_table_script.specs.Sessions.{session_state};
    ghost use Rattle.bit_table_script.specs.Scripts.{answers};

    // The beginning of a script.
    pub(crate) fn new(alloc: Global) -> Session<A, O>
        requires { MAX_ROW_BITS ≤ A.COUNT * A.Store.BITS }
        ensures { session_state result ≡ start }
    {
        Session { alloc, table: None }
    }

    // Takes a line with a word, where there is no table yet, as a layout line, and gives its answer. Out of line: where it
    // is inlined, room for tables is cleared at each line.
    #[inline(never)]
    fn begin(&mut self, line: &[u8]) -> Result<Vec<u8>, AllocError>
        requires word { has_word line.now ≡ true }
        requires none { self.old.table ≡ None }
        ensures { IfOk result (λ text. (rest : List (List ℕ)) → answers (session_state self.old) (line.now ∷ rest)
            ≡ text.items ++ answers (session_state self.new) rest) }
    {
        let (table, text) = answer_layout_line::<A, O>(self.alloc, line)?;
        self.table = table;
        Ok(text)
    }
}

impl<A: BitViewSized, O: WordPaths<A::Store> + Digits<A::Store>> LineMachine for Session<A, O> {
    ghost use Rattle.std.specs.Prelude.{List, ℕ, refl};
    ghost use Rattle.bit_table_script.specs.Sessions.{session_state};
    ghost use Rattle.bit_table_script.specs.Scripts.{answers};
    ghost use Rattle.bit_table_script.specs.ScriptLaws.{answers-goes_on};

    ghost answers = { λ s lines. answers (session_state s) lines };

    fn answer(&mut self, line: &[u8]) -> Result<Vec<u8>, AllocError> {
        if !has_word(line) {
            return Ok(Vec::new(self.alloc));
        }
        if let Some(table) = &mut self.table {
            return answer_command_line(self.alloc, table, line);
        }
        self.begin(line)
    }

    ghost none = { λ m. refl };

    ghost goes_on = { λ m front back. answers-goes_on (session_state m) front back };
}

// Whether a line has a word.
fn has_word(line: &[u8]) -> bool
    ensures { result ≡ has_word line.now }
{
    Words::new(line).next().is_some()
}

// Tries a line with a word as a layout line, and gives the table that it makes, if it does, and its answer.
fn answer_layout_line<A: BitViewSized, O: WordPaths<A::Store> + Digits<A::Store>>(
    alloc: Global,
    line: &[u8],
) -> Result<(Option<Table<A, O>>, Vec<u8>), AllocError>
    requires { MAX_ROW_BITS ≤ A.COUNT * A.Store.BITS }
    ensures text { IfOk result (λ begun. begun.1.items ≡ answer_by (line_cause None line.now) None line.now) }
    ensures state { IfOk result (λ begun.
        state_of (shape_in begun.0) ≡ after_by (line_cause None line.now) start line.now) }
{
    match Layout::parse(alloc, line) {
        Ok(layout) => {
            let text = Reply::Done.line(alloc)?;
            Ok((Some(Table::new(alloc, layout)), text))
        }
        Err(LayoutError::Refused) => Ok((None, Cause::Layout.line(alloc)?)),
        Err(LayoutError::Memory) => Err(AllocError),
    }
}

// Carries a line with a word out on a table, and gives its answer.
fn answer_command_line<A: BitViewSized, O: WordPaths<A::Store> + Digits<A::Store>>(
    alloc: Global,
    table: &mut Table<A, O>,
    line: &[u8],
) -> Result<Vec<u8>, AllocError>
    ensures text { IfOk result (λ text.
        text.items ≡ answer_by (line_cause (Some table.old.shape) line.now) (Some table.old.shape) line.now) }
    ensures state { OnOk result (
        state_with table.new.shape
        ≡ after_by (line_cause (Some table.old.shape) line.now) (state_with table.old.shape) line.now) }
{
    let command = match Command::parse(alloc, table.layout(), line) {
        Ok(command) => command,
        Err(Fault::Refused(cause)) => return cause.line(alloc),
        Err(Fault::Memory) => return Err(AllocError),
    };
    match table.apply(&command) {
        Ok(reply) => reply.line(alloc),
        Err(Fault::Refused(cause)) => cause.line(alloc),
        Err(Fault::Memory) => Err(AllocError),
    }
}
