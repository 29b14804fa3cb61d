//! Edits of a list of rows, by the places of rows in it.

ghost use Rattle.std.specs.Prelude.{◌≡◌, ◌+◌, ◌<◌, ◌^◌};
ghost use Rattle.bit_table_rows.specs.RowEdit.{added, count_after};

/// An edit of a list of rows: which rows are put in, taken out, copied or moved. Rows are numbered from 0.
#[derive(Debug, Clone, Copy, PartialEq, Eq)]
pub enum RowEdit {
    /// A new row before row `place`.
    Insert {
        place: usize,
    },
    /// The rows from `start` up to before `upto` taken out.
    Delete {
        start: usize,
        upto: usize,
    },
    /// The rows from `start` up to before `upto`, as they were, over the rows from `place` on.
    Copy {
        start: usize,
        upto: usize,
        place: usize,
    },
    /// Two rows exchanged. They may be the same.
    Swap {
        row: usize,
        other: usize,
    },
    /// The rows from `start` up to before `upto` turned: the first `amount` of them become the last.
    Rotate {
        start: usize,
        upto: usize,
        amount: usize,
    },
    /// The rows from `start` up to before `upto` once more, behind the last.
    Dup {
        start: usize,
        upto: usize,
    },
}

impl RowEdit {
    /// How many rows it adds.
    pub fn rows_added(self) -> usize
        ensures { result ≡ added self }
    {
        match self {
            RowEdit::Insert { .. } => 1,
            RowEdit::Dup { start, upto } => upto.saturating_sub(start),
            _ => 0,
        }
    }

    /// How many rows there are after it, where there were so many.
    pub fn rows_after(self, rows: usize) -> usize
        requires { rows + added self < 2 ^ 64 }
        ensures { result ≡ count_after rows self }
    {
        match self {
            RowEdit::Delete { start, upto } => rows.saturating_sub(upto.saturating_sub(start)),
            _ => rows + self.rows_added(),
        }
    }
}
