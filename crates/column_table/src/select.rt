//! The rows of a table that meet conditions.

ghost use Rattle.std.specs.Prelude.{◌≡◌, ◌<◌, [], length};
ghost use Rattle.column_table.specs.Selections.{letter, AreOn, AreSelected, IsNarrowed, NoneSelected, SameNumbers};

use crate::condition::Condition;
use bit_table::{BitViewSized, BoolOp, Command, Digits, Letter, Steps, Table, WordPaths};

/// The letter of the rows that are selected.
pub fn selected() -> Letter
    ensures { result ≡ letter }
{
    Letter::new(b'a').unwrap()
}

// The letter of the rows that meet the condition that is looked at.
fn looked_at() -> Letter
    ensures { result ≡ 1 }
{
    Letter::new(b'b').unwrap()
}

/// Selects the rows that meet all conditions, in place of those that were selected: exactly they bear the letter
/// `selected()`.
pub fn select<A: BitViewSized, O: WordPaths<A::Store> + Digits<A::Store>>(
    table: &mut Table<A, O>,
    conditions: &[Condition],
)
    requires { AreOn table.old.shape conditions.now }
    ensures selected { AreSelected conditions.now table.new.shape }
    ensures same { SameNumbers table.old.shape table.new.shape }
{
    select_all(table);
    for condition in conditions {
        narrow(table, *condition);
    }
}

// Leaves the selected rows that meet a condition.
fn narrow<A: BitViewSized, O: WordPaths<A::Store> + Digits<A::Store>>(
    table: &mut Table<A, O>,
    condition: Condition,
)
    requires { condition.field < length table.old.shape.layout.fields }
    ensures narrowed { IsNarrowed condition table.old.shape table.new.shape }
    ensures same { SameNumbers table.old.shape table.new.shape }
{
    let Condition { field, test, value } = condition;
    if table.layout().fields()[field].takes(value) {
        let letter = looked_at();
        let _ = table.apply(&Command::Mark {
            letter,
            field: Some(field),
            test,
            value,
        });
        table.combine(BoolOp::And, selected(), letter, &mut Steps::new());
    } else if !test.passes(0, value) {
        // A value that the field does not take compares with each of its numbers as with 0.
        clear(table);
    }
}

// Selects no row.
fn clear<A: BitViewSized, O: WordPaths<A::Store> + Digits<A::Store>>(table: &mut Table<A, O>)
    ensures none { NoneSelected table.old.shape table.new.shape }
    ensures same { SameNumbers table.old.shape table.new.shape }
{
    table.combine(BoolOp::Xor, selected(), selected(), &mut Steps::new());
}

// Selects every row.
fn select_all<A: BitViewSized, O: WordPaths<A::Store> + Digits<A::Store>>(table: &mut Table<A, O>)
    ensures selected { AreSelected [] table.new.shape }
    ensures same { SameNumbers table.old.shape table.new.shape }
{
    clear(table);
    let _rows = table.rows();
    let _ = table.apply(&Command::Not(selected()));
}
