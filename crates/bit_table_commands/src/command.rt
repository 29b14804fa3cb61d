//! The commands of a script.
ghost use Rattle.std.specs.Prelude.{◌≡◌, ◌↔◌, ◌⊎◌, None, Some, IfOk, IfErr, IsErrOf, option_map};
ghost use Rattle.bit_table_commands.specs.Commands.{command_of, cut_off};

use super::items::Items;
use super::reading::read;
use super::reply::ImageBytes;
use super::test::Test;
use bit_table_layout::{BoolOp, Cause, Fault, Layout, Letter};
use std::alloc::Global;

/// The values of a row, one a field, in order.
pub type Values = Items<i128>;

/// A command of a script. Rows are numbered from 0, and rows from a start up to an end leave the end out.
///
/// Its numbers are kept cut off: a row number or a count past `u64` as `u64::MAX`, a value past `2^64` or `-2^64` as
/// that, which changes neither what refuses a command nor what it does.
#[derive(Debug, Drop, PartialEq, Eq)]
pub enum Command {
    /// A new row of these values, one a field, before the row of this number.
    Insert {
        place: u64,
        values: Values,
    },
    /// Rows from `start` up to `upto` go.
    Delete {
        start: u64,
        upto: u64,
    },
    /// The number of a field of a row becomes this value; a name that the layout lacks is no field.
    Set {
        row: u64,
        field: Option<usize>,
        value: i128,
    },
    /// The numbers of a row.
    Get {
        row: u64,
    },
    /// Rows from `start` up to `upto`, as they were, over the rows from `place` on.
    Copy {
        start: u64,
        upto: u64,
        place: u64,
    },
    /// Two rows, or one and itself, exchanged.
    Swap {
        row: u64,
        other: u64,
    },
    /// Rows from `start` up to `upto` turned left by `amount` rows.
    Rotate {
        start: u64,
        upto: u64,
        amount: u64,
    },
    /// Rows from `start` up to `upto` once more behind the last row.
    Dup {
        start: u64,
        upto: u64,
    },
    /// The image line.
    Image,
    /// The rows that these image bytes hold, so many, in place of all rows. They bear no letters.
    Load {
        rows: u64,
        bytes: ImageBytes,
    },
    /// The rows are kept, in place of those that were kept.
    Keep,
    /// The kept rows come back, and nothing is kept then.
    Back,
    /// A letter on exactly the rows whose number of a field compares so with this value; a name that the layout lacks
    /// is no field.
    Mark {
        letter: Letter,
        field: Option<usize>,
        test: Test,
        value: i128,
    },
    /// A letter on exactly the rows on which the operation is true of it and the other one.
    Combine {
        op: BoolOp,
        letter: Letter,
        other: Letter,
    },
    /// A letter on exactly the rows that did not bear it.
    Not(Letter),
    /// How many rows bear a letter.
    Count(Letter),
    /// Which rows bear a letter.
    List(Letter),
    /// The rows that bear a letter go.
    Drop(Letter),
}

impl Command {
    /// Reads the command that a line spells over a layout.
    ///
    /// | Line | Command |
    /// |---|---|
    /// | `insert p v..` | `Insert` of one value a field |
    /// | `delete p q` | `Delete` |
    /// | `set p f v` | `Set`; `f` is a field's name |
    /// | `get p` | `Get` |
    /// | `copy p q r` | `Copy` |
    /// | `swap p q` | `Swap` |
    /// | `rotate p q k` | `Rotate` |
    /// | `dup p q` | `Dup` |
    /// | `image` | `Image` |
    /// | `load c h` | `Load` of these bytes |
    /// | `load c` | `Load` of no bytes |
    /// | `keep` | `Keep` |
    /// | `back` | `Back` |
    /// | `mark x f op v` | `Mark`; `op` is `<`, `=` or `>` |
    /// | `and x y`, `or x y`, `xor x y` | `Combine` |
    /// | `not x` | `Not` |
    /// | `count x` | `Count` |
    /// | `list x` | `List` |
    /// | `drop x` | `Drop` |
    ///
    /// Words are separated by spaces, tabs and carriage returns; every other byte, the line end too, belongs to a word.
    /// A row number, a count or an amount is one or more digits, a value the same with one `-` in front if wanted, both
    /// taken by value however long they are. A field's word has the shape of a name, a letter is one byte `a` to `z`,
    /// and bytes are two hexadecimal digits each, of either case. Refused as `Form` exactly where the line spells no
    /// command, which is decided before memory is taken.
    pub fn parse(alloc: Global, layout: &Layout, line: &[u8]) -> Result<Command, Fault>
        ensures ok { IfOk result (λ command. option_map cut_off (command_of layout.now line.now) ≡ Some command) }
        ensures refused { IsErrOf result (Fault.Refused Cause.Form) ↔ (command_of layout.now line.now ≡ None) }
        ensures err { IfErr result (λ e. (e ≡ Fault.Refused Cause.Form) ⊎ (e ≡ Fault.Memory)) }
    {
        let Some(reading) = read(layout, line) else {
            return Err(Fault::Refused(Cause::Form));
        };
        reading.into_command(alloc).map_err(|_| Fault::Memory)
    }
}
