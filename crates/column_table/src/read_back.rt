//! A table read back from its layout line and its image.

ghost use Rattle.std.specs.Prelude.{◌*◌, ◌≤◌, IfErr, IfOk};
ghost use Rattle.bit_table.specs.LayoutLimits.{MAX_ROW_BITS};
ghost use Rattle.bit_table.specs.Rows.{all_numbers};
ghost use Rattle.bit_table.specs.Tables.{TableShape, IsTable};
ghost use Rattle.column_table.specs.Packed.{AreOf, HasRows, IsMemory};

use crate::store::StoreError;
use bit_table::{
    BitViewSized, Command, Digits, Fault, ImageBytes, Layout, LayoutError, Table, WordPaths,
};
use std::alloc::{AllocError, Global};

/// The table that a layout line, a row count and image bytes tell: where they are those of a table, one of its layout with
/// its rows' numbers, and nothing but want of memory refuses it.
pub fn read_back<A: BitViewSized, O: WordPaths<A::Store> + Digits<A::Store>>(
    alloc: Global,
    line: &[u8],
    rows: u64,
    bytes: Vec<u8>,
) -> Result<Table<A, O>, StoreError>
    requires { MAX_ROW_BITS ≤ A.COUNT * A.Store.BITS }
    ensures rows { (t : TableShape) → IsTable t → AreOf t line.now rows bytes.items
        → IfOk result (λ table. HasRows t.layout (all_numbers t.rows) table.shape) }
    ensures err { (t : TableShape) → IsTable t → AreOf t line.now rows bytes.items → IfErr result IsMemory }
{
    let layout = match Layout::parse(alloc, line) {
        Ok(layout) => layout,
        Err(LayoutError::Refused) => return Err(StoreError::WideRow),
        Err(LayoutError::Memory) => return Err(StoreError::Memory(AllocError)),
    };
    let mut table = Table::<A, O>::new(alloc, layout);
    let load = Command::Load {
        rows,
        bytes: ImageBytes::new(bytes),
    };
    match table.apply(&load) {
        Ok(_) => Ok(table),
        Err(Fault::Refused(cause)) => Err(StoreError::Row { row: 0, cause }),
        Err(Fault::Memory) => Err(StoreError::Memory(AllocError)),
    }
}
