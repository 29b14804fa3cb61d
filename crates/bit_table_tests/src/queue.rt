//! Rows that pass through a table as through a queue: memory is asked for once, before the first comes.

ghost use Rattle.std.specs.Prelude.{◌≡◌, ◌*◌, ◌≤◌, None, length, OnErr};
ghost use Rattle.bit_table_layout.specs.declared.layout.TheConstants.{MAX_ROW_BITS};
ghost use Rattle.bit_table_commands.specs.Causes.{cause_in};
ghost use Rattle.bit_table_tests.specs.Queue.{IsInsertion};

use bit_addressing_memory::{HiLo, Lsb0, Msb0};
use bit_slice_views::BitViewSized;
use bit_slice_words::WordPaths;
use bit_table_commands::{Command, Numbers, Reply, Values};
use bit_table_fields::Digits;
use bit_table_layout::{Cause, Fault, Layout};
use bit_table_script::Table;
use std::alloc::{AllocError, Global};
use std::process::Abort;
use std::test::Fail;

// A row comes in and the first goes. In a table with room for one more nothing is refused, so each `unwrap` is proved.
fn pass_one<A: BitViewSized, O: WordPaths<A::Store> + Digits<A::Store>>(
    table: &mut Table<A, O>,
    insertion: &Command,
)
    requires insertion { IsInsertion insertion.now }
    requires accepted { cause_in table.old.shape insertion.now ≡ None }
    requires room { 1 ≤ table.old.room }
    ensures layout { table.new.shape.layout ≡ table.old.shape.layout }
    ensures rows { length table.new.shape.rows ≡ length table.old.shape.rows }
    ensures room { table.old.room ≤ table.new.room }
{
    let _rows = table.rows();
    table.apply(insertion).unwrap();
    table.apply(&Command::Delete { start: 0, upto: 1 }).unwrap();
}

// So many rows come in, and as many go. None is refused.
fn pass_through<A: BitViewSized, O: WordPaths<A::Store> + Digits<A::Store>>(
    table: &mut Table<A, O>,
    insertion: &Command,
    times: usize,
)
    requires insertion { IsInsertion insertion.now }
    requires accepted { cause_in table.old.shape insertion.now ≡ None }
    requires room { 1 ≤ table.old.room }
    ensures layout { table.new.shape.layout ≡ table.old.shape.layout }
    ensures rows { length table.new.shape.rows ≡ length table.old.shape.rows }
    ensures room { table.old.room ≤ table.new.room }
{
    for _turn in 0..times {
        pass_one(table, insertion);
    }
}

// So many times a row of these values comes in behind the last and the first goes, unless a cause refuses it. Memory is
// wanted before anything changes, or not at all.
fn pass_rows<A: BitViewSized, O: WordPaths<A::Store> + Digits<A::Store>>(
    table: &mut Table<A, O>,
    values: Values,
    times: usize,
) -> Result<Option<Cause>, AllocError>
    ensures err { OnErr result (table.new ≡ table.old) }
    ensures layout { table.new.shape.layout ≡ table.old.shape.layout }
    ensures rows { length table.new.shape.rows ≡ length table.old.shape.rows }
{
    let place = table.rows() as u64;
    let insertion = Command::Insert { place, values };
    if let Some(cause) = insertion.cause(table.layout(), table.rows(), false) {
        return Ok(Some(cause));
    }
    table.reserve(1)?;
    pass_through(table, &insertion, times);
    Ok(None)
}

// The first of three rows 1 1, 2 2, 3 3 when so many of 5 -3 have passed through them.
fn first_behind<A: BitViewSized, O: WordPaths<A::Store> + Digits<A::Store>>(
    alloc: Global,
    times: usize,
) -> Result<Option<Reply>, Fault>
    requires { MAX_ROW_BITS ≤ A.COUNT * A.Store.BITS }
{
    let Ok(layout) = Layout::parse(alloc, b"low a:u3 b:i4") else {
        return Ok(None);
    };
    let mut table = Table::<A, O>::new(alloc, layout);
    for row in 0..3u64 {
        let values = values_of(alloc, [i128::from(row) + 1; 2])?;
        table.apply(&Command::Insert { place: row, values })?;
    }
    let values = values_of(alloc, [5, -3])?;
    let cause = pass_rows(&mut table, values, times).map_err(|_| Fault::Memory)?;
    if cause.is_some() || table.rows() != 3 {
        return Ok(None);
    }
    Ok(Some(table.apply(&Command::Get { row: 0 })?))
}

fn values_of(alloc: Global, values: [i128; 2]) -> Result<Values, Fault> {
    let values = Vec::from_slice(alloc, &values).map_err(|_| Fault::Memory)?;
    Ok(Values::new(values))
}

// Looks at the first row when so many have passed, over three storages.
fn check_first(rt: &impl Abort, alloc: Global, times: usize, first: [i128; 2]) -> Result<(), Fail> {
    let told = [
        first_behind::<[u64; 16], Lsb0>(alloc, times)?,
        first_behind::<[u8; 128], Msb0>(alloc, times)?,
        first_behind::<[u128; 8], HiLo>(alloc, times)?,
    ];
    let wanted = Some(Reply::Numbers(Numbers::new(Vec::from_slice(alloc, &first)?)));
    for reply in &told {
        assert!(rt; *reply == wanted, "{times}");
    }
    Ok(())
}

#[test]
fn rows_pass_through(rt: HostRuntime) -> Result<(), Fail> {
    for (times, first) in [(0, [1, 1]), (2, [3, 3]), (3, [5, -3]), (1000, [5, -3])] {
        check_first(&rt, rt.alloc(), times, first)?;
    }
    Ok(())
}
