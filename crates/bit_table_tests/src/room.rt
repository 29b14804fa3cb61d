//! Room for rows of a table.

ghost use Rattle.std.specs.Prelude.{◌≡◌, ◌*◌, ◌≤◌, IfOk, IsTrue, OnErr, length};
ghost use Rattle.bit_table_layout.specs.declared.layout.TheConstants.{MAX_ROW_BITS};

use bit_addressing_memory::Lsb0;
use bit_slice_views::BitViewSized;
use bit_slice_words::WordPaths;
use bit_table_commands::{Command, Reply};
use bit_table_fields::Digits;
use bit_table_layout::{Fault, Layout};
use bit_table_script::Table;
use std::alloc::{AllocError, Global};
use std::test::Fail;

// Makes room for so many rows more in a table of few rows, and answers whether it has so few.
fn reserve_few<A: BitViewSized, O: WordPaths<A::Store> + Digits<A::Store>>(
    table: &mut Table<A, O>,
    rows: usize,
) -> Result<bool, AllocError>
    ensures { IfOk result (λ few. IsTrue few → rows ≤ table.new.room) }
{
    let width = table.layout().row_bits();
    if width > 1024 || rows > 1000 || table.rows() > 1000 {
        return Ok(false);
    }
    table.reserve(rows)?;
    Ok(true)
}

// Carries out the command of a line, and answers whether it is done.
fn is_done<A: BitViewSized, O: WordPaths<A::Store> + Digits<A::Store>>(
    alloc: Global,
    table: &mut Table<A, O>,
    line: &[u8],
) -> Result<bool, Fault> {
    let command = Command::parse(alloc, table.layout(), line)?;
    Ok(table.apply(&command)? == Reply::Done)
}

// Keeps a snapshot of a table whose storage is named, and returns how many rows it has.
fn snapshot_rows(table: &mut Table<[u64; 16], Lsb0>) -> Result<usize, AllocError>
    ensures rows { IfOk result (λ rows. rows ≡ length table.new.shape.rows) }
    ensures err { OnErr result (table.new ≡ table.old) }
    ensures room { table.new.room ≡ table.old.room }
{
    table.keep()?;
    Ok(table.rows())
}

// The room of a table: of two rows, with room made for three more, when three have come, when two have gone, and when two
// have come again. None where a line is not done.
fn rooms<A: BitViewSized, O: WordPaths<A::Store> + Digits<A::Store>>(
    alloc: Global,
) -> Result<Option<[usize; 5]>, Fault>
    requires { MAX_ROW_BITS ≤ A.COUNT * A.Store.BITS }
{
    let Ok(layout) = Layout::parse(alloc, b"low a:u3 b:i4") else {
        return Ok(None);
    };
    let mut table = Table::<A, O>::new(alloc, layout);
    let first = is_done(alloc, &mut table, b"insert 0 5 -3")?;
    let second = is_done(alloc, &mut table, b"insert 1 2 7")?;
    let two = table.room();
    let few = reserve_few(&mut table, 3).map_err(|_| Fault::Memory)?;
    let made = table.room();
    let mut done = first && second && few;
    for _k in 0..3 {
        done = is_done(alloc, &mut table, b"insert 0 1 1")? && done;
    }
    let come = table.room();
    done = is_done(alloc, &mut table, b"delete 0 2")? && done;
    let gone = table.room();
    for _k in 0..2 {
        done = is_done(alloc, &mut table, b"insert 0 1 1")? && done;
    }
    let again = table.room();
    if done && table.rows() == 5 {
        return Ok(Some([two, made, come, gone, again]));
    }
    Ok(None)
}

#[test]
fn a_function_names_the_storage_of_a_table(rt: HostRuntime) -> Result<(), Fail> {
    let Ok(layout) = Layout::parse(rt.alloc(), b"low a:u3 b:i4") else {
        return Ok(());
    };
    let mut table = Table::<[u64; 16], Lsb0>::new(rt.alloc(), layout);
    assert!(rt; is_done(rt.alloc(), &mut table, b"insert 0 5 -3")?);
    let kept = snapshot_rows(&mut table)?;
    assert!(rt; is_done(rt.alloc(), &mut table, b"insert 0 2 7")?);
    assert!(rt; kept == 1 && table.rows() == 2);
    assert!(rt; table.back() && table.rows() == 1);
    Ok(())
}

#[test]
fn two_rows_with_room_for_three_more(rt: HostRuntime) -> Result<(), Fail> {
    let [two, made, come, gone, again] = rooms::<[u64; 16], Lsb0>(rt.alloc())?.unwrap_or(
        [usize::MAX; 5],
    );
    assert!(rt; made >= 3 && made >= two && made < usize::MAX);

    // Three rows take at most three of it, and two that go give two back.
    assert!(rt; come.saturating_add(3) >= made);
    assert!(rt; gone >= come.saturating_add(2));
    assert!(rt; again >= come);
    Ok(())
}
