//! The same asked of a plain `Vec` of rows, and tables read back.

use column_table::answer::{Question, answer};
use column_table::condition::{Condition, conditions};
use column_table::csv_table::read_csv;
use column_table::read_back::read_back;
use column_table::select::select;
use column_table::store::{StoreError, pack};
use column_table::{Command, Lsb0, Reply, Test};
use std::alloc::{AllocError, Global};

// Conditions on the second column. It has seven bits with a sign: the last two values of each test are beyond it.
const WORDS: [&str; 15] = [
    "b<0", "b<7", "b<-12", "b<1000", "b<-1000", "b=0", "b=7", "b=-12", "b=1000", "b=-1000", "b>0",
    "b>7", "b>-12", "b>1000", "b>-1000",
];

// Rows of three numbers with no pattern: from 0, from -40 on, and any of 64 bits.
fn made_up(alloc: Global, count: u32) -> Result<Vec<Vec<i128>>, AllocError> {
    let mut rows = Vec::new(alloc);
    let mut chance = 71u64;
    for _ in 0..count {
        let mut row = Vec::new(alloc);
        chance = chance
            .wrapping_mul(6_364_136_223_846_793_005)
            .wrapping_add(1_442_695_040_888_963_407);
        row.push(i128::from(chance >> 60))?;
        row.push(i128::from(chance >> 40 & 63) - 40)?;
        row.push(i128::from(chance))?;
        rows.push(row)?;
    }
    Ok(rows)
}

// The rows as CSV.
fn csv_of(alloc: Global, rows: &[Vec<i128>]) -> Result<String, AllocError> {
    let mut text = String::new(alloc);
    text.push_str("a,b,c\n")?;
    for row in rows {
        let mut first = true;
        for number in row.as_slice() {
            if !first {
                text.push(',')?;
            }
            first = false;
            write!(text, "{number}")?;
        }
        text.push('\n')?;
    }
    Ok(text)
}

// Whether a row meets all conditions, by its numbers alone.
fn meets(row: &Vec<i128>, conditions: &[Condition]) -> bool {
    conditions.iter().all(|condition| {
        let number = row.get(condition.field).copied().unwrap_or(0);
        match condition.test {
            Test::Below => number < condition.value,
            Test::Equal => number == condition.value,
            Test::Above => number > condition.value,
        }
    })
}

// What is answered to `--list` by a plain list of rows.
fn listed(
    alloc: Global,
    rows: &[Vec<i128>],
    conditions: &[Condition],
) -> Result<String, AllocError> {
    let mut text = String::new(alloc);
    let mut place = 0u64;
    for row in rows {
        if meets(row, conditions) {
            if !text.is_empty() {
                text.push(' ')?;
            }
            write!(text, "{place}")?;
        }
        place = place.wrapping_add(1);
    }
    if text.is_empty() {
        text.push_str("none")?;
    }
    text.push('\n')?;
    Ok(text)
}

// Whether a table and a plain list of rows list the same for each condition.
fn lists_alike(alloc: Global) -> Result<bool, StoreError> {
    let rows = made_up(alloc, 200)?;
    let text = csv_of(alloc, rows.as_slice())?;
    let mut store = pack::<[u64; 16], Lsb0>(alloc, read_csv(alloc, text.as_bytes())?)?;
    let mut alike = true;
    for word in WORDS {
        let conditions = conditions(alloc, store.table.layout(), &[word, "a>2"])?;
        select(&mut store.table, conditions.as_slice());
        let told = answer(alloc, &mut store, Question::List)?;
        let wanted = listed(alloc, rows.as_slice(), conditions.as_slice())?;
        alike = alike && told.as_slice() == wanted.as_bytes();
    }
    Ok(alike)
}

// Whether a table that is read back has the image that it is read from.
fn is_read_back(alloc: Global) -> Result<bool, StoreError> {
    let rows = made_up(alloc, 50)?;
    let text = csv_of(alloc, rows.as_slice())?;
    let mut store = pack::<[u64; 16], Lsb0>(alloc, read_csv(alloc, text.as_bytes())?)?;
    let Ok(Reply::Image { rows, bytes }) = store.table.apply(&Command::Image) else {
        return Ok(false);
    };
    let line = store.line.as_bytes();
    let mut other = read_back::<[u64; 16], Lsb0>(alloc, line, rows as u64, bytes.into_vec())?;
    let (one, two) = (
        store.table.apply(&Command::Image),
        other.apply(&Command::Image),
    );
    Ok(one.is_ok() && one == two)
}

#[test]
fn a_plain_vec_lists_alike(rt: HostRuntime) -> Result<(), StoreError> {
    assert!(rt; lists_alike(rt.alloc())?);
    Ok(())
}

#[test]
fn a_table_is_read_back(rt: HostRuntime) -> Result<(), StoreError> {
    assert!(rt; is_read_back(rt.alloc())?);
    Ok(())
}
