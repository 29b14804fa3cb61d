//! Scripts of a table.

ghost use Rattle.std.specs.Prelude.{◌*◌, ◌≤◌, ◌<◌};
ghost use Rattle.bit_table.specs.LayoutLimits.{MAX_ROW_BITS};

use crate::digest::Digest;
use crate::random::Random;
use bit_table::{BitViewSized, Digits, HiLo, Input, Lsb0, Msb0, Output, WordPaths, run};
use std::alloc::{AllocError, Global};

// Rows of 65, 24 and 100 bits.
#[derive(Clone, Copy)]
enum Rows {
    Orders,
    Samples,
    Stamps,
}

impl Rows {
    // The fields of the layout line.
    fn layout(self) -> &'static str {
        match self {
            Rows::Orders => "id:u32 kind:u4 level:i12 price:u17",
            Rows::Samples => "a:u3 b:i4 c:u17",
            Rows::Stamps => "flag:u1 stamp:i64 code:u35",
        }
    }

    // A field with a number for it, and numbers of a whole row.
    fn push_number(self, script: &mut String, random: &mut Random) -> Result<(), AllocError> {
        let (half, small) = (random.half(), random.below(2_000));
        match (self, half % 3) {
            (Rows::Orders, 0) => write!(script, "kind {}", small % 16),
            (Rows::Orders, 1) => write!(script, "level -{small}"),
            (Rows::Orders, _) => write!(script, "price {}", half % 131_072),
            (Rows::Samples, 0) => write!(script, "a {}", small % 8),
            (Rows::Samples, 1) => write!(script, "b -{}", small % 8),
            (Rows::Samples, _) => write!(script, "c {}", half % 131_072),
            (Rows::Stamps, 0) => write!(script, "flag {}", small % 2),
            (Rows::Stamps, 1) => write!(script, "stamp -{half}"),
            (Rows::Stamps, _) => write!(script, "code {half}"),
        }
    }

    // The numbers of a row, each behind a space.
    fn push_row(self, script: &mut String, random: &mut Random) -> Result<(), AllocError> {
        let (half, small) = (random.half(), random.below(2_000));
        let (kind, price) = (small % 16, half % 131_072);
        match self {
            Rows::Orders => write!(script, " {half} {kind} -{small} {price}"),
            Rows::Samples => write!(script, " {} -{} {price}", kind % 8, small % 8),
            Rows::Stamps => write!(script, " {} -{half} {half}", small % 2),
        }
    }

    // A field, a test and a number.
    fn push_test(self, script: &mut String, random: &mut Random) -> Result<(), AllocError> {
        let half = random.half();
        let test = match half / 3 % 5 {
            0 => '=',
            1 | 2 => '<',
            _ => '>',
        };
        match (self, half % 3) {
            (Rows::Orders, 0) => write!(script, "kind {test} {}", half % 16),
            (Rows::Orders, 1) => write!(script, "level {test} -{}", half % 2_000),
            (Rows::Orders, _) => write!(script, "price {test} {}", half % 131_072),
            (Rows::Samples, 0) => write!(script, "a {test} {}", half % 8),
            (Rows::Samples, 1) => write!(script, "b {test} -{}", half % 8),
            (Rows::Samples, _) => write!(script, "c {test} {}", half % 131_072),
            (Rows::Stamps, 0) => write!(script, "flag {test} {}", half % 2),
            (Rows::Stamps, 1) => write!(script, "stamp {test} -{half}"),
            (Rows::Stamps, _) => write!(script, "code {test} {half}"),
        }
    }
}

/// Short lines, as many as there are rounds: rows are asked, set, put in and taken out, now and then marked and
/// counted.
pub fn session(
    alloc: Global,
    rounds: u32,
    size: u32,
    random: &mut Random,
    digest: &mut Digest,
) -> Result<(), AllocError>
    requires { 20 ≤ size }
{
    let mut script = begun(alloc, "low", Rows::Orders, size, random)?;
    for _ in 0..rounds {
        push_short_line(&mut script, random, Rows::Orders, size)?;
    }
    answer::<[u64; 16], Lsb0>(alloc, &script, digest)
}

/// Whole columns: in each round an image is loaded, rows are marked by what they hold, marks are joined, counted and
/// listed, rows are kept, turned, dropped, shown as an image and put back.
pub fn columns(
    alloc: Global,
    rounds: u32,
    size: u32,
    random: &mut Random,
    digest: &mut Digest,
) -> Result<(), AllocError>
    requires { 20 ≤ size }
{
    let mut script = begun(alloc, "low", Rows::Samples, 0, random)?;
    for _ in 0..rounds {
        push_load(&mut script, random, size, size.saturating_mul(3))?;
        push_column_lines(&mut script, random, Rows::Samples, size)?;
        push_column_lines(&mut script, random, Rows::Samples, size)?;
    }
    answer::<[u64; 16], Lsb0>(alloc, &script, digest)
}

/// Lines of both kinds over storages that users seldom ask for: bytes from the highest bit on with the lowest digits
/// first, and an order whose positions do not go straight.
pub fn odd(
    alloc: Global,
    rounds: u32,
    size: u32,
    random: &mut Random,
    digest: &mut Digest,
) -> Result<(), AllocError>
    requires { 20 ≤ size }
{
    let script = odd_script(alloc, "low", rounds, size, random)?;
    answer::<[u8; 128], Msb0>(alloc, &script, digest)?;
    let script = odd_script(alloc, "high", rounds, size, random)?;
    answer::<[u128; 8], HiLo>(alloc, &script, digest)
}

// A script of rows of 100 bits: short lines, and at every twentieth those of columns.
fn odd_script(
    alloc: Global,
    rule: &str,
    rounds: u32,
    size: u32,
    random: &mut Random,
) -> Result<String, AllocError>
    requires { 20 ≤ size }
{
    let mut script = begun(alloc, rule, Rows::Stamps, size, random)?;
    for round in 0..rounds {
        push_short_line(&mut script, random, Rows::Stamps, size)?;
        if round % 20 == 0 {
            push_column_lines(&mut script, random, Rows::Stamps, size)?;
        }
    }
    Ok(script)
}

// The layout line, and as many rows put in.
fn begun(
    alloc: Global,
    rule: &str,
    rows: Rows,
    count: u32,
    random: &mut Random,
) -> Result<String, AllocError> {
    let mut script = String::new(alloc);
    writeln!(script, "{rule} {}", rows.layout())?;
    for row in 0..count {
        write!(script, "insert {row}")?;
        rows.push_row(&mut script, random)?;
        script.push('\n')?;
    }
    Ok(script)
}

// One of 20 letters.
fn letter(random: &mut Random) -> char {
    char::from(b'a' + random.below(20) as u8)
}

// A line of one row or a few, or a question; some lines are refused.
fn push_short_line(
    script: &mut String,
    random: &mut Random,
    rows: Rows,
    count: u32,
) -> Result<(), AllocError>
    requires { 20 ≤ count }
{
    let kind = random.below(100);
    let row = random.below(count);
    let other = random.below(count);
    let next = row.wrapping_add(3);
    let (x, y) = (letter(random), letter(random));
    match kind {
        0..40 => write!(script, "get {row}")?,
        40..68 => {
            write!(script, "set {row} ")?;
            rows.push_number(script, random)?;
        }
        68..76 => {
            write!(script, "insert {row}")?;
            rows.push_row(script, random)?;
        }
        76..84 => write!(script, "delete {row} {}", row.wrapping_add(1))?,
        84 => write!(script, "copy {row} {next} {other}")?,
        85 => write!(script, "swap {row} {other}")?,
        86 => write!(script, "rotate {row} {next} 1")?,
        87..92 => write!(script, "count {x}")?,
        92..94 => {
            write!(script, "mark {x} ")?;
            rows.push_test(script, random)?;
        }
        94 => write!(script, "and {x} {y}")?,
        95 => write!(script, "list {x}")?,
        96 => write!(script, "set {row} absent 1")?,
        97 => write!(script, "get {row} {other}")?,
        98 => write!(script, "get 99999999999999999999")?,
        _ => write!(script, "what is this")?,
    }
    script.push('\n')
}

// A line that loads so many rows from bytes with no pattern.
fn push_load(
    script: &mut String,
    random: &mut Random,
    rows: u32,
    bytes: u32,
) -> Result<(), AllocError> {
    write!(script, "load {rows} ")?;
    for _ in 0..bytes {
        let byte = random.below(256);
        push_digit(script, byte / 16)?;
        push_digit(script, byte % 16)?;
    }
    script.push('\n')
}

// A hexadecimal digit.
fn push_digit(script: &mut String, digit: u32) -> Result<(), AllocError>
    requires { digit < 16 }
{
    script.push(char::from(b"0123456789abcdef"[digit as usize]))
}

// Lines that read or write whole columns; behind them the rows are as they were.
fn push_column_lines(
    script: &mut String,
    random: &mut Random,
    rows: Rows,
    count: u32,
) -> Result<(), AllocError>
    requires { 20 ≤ count }
{
    let (x, y, z) = (letter(random), letter(random), letter(random));
    for letter in [x, y, z] {
        write!(script, "mark {letter} ")?;
        rows.push_test(script, random)?;
        script.push('\n')?;
    }
    writeln!(script, "and {x} {y}\nor {x} {z}\nxor {y} {z}\nnot {z}")?;
    writeln!(script, "count {x}\ncount {y}\nlist {x}\nkeep")?;
    let start = random.below(count / 2);
    let upto = start.wrapping_add(count / 4);
    writeln!(
        script,
        "rotate 0 {upto} {}\ndelete {start} {upto}",
        start % 16
    )?;
    writeln!(script, "drop {y}\ncount {x}\nimage\nback")
}

// Runs a script over a storage, and takes what is answered in.
fn answer<A: BitViewSized, O: WordPaths<A::Store> + Digits<A::Store>>(
    alloc: Global,
    script: &str,
    digest: &mut Digest,
) -> Result<(), AllocError>
    requires { MAX_ROW_BITS ≤ A.COUNT * A.Store.BITS }
{
    let mut input = Input::new(script.as_bytes());
    let mut output = Output::new(Vec::new(alloc));
    let ended = run::<A, O, &[u8], Vec<u8>>(alloc, &mut input, &mut output);
    for byte in output.into_inner().as_slice() {
        digest.push(u64::from(*byte));
    }
    match ended {
        Ok(()) => Ok(()),
        Err(_) => Err(AllocError),
    }
}
