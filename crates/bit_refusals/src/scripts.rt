//! The run of a script over memory.

ghost use Rattle.std.specs.Prelude.{◌*◌, ◌≤◌};
ghost use Rattle.bit_table.specs.LayoutLimits.{MAX_ROW_BITS};

use crate::shown::{begin, decline, end};
use bit_table::{BitViewSized, Digits, Input, Output, RunError, WordPaths, run};
use std::io;

// The bytes of an answer for which there is room.
const ROOM: usize = 4096;

/// `run`, of lines with `;` between them.
pub fn run_case<A: BitViewSized, O: WordPaths<A::Store> + Digits<A::Store>>(
    rt: &HostRuntime,
    script: &str,
) -> io::Result<()>
    requires { MAX_ROW_BITS ≤ A.COUNT * A.Store.BITS }
{
    let alloc = rt.alloc();
    let mut text = Vec::new(alloc);
    for byte in script.bytes() {
        text.push(if byte == b';' { b'\n' } else { byte })?;
    }
    let mut input = Input::new(text.as_slice());
    let mut output = Output::new(Vec::<u8>::with_capacity(alloc, ROOM)?);
    begin(rt)?;
    let outcome = run::<A, O, &[u8], Vec<u8>>(alloc, &mut input, &mut output);
    match outcome {
        Ok(()) | Err(RunError::Memory) => end(rt, outcome.is_ok())?,
        Err(RunError::Read) => decline(rt, "read")?,
        Err(RunError::Write) => decline(rt, "write")?,
    }
    let mut told = String::new(alloc);
    for byte in output.into_inner() {
        if byte == b'\n' {
            told.push_str(" /")?;
        } else {
            if told.as_str().ends_with('/') {
                told.push(' ')?;
            }
            told.push(char::from(byte))?;
        }
    }
    println!(rt; "wrote {told}")
}
