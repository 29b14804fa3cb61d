//! Whole scripts, run over memory.

ghost use Rattle.std.specs.Prelude.{◌*◌, ◌≤◌};
ghost use Rattle.bit_table_script.specs.LayoutLimits.{MAX_ROW_BITS};

use crate::runs::{answer_to, answer_whole};
use crate::text::{cut, meant, push_answer};
use bit_addressing_sample_orders::texts::number;
use bit_table_samples::{Cut, Narrow, Stop};
use bit_table_script::{BitViewSized, Digits, Input, Output, RunError, WordPaths, run};
use std::alloc::{AllocError, Global};

/// What a script is answered that is read in pieces of so many bytes, or at once where these are 0.
pub fn run_case<A: BitViewSized, O: WordPaths<A::Store> + Digits<A::Store>>(
    alloc: Global,
    rest: &str,
) -> Result<String, AllocError>
    requires { MAX_ROW_BITS ≤ A.COUNT * A.Store.BITS }
{
    let (piece, script) = cut(rest);
    let script = meant(alloc, script)?;
    let mut text = String::new(alloc);
    match answered::<A, O>(alloc, number(piece), script.as_slice()) {
        Ok(answer) => push_answer(&mut text, answer.as_slice())?,
        Err(fault) => text.push_str(format!(in alloc; "{fault}")?.as_str())?,
    }
    Ok(text)
}

/// What a writer has taken that takes three bytes a call and fails once it has taken so many, and how the run of a script
/// to it ends.
pub fn stopped_case<A: BitViewSized, O: WordPaths<A::Store> + Digits<A::Store>>(
    alloc: Global,
    rest: &str,
) -> Result<String, AllocError>
    requires { MAX_ROW_BITS ≤ A.COUNT * A.Store.BITS }
{
    let (room, script) = cut(rest);
    let script = meant(alloc, script)?;
    let mut input = Input::new(script.as_slice());
    let mut output = Output::new(Narrow {
        taken: Vec::new(alloc),
        most: 3,
        room: number(room),
        stop: Stop::Fails,
    });
    let outcome = run::<A, O, _, _>(alloc, &mut input, &mut output);
    let Narrow {
        taken,
        most: _,
        room: _,
        stop: _,
    } = output.into_inner();
    let mut text = String::new(alloc);
    push_answer(&mut text, taken.as_slice())?;
    if let Err(fault) = outcome {
        text.push_str(format!(in alloc; " {fault}")?.as_str())?;
    }
    Ok(text)
}

fn answered<A: BitViewSized, O: WordPaths<A::Store> + Digits<A::Store>>(
    alloc: Global,
    piece: usize,
    script: &[u8],
) -> Result<Vec<u8>, RunError>
    requires { MAX_ROW_BITS ≤ A.COUNT * A.Store.BITS }
{
    if piece == 0 {
        return answer_to::<A, O>(alloc, script);
    }
    let mut input = Input::new(Cut {
        rest: script,
        first: 0,
        piece,
        until_fault: usize::MAX,
    });
    let mut output = Output::new(Vec::new(alloc));
    answer_whole::<A, O, _, _>(alloc, &mut input, &mut output)?;
    Ok(output.into_inner())
}
