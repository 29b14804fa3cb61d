//! Callers of a run: over memory, and between any reader and any writer.
ghost use Rattle.std.specs.Prelude.{◌≡◌, ◌*◌, ◌≤◌, IfOk, IfSome, OnOk, false};
ghost use Rattle.std.specs.Io.KnownBytes.{Appends};
ghost use Rattle.bit_table_script.specs.LayoutLimits.{MAX_ROW_BITS};
ghost use Rattle.bit_table_script.specs.Ends.{input_reader, input_failed, output_writer, output_failed};
ghost use Rattle.bit_table_script.specs.Scripts.{script_answer};

use bit_table_script::{BitViewSized, Digits, Input, Output, RunError, WordPaths, run};
use std::alloc::Global;
use std::io::{Read, Write};

/// What a run over memory writes, whatever the storage.
pub fn answer_to<A: BitViewSized, O: WordPaths<A::Store> + Digits<A::Store>>(
    alloc: Global,
    script: &[u8],
) -> Result<Vec<u8>, RunError>
    requires { MAX_ROW_BITS ≤ A.COUNT * A.Store.BITS }
    ensures { IfOk result (λ text. text.items ≡ script_answer script.now) }
{
    let mut input = Input::new(script);
    let mut output = Output::new(Vec::new(alloc));
    run::<A, O, &[u8], Vec<u8>>(alloc, &mut input, &mut output)?;
    Ok(output.into_inner())
}

/// Runs a script. Where it ends well and the reader tells its bytes, what was written is the answer to all of them.
pub fn answer_whole<A: BitViewSized, O: WordPaths<A::Store> + Digits<A::Store>, R: Read, W: Write>(
    alloc: Global,
    input: &mut Input<R>,
    output: &mut Output<W>,
) -> Result<(), RunError>
    requires buffer { MAX_ROW_BITS ≤ A.COUNT * A.Store.BITS }
    requires readable { input_failed input.old ≡ false }
    requires writable { output_failed output.old ≡ false }
    ensures { OnOk result (IfSome (R.remaining (input_reader input.old)) (λ text.
        Appends (W.contents (output_writer output.old)) (W.contents (output_writer output.new))
        (script_answer text))) }
{
    run::<A, O, R, W>(alloc, input, output)
}
