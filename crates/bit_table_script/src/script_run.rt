//! The run of a script.
ghost use Rattle.std.specs.Prelude.{◌≡◌, ◌*◌, ◌≤◌, ◌-◌, ◌^◌, ◌<◌, ◌↔◌, false, OnOk, IfSome, IsErrOf, IsTrue, length};
ghost use Rattle.bit_table_layout.specs.declared.layout.TheConstants.{MAX_ROW_BITS};
ghost use Rattle.bit_table_lines.specs.Ends.{input_reader, input_failed, output_writer, output_failed};
ghost use Rattle.bit_table_lines.specs.Runs.{RanToEnd, StoppedByRead, StoppedByWrite, StoppedByMemory};
ghost use Rattle.bit_table_script.specs.Scripts.{answers};
ghost use Rattle.bit_table_commands.specs.Tables.{start};

use super::session::Session;
use bit_slice_views::BitViewSized;
use bit_slice_words::WordPaths;
use bit_table_fields::Digits;
use bit_table_lines::{Input, Output, RunError, drive};
use std::alloc::Global;
use std::io::{Read, Write};

/// Runs a script: each line is carried out, and its answer written, before the reader is asked again.
///
/// A line ends at the byte 10 or at a clean end of the input. A line with a word gets one answer line, any other none.
/// Until a layout line is accepted, each line with a word is tried as one; then each is a command. A refused line is
/// answered `refused` and its cause, and changes nothing. A read that fails, whatever the reason, ends the run with
/// `Read` and drops the line begun; a write that fails or takes no byte ends it with `Write`; want of memory ends it
/// with `Memory`, and nothing is written for that line. The reader is asked at most `2^64 - 1` times; without a clean
/// end by then the run ends with `Read`.
pub fn run<A: BitViewSized, O: WordPaths<A::Store> + Digits<A::Store>, R: Read, W: Write>(
    alloc: Global,
    input: &mut Input<R>,
    output: &mut Output<W>,
) -> Result<(), RunError>
    requires buffer { MAX_ROW_BITS ≤ A.COUNT * A.Store.BITS }
    requires readable { input_failed input.old ≡ false }
    requires writable { output_failed output.old ≡ false }

    // What was written is the answer to all that the reader gave, however it cut it.
    ensures done { OnOk result (RanToEnd (answers start)
        (R.remaining (input_reader input.old)) (R.remaining (input_reader input.new))
        (W.contents (output_writer output.old)) (W.contents (output_writer output.new))) }

    // What was written before a fault: the answers to the lines that were read whole, or a beginning of them.
    ensures read { IsErrOf result RunError.Read → StoppedByRead (answers start)
        (R.remaining (input_reader input.old)) (R.remaining (input_reader input.new))
        (W.contents (output_writer output.old)) (W.contents (output_writer output.new)) }
    ensures write { IsErrOf result RunError.Write → StoppedByWrite (answers start)
        (R.remaining (input_reader input.old)) (R.remaining (input_reader input.new))
        (W.contents (output_writer output.old)) (W.contents (output_writer output.new)) }
    ensures memory { IsErrOf result RunError.Memory → StoppedByMemory (answers start)
        (R.remaining (input_reader input.old)) (R.remaining (input_reader input.new))
        (W.contents (output_writer output.old)) (W.contents (output_writer output.new)) }

    // A fault of the reader is always told. Where the reader tells its bytes and has fewer than 2^64 - 1 left, nothing
    // else is told as one.
    ensures read_told { IsTrue (input_failed input.new) → IsErrOf result RunError.Read }
    ensures read_failed { IfSome (R.remaining (input_reader input.old)) (λ text. length text < 2 ^ 64 - 1 →
        IsErrOf result RunError.Read → IsTrue (input_failed input.new)) }
    ensures write_told { IsErrOf result RunError.Write ↔ IsTrue (output_failed output.new) }
{
    let mut session = Session::<A, O>::new(alloc);
    drive(alloc, &mut session, input, output)
}
