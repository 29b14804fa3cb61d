//! The run of a script over the storage that is asked for.
ghost use Rattle.std.specs.Prelude.{◌≡◌, ◌-◌, ◌^◌, ◌<◌, ◌↔◌, false, OnOk, IfSome, IsErrOf, IsTrue, length};
ghost use Rattle.bit_table_script.specs.Ends.{input_reader, input_failed, output_writer, output_failed};
ghost use Rattle.bit_table_script.specs.Runs.{RanToEnd, StoppedByRead, StoppedByWrite, StoppedByMemory};
ghost use Rattle.bit_table_script.specs.Scripts.{answers};
ghost use Rattle.bit_table_script.specs.Tables.{start};

use bit_table_command_line::{Order, Word};
use bit_table_script::{HiLo, Input, Lsb0, Msb0, Output, RunError, run};
use std::alloc::Global;
use std::io::{Read, Write};

// Runs a script over words of this width in this order, with a buffer of 1,024 bits. No storage changes an answer: what
// was written is said as for `run`, by the text alone.
pub(crate) fn run_over<R: Read, W: Write>(
    alloc: Global,
    word: Word,
    order: Order,
    input: &mut Input<R>,
    output: &mut Output<W>,
) -> Result<(), RunError>
    requires readable { input_failed input.old ≡ false }
    requires writable { output_failed output.old ≡ false }
    ensures done { OnOk result (RanToEnd (answers start)
        (R.remaining (input_reader input.old)) (R.remaining (input_reader input.new))
        (W.contents (output_writer output.old)) (W.contents (output_writer output.new))) }
    ensures read { IsErrOf result RunError.Read → StoppedByRead (answers start)
        (R.remaining (input_reader input.old)) (R.remaining (input_reader input.new))
        (W.contents (output_writer output.old)) (W.contents (output_writer output.new)) }
    ensures write { IsErrOf result RunError.Write → StoppedByWrite (answers start)
        (R.remaining (input_reader input.old)) (R.remaining (input_reader input.new))
        (W.contents (output_writer output.old)) (W.contents (output_writer output.new)) }
    ensures memory { IsErrOf result RunError.Memory → StoppedByMemory (answers start)
        (R.remaining (input_reader input.old)) (R.remaining (input_reader input.new))
        (W.contents (output_writer output.old)) (W.contents (output_writer output.new)) }
    ensures read_told { IsTrue (input_failed input.new) → IsErrOf result RunError.Read }
    ensures read_failed { IfSome (R.remaining (input_reader input.old)) (λ text. length text < 2 ^ 64 - 1 →
        IsErrOf result RunError.Read → IsTrue (input_failed input.new)) }
    ensures write_told { IsErrOf result RunError.Write ↔ IsTrue (output_failed output.new) }
{
    match (word, order) {
        (Word::U8, Order::Lsb0) => run::<[u8; 128], Lsb0, _, _>(alloc, input, output),
        (Word::U8, Order::Msb0) => run::<[u8; 128], Msb0, _, _>(alloc, input, output),
        (Word::U8, Order::HiLo) => run::<[u8; 128], HiLo, _, _>(alloc, input, output),
        (Word::U16, Order::Lsb0) => run::<[u16; 64], Lsb0, _, _>(alloc, input, output),
        (Word::U16, Order::Msb0) => run::<[u16; 64], Msb0, _, _>(alloc, input, output),
        (Word::U16, Order::HiLo) => run::<[u16; 64], HiLo, _, _>(alloc, input, output),
        (Word::U32, Order::Lsb0) => run::<[u32; 32], Lsb0, _, _>(alloc, input, output),
        (Word::U32, Order::Msb0) => run::<[u32; 32], Msb0, _, _>(alloc, input, output),
        (Word::U32, Order::HiLo) => run::<[u32; 32], HiLo, _, _>(alloc, input, output),
        (Word::U64, Order::Lsb0) => run::<[u64; 16], Lsb0, _, _>(alloc, input, output),
        (Word::U64, Order::Msb0) => run::<[u64; 16], Msb0, _, _>(alloc, input, output),
        (Word::U64, Order::HiLo) => run::<[u64; 16], HiLo, _, _>(alloc, input, output),
        (Word::U128, Order::Lsb0) => run::<[u128; 8], Lsb0, _, _>(alloc, input, output),
        (Word::U128, Order::Msb0) => run::<[u128; 8], Msb0, _, _>(alloc, input, output),
        (Word::U128, Order::HiLo) => run::<[u128; 8], HiLo, _, _>(alloc, input, output),
    }
}
