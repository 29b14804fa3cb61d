//! A run of lines through a machine that answers them.
ghost use Rattle.std.specs.Prelude.{◌≡◌, ℕ, ◌-◌, ◌^◌, ◌<◌, ◌↔◌, List, [], ◌∷◌, ◌++◌, Option, false};
ghost use Rattle.std.specs.Prelude.{IfErr, IfOk, OnErr, OnOk, IfSome, IsErrOf, IsTrue, length};
ghost use Rattle.std.specs.Io.KnownBytes.{Appends, Keeps};
ghost use Rattle.bit_table_lines.specs.Ends.{input_reader, input_failed, output_writer, output_failed};
ghost use Rattle.bit_table_lines.specs.Lines.{IsBeginning, whole_lines};
ghost use Rattle.bit_table_lines.specs.Streams.{AppendsPart};
ghost use Rattle.bit_table_lines.specs.Runs.{AppendsFirstLines, RanToEnd, StoppedByRead, StoppedByWrite};
ghost use Rattle.bit_table_lines.specs.Runs.{StoppedByMemory};
ghost use Rattle.bit_table_lines.specs.Going.{Going, HasHeld};

use super::run_error::RunError;
use super::streams::{Input, Output};
use std::alloc::{AllocError, Global};
use std::io::{Read, Write};

// How many bytes are asked for at a time, and how many bytes of answers are held at most before the next line.
const PIECE: usize = 4096;

/// What answers lines, one after another.
pub trait LineMachine {
    /// What is answered to the lines that come next, all answers joined.
    ghost answers: { Self → List (List ℕ) → List ℕ };

    /// Carries a line out and gives its answer, which is empty where the line asks for nothing.
    fn answer(&mut self, line: &[u8]) -> Result<Vec<u8>, AllocError>
        ensures { IfOk result (λ text. (rest : List (List ℕ)) →
            answers self.old (line.now ∷ rest) ≡ text.items ++ answers self.new rest) };

    /// No line has no answer.
    ghost none: { (m : Self) → answers m [] ≡ [] };

    /// Lines that follow change no answer that was given before.
    ghost goes_on: { (m : Self) (front back : List (List ℕ)) →
        IsBeginning (answers m front) (answers m (front ++ back)) };
}

// Carries a line out and writes its answer.
fn write_answer<M: LineMachine, W: Write>(
    machine: &mut M,
    line: &[u8],
    output: &mut Output<W>,
) -> Result<(), RunError>
    requires { output_failed output.old ≡ false }
    ensures answered { OnOk result (Appends (W.contents (output_writer output.old))
        (W.contents (output_writer output.new)) (M.answers machine.old (line.now ∷ []))) }
    ensures read { IsErrOf result RunError.Read → ⊥ }
    ensures write { IsErrOf result RunError.Write →
        AppendsPart (W.contents (output_writer output.old)) (W.contents (output_writer output.new))
        (M.answers machine.old (line.now ∷ [])) }
    ensures memory { IsErrOf result RunError.Memory →
        Keeps (W.contents (output_writer output.old)) (W.contents (output_writer output.new)) }
    ensures failed { IsErrOf result RunError.Write ↔ IsTrue (output_failed output.new) }
{
    let text = machine.answer(line).map_err(|_| RunError::Memory)?;
    output.put(text.as_slice())
}

// Carries a line out and holds its answer, behind those that are held.
fn hold_answer<M: LineMachine>(
    machine: &mut M,
    line: &[u8],
    held: &mut Vec<u8>,
) -> Result<(), RunError>
    ensures answered { OnOk result (held.new.items ≡ held.old.items ++ M.answers machine.old (line.now ∷ [])) }
    ensures next { OnOk result ((rest : List (List ℕ)) → M.answers machine.old (line.now ∷ rest)
        ≡ M.answers machine.old (line.now ∷ []) ++ M.answers machine.new rest) }
    ensures err { OnErr result (held.new.items ≡ held.old.items) }
    ensures fault { IfErr result (λ e. e ≡ RunError.Memory) }
{
    let text = machine.answer(line).map_err(|_| RunError::Memory)?;
    // A long answer is not copied.
    if held.is_empty() && text.len() >= PIECE {
        *held = text;
        return Ok(());
    }
    held.extend_from_slice(text.as_slice())
        .map_err(|_| RunError::Memory)
}

// Writes the answers that are held, and holds none then.
fn send<W: Write>(held: &mut Vec<u8>, output: &mut Output<W>) -> Result<(), RunError>
    requires { output_failed output.old ≡ false }
    ensures sent { OnOk result (Appends (W.contents (output_writer output.old))
        (W.contents (output_writer output.new)) held.old.items) }
    ensures none { OnOk result (held.new.items ≡ []) }
    ensures part { OnErr result (AppendsPart (W.contents (output_writer output.old))
        (W.contents (output_writer output.new)) held.old.items) }
    ensures fault { IfErr result (λ e. e ≡ RunError.Write) }
    ensures failed { IsErrOf result RunError.Write ↔ IsTrue (output_failed output.new) }
{
    output.put(held.as_slice())?;
    held.clear();
    Ok(())
}

// Carries out the lines that end in a piece of the text, and begins the next one. Their answers are held, and written
// where there are many.
fn feed<M: LineMachine, W: Write>(
    machine: &mut M,
    line: &mut Vec<u8>,
    piece: &[u8],
    held: &mut Vec<u8>,
    output: &mut Output<W>,
) -> Result<(), RunError>
    requires { output_failed output.old ≡ false }
    ensures going { OnOk result ((answers : List (List ℕ) → List ℕ) (start : Option (List ℕ)) (text : List ℕ) →
        Going answers (M.answers machine.old) start (W.contents (output_writer output.old)) held.old.items text
        line.old.items →
        Going answers (M.answers machine.new) start (W.contents (output_writer output.new)) held.new.items
        (text ++ piece.now) line.new.items) }
    ensures read { IsErrOf result RunError.Read → ⊥ }
    ensures write { IsErrOf result RunError.Write →
        (answers : List (List ℕ) → List ℕ) (start : Option (List ℕ)) (text : List ℕ) →
        Going answers (M.answers machine.old) start (W.contents (output_writer output.old)) held.old.items text
        line.old.items →
        ((front back : List (List ℕ)) → IsBeginning (answers front) (answers (front ++ back))) →
        AppendsPart start (W.contents (output_writer output.new)) (answers (whole_lines (text ++ piece.now))) }
    ensures memory { IsErrOf result RunError.Memory →
        (answers : List (List ℕ) → List ℕ) (start : Option (List ℕ)) (text : List ℕ) →
        Going answers (M.answers machine.old) start (W.contents (output_writer output.old)) held.old.items text
        line.old.items →
        HasHeld answers start (W.contents (output_writer output.new)) held.new.items (text ++ piece.now) }
    ensures failed { IsErrOf result RunError.Write ↔ IsTrue (output_failed output.new) }
{
    // Where the line begun goes on in the piece.
    let mut from = 0;
    for at in 0..piece.len() {
        if piece[at] == b'\n' {
            line.extend_from_slice(&piece[from..at])
                .map_err(|_| RunError::Memory)?;
            hold_answer(machine, line.as_slice(), held)?;
            line.clear();
            from = at + 1;
            if held.len() >= PIECE {
                send(held, output)?;
            }
        }
    }
    line.extend_from_slice(&piece[from..])
        .map_err(|_| RunError::Memory)?;
    Ok(())
}

// Carries out the lines that end in a piece of the text, and begins the next one. All their answers are written, at want
// of memory too.
fn feed_all<M: LineMachine, W: Write>(
    machine: &mut M,
    line: &mut Vec<u8>,
    piece: &[u8],
    held: &mut Vec<u8>,
    output: &mut Output<W>,
) -> Result<(), RunError>
    requires writable { output_failed output.old ≡ false }
    requires none { held.old.items ≡ [] }
    ensures going { OnOk result ((answers : List (List ℕ) → List ℕ) (start : Option (List ℕ)) (text : List ℕ) →
        Going answers (M.answers machine.old) start (W.contents (output_writer output.old)) [] text line.old.items →
        Going answers (M.answers machine.new) start (W.contents (output_writer output.new)) []
        (text ++ piece.now) line.new.items) }
    ensures none { OnOk result (held.new.items ≡ []) }
    ensures read { IsErrOf result RunError.Read → ⊥ }
    ensures write { IsErrOf result RunError.Write →
        (answers : List (List ℕ) → List ℕ) (start : Option (List ℕ)) (text : List ℕ) →
        Going answers (M.answers machine.old) start (W.contents (output_writer output.old)) [] text line.old.items →
        ((front back : List (List ℕ)) → IsBeginning (answers front) (answers (front ++ back))) →
        AppendsPart start (W.contents (output_writer output.new)) (answers (whole_lines (text ++ piece.now))) }
    ensures memory { IsErrOf result RunError.Memory →
        (answers : List (List ℕ) → List ℕ) (start : Option (List ℕ)) (text : List ℕ) →
        Going answers (M.answers machine.old) start (W.contents (output_writer output.old)) [] text line.old.items →
        AppendsFirstLines answers start (W.contents (output_writer output.new)) (text ++ piece.now) }
    ensures failed { IsErrOf result RunError.Write ↔ IsTrue (output_failed output.new) }
{
    match feed(machine, line, piece, held, output) {
        Ok(()) => send(held, output),
        Err(RunError::Memory) => {
            send(held, output)?;
            Err(RunError::Memory)
        }
        Err(fault) => Err(fault),
    }
}

/// Runs a text through a machine: each line is carried out, and its answer written, before the reader is asked again.
/// The answers to lines that one read brought may go out in one write.
///
/// A line ends at the byte 10 or at a clean end of the text. The reader is asked at most `2^64 - 1` times; without a
/// clean end by then the run ends with `Read`.
pub fn drive<M: LineMachine, R: Read, W: Write>(
    alloc: Global,
    machine: &mut M,
    input: &mut Input<R>,
    output: &mut Output<W>,
) -> Result<(), RunError>
    requires readable { input_failed input.old ≡ false }
    requires writable { output_failed output.old ≡ false }

    // The answers to all lines that the reader gave, however it cut them, went out.
    ensures done { OnOk result (RanToEnd (M.answers machine.old)
        (R.remaining (input_reader input.old)) (R.remaining (input_reader input.new))
        (W.contents (output_writer output.old)) (W.contents (output_writer output.new))) }

    // What went out before a fault.
    ensures read { IsErrOf result RunError.Read → StoppedByRead (M.answers machine.old)
        (R.remaining (input_reader input.old)) (R.remaining (input_reader input.new))
        (W.contents (output_writer output.old)) (W.contents (output_writer output.new)) }
    ensures write { IsErrOf result RunError.Write → StoppedByWrite (M.answers machine.old)
        (R.remaining (input_reader input.old)) (R.remaining (input_reader input.new))
        (W.contents (output_writer output.old)) (W.contents (output_writer output.new)) }
    ensures memory { IsErrOf result RunError.Memory → StoppedByMemory (M.answers machine.old)
        (R.remaining (input_reader input.old)) (R.remaining (input_reader input.new))
        (W.contents (output_writer output.old)) (W.contents (output_writer output.new)) }

    // A fault of the reader is always told. Where the reader tells its bytes and has fewer than 2^64 - 1 left, nothing
    // else is told as one.
    ensures read_told { IsTrue (input_failed input.new) → IsErrOf result RunError.Read }
    ensures read_failed { IfSome (R.remaining (input_reader input.old)) (λ text. length text < 2 ^ 64 - 1 →
        IsErrOf result RunError.Read → IsTrue (input_failed input.new)) }
    ensures write_told { IsErrOf result RunError.Write ↔ IsTrue (output_failed output.new) }
{
    let mut line = Vec::new(alloc);
    let mut held = Vec::new(alloc);
    let mut piece = [0u8; PIECE];
    'reads: for _ in 0..u64::MAX {
        let count = input.read(&mut piece)?;
        if count == 0 {
            return write_answer(machine, line.as_slice(), output);
        }
        feed_all(machine, &mut line, &piece[..count], &mut held, output)?;
    }
    Err(RunError::Read)
}
