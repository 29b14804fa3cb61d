//! A machine that fails when it is told to, and a run through it.
ghost use Rattle.std.specs.Prelude.{◌≡◌, ◌<◌, ◌∷◌, ◌++◌, [], IfOk, refl};
ghost use Rattle.std.specs.List.{flat_map};
ghost use Rattle.std.proofs.lemmas.List.Concat.{flat_map-append};
ghost use Rattle.bit_table_lines.specs.Lines.{IsBeginning, lines};

use crate::streams::Cut;
use bit_table_lines::{Input, LineMachine, Output, RunError, drive};
use std::alloc::{AllocError, Global};

/// Answers each line by the line and a line end, and finds no memory once `until_fault` more lines are answered.
#[derive(Drop)]
pub struct Echo {
    pub alloc: Global,
    pub until_fault: usize,
}

impl LineMachine for Echo {
    ghost answers = { λ m lines. flat_map (λ line. line ++ 10 ∷ []) lines };

    ghost none = { λ m. refl };

    ghost goes_on = { λ m front back. record {
      rest = flat_map (λ line. line ++ 10 ∷ []) back;
      joined = flat_map-append (λ line. line ++ 10 ∷ []) front back;
    } };

    fn answer(&mut self, line: &[u8]) -> Result<Vec<u8>, AllocError> {
        if self.until_fault == 0 {
            return Err(AllocError);
        }
        self.until_fault -= 1;
        let mut text = Vec::from_slice(self.alloc, line)?;
        text.push(b'\n')?;
        Ok(text)
    }
}

/// What a run of lines through `Echo` writes, read in pieces of at most `most` bytes: each line with a line end.
pub fn echoed(alloc: Global, script: &[u8], most: usize) -> Result<Vec<u8>, RunError>
    requires { 0 < most }
    ensures { IfOk result (λ text. text.items ≡ flat_map (λ line. line ++ 10 ∷ []) (lines script.now)) }
{
    let mut input = Input::new(Cut {
        rest: script,
        first: 0,
        piece: most,
        until_fault: usize::MAX,
    });
    let mut output = Output::new(Vec::new(alloc));
    let mut machine = Echo {
        alloc,
        until_fault: usize::MAX,
    };
    drive(alloc, &mut machine, &mut input, &mut output)?;
    Ok(output.into_inner())
}
