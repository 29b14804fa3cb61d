//! Why a line is refused.
ghost use Rattle.std.specs.Prelude.{◌≡◌, IfOk};
ghost use Rattle.bit_table_layout.specs.CauseWords.{cause_word, refusal_text};

use std::alloc::{AllocError, Global};
use std::fmt;
use thiserror::Error;

/// Why a line is refused. Where several causes hold, the first in this order is the one that is answered.
#[derive(Clone, Copy, Debug, PartialEq, Eq)]
pub enum Cause {
    /// There is no layout yet, and the line is no layout line.
    Layout,
    /// The line is no command: an unknown first word, a wrong number of words, or a word of the wrong shape.
    Form,
    /// The layout has no field of this name.
    Field,
    /// A row number is out of range.
    Row,
    /// A number is out of its field's range.
    Value,
    /// The rows would have more bits than a table may have.
    Full,
    /// The bytes are no image of so many rows.
    Image,
    /// Nothing is kept.
    Kept,
}

impl Cause {
    /// The lower-case word that an answer prints behind `refused`.
    pub fn word(self) -> &'static str
        ensures { result.now ≡ cause_word self }
    {
        match self {
            Cause::Layout => "layout",
            Cause::Form => "form",
            Cause::Field => "field",
            Cause::Row => "row",
            Cause::Value => "value",
            Cause::Full => "full",
            Cause::Image => "image",
            Cause::Kept => "kept",
        }
    }

    /// The answer line of a refusal for this cause, with its line end.
    pub fn line(self, alloc: Global) -> Result<Vec<u8>, AllocError>
        ensures { IfOk result (λ text. text.items ≡ refusal_text self) }
    {
        let mut text = Vec::from_slice(alloc, b"refused ")?;
        text.extend_from_slice(self.word().as_bytes())?;
        text.push(b'\n')?;
        Ok(text)
    }
}

impl fmt::Display for Cause {
    ghost use Rattle.std.specs.Prelude.{Some};

    ghost output = { λ c. Some (cause_word c) };

    fn fmt<W: fmt::Write>(&self, f: &mut fmt::Formatter<W>) -> fmt::Result {
        let word = self.word();
        write!(f, "{word}")
    }
}

/// Why a line has no command, or a command was not carried out.
#[derive(Clone, Copy, Debug, PartialEq, Eq, Error)]
pub enum Fault {
    /// The line or the command is refused, for this cause.
    #[error("refused {0}")]
    Refused(Cause),
    /// No memory was found.
    #[error("no memory")]
    Memory,
}
