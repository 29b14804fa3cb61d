//! The replies to commands that were carried out.
ghost use Rattle.std.specs.Prelude.{◌≡◌, IfOk, map};
ghost use Rattle.std.specs.List.{join_with_byte};
ghost use Rattle.bit_table_commands.specs.Replies.{reply_text, row_numbers};

use super::items::Items;
use bit_table_layout::image;
use itoa::{Buffer, Integer};
use std::alloc::{AllocError, Global};

/// The numbers of a row, one a field, in order.
pub type Numbers = Items<i128>;

/// Row numbers, ascending.
pub type RowNumbers = Items<usize>;

/// The bytes of an image.
pub type ImageBytes = Items<u8>;

/// What a command that was carried out answers.
#[derive(Debug, Drop, PartialEq, Eq)]
pub enum Reply {
    /// The command was carried out, and there is nothing more to tell.
    Done,
    /// The numbers of a row.
    Numbers(Numbers),
    /// How many rows bear a letter.
    Count(usize),
    /// Which rows bear a letter.
    Rows(RowNumbers),
    /// The row count and the image bytes of the rows.
    Image { rows: usize, bytes: ImageBytes },
}

impl Reply {
    /// The answer line of the reply, with its line end: `ok`, numbers in decimal with a space between each two (`none`
    /// for no row numbers), or the image line.
    pub fn line(&self, alloc: Global) -> Result<Vec<u8>, AllocError>
        ensures { IfOk result (λ text. text.items ≡ reply_text self.now) }
    {
        let mut text = match self {
            Reply::Done => Vec::from_slice(alloc, b"ok")?,
            Reply::Numbers(numbers) => spaced(alloc, numbers.as_slice())?,
            Reply::Count(count) => count.to_string(alloc)?.into_bytes(),
            Reply::Rows(rows) => row_numbers(alloc, rows.as_slice())?,
            Reply::Image { rows, bytes } => {
                image::line(alloc, *rows, bytes.as_slice())?.into_bytes()
            }
        };
        text.push(b'\n')?;
        Ok(text)
    }
}

// The row numbers in decimal with a space between each two, or `none`.
fn row_numbers(alloc: Global, rows: &[usize]) -> Result<Vec<u8>, AllocError>
    ensures { IfOk result (λ text. text.items ≡ row_numbers rows.now) }
{
    if rows.is_empty() {
        Vec::from_slice(alloc, b"none")
    } else {
        spaced(alloc, rows)
    }
}

// Numbers in decimal with a space between each two.
fn spaced<N: Integer>(alloc: Global, numbers: &[N]) -> Result<Vec<u8>, AllocError>
    ensures { IfOk result (λ text. text.items ≡ join_with_byte 32 (map N.text numbers.now)) }
{
    let mut text = Vec::new(alloc);
    let Some((first, rest)) = numbers.split_first() else {
        return Ok(text);
    };
    let mut buffer = Buffer::new();
    text.extend_from_slice(buffer.format(*first).as_bytes())?;
    for number in rest {
        text.push(b' ')?;
        text.extend_from_slice(buffer.format(*number).as_bytes())?;
    }
    Ok(text)
}
