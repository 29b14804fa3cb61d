//! The image of a table's rows.
ghost use Rattle.std.specs.Prelude.{◌≡◌, ◌*◌, ◌≤◌, IfOk, string_bytes};
ghost use Rattle.bit_table_layout.specs.Layouts.{row_width};
ghost use Rattle.bit_table_layout.specs.Images.{image_line, ImagesTellNumbers};
ghost use Rattle.bit_table_layout.specs.Loads.{is_image, LoadsTakeImages};
ghost use Rattle.bit_table_layout.specs.Steps.{is_cut};

use super::layout::{Layout, MAX_BITS, Rule};
use std::alloc::{AllocError, Global};

// The bits of a byte.
const BYTE: usize = 8;

/// The image line: the row count in decimal and, where there are rows, a space and the bytes in lower-case
/// hexadecimal.
pub fn line(alloc: Global, rows: usize, bytes: &[u8]) -> Result<String, AllocError>
    ensures { IfOk result (λ text. string_bytes text ≡ image_line rows bytes.now) }
{
    let mut text = rows.to_string(alloc)?;
    if rows > 0 {
        let digits = hex::encode(alloc, bytes)?;
        text.push(' ')?;
        text.push_str(digits.as_str())?;
    }
    Ok(text)
}

/// Two tables of one layout have equal image lines exactly if their rows' numbers are equal: a law, which the
/// contract states.
pub fn images_tell_numbers()
    ensures { ImagesTellNumbers }
{}

/// Whether bytes are the image bytes of so many rows of the layout: as many bytes as these rows' bits fill, with each
/// bit past them zero.
pub fn is_image(layout: &Layout, rows: usize, bytes: &[u8]) -> bool
    requires { rows * row_width layout.now.fields ≤ MAX_BITS }
    ensures { result ≡ is_image layout.now rows bytes.now }
{
    let bits = rows * layout.row_bits();
    if bytes.len() != bits.div_ceil(BYTE) {
        return false;
    }
    match bytes.last() {
        None => true,
        Some(last) => is_cut(layout.rule(), bits - BYTE * (bytes.len() - 1), *last),
    }
}

/// Bytes are taken as the image of so many rows exactly if a list of so many rows of the layout has these image bytes:
/// a law, which the contract states.
pub fn loads_take_images()
    ensures { LoadsTakeImages }
{}

// Whether a byte has no one past its first so many bits.
fn is_cut(rule: Rule, used: usize, byte: u8) -> bool
    requires some { 1 ≤ used }
    requires few { used ≤ 8 }
    ensures { result ≡ is_cut rule used byte }
{
    let digits = byte as usize;
    match rule {
        Rule::Low => digits >> used == 0,
        Rule::High => digits % (1 << (BYTE - used)) == 0,
    }
}
