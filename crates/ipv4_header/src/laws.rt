//! What is read is what was written, and the other way round.

ghost use Rattle.std.specs.Prelude.{◌≡◌, ◌≤◌, IsOk, IfOk, OnErr, length, take};
ghost use Rattle.ipv4_header.specs.Header.{fields_of, header_len};

use crate::header::{Header, HeaderError};

/// Reads the header that some bytes begin with and writes it over others, of which there are as many at least: the same
/// bytes, whose number is answered.
pub fn read_then_write(bytes: &[u8], target: &mut [u8]) -> Result<usize, HeaderError>
    requires room { length bytes.now ≤ length target.old }
    ensures ok { IfOk result (λ len. take len target.new ≡ take len bytes.now) }
    ensures err { OnErr result (target.new ≡ target.old) }
{
    let header = Header::read(bytes)?;
    header.write(target);
    Ok(header.len())
}

/// Writes a header over bytes that have room for it and reads it: the same fields and options.
pub fn write_then_read<'a>(
    header: &Header<'_>,
    bytes: &'a mut [u8],
) -> Result<Header<'a>, HeaderError>
    requires room { header_len header.now ≤ length bytes.old }
    ensures succeeds { IsOk result }
    ensures fields { IfOk result (λ read. fields_of read ≡ fields_of header.now) }
    ensures options { IfOk result (λ read. read.options.now ≡ header.now.options.now) }
{
    header.write(bytes);
    Header::read(bytes)
}
