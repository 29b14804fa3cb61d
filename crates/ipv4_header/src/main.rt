//! IPv4 headers, given as lines of hexadecimal bytes, told field by field.
//!
//! It stands on `bit_slice`, with `hex` and `thiserror` of the kit.
#![tactic(auto)]

mod checksum;
mod field;
mod header;
mod laws;
mod show;

use hex::FromHexError;
use std::io;

fn main(rt: HostRuntime) -> io::Result<()> {
    let alloc = rt.alloc();
    for line in rt.lines(alloc) {
        let line = line?;
        if line.as_str().starts_with("#") || line.is_empty() {
            println!(rt; "{line}")?;
            continue;
        }
        let digits: String = line.chars().filter(|c| !c.is_whitespace()).collect(alloc)?;
        match hex::decode(alloc, digits.as_str()) {
            Ok(bytes) => show::print_header(&rt, &bytes)?,
            Err(FromHexError::OutOfMemory) => return Err(io::ErrorKind::OutOfMemory.into()),
            Err(error) => println!(rt; "  refused: no hexadecimal bytes: {error}")?,
        }
    }
    Ok(())
}
