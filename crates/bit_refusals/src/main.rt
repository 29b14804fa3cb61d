//! Calls that may take memory, one a line of standard input: what the call is given is written, then `call`, then whether
//! it was `done` or `refused`, and then what is in hand. Between `call` and the next line nothing but the call itself asks
//! for memory, so that requests can be refused there from outside.
#![tactic(auto)]

mod boxes;
mod case;
mod given;
mod grown;
mod images;
mod lines;
mod made;
mod parted;
mod scripts;
mod shown;
mod tables;
mod windows;

use std::io;

fn main(rt: HostRuntime) -> io::Result<()> {
    let alloc = rt.alloc();
    for line in rt.lines(alloc) {
        let line = line?;
        println!(rt; "{line}")?;
        case::make(&rt, line.as_str())?;
    }
    Ok(())
}
