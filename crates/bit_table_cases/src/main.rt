//! Cases of the table: a line of standard input begins with a word that says what it is a case of. Then comes a storage
//! with a script, a layout with lines, or a memory with places in it. It is answered in one line of standard output.
#![tactic(auto)]

mod case;
mod digits;
mod lines;
mod memory;
mod moves;
mod order;
mod runs;
mod scripts;
mod storages;
mod tables;
mod text;

use std::io;

fn main(rt: HostRuntime) -> io::Result<()> {
    let alloc = rt.alloc();
    for line in rt.lines(alloc) {
        let line = line?;
        let answer = case::answer(alloc, line.as_str())?;
        println!(rt; "{answer}")?;
    }
    Ok(())
}
