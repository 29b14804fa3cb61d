//! Cases of windows: a line of standard input names a word, an order, a memory, a window of it and a call, and is answered
//! by what the call answers, and by the memory afterwards where the call writes.
#![tactic(auto)]

mod case;
mod edits;
mod lent;
mod looks;
mod memory;
mod numbers;
mod order;
mod paths;
mod pieces;
mod shares;
mod splits;
mod texts;
mod writes;

use std::io;

fn main(rt: HostRuntime) -> io::Result<()> {
    let alloc = rt.alloc();
    for line in rt.lines(alloc) {
        let line = line?;
        let answer = case::answer(alloc, line.as_str())?;
        println!(rt; "{answer}")?;
    }
    Ok(())
}
