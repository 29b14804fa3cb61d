//! Cases of memories: a line of standard input names a word, an order, a memory and a call, and is answered by what the
//! call answers, and by the memory afterwards where the call writes.
#![tactic(auto)]

mod acts;
mod between;
mod case;
mod entries;
mod parts;
mod pointers;
mod spans;
mod text;
mod texts;

use std::io;

fn main(rt: HostRuntime) -> io::Result<()> {
    let alloc = rt.alloc();
    for line in rt.lines(alloc) {
        let line = line?;
        let answer = case::answer(alloc, line.as_str())?;
        println!(rt; "{answer}")?;
    }
    Ok(())
}
