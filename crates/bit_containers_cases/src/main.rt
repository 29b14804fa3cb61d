//! Cases of vectors, boxes and arrays: a line of standard input names a kind, a word, an order, a memory, a window of it
//! and calls, one after another; what is made of the window is taken through them, and what they answer and what the list
//! is afterwards is written.
#![tactic(auto)]

mod arrays;
mod boxes;
mod call;
mod case;
mod grown;
mod looks;
mod made;
mod operators;
mod ranges;
mod shown;
mod taken;
mod vectors;
mod writes;

use std::io;

fn main(rt: HostRuntime) -> io::Result<()> {
    let alloc = rt.alloc();
    for line in rt.lines(alloc) {
        let line = line?;
        let answer = case::answer(alloc, line.as_str())?;
        println!(rt; "{answer}")?;
    }
    Ok(())
}
