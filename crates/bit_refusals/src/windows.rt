//! Commands at a window.

use crate::given::Given;
use crate::shown::{begin, end, no_such_call, show, show_nothing, words_text};
use bit_table::containers::{
    BitSlice, BitSliceMut, BitStore, Bits, WindowCommand, WindowReply, WordPaths, run_window,
};
use std::io;

/// `run_window` with six commands, at the window of a line.
pub fn window_case<T: BitStore, O: WordPaths<T>>(
    rt: &HostRuntime,
    given: &Given<'_, T>,
) -> io::Result<()> {
    let alloc = rt.alloc();
    let mut words = Vec::from_slice(alloc, given.words.as_slice())?;
    let most = words.len().saturating_mul(T::BITS as usize);
    let (head, len) = (given.head, given.len);
    if most > 2000 || head > most || len > most - head {
        return no_such_call(rt);
    }
    let commands: [WindowCommand<BitSlice<'_, T, O>>; 6] = [
        WindowCommand::Set(0, true),
        WindowCommand::Reverse,
        WindowCommand::RotateLeft(2),
        WindowCommand::Not,
        WindowCommand::CountOnes,
        WindowCommand::Read(1000),
    ];
    show(rt, "before", &given.window::<O>())?;
    begin(rt)?;
    let mut window = BitSliceMut::<T, O>::from_place_mut(words.as_mut_slice(), head, len);
    let outcome = run_window(alloc, &mut window, &commands);
    end(rt, outcome.is_ok())?;
    show(rt, "after", &window)?;
    let text = words_text(alloc, words.as_slice())?;
    println!(rt; "words {text}")?;
    match outcome {
        Ok(replies) => show_replies(rt, replies.as_slice()),
        Err(_) => show_nothing(rt),
    }
}

// Writes replies.
fn show_replies(rt: &HostRuntime, replies: &[WindowReply]) -> io::Result<()> {
    println!(rt; "made {replies:?}")
}
