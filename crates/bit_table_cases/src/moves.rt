//! Rows of a memory that move, and rows that are kept, by one sweep.

ghost use Rattle.std.specs.Prelude.{◌≡◌, ◌≤◌, ◌<◌, length};

use crate::memory::{WORDS, push_words, read_words};
use bit_addressing_memory::write_entry;
use bit_addressing_sample_orders::texts::number;
use bit_table_script::{
    BitIdx, BitOrder, BitRegister, BitSlice, Sweep, Way, keep_rows, move_rows, way_for,
};
use std::alloc::{AllocError, Global};
use std::str::SplitWhitespace;

/// The memory after the rows of `w` bits each from row `p` up to before row `n` moved to row `q` on, where row 0 begins at
/// bit `head`; and whether that took no more writes and reads than the two numbers behind them.
pub fn move_case<R: BitRegister, O: BitOrder<R>>(
    alloc: Global,
    rest: &str,
) -> Result<String, AllocError> {
    let mut args = rest.split_whitespace();
    let (mut words, count) = read_words::<R>(alloc, args.next().unwrap_or(""))?;
    let head = next_number(&mut args);
    let p = next_number(&mut args);
    let q = next_number(&mut args);
    let n = next_number(&mut args);
    let w = next_number(&mut args);
    if words.len() != WORDS || head > 7 || p > n || n > 5 || q > 5 || w > 9 {
        return "no such rows".to_string(alloc);
    }
    let (writes, reads) = moved_rows::<R, O>(words.as_mut_slice(), head as u8, p, q, n, w);
    let most_writes = next_number(&mut args);
    let most_reads = next_number(&mut args) as u64;
    let mut text = String::new(alloc);
    push_words(&mut text, words.as_slice(), count)?;
    text.push_str(if writes <= most_writes && reads <= most_reads {
        " yes"
    } else {
        " no"
    })?;
    Ok(text)
}

fn next_number(args: &mut SplitWhitespace<'_>) -> usize {
    number(args.next().unwrap_or(""))
}

// Moves rows, and answers how many words that wrote, and how many it read.
fn moved_rows<R: BitRegister, O: BitOrder<R>>(
    words: &mut [R],
    head: u8,
    p: usize,
    q: usize,
    n: usize,
    w: usize,
) -> (usize, u64)
    requires room { length words.old ≡ 24 }
    requires head { head < 8 }
    requires order { p ≤ n }
    requires few { n ≤ 5 }
    requires near { q ≤ 5 }
    requires narrow { w ≤ 9 }
{
    let first = head as usize;
    let mut sweep = Sweep::new(words, way_for(first + p * w, first + q * w));
    move_rows::<R, O>(&mut sweep, BitIdx::new_unchecked(head), p, q, n, w);
    (sweep.writes(), sweep.reads())
}

/// The memory after those of `n` rows of `w` bits each from bit `head` on were kept whose digit of a number is 0, how
/// many they are, and whether that took no more writes than the number behind.
pub fn keep_case<R: BitRegister, O: BitOrder<R>>(
    alloc: Global,
    rest: &str,
) -> Result<String, AllocError> {
    let mut args = rest.split_whitespace();
    let (mut words, count) = read_words::<R>(alloc, args.next().unwrap_or(""))?;
    let head = next_number(&mut args);
    let n = next_number(&mut args);
    let w = next_number(&mut args);
    let off = next_number(&mut args);
    if words.len() != WORDS || head > 7 || n > 5 || w > 9 {
        return "no such rows".to_string(alloc);
    }
    let (kept, writes) = kept_rows::<R, O>(words.as_mut_slice(), head as u8, n, w, off);
    let most_writes = next_number(&mut args);
    let mut text = String::new(alloc);
    push_words(&mut text, words.as_slice(), count)?;
    let within = if writes <= most_writes { "yes" } else { "no" };
    write!(text, " {kept} {within}")?;
    Ok(text)
}

// Keeps rows, and answers how many, and how many words that wrote.
fn kept_rows<R: BitRegister, O: BitOrder<R>>(
    words: &mut [R],
    head: u8,
    n: usize,
    w: usize,
    off: usize,
) -> (usize, usize)
    requires room { length words.old ≡ 24 }
    requires head { head < 8 }
    requires few { n ≤ 5 }
    requires narrow { w ≤ 9 }
{
    let mut marks = [R::ZERO];
    for k in 0..n {
        write_entry::<R, O>(&mut marks, k, (off >> (k % 8)) & 1 == 1);
    }
    let flags = BitSlice::<R, O>::from_parts(&marks, 0, n);
    let mut sweep = Sweep::new(words, Way::Up);
    let kept = keep_rows::<R, O>(&mut sweep, BitIdx::new_unchecked(head), n, w, flags);
    (kept, sweep.writes())
}
