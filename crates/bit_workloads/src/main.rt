//! Jobs that users of packed bits wait for, on inputs made from a seed: `bit_workloads NAME ROUNDS SIZE SEED` does a job
//! so many rounds long on tables of so many rows or lists of so many bits, and prints a digest of all that it came to.
//! Without words it does a small one of each.
#![tactic(auto)]

ghost use Rattle.std.specs.Prelude.{◌≤◌};

mod digest;
mod packets;
mod random;
mod scripts;
mod sets;
mod windows;

use digest::Digest;
use random::Random;
use std::alloc::{AllocError, AllocGlobal, Global};
use std::env::Env;
use std::process::ExitCode;
use std::{env, io};

// The jobs, each with the rounds and the size of a small one.
const JOBS: [(&str, u32, u32); 6] = [
    ("session", 200, 40),
    ("columns", 2, 100),
    ("odd", 25, 30),
    ("sets", 2, 300),
    ("packets", 2, 200),
    ("windows", 2, 300),
];

// The sizes that there are.
const LEAST: u32 = 20;

const MOST: u32 = 1_000_000;

fn main(rt: HostRuntime) -> ExitCode {
    match work(&rt) {
        Ok(()) => ExitCode::SUCCESS,
        Err(fault) => {
            let _ = eprintln!(rt; "bit_workloads: {fault}");
            ExitCode::FAILURE
        }
    }
}

// Does the job that the words of the command line name, or a small one of each.
fn work(rt: &HostRuntime) -> io::Result<()> {
    let alloc = rt.alloc();
    let words = words(rt)?;
    if words.is_empty() {
        for (name, rounds, size) in JOBS {
            println!(rt; "{name} {}", digest_of(alloc, name, rounds, size, 1)?)?;
        }
        return Ok(());
    }
    let name = word_at(&words, 0);
    let rounds = number_at(&words, 1);
    let size = number_at(&words, 2).clamp(LEAST, MOST);
    let seed = number_at(&words, 3);
    println!(rt; "{name} {}", digest_of(alloc, name, rounds, size, seed)?)
}

// The words of the command line behind the program's name.
fn words<R: Env + AllocGlobal>(rt: &R) -> io::Result<Vec<String>> {
    let mut words = Vec::new(rt.alloc());
    for word in env::args(rt)?.skip(1) {
        words.push(word)?;
    }
    Ok(words)
}

// One of the words, or an empty one past the end.
fn word_at(words: &[String], index: usize) -> &str {
    match words.get(index) {
        Some(word) => word.as_str(),
        None => "",
    }
}

// One of the words as a number, or 0.
fn number_at(words: &[String], index: usize) -> u32 {
    word_at(words, index).parse::<u32>().unwrap_or(0)
}

// What a job comes to. One that there is not comes to nothing.
fn digest_of(
    alloc: Global,
    name: &str,
    rounds: u32,
    size: u32,
    seed: u32,
) -> Result<Digest, AllocError>
    requires least { 20 ≤ size }
    requires most { size ≤ 1000000 }
{
    let mut digest = Digest::new();
    let mut random = Random::new(seed);
    match name {
        "session" => scripts::session(alloc, rounds, size, &mut random, &mut digest)?,
        "columns" => scripts::columns(alloc, rounds, size, &mut random, &mut digest)?,
        "odd" => scripts::odd(alloc, rounds, size, &mut random, &mut digest)?,
        "sets" => sets::work(alloc, rounds, size, &mut random, &mut digest)?,
        "packets" => packets::work(alloc, rounds, size, &mut random, &mut digest)?,
        "windows" => windows::work(alloc, rounds, size, &mut random, &mut digest)?,
        _ => {}
    }
    Ok(digest)
}
