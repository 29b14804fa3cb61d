//! A set of small numbers, and with it the primes below a million by the sieve of Eratosthenes.
//!
//! It stands on `bit_containers` alone.
#![tactic(auto)]

mod numbers;
mod primes;
mod show;

use std::io;

fn main(rt: HostRuntime) -> io::Result<()> {
    show::primes(&rt)?;
    println!(rt)?;
    show::small_sets(&rt)
}
