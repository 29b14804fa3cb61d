//! What the program prints.

use crate::numbers::NumberSet;
use crate::primes::{primes_below, twins};
use std::alloc::{AllocError, Global};
use std::{fmt, io};

// Primes below this number are sought.
const END: u32 = 1_000_000;

// Small sets have numbers below this one.
const SMALL: u32 = 50;

/// The primes below a million.
pub fn primes(rt: &HostRuntime) -> io::Result<()> {
    let primes = primes_below(rt.alloc(), END)?;
    let count = primes.len();
    let pairs = twins(&primes)?;
    println!(rt; "Primes below {END}")?;
    println!(rt; "  how many       {count}")?;
    println!(rt;
        "  the first      {}",
        Span {
            numbers: &primes,
            from: 0,
            upto: 10
        }
    )?;
    println!(rt;
        "  the last       {}",
        Span {
            numbers: &primes,
            from: count.saturating_sub(6),
            upto: count
        }
    )?;
    if let Some(prime) = primes.select(9_999) {
        println!(rt; "  the 10000th    {prime}")?;
    }
    println!(rt; "  below 1000     {}", primes.rank(1_000))?;
    println!(rt; "  pairs of twins {}", pairs.len())
}

/// Two small sets, and what is in one of them, in both, and in the first alone.
pub fn small_sets(rt: &HostRuntime) -> io::Result<()> {
    let primes = primes_below(rt.alloc(), SMALL)?;
    let fibonacci = fibonacci(rt.alloc())?;
    let mut either = primes.clone()?;
    either.union_with(&fibonacci)?;
    let mut both = primes.clone()?;
    both.intersect_with(&fibonacci);
    let mut first = primes.clone()?;
    first.difference_with(&fibonacci);
    println!(rt; "Below {SMALL}         0         10        20        30        40")?;
    println!(rt; "  primes         {}", Row { numbers: &primes })?;
    println!(rt;
        "  Fibonacci      {}",
        Row {
            numbers: &fibonacci
        }
    )?;
    println!(rt; "  union          {}", Row { numbers: &either })?;
    println!(rt; "  intersection   {}", Row { numbers: &both })?;
    println!(rt; "  difference     {}", Row { numbers: &first })?;
    println!(rt)?;
    println!(rt; "  intersection   {both}")?;
    println!(rt; "  difference     {first}")
}

// The Fibonacci numbers below `SMALL`.
fn fibonacci(alloc: Global) -> Result<NumberSet, AllocError> {
    let mut numbers = NumberSet::new(alloc);
    for number in [0, 1, 2, 3, 5, 8, 13, 21, 34] {
        numbers.insert(number)?;
    }
    Ok(numbers)
}

// The numbers of a set from one index up to another, in their order.
#[derive(Clone, Copy)]
struct Span<'a> {
    numbers: &'a NumberSet,
    from: usize,
    upto: usize,
}

impl fmt::Display for Span<'_> {
    fn fmt<W: fmt::Write>(&self, f: &mut fmt::Formatter<W>) -> fmt::Result {
        for index in self.from..self.upto {
            if let Some(number) = self.numbers.select(index) {
                if index > self.from {
                    f.write_str(" ")?;
                }
                write!(f, "{number}")?;
            }
        }
        Ok(())
    }
}

// A mark for each number below `SMALL`, `#` where it is in the set, and how many are.
#[derive(Clone, Copy)]
struct Row<'a> {
    numbers: &'a NumberSet,
}

impl fmt::Display for Row<'_> {
    fn fmt<W: fmt::Write>(&self, f: &mut fmt::Formatter<W>) -> fmt::Result {
        for number in 0..SMALL as usize {
            f.write_str(if self.numbers.contains(number) {
                "#"
            } else {
                "."
            })?;
        }
        let count = self.numbers.len();
        write!(f, " {count:>3}")
    }
}

impl fmt::Display for NumberSet {
    fn fmt<W: fmt::Write>(&self, f: &mut fmt::Formatter<W>) -> fmt::Result {
        f.write_str("{")?;
        let mut is_first = true;
        for number in self.iter() {
            if !is_first {
                f.write_str(", ")?;
            }
            write!(f, "{number}")?;
            is_first = false;
        }
        f.write_str("}")
    }
}
