//! Primes, and pairs of them.

ghost use Rattle.std.specs.Prelude.{◌≡◌, ◌≢◌, ℕ, ◌+◌, ◌*◌, ◌<◌, ◌≤◌, ◌^◌, ◌↔◌, ◌&&◌, true, false, IfOk};
ghost use Rattle.std.specs.FinSet as set;
ghost use Rattle.number_set.specs.Primes.{IsPrime, Strikes};

use crate::numbers::NumberSet;
use std::alloc::{AllocError, Global};

/// The primes below `end`, by the sieve of Eratosthenes.
pub fn primes_below(alloc: Global, end: u32) -> Result<NumberSet, AllocError>
    ensures { IfOk result (λ primes. (n : ℕ) → (set.contains primes n ≡ true) ↔ ((n < end) × IsPrime n)) }
{
    let end = end as usize;
    let mut left = NumberSet::below(alloc, end)?;
    left.remove(0);
    left.remove(1);
    let mut factor = 2;
    while factor * factor < end {
        if left.contains(factor) {
            strike(&mut left, factor, end);
        }
        factor += 1;
    }
    Ok(left)
}

// Takes the multiples of a factor out, from its square on.
fn strike(left: &mut NumberSet, factor: usize, end: usize)
    requires most { end < 2 ^ 32 }
    requires least { 2 ≤ factor }
    requires square { factor * factor < end }
    ensures { Strikes left.old left.new factor (λ b. factor * b < end) }
{
    let mut other = factor;
    while factor * other < end {
        left.remove(factor * other);
        other += 1;
    }
}

/// The numbers of a set that are followed by one greater by 2.
pub fn twins(numbers: &NumberSet) -> Result<NumberSet, AllocError>
    ensures { IfOk result (λ lesser. (n : ℕ) → set.contains lesser n
        ≡ (set.contains numbers.now n && set.contains numbers.now (n + 2))) }
{
    let mut lesser = numbers.clone()?;
    lesser.shift_down(2);
    lesser.intersect_with(numbers);
    Ok(lesser)
}
