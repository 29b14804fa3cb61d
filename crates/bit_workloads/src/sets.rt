//! Sets of small numbers, a bit for each number that there could be.

ghost use Rattle.std.specs.Prelude.{◌≤◌};

use crate::digest::Digest;
use crate::random::Random;
use bit_containers::{BitVec, Bits, BitsIter, BitsMut, Lsb0, Retain};
use std::alloc::{AllocError, Global};

type Set = BitVec<u64, Lsb0>;

// More numbers than a set is made for.
const MOST: usize = 2_000_000;

/// In each round a set of few numbers and one of half of all are joined, compared, listed and edited.
pub fn work(
    alloc: Global,
    rounds: u32,
    size: u32,
    random: &mut Random,
    digest: &mut Digest,
) -> Result<(), AllocError>
    requires least { 20 ≤ size }
    requires most { size ≤ 1000000 }
{
    for _ in 0..rounds {
        let few = few(alloc, size, random)?;
        let half = half(alloc, size, random)?;
        join(&few, &half, digest)?;
        list(&few, digest);
        list(&half, digest);
        edit(&half, size, random, digest)?;
        gather(alloc, &few, &half, size, random, digest)?;
    }
    Ok(())
}

// A set of at most a hundredth of all numbers.
fn few(alloc: Global, size: u32, random: &mut Random) -> Result<Set, AllocError>
    requires least { 20 ≤ size }
    requires most { size ≤ 1000000 }
{
    let mut set = Set::repeat(alloc, false, size as usize)?;
    for _ in 0..size / 100 {
        let number = random.place(size);
        if number < set.len() {
            set.set(number, true);
        }
    }
    Ok(set)
}

// A set of about half of all numbers.
fn half(alloc: Global, size: u32, random: &mut Random) -> Result<Set, AllocError>
    requires { size ≤ 1000000 }
{
    let mut words = Vec::new(alloc);
    for _ in 0..size.div_ceil(64) {
        words.push(random.whole())?;
    }
    let Ok(mut set) = Set::try_from_vec(words) else {
        return Err(AllocError);
    };
    set.truncate(size as usize);
    Ok(set)
}

// What is in both, in one of them, in just one of them, and in neither; whether the one holds all of the other.
fn join(few: &Set, half: &Set, digest: &mut Digest) -> Result<(), AllocError> {
    let mut both = few.clone()?;
    both &= half.as_bitslice();
    digest.count(both.count_ones());
    digest.answer(both == *few);
    let mut either = half.clone()?;
    either |= few.as_bitslice();
    digest.count(either.count_ones());
    digest.answer(either == *half);
    digest.answer(few < half);
    let mut one = either.clone()?;
    one ^= both.as_bitslice();
    digest.count(one.count_ones());
    let neither = !either;
    digest.count(neither.count_ones());
    digest.place(neither.first_one());
    digest.place(neither.last_one());
    Ok(())
}

// The numbers of a set, and how long the gaps are.
fn list(set: &Set, digest: &mut Digest) {
    for number in set.iter_ones() {
        digest.count(number);
    }
    let mut absent = 0u64;
    for number in set.iter_zeros() {
        absent = absent.wrapping_add(number as u64);
    }
    digest.push(absent);
}

// Numbers that are put in and go, with all above them moved.
fn edit(set: &Set, size: u32, random: &mut Random, digest: &mut Digest) -> Result<(), AllocError>
    requires { 20 ≤ size }
{
    let mut set = set.clone()?;
    for _ in 0..20 {
        let (number, other) = (random.place(size), random.place(size));
        if number < set.len() && set.len() < MOST {
            set.insert(number, true)?;
        }
        if other < set.len() {
            digest.answer(set.remove(other));
        }
    }
    set.retain(|number, bit| *bit || number % 3 != 0);
    digest.count(set.len());
    digest.count(set.count_ones());
    Ok(())
}

// Sets behind one another, cut and put together again.
fn gather(
    alloc: Global,
    few: &Set,
    half: &Set,
    size: u32,
    random: &mut Random,
    digest: &mut Digest,
) -> Result<(), AllocError>
    requires { 20 ≤ size }
{
    if few.len() > MOST || half.len() > MOST {
        return Ok(());
    }
    let mut joined = few.clone()?;
    joined.extend_from_bitslice(half)?;
    let cut = random.place(size);
    if cut < joined.len() {
        let mut upper = joined.split_off(cut)?;
        upper.append(&mut joined)?;
        digest.count(upper.count_ones());
        digest.place(upper.first_one());
        let gone = upper.len() / 4..upper.len() / 2;
        for bit in upper.drain(gone) {
            digest.answer(bit);
        }
        digest.count(upper.len());
    }
    let turned: Set = Set::collect(alloc, half.iter().map(|bit| !*bit))?;
    digest.count(turned.count_ones());
    digest.answer(turned == *half);
    Ok(())
}
