//! A set of small numbers.

ghost use Rattle.std.specs.Prelude.{◌≡◌, ℕ, ◌+◌, ◌<◌, ◌≤◌, ◌↔◌, true, false, not, length, take, count_by, nat_lt};
ghost use Rattle.std.specs.Prelude.{slice_index_or, IfOk, IfSome, IsSome, IsTrue, OnErr, OnOk};
ghost use Rattle.std.specs.FinSet as set;
ghost use Rattle.bit_containers.specs.Vector.{vec_bits};
ghost use Rattle.bit_containers.specs.View.{view_bits};
ghost use Rattle.number_set.specs.Held.{held, words};
ghost use Rattle.number_set.specs.Numbers.{rank, Lists};

use bit_containers::{BitSlice, BitVec, Bits, BitsIter, BitsMut, IterOnes, Lsb0, MAX_BITS};
use std::alloc::{AllocError, Global};
use std::marker::Model;

/// The numbers of a set that are left to give, ascending from the front.
pub type Numbers<'a> = IterOnes<'a, u64, Lsb0>;

/// A set of small numbers. It takes a bit for each number up to the greatest that was put in.
///
/// A contract sees it as a finite set of numbers, in the words that std has for one.
#[derive(Drop)]
pub struct NumberSet {
    bits: BitVec<u64, Lsb0>,
}

impl Model for NumberSet {
    ghost use Rattle.std.specs.Coded.{coded_ℕ};
    ghost use Rattle.std.specs.FinSet as set;
    ghost use Rattle.std.specs.Ordering.{nat_cmp};
    ghost use Rattle.bit_containers.specs.Vector.{vec_bits};
    ghost use Rattle.number_set.specs.Held.{held, words};

    ghost Value = { set.FinSet nat_cmp };

    ghost coded = { set.code coded_ℕ };

    ghost view = { λ s. held (vec_bits words s.bits) };
}

#[tactic(auto, using(crate::proofs::HeldLemmas::held_calls))]
impl NumberSet {
    // ---- make

    /// No numbers. It takes no memory.
    pub fn new(alloc: Global) -> NumberSet
        ensures { result ≡ set.empty }
    {
        NumberSet {
            bits: BitVec::new(alloc),
        }
    }

    /// All numbers below `end`.
    pub fn below(alloc: Global, end: usize) -> Result<NumberSet, AllocError>
        ensures { IfOk result (λ made. (n : ℕ) → set.contains made n ≡ nat_lt n end) }
    {
        if end > MAX_BITS {
            return Err(AllocError);
        }
        let bits = BitVec::repeat(alloc, true, end)?;
        Ok(NumberSet { bits })
    }

    // ---- ask

    /// How many numbers there are.
    pub fn len(&self) -> usize
        ensures { result ≡ set.len self.now }
    {
        self.bits.count_ones()
    }

    /// Whether there is no number.
    pub fn is_empty(&self) -> bool
        ensures { IsTrue result ↔ (self.now ≡ set.empty) }
    {
        self.bits.not_any()
    }

    /// Whether a number is in the set.
    pub fn contains(&self, number: usize) -> bool
        ensures { result ≡ set.contains self.now number }
    {
        number < self.bits.len() && self.bits.bit(number)
    }

    /// How many numbers of the set are below `end`.
    pub fn rank(&self, end: usize) -> usize
        ensures { result ≡ rank self.now end }
    {
        let bits = self.bits.as_bitslice();
        bits.part(0, end.min(bits.len())).count_ones()
    }

    /// The number of the set that has `index` others below it, or `None` where the set has no more than `index`.
    pub fn select(&self, index: usize) -> Option<usize>
        ensures variant { IsSome result ↔ (index < set.len self.now) }
        ensures value { IfSome result (λ number.
            (set.contains self.now number ≡ true) × (rank self.now number ≡ index)) }
    {
        let bits = self.bits.as_bitslice();
        if index < bits.count_ones() {
            Some(one_at(bits, index))
        } else {
            None
        }
    }

    /// The numbers, ascending.
    pub fn iter(&self) -> Numbers<'_>
        ensures { Lists result self.now }
    {
        self.bits.iter_ones()
    }

    // ---- change

    /// Puts a number in, and answers whether it is new. A refusal leaves the set as it was: no memory has a bit for a
    /// number from `MAX_BITS` on.
    pub fn insert(&mut self, number: usize) -> Result<bool, AllocError>
        ensures ok { OnOk result (self.new ≡ set.insert self.old number) }
        ensures new { IfOk result (λ new. new ≡ not (set.contains self.old number)) }
        ensures err { OnErr result (self.new ≡ self.old) }
    {
        if number >= MAX_BITS {
            return Err(AllocError);
        }
        lengthen(&mut self.bits, number + 1)?;
        Ok(!self.bits.replace(number, true))
    }

    /// Takes a number out, and answers whether it was there.
    pub fn remove(&mut self, number: usize) -> bool
        ensures was { result ≡ set.contains self.old number }
        ensures set { self.new ≡ set.remove self.old number }
    {
        number < self.bits.len() && self.bits.replace(number, false)
    }

    /// Makes each number less by `by`. Those below `by` go.
    pub fn shift_down(&mut self, by: usize)
        ensures { (n : ℕ) → set.contains self.new n ≡ set.contains self.old (n + by) }
    {
        self.bits.shift_left(by);
    }

    // ---- combine

    /// Puts in what another set has. A refusal leaves the set as it was.
    pub fn union_with(&mut self, other: &NumberSet) -> Result<(), AllocError>
        ensures ok { OnOk result (self.new ≡ set.union self.old other.now) }
        ensures err { OnErr result (self.new ≡ self.old) }
    {
        lengthen(&mut self.bits, other.bits.len())?;
        self.bits.or_bits(&other.bits);
        Ok(())
    }

    /// Takes out what another set has not.
    pub fn intersect_with(&mut self, other: &NumberSet)
        ensures { self.new ≡ set.intersection self.old other.now }
    {
        self.bits.and_bits(&other.bits);
    }

    /// Takes out what another set has.
    pub fn difference_with(&mut self, other: &NumberSet)
        ensures { self.new ≡ set.difference self.old other.now }
    {
        // First each of them becomes 1, so that `xor` clears it.
        self.bits.or_bits(&other.bits);
        self.bits.xor_bits(&other.bits);
    }
}

impl Clone for NumberSet {
    ghost is_clone = { λ s copy. copy ≡ s };

    fn clone(&self) -> Result<NumberSet, AllocError> {
        let bits = self.bits.clone()?;
        Ok(NumberSet { bits })
    }
}

// Makes a list of bits at least so long, by zeros.
#[tactic(auto, using(crate::proofs::HeldLemmas::held_calls))]
fn lengthen(bits: &mut BitVec<u64, Lsb0>, len: usize) -> Result<(), AllocError>
    requires { len ≤ MAX_BITS }
    ensures same { held (vec_bits words bits.new) ≡ held (vec_bits words bits.old) }
    ensures long { OnOk result (len ≤ length (vec_bits words bits.new)) }
{
    if bits.len() < len {
        bits.resize(len, false)?;
    }
    Ok(())
}

// The index of the 1 that has so many others before it: half of the bits are counted, and passed or searched.
fn one_at(bits: BitSlice<'_, u64, Lsb0>, ones: usize) -> usize
    requires { ones < count_by (λ b. b) (view_bits words bits) }
    ensures one { slice_index_or (view_bits words bits.entry) result false ≡ true }
    ensures before { count_by (λ b. b) (take result (view_bits words bits.entry)) ≡ ones }
{
    let (mut from, mut len, mut left) = (0, bits.len(), ones);
    while len > 1 {
        let half = len / 2;
        let passed = bits.part(from, half).count_ones();
        if left < passed {
            len = half;
        } else {
            left -= passed;
            from += half;
            len -= half;
        }
    }
    from
}
