//! What two bits make, as a type: a walk has it as a constant, and asks nothing of each chunk.

ghost use Rattle.bit_slice_chunks.specs.declared.combination.Combination.{Combination};
ghost use Rattle.bit_slice_chunks.specs.declared.combination.Combination.TheVariants.{And, Or, Take, Xor};

use bit_slice_chunks::Combination;

/// What two bits make.
pub trait Combining {
    ghost HOW: { Combination };

    /// The same as a value.
    const HOW: Combination;
}

/// The other one: a copy.
pub struct CopyOp;

impl Combining for CopyOp {
    ghost HOW = { Take };

    const HOW: Combination = Combination::Take;
}

/// A 1 where both are.
pub struct AndOp;

impl Combining for AndOp {
    ghost HOW = { And };

    const HOW: Combination = Combination::And;
}

/// A 1 where one of them is.
pub struct OrOp;

impl Combining for OrOp {
    ghost HOW = { Or };

    const HOW: Combination = Combination::Or;
}

/// A 1 where they differ.
pub struct XorOp;

impl Combining for XorOp {
    ghost HOW = { Xor };

    const HOW: Combination = Combination::Xor;
}
