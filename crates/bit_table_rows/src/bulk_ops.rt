//! From how many bits on the work of a table goes many bits at a time: here alone, and for speed alone, since no result
//! depends on it.

use bit_addressing_memory::{BitOrder, BitRegister, direction_of, limit_by_order};

/// What is done with rows and letters, each kind with a cost of its own.
#[derive(Clone, Copy, PartialEq, Eq, Debug)]
pub enum RowOp {
    /// Rows are kept, each run of them at once.
    Keep,
    /// Rows are marked by their numbers.
    Mark,
    /// The rows of a letter are listed.
    List,
}

/// Up to how many bits, or rows, an operation goes one by one: all, if neither the positions go straight with the indices
/// nor the order says that the bits of a word are reordered quickly.
// In instructions, of n rows of `u64` under `Lsb0`: rows marked 75 n and 500 + 40 n, in any order, since the results of many
// rows are stored at once. The limits of rows that are kept and listed have no count here.
#[inline(always)]
pub fn row_loop_limit<R: BitRegister, O: BitOrder<R>>(op: RowOp) -> usize {
    match op {
        RowOp::Keep => limit_by_order::<R, O>(8, 16),
        RowOp::Mark => if direction_of::<R, O>().is_some() && R::BITS > 8 {
            3
        } else {
            8
        },
        RowOp::List => limit_by_order::<R, O>(16, 64),
    }
}
