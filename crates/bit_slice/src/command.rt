//! What a runner is told to do with a window, and what it answers.

ghost use Rattle.std.specs.Prelude.{◌≡◌};
ghost use Rattle.bit_slice.specs.Commands.{is_in_range};

use bit_slice_views::Bits;

/// What a runner does with a window. Indices are counted from the window's first bit; `W` is the type of the right
/// sides, for `run_window` a shared window of the same words and order.
#[derive(Clone, Copy)]
pub enum WindowCommand<W> {
    /// Makes the bit of this index the given one.
    Set(usize, bool),
    /// Makes the bit of this index the given one, and answers what it was.
    Replace(usize, bool),
    /// Exchanges the bits of these two indices, which may be the same.
    Swap(usize, usize),
    /// Makes each bit the given one.
    Fill(bool),
    /// Turns the bits round.
    Reverse,
    /// Moves each bit so many places towards the first one; the first become the last.
    RotateLeft(usize),
    /// Moves each bit so many places towards the last one; the last become the first.
    RotateRight(usize),
    /// Copies the bits from the first index up to before the second one to those from the third index on, overlap
    /// allowed.
    CopyWithin(usize, usize, usize),
    /// Makes the bits those of another window as long.
    CopyFrom(W),
    /// Makes each bit what it and the other's bit are both; where the other window is shorter, it counts as zeros.
    And(W),
    /// Makes each bit what it or the other's bit is.
    Or(W),
    /// Makes each bit whether it and the other's bit differ.
    Xor(W),
    /// Flips each bit.
    Not,
    /// Answers how many bits are 1.
    CountOnes,
    /// Answers the index of the first bit that is 1.
    FirstOne,
    /// Answers the index of the last bit that is 1.
    LastOne,
    /// Answers whether the other window has the same list of bits.
    Equal(W),
    /// Answers the bit of this index.
    Read(usize),
}

/// What a runner answers to one command.
#[derive(Clone, Copy, PartialEq, Eq, Debug)]
pub enum WindowReply {
    /// The command is carried out.
    Done,
    /// A bit as it was before the command, or whether two windows are equal.
    Bit(bool),
    /// How many bits are 1.
    Count(usize),
    /// The index of a bit, where there is one.
    Place(Option<usize>),
    /// An index or a length of the command is out of range, and nothing changed.
    Refused,
}

impl<W: Bits> WindowCommand<W> {
    /// Whether the indices and lengths of the command are in range at a window of `len` bits.
    pub fn is_in_range(&self, len: usize) -> bool
        ensures { result ≡ is_in_range W.bits len self.now }
    {
        match self {
            WindowCommand::Set(i, _) | WindowCommand::Replace(i, _) | WindowCommand::Read(i) => {
                *i < len
            }
            WindowCommand::Swap(i, j) => *i < len && *j < len,
            WindowCommand::RotateLeft(by) | WindowCommand::RotateRight(by) => *by <= len,
            WindowCommand::CopyWithin(from, upto, dest) => {
                *from <= *upto && *upto <= len && *dest <= len && *upto - *from <= len - *dest
            }
            WindowCommand::CopyFrom(other) => other.len() == len,
            _ => true,
        }
    }
}
