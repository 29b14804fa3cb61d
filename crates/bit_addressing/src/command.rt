//! What a runner is told to do with one span, and what it answers.

/// What a runner does with one span. Words and bits are counted from the span's first one; of a word only
/// the bits in the span are read and written.
#[derive(Clone, Copy, PartialEq, Eq, Debug)]
pub enum SpanCommand<R> {
    /// Reads the word of this number.
    Load(usize),
    /// Writes the word of this number, and answers what it was.
    Store(usize, R),
    /// Makes each bit of the word of this number 1, and answers what it was.
    Set(usize),
    /// Makes each bit of the word of this number 0, and answers what it was.
    Clear(usize),
    /// Flips each bit of the word of this number, and answers what it was.
    Invert(usize),
    /// Reads the bit of this number.
    Read(usize),
    /// Writes the bit of this number, and answers what it was.
    Replace(usize, bool),
    /// Exchanges the bits of these two numbers, which may be the same.
    Swap(usize, usize),
    /// Copies the bits from the first number on to those from the second number on, so many as the third
    /// says. The two stretches may overlap: what is copied is the bits as they were.
    Copy(usize, usize, usize),
}

/// What a runner answers to one command.
#[derive(Clone, Copy, PartialEq, Eq, Debug)]
pub enum SpanReply<R> {
    /// A word as it was before the command, each bit outside the span read as zero.
    Word(R),
    /// A bit as it was before the command.
    Bit(bool),
    /// The bits are exchanged or copied.
    Done,
    /// A number of the command is out of range, and nothing changed.
    Refused,
}
