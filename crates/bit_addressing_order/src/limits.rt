//! The constants of the types of places and masks, as members of traits: so a contract knows their
//! values.

/// The least and the greatest value of an index, an end or a position.
///
/// In bitvec these are constants of the types themselves; here the trait is in scope where they are
/// named, as in `BitIdx::<u8>::MAX`.
pub trait Limits: Copy {
    ghost MIN: { Self };

    /// The least value, 0.
    const MIN: Self;

    ghost MAX: { Self };

    /// The greatest value: `BITS - 1` of an index or a position, `BITS` of an end.
    const MAX: Self;
}

/// The full and the empty mask.
pub trait AllOrNone: Copy {
    ghost ALL: { Self };

    /// Every position.
    const ALL: Self;

    ghost ZERO: { Self };

    /// No position.
    const ZERO: Self;
}
