//! The end of a range of indices in a word.

ghost use Rattle.std.specs.Prelude.{◌≡◌, ℕ, ◌+◌, ◌-◌, ◌<◌, ◌≤◌, ◌↔◌, IsSome, IfSome};
ghost use Rattle.std.specs.List.{range_with_len};

use crate::index::BitIdx;
use crate::limits::Limits;
use crate::ranges::EndRange;
use crate::register::BitRegister;
use std::marker::{Model, PhantomData};

/// The end of a range of indices, from 0 to `BITS`: it says up to before which index the range
/// goes. A contract sees it as that number.
#[derive_where(Clone, Copy, PartialEq, Eq, PartialOrd, Ord, Hash)]
pub struct BitEnd<R: BitRegister> {
    end: u8,
    #[derive_where(skip)]
    register: PhantomData<R>,
}

impl<R: BitRegister> Model for BitEnd<R> {
    ghost Value = { ℕ };

    ghost view = { λ place. place.end };

    ghost invariant = { λ place. place.end ≤ R.BITS };

    ghost inverse = { λ n. record { end = n; register = record {} } };
}

impl<R: BitRegister> Limits for BitEnd<R> {
    ghost MIN = { 0 };

    const MIN: Self = BitEnd {
        end: 0,
        register: PhantomData,
    };

    ghost MAX = { R.BITS };

    const MAX: Self = BitEnd {
        end: R::BITS,
        register: PhantomData,
    };
}

impl<R: BitRegister> Default for BitEnd<R> {
    ghost is_default = { λ end. end ≡ 0 };

    fn default() -> Self {
        BitEnd::MIN
    }
}

impl<R: BitRegister> BitEnd<R> {
    /// The end of this number, or `None` where it is above `BITS`.
    pub fn new(end: u8) -> Option<BitEnd<R>>
        ensures some { IsSome result ↔ (end ≤ R.BITS) }
        ensures value { IfSome result (λ made. made ≡ end) }
    {
        if end <= R::BITS {
            Some(BitEnd::new_unchecked(end))
        } else {
            None
        }
    }

    /// The end of this number, which is at most `BITS`: the caller shows it, or calls `new`.
    pub fn new_unchecked(end: u8) -> BitEnd<R>
        requires { end ≤ R.BITS }
        ensures { result ≡ end }
    {
        let register = PhantomData;
        BitEnd { end, register }
    }

    /// The number, which is at most `BITS`.
    pub fn into_inner(self) -> u8
        ensures value { result ≡ self }
        ensures within { result ≤ R.BITS }
    {
        self.end
    }

    /// The ends from that of the empty range at `from` to `BITS`, ascending. They come from both
    /// ends.
    pub fn range_from(from: BitIdx<R>) -> EndRange<R>
        ensures { result ≡ range_with_len from (R.BITS + 1 - from) }
    {
        EndRange::new(from.into_inner(), R::BITS + 1)
    }
}
