//! The texts of a window.

use std::alloc::{AllocError, Global};
use std::fmt;

// The numbers that a window is written in.
#[derive(Clone, Copy)]
enum Digits {
    Binary,
    Octal,
    LowerHex,
    UpperHex,
}

// A window in groups of bits: the holes of a format string take integers alone.
#[derive(Drop)]
struct InDigits<'a, T> {
    shown: &'a T,
    digits: Digits,
}

impl<'a, T: fmt::Binary + fmt::Octal + fmt::LowerHex + fmt::UpperHex> fmt::Display
    for InDigits<'a, T> {
    fn fmt<W: fmt::Write>(&self, f: &mut fmt::Formatter<W>) -> fmt::Result {
        match self.digits {
            Digits::Binary => fmt::Binary::fmt(self.shown, f),
            Digits::Octal => fmt::Octal::fmt(self.shown, f),
            Digits::LowerHex => fmt::LowerHex::fmt(self.shown, f),
            Digits::UpperHex => fmt::UpperHex::fmt(self.shown, f),
        }
    }
}

/// The six texts of a window.
pub fn show<
    T: fmt::Display + fmt::Debug + fmt::Binary + fmt::Octal + fmt::LowerHex + fmt::UpperHex,
>(alloc: Global, shown: &T) -> Result<String, AllocError> {
    let binary = InDigits {
        shown,
        digits: Digits::Binary,
    };
    let octal = InDigits {
        shown,
        digits: Digits::Octal,
    };
    let lower = InDigits {
        shown,
        digits: Digits::LowerHex,
    };
    let upper = InDigits {
        shown,
        digits: Digits::UpperHex,
    };
    format!(in alloc; "{shown} {shown:?} {binary} {octal} {lower} {upper}")
}
