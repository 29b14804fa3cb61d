//! The texts of places, selectors and masks: binary digits with leading zeros.

ghost use Rattle.std.specs.Prelude.{◌≡◌, ◌+◌, ◌<◌, ◌≤◌, [], ◌∷◌, ◌++◌, Some, codes};
ghost use Rattle.std.specs.Fmt.{WritesOnOk, decimal};
ghost use Rattle.std.specs.Int.{bit_at};
ghost use Rattle.bit_addressing_order.specs.BitIdx.{index_error_text};
ghost use Rattle.bit_addressing_order.specs.Text.{binary_text, debug_text};

use crate::end::BitEnd;
use crate::index::{BitIdx, BitIdxError};
use crate::mask::BitMask;
use crate::position::BitPos;
use crate::register::BitRegister;
use crate::selector::BitSel;
use std::error::Error;
use std::fmt;
use std::marker::PhantomData;

/// `index 8 is not below 8 of u8`: the number, `BITS` and `NAME`.
impl<R: BitRegister> fmt::Display for BitIdxError<R> {
    ghost output = { λ error. Some (index_error_text R.BITS R.name error) };

    fn fmt<W: fmt::Write>(&self, f: &mut fmt::Formatter<W>) -> fmt::Result {
        let index = self.into_inner();
        let bound = Bound::<R>(PhantomData);
        write!(f, "index {index} is not below {bound}")
    }
}

// What an index has to be below: `8 of u8`.
#[derive(Drop)]
struct Bound<R: BitRegister>(PhantomData<R>);

impl<R: BitRegister> fmt::Display for Bound<R> {
    ghost output = { λ _. Some (decimal R.BITS ++ (codes " of " ++ R.name)) };

    fn fmt<W: fmt::Write>(&self, f: &mut fmt::Formatter<W>) -> fmt::Result {
        let bits = R::BITS;
        let name = R::type_name();
        write!(f, "{bits} of {name}")
    }
}

/// `BitIdxError<u8>(8)`.
impl<R: BitRegister> fmt::Debug for BitIdxError<R> {
    ghost debug_output = { λ error. Some (debug_text (codes "BitIdxError<") R.name (decimal error)) };

    fn fmt<W: fmt::Write>(&self, f: &mut fmt::Formatter<W>) -> fmt::Result {
        let name = R::type_name();
        let index = self.into_inner();
        write!(f, "BitIdxError<{name}>({index})")
    }
}

impl<R: BitRegister> Error for BitIdxError<R> {}

/// `INDX` binary digits.
impl<R: BitRegister> fmt::Display for BitIdx<R> {
    ghost output = { λ value. Some (binary_text R.INDX value) };

    fn fmt<W: fmt::Write>(&self, f: &mut fmt::Formatter<W>) -> fmt::Result {
        let index = self.into_inner();
        write_digits(index as u128, R::INDX, f)
    }
}

/// `INDX` binary digits.
impl<R: BitRegister> fmt::Binary for BitIdx<R> {
    fn fmt<W: fmt::Write>(&self, f: &mut fmt::Formatter<W>) -> fmt::Result
        ensures { WritesOnOk W.write_str_gives f.old result (binary_text R.INDX self.now) f.new }
    {
        fmt::Display::fmt(self, f)
    }
}

/// The type, the register's name, and the digits in parentheses.
impl<R: BitRegister> fmt::Debug for BitIdx<R> {
    ghost debug_output = { λ value. Some (debug_text (codes "BitIdx<") R.name (binary_text R.INDX value)) };

    fn fmt<W: fmt::Write>(&self, f: &mut fmt::Formatter<W>) -> fmt::Result {
        let name = R::type_name();
        write!(f, "BitIdx<{name}>({self})")
    }
}

/// `INDX + 1` binary digits.
impl<R: BitRegister> fmt::Display for BitEnd<R> {
    ghost output = { λ value. Some (binary_text (R.INDX + 1) value) };

    fn fmt<W: fmt::Write>(&self, f: &mut fmt::Formatter<W>) -> fmt::Result {
        let end = self.into_inner();
        write_digits(end as u128, R::INDX + 1, f)
    }
}

/// `INDX + 1` binary digits.
impl<R: BitRegister> fmt::Binary for BitEnd<R> {
    fn fmt<W: fmt::Write>(&self, f: &mut fmt::Formatter<W>) -> fmt::Result
        ensures { WritesOnOk W.write_str_gives f.old result (binary_text (R.INDX + 1) self.now) f.new }
    {
        fmt::Display::fmt(self, f)
    }
}

/// The type, the register's name, and the digits in parentheses.
impl<R: BitRegister> fmt::Debug for BitEnd<R> {
    ghost debug_output = { λ value. Some (debug_text (codes "BitEnd<") R.name (binary_text (R.INDX + 1) value)) };

    fn fmt<W: fmt::Write>(&self, f: &mut fmt::Formatter<W>) -> fmt::Result {
        let name = R::type_name();
        write!(f, "BitEnd<{name}>({self})")
    }
}

/// `INDX` binary digits.
impl<R: BitRegister> fmt::Display for BitPos<R> {
    ghost output = { λ value. Some (binary_text R.INDX value) };

    fn fmt<W: fmt::Write>(&self, f: &mut fmt::Formatter<W>) -> fmt::Result {
        let position = self.into_inner();
        write_digits(position as u128, R::INDX, f)
    }
}

/// `INDX` binary digits.
impl<R: BitRegister> fmt::Binary for BitPos<R> {
    fn fmt<W: fmt::Write>(&self, f: &mut fmt::Formatter<W>) -> fmt::Result
        ensures { WritesOnOk W.write_str_gives f.old result (binary_text R.INDX self.now) f.new }
    {
        fmt::Display::fmt(self, f)
    }
}

/// The type, the register's name, and the digits in parentheses.
impl<R: BitRegister> fmt::Debug for BitPos<R> {
    ghost debug_output = { λ value. Some (debug_text (codes "BitPos<") R.name (binary_text R.INDX value)) };

    fn fmt<W: fmt::Write>(&self, f: &mut fmt::Formatter<W>) -> fmt::Result {
        let name = R::type_name();
        write!(f, "BitPos<{name}>({self})")
    }
}

/// `BITS` binary digits.
impl<R: BitRegister> fmt::Display for BitSel<R> {
    ghost output = { λ value. Some (binary_text R.BITS (R.number value)) };

    fn fmt<W: fmt::Write>(&self, f: &mut fmt::Formatter<W>) -> fmt::Result {
        let selected = self.into_inner();
        write_digits(selected.value(), R::BITS, f)
    }
}

/// `BITS` binary digits.
impl<R: BitRegister> fmt::Binary for BitSel<R> {
    fn fmt<W: fmt::Write>(&self, f: &mut fmt::Formatter<W>) -> fmt::Result
        ensures { WritesOnOk W.write_str_gives f.old result (binary_text R.BITS (R.number self.now)) f.new }
    {
        fmt::Binary::fmt(&self.mask(), f)
    }
}

/// The type, the register's name, and the digits in parentheses.
impl<R: BitRegister> fmt::Debug for BitSel<R> {
    ghost debug_output = { λ value. Some (debug_text (codes "BitSel<") R.name (binary_text R.BITS (R.number value))) };

    fn fmt<W: fmt::Write>(&self, f: &mut fmt::Formatter<W>) -> fmt::Result {
        let name = R::type_name();
        write!(f, "BitSel<{name}>({self})")
    }
}

/// `BITS` binary digits.
impl<R: BitRegister> fmt::Display for BitMask<R> {
    ghost output = { λ value. Some (binary_text R.BITS (R.number value)) };

    fn fmt<W: fmt::Write>(&self, f: &mut fmt::Formatter<W>) -> fmt::Result {
        let word = self.into_inner();
        write_digits(word.value(), R::BITS, f)
    }
}

/// `BITS` binary digits.
impl<R: BitRegister> fmt::Binary for BitMask<R> {
    fn fmt<W: fmt::Write>(&self, f: &mut fmt::Formatter<W>) -> fmt::Result
        ensures { WritesOnOk W.write_str_gives f.old result (binary_text R.BITS (R.number self.now)) f.new }
    {
        fmt::Display::fmt(self, f)
    }
}

/// The type, the register's name, and the digits in parentheses.
impl<R: BitRegister> fmt::Debug for BitMask<R> {
    ghost debug_output = { λ value. Some (debug_text (codes "BitMask<") R.name (binary_text R.BITS (R.number value))) };

    fn fmt<W: fmt::Write>(&self, f: &mut fmt::Formatter<W>) -> fmt::Result {
        let name = R::type_name();
        write!(f, "BitMask<{name}>({self})")
    }
}

// The lowest digits of a number, `count` of them, the highest first.
fn write_digits<W: fmt::Write>(value: u128, count: u8, f: &mut fmt::Formatter<W>) -> fmt::Result
    requires { count ≤ 128 }
    ensures { WritesOnOk W.write_str_gives f.old result (binary_text count value) f.new }
{
    let mut left = count;
    while left > 0 {
        left -= 1;
        f.write_str(digit_text(value, left))?;
    }
    Ok(())
}

// One digit.
#[tactic(auto, using(std::proofs::lemmas::Nat::Bits::shr_and_one))]
fn digit_text(value: u128, position: u8) -> &'static str
    requires { position < 128 }
    ensures { result.now ≡ (48 + bit_at value position) ∷ [] }
{
    if (value >> position) & 1 == 1 {
        "1"
    } else {
        "0"
    }
}
