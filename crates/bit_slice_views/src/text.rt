//! The texts of windows: groups of bits from the front, each as one digit, in brackets, a comma and a space between
//! two.

ghost use Rattle.std.specs.Prelude.{◌≡◌, ◌<◌, ◌≤◌, true, false, length, Some};
ghost use Rattle.std.specs.Fmt.{WritesOnOk, digits};
ghost use Rattle.bit_addressing_memory.specs.Memory.{piece, read_by};
ghost use Rattle.bit_addressing_span.specs.Texts.{between, joined_text};
ghost use Rattle.bit_slice_views.specs.Texts.{bits_text, groups, groups_text, number_of};
ghost use Rattle.bit_slice_views.specs.View.{view_bits};

use crate::bits::Bits;
use crate::view::BitSlice;
use bit_addressing_memory::{BitOrder, BitRegister};
use std::fmt;

/// Writes each bit as a digit, in brackets, a comma and a space between two, as `[0, 1, 1]`: the plain and the binary
/// text of what shows bits.
pub fn write_bits<V: Bits, W: fmt::Write>(view: &V, f: &mut fmt::Formatter<W>) -> fmt::Result
    ensures { WritesOnOk W.write_str_gives f.old result (bits_text (V.bits view.now)) f.new }
{
    write_groups(view, 1, false, f)
}

/// Writes the bits in groups of so many from the front, the last group possibly shorter: each as one hexadecimal digit,
/// its first bit highest, in brackets, a comma and a space between two.
///
/// Groups of 3 and of 4 bits are the octal and the hexadecimal text of what shows bits.
pub fn write_groups<V: Bits, W: fmt::Write>(
    view: &V,
    size: usize,
    upper: bool,
    f: &mut fmt::Formatter<W>,
) -> fmt::Result
    requires some { 0 < size }
    requires small { size ≤ 4 }
    ensures { WritesOnOk W.write_str_gives f.old result (groups_text size upper (V.bits view.now)) f.new }
{
    f.write_str("[")?;
    write_digits(view, size, upper, f)?;
    f.write_str("]")
}

// The digits, without the brackets.
#[tactic(auto, using(crate::proofs::TextLemmas::group_within))]
fn write_digits<V: Bits, W: fmt::Write>(
    view: &V,
    size: usize,
    upper: bool,
    f: &mut fmt::Formatter<W>,
) -> fmt::Result
    requires some { 0 < size }
    requires small { size ≤ 4 }
    ensures { WritesOnOk W.write_str_gives f.old result
        (joined_text (digits 16 upper) false (groups size (V.bits view.now))) f.new }
{
    let mut begun = false;
    for j in 0..view.len().div_ceil(size) {
        write_between(begun, f)?;
        write_digit(group_at(view, j * size, size), upper, f)?;
        begun = true;
    }
    Ok(())
}

// What stands between two digits.
fn write_between<W: fmt::Write>(begun: bool, f: &mut fmt::Formatter<W>) -> fmt::Result
    ensures { WritesOnOk W.write_str_gives f.old result (between begun) f.new }
{
    if begun { f.write_str(", ") } else { Ok(()) }
}

// One digit.
fn write_digit<W: fmt::Write>(number: u8, upper: bool, f: &mut fmt::Formatter<W>) -> fmt::Result
    ensures { WritesOnOk W.write_str_gives f.old result (digits 16 upper number) f.new }
{
    if upper {
        write!(f, "{number:X}")
    } else {
        write!(f, "{number:x}")
    }
}

// The number of the group of `size` bits from one on, or of those that are left.
fn group_at<V: Bits>(view: &V, from: usize, size: usize) -> u8
    requires within { from ≤ length (V.bits view.now) }
    requires small { size ≤ 4 }
    ensures { result ≡ number_of (piece (V.bits view.now) from size) }
{
    let mut number = 0u8;
    for i in 0..size.min(view.len() - from) {
        number = 2 * number + u8::from(view.bit(from + i));
    }
    number
}

impl<T: BitRegister, O: BitOrder<T>> fmt::Display for BitSlice<'_, T, O> {
    ghost output = { λ view. Some (bits_text (view_bits (read_by T.BitRegister O.position) view)) };

    fn fmt<W: fmt::Write>(&self, f: &mut fmt::Formatter<W>) -> fmt::Result {
        write_bits(self, f)
    }
}

impl<T: BitRegister, O: BitOrder<T>> fmt::Debug for BitSlice<'_, T, O> {
    ghost debug_output = { λ view. Some (bits_text (view_bits (read_by T.BitRegister O.position) view)) };

    fn fmt<W: fmt::Write>(&self, f: &mut fmt::Formatter<W>) -> fmt::Result {
        fmt::Display::fmt(self, f)
    }
}

impl<T: BitRegister, O: BitOrder<T>> fmt::Binary for BitSlice<'_, T, O> {
    fn fmt<W: fmt::Write>(&self, f: &mut fmt::Formatter<W>) -> fmt::Result
        ensures { WritesOnOk W.write_str_gives f.old result
            (bits_text (view_bits (read_by T.BitRegister O.position) self.now)) f.new }
    {
        fmt::Debug::fmt(self, f)
    }
}

impl<T: BitRegister, O: BitOrder<T>> fmt::Octal for BitSlice<'_, T, O> {
    fn fmt<W: fmt::Write>(&self, f: &mut fmt::Formatter<W>) -> fmt::Result
        ensures { WritesOnOk W.write_str_gives f.old result
            (groups_text 3 false (view_bits (read_by T.BitRegister O.position) self.now)) f.new }
    {
        write_groups(self, 3, false, f)
    }
}

impl<T: BitRegister, O: BitOrder<T>> fmt::LowerHex for BitSlice<'_, T, O> {
    fn fmt<W: fmt::Write>(&self, f: &mut fmt::Formatter<W>) -> fmt::Result
        ensures { WritesOnOk W.write_str_gives f.old result
            (groups_text 4 false (view_bits (read_by T.BitRegister O.position) self.now)) f.new }
    {
        write_groups(self, 4, false, f)
    }
}

impl<T: BitRegister, O: BitOrder<T>> fmt::UpperHex for BitSlice<'_, T, O> {
    fn fmt<W: fmt::Write>(&self, f: &mut fmt::Formatter<W>) -> fmt::Result
        ensures { WritesOnOk W.write_str_gives f.old result
            (groups_text 4 true (view_bits (read_by T.BitRegister O.position) self.now)) f.new }
    {
        write_groups(self, 4, true, f)
    }
}
