//! The narrowest field of a column.

ghost use Rattle.std.specs.Prelude.{◌≡◌, ◌≤◌, ℕ, pos, int_lt, false, length, IfSome, IsNone};
ghost use Rattle.column_table.specs.Widths.{kind_takes, take_both, IsNarrowest, IsNarrowestBetween, IsRange};
ghost use Rattle.column_table.specs.Widths.{NoneTakes};

use std::fmt;

/// What a field holds: numbers with a sign or without one, of 1 to 64 bits.
#[derive(Clone, Copy, Debug, PartialEq, Eq)]
pub struct Kind {
    /// Whether the numbers have a sign.
    pub signed: bool,
    /// How many bits a number has.
    pub width: u32,
}

/// As a layout line has it: `u7`, `i12`.
impl fmt::Display for Kind {
    fn fmt<W: fmt::Write>(&self, f: &mut fmt::Formatter<W>) -> fmt::Result {
        let sign = if self.signed { 'i' } else { 'u' };
        let width = self.width;
        write!(f, "{sign}{width}")
    }
}

impl Kind {
    /// Whether such a field takes a number: 0 to `2^N - 1` without a sign, `-2^(N-1)` to `2^(N-1) - 1` with one.
    pub fn takes(self, number: i128) -> bool
        requires some { 1 ≤ self.width }
        requires few { self.width ≤ 64 }
        ensures { result ≡ kind_takes self number }
    {
        let (least, limit) = if self.signed {
            let half = 1i128 << (self.width - 1);
            (-half, half)
        } else {
            (0, 1i128 << self.width)
        };
        least <= number && number < limit
    }
}

/// The narrowest kind that takes every number of a column: with a sign exactly where one of them is negative. None where
/// no field of 64 bits takes all.
pub fn narrowest(numbers: &[i128]) -> Option<Kind>
    ensures narrowest { IfSome result (λ kind. IsNarrowest kind numbers.now) }
    ensures none { IsNone result → NoneTakes numbers.now }
{
    let (least, greatest) = range_with_0(numbers);
    narrowest_between(least, greatest)
}

// The least and the greatest of the numbers and 0, which each kind takes.
fn range_with_0(numbers: &[i128]) -> (i128, i128)
    ensures { IsRange (length numbers.now) numbers.now result.0 result.1 }
{
    let mut least = 0;
    let mut greatest = 0;
    for number in numbers {
        least = least.min(*number);
        greatest = greatest.max(*number);
    }
    (least, greatest)
}

// The narrowest kind that takes the least number and the greatest.
fn narrowest_between(least: i128, greatest: i128) -> Option<Kind>
    ensures some { IfSome result (λ kind. IsNarrowestBetween kind least greatest) }
    ensures none { IsNone result → (w : ℕ) → 1 ≤ w → w ≤ 64
        → take_both (record { signed = int_lt least (pos 0); width = w }) least greatest ≡ false }
{
    let signed = least < 0;
    for width in 1..65 {
        let kind = Kind { signed, width };
        if kind.takes(least) && kind.takes(greatest) {
            return Some(kind);
        }
    }
    None
}
