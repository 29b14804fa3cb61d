//! The tests of numbers.
ghost use Rattle.std.specs.Prelude.{◌≡◌};
ghost use Rattle.bit_table_commands.specs.Marks.{passes};

/// How a number is compared with a value.
#[derive(Clone, Copy, Debug, PartialEq, Eq)]
pub enum Test {
    /// `<`: it is less.
    Below,
    /// `=`: it is the same number.
    Equal,
    /// `>`: it is greater.
    Above,
}

impl Test {
    /// Whether a number compares so with a value.
    #[inline(always)]
    pub fn passes(self, number: i128, value: i128) -> bool
        ensures { result ≡ passes self number value }
    {
        match self {
            Test::Below => number < value,
            Test::Equal => number == value,
            Test::Above => number > value,
        }
    }
}
