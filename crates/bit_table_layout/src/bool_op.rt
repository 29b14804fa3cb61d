//! What two bits make.
ghost use Rattle.std.specs.Prelude.{◌≡◌};
ghost use Rattle.bit_table_layout.specs.Letters.{combined};

/// An operation on two bits.
#[derive(Clone, Copy, Debug, PartialEq, Eq)]
pub enum BoolOp {
    /// Both.
    And,
    /// One at least.
    Or,
    /// Exactly one.
    Xor,
}

impl BoolOp {
    /// What the operation makes of two bits.
    pub fn combine(self, one: bool, other: bool) -> bool
        ensures { result ≡ combined self one other }
    {
        match self {
            BoolOp::And => one && other,
            BoolOp::Or => one || other,
            BoolOp::Xor => one != other,
        }
    }
}
