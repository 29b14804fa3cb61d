//! The words that bits are stored in.

ghost use Rattle.std.specs.Mem.{FitsInMemory};

use bit_addressing_memory::BitRegister;

/// A word that bits are stored in: each of the registers.
///
/// In bitvec its items tell a plain word from a cell or an atomic; here each is a plain word, so it has none.
pub trait BitStore: BitRegister {
    ghost fits: { FitsInMemory Self.row };
}

impl BitStore for u8 {
    ghost use Rattle.std.proofs.Common.{rules};

    ghost fits = { Prim.search rules };
}

impl BitStore for u16 {
    ghost use Rattle.std.proofs.Common.{rules};

    ghost fits = { Prim.search rules };
}

impl BitStore for u32 {
    ghost use Rattle.std.proofs.Common.{rules};

    ghost fits = { Prim.search rules };
}

impl BitStore for u64 {
    ghost use Rattle.std.proofs.Common.{rules};

    ghost fits = { Prim.search rules };
}

impl BitStore for usize {
    ghost use Rattle.std.proofs.Common.{rules};

    ghost fits = { Prim.search rules };
}

impl BitStore for u128 {
    ghost use Rattle.std.proofs.Common.{rules};

    ghost fits = { Prim.search rules };
}
