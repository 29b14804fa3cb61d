//! Whether a candidate is a lawful order at every register.

ghost use Rattle.std.specs.Prelude.{[], ◌∷◌};
ghost use Rattle.bit_addressing_verify.specs.WordFault.{candidate, VerifiesEach};

use crate::check::verify_for_type;
use crate::fault::WordFault;
use bit_addressing_order::{OrderCandidate, Positions};

/// Whether the candidate is lawful at words of every register: `Ok` exactly where it is, else the
/// first fault of the first register at which it is not. The registers come from `u8` to `usize`,
/// `u128` last, each checked as `verify_for_type` does. In bitvec the call panics at the first fault.
pub fn verify<
    C: OrderCandidate<u8>
        + OrderCandidate<u16>
        + OrderCandidate<u32>
        + OrderCandidate<u64>
        + OrderCandidate<usize>
        + OrderCandidate<u128>,
>() -> Result<(), WordFault>
    ensures { let of_u8 = candidate 8
        ⟦<C as Positions<u8>>⟧.position
        ⟦<C as OrderCandidate<u8>>⟧.selector
        ⟦<C as OrderCandidate<u8>>⟧.masked in
        let of_u16 = candidate 16
        ⟦<C as Positions<u16>>⟧.position
        ⟦<C as OrderCandidate<u16>>⟧.selector
        ⟦<C as OrderCandidate<u16>>⟧.masked in
        let of_u32 = candidate 32
        ⟦<C as Positions<u32>>⟧.position
        ⟦<C as OrderCandidate<u32>>⟧.selector
        ⟦<C as OrderCandidate<u32>>⟧.masked in
        let of_u64 = candidate 64
        ⟦<C as Positions<u64>>⟧.position
        ⟦<C as OrderCandidate<u64>>⟧.selector
        ⟦<C as OrderCandidate<u64>>⟧.masked in
        let of_usize = candidate 64
        ⟦<C as Positions<usize>>⟧.position
        ⟦<C as OrderCandidate<usize>>⟧.selector
        ⟦<C as OrderCandidate<usize>>⟧.masked in
        let of_u128 = candidate 128
        ⟦<C as Positions<u128>>⟧.position
        ⟦<C as OrderCandidate<u128>>⟧.selector
        ⟦<C as OrderCandidate<u128>>⟧.masked in
        VerifiesEach result (of_u8 ∷ of_u16 ∷ of_u32 ∷ of_u64 ∷ of_usize ∷ of_u128 ∷ []) }
{
    verify_for_type::<u8, C>().map_err(WordFault::U8)?;
    verify_for_type::<u16, C>().map_err(WordFault::U16)?;
    verify_for_type::<u32, C>().map_err(WordFault::U32)?;
    verify_for_type::<u64, C>().map_err(WordFault::U64)?;
    verify_for_type::<usize, C>().map_err(WordFault::Usize)?;
    verify_for_type::<u128, C>().map_err(WordFault::U128)?;
    Ok(())
}
