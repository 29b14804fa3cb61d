//! Whether a candidate is a lawful order.

ghost use Rattle.std.specs.Prelude.{◌≡◌, ℕ, ◌+◌, ◌-◌, ◌^◌, ◌<◌, ◌≤◌, ◌↔◌, IsOk, IfErr, IsTrue, MatchResult};
ghost use Rattle.bit_addressing_order.specs.BitOrder.{lower, upper, mask_from, masks_from, IsLawful};
ghost use Rattle.bit_addressing_verify.specs.OrderFault.{AreGoodIndices, IsGoodIndex, IsGoodMask, IsGoodRow};
ghost use Rattle.bit_addressing_verify.specs.OrderFault.{AreGoodRows, AreGoodEnds, AreGoodStarts, IsFirstFault};
ghost use Rattle.bit_addressing_verify.specs.VerifySteps.{AreWithin, IsIndexFault, IsRowFault};
ghost use Rattle.bit_addressing_verify.specs.VerifySteps.{IsPairFault, IsEndFault, IsStartFault};

use crate::fault::OrderFault;
use bit_addressing_order::{BitEnd, BitIdx, BitRegister, OrderCandidate, mask_from_at};

/// Whether the candidate is lawful at words of this register: `Ok` exactly where it is, else the
/// first law that it breaks.
///
/// For each index, ascending: that its selector is its position alone, then that no index below has
/// that position. Then the masks: between each two present bounds, the first ascending and for each
/// the second ascending; then up to each end with no first bound; then from each index with no
/// second bound; then with neither. In bitvec the call is told whether to print, and panics at the
/// first fault.
#[tactic(auto, using(crate::proofs::VerifyLemmas::verdicts))]
pub fn verify_for_type<R: BitRegister, C: OrderCandidate<R>>() -> Result<(), OrderFault<R>>
    ensures lawful { IsOk result ↔ IsLawful R.BITS C.position C.selector C.masked }
    ensures fault { IfErr result (IsFirstFault R.BITS C.position C.selector C.masked) }
{
    verify_indices::<R, C>()?;
    verify_pairs::<R, C>()?;
    verify_ends::<R, C>()?;
    verify_starts::<R, C>()?;
    if verify_mask::<R, C>(None, None) {
        Ok(())
    } else {
        Err(OrderFault::Mask(None, None))
    }
}

// The first fault of the indices, ascending.
#[tactic(auto, using(crate::proofs::VerifyLemmas::indices_so_far))]
fn verify_indices<R: BitRegister, C: OrderCandidate<R>>() -> Result<(), OrderFault<R>>
    ensures { MatchResult result
        (λ _. AreGoodIndices C.position C.selector R.BITS × AreWithin R.BITS C.position R.BITS)
        (λ fault. IsFirstFault R.BITS C.position C.selector C.masked fault) }
{
    let mut met = R::ZERO;
    for index in 0..R::BITS {
        met = verify_index::<R, C>(BitIdx::new_unchecked(index), met)?;
    }
    Ok(())
}

// The fault of one index, or the positions met with its own: `met` has those of the indices below.
#[tactic(auto, using(crate::proofs::VerifyLemmas::index_steps))]
fn verify_index<R: BitRegister, C: OrderCandidate<R>>(
    index: BitIdx<R>,
    met: R,
) -> Result<R, OrderFault<R>>
    requires { R.number met ≡ mask_from C.position 0 index }
    ensures { MatchResult result
        (λ all. (R.number all ≡ mask_from C.position 0 (index + 1))
        × IsGoodIndex C.position C.selector index
        × (C.position index < R.BITS))
        (λ fault. IsIndexFault C.position C.selector index fault) }
{
    let position = C::at(index).select().into_inner();
    let selected = C::select(index).into_inner();
    if !selected.equals(position) {
        return Err(OrderFault::Selector(index));
    }
    if !met.and(position).equals(R::ZERO) {
        return Err(OrderFault::Repeated(index));
    }
    Ok(met.or(position))
}

// The first fault of the masks between each two present bounds.
#[tactic(auto, using(crate::proofs::VerifyLemmas::masks_so_far))]
fn verify_pairs<R: BitRegister, C: OrderCandidate<R>>() -> Result<(), OrderFault<R>>
    ensures { MatchResult result
        (λ _. AreGoodRows R.BITS C.position C.masked R.BITS)
        (λ fault. IsPairFault R.BITS C.position C.masked fault) }
{
    for from in 0..R::BITS {
        verify_row::<R, C>(BitIdx::new_unchecked(from))?;
    }
    Ok(())
}

// The first fault of the masks from one index up to each end.
#[tactic(auto, using(crate::proofs::VerifyLemmas::masks_so_far))]
fn verify_row<R: BitRegister, C: OrderCandidate<R>>(from: BitIdx<R>) -> Result<(), OrderFault<R>>
    ensures { MatchResult result
        (λ _. IsGoodRow R.BITS C.position C.masked from (R.BITS + 1))
        (λ fault. IsRowFault R.BITS C.position C.masked from fault) }
{
    for end in from.into_inner()..R::BITS + 1 {
        let upto = BitEnd::new_unchecked(end);
        if !verify_mask::<R, C>(Some(from), Some(upto)) {
            return Err(OrderFault::Mask(Some(from), Some(upto)));
        }
    }
    Ok(())
}

// The first fault of the masks up to each end with no first bound.
#[tactic(auto, using(crate::proofs::VerifyLemmas::masks_so_far))]
fn verify_ends<R: BitRegister, C: OrderCandidate<R>>() -> Result<(), OrderFault<R>>
    ensures { MatchResult result
        (λ _. AreGoodEnds R.BITS C.position C.masked (R.BITS + 1))
        (λ fault. IsEndFault R.BITS C.position C.masked fault) }
{
    for end in 0..R::BITS + 1 {
        let upto = BitEnd::new_unchecked(end);
        if !verify_mask::<R, C>(None, Some(upto)) {
            return Err(OrderFault::Mask(None, Some(upto)));
        }
    }
    Ok(())
}

// The first fault of the masks from each index with no second bound.
#[tactic(auto, using(crate::proofs::VerifyLemmas::masks_so_far))]
fn verify_starts<R: BitRegister, C: OrderCandidate<R>>() -> Result<(), OrderFault<R>>
    ensures { MatchResult result
        (λ _. AreGoodStarts R.BITS C.position C.masked R.BITS)
        (λ fault. IsStartFault R.BITS C.position C.masked fault) }
{
    for index in 0..R::BITS {
        let from = BitIdx::new_unchecked(index);
        if !verify_mask::<R, C>(Some(from), None) {
            return Err(OrderFault::Mask(Some(from), None));
        }
    }
    Ok(())
}

// Whether one mask has exactly the digits of its indices.
fn verify_mask<R: BitRegister, C: OrderCandidate<R>>(
    from: Option<BitIdx<R>>,
    upto: Option<BitEnd<R>>,
) -> bool
    requires { lower from ≤ upper R.BITS upto }
    ensures { IsTrue result ↔ IsGoodMask R.BITS C.position C.masked from upto }
{
    let wanted = wanted_mask::<R, C>(&from, &upto);
    C::mask(from, upto).into_inner().equals(wanted)
}

// The mask between two bounds, made index by index.
fn wanted_mask<R: BitRegister, C: OrderCandidate<R>>(
    from: &Option<BitIdx<R>>,
    upto: &Option<BitEnd<R>>,
) -> R
    requires { lower from.now ≤ upper R.BITS upto.now }
    ensures { R.number result ≡ masks_from R.BITS C.position from.now upto.now }
{
    let first = from.as_ref().map(|index| index.into_inner());
    let end = upto.as_ref().map(|end| end.into_inner());
    mask_from_at::<R, C>(first, end)
}
