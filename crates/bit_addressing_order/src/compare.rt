//! How selectors and masks compare and hash: as the numbers of their words.

ghost use Rattle.std.specs.Prelude.{◌==◌};
ghost use Rattle.std.proofs.Common.{rules};
ghost use Rattle.std.specs.Cmp.{partial_order_from_own_ties};
ghost use Rattle.std.specs.Cmp.Rules.{comparing, hashing};
ghost use Rattle.std.specs.Hash as fed;
ghost use Rattle.std.specs.Ordering.{nat_cmp, on, as_partial_cmp};

use crate::mask::BitMask;
use crate::register::BitRegister;
use crate::selector::BitSel;
use std::cmp::Ordering;
use std::hash::{Hash, Hasher};

impl<R: BitRegister> PartialEq for BitSel<R> {
    ghost eq = { on R.number ◌==◌ };

    ghost laws = { Prim.search (comparing, rules) };

    fn eq(&self, other: &BitSel<R>) -> bool {
        self.into_inner().equals(other.into_inner())
    }
}

impl<R: BitRegister> Eq for BitSel<R> {
    ghost laws = { Prim.search (comparing, rules) };
}

impl<R: BitRegister> PartialOrd for BitSel<R> {
    ghost partial_cmp = { as_partial_cmp (on R.number nat_cmp) };

    ghost laws = { partial_order_from_own_ties (Prim.search (comparing, rules)) (Prim.search (comparing, rules)) };

    fn partial_cmp(&self, other: &BitSel<R>) -> Option<Ordering> {
        Some(self.cmp(other))
    }
}

impl<R: BitRegister> Ord for BitSel<R> {
    ghost cmp = { on R.number nat_cmp };

    ghost total = { Prim.search (comparing, rules) };

    ghost matches_partial_cmp = { Prim.search (comparing, rules) };

    ghost matches_eq = { Prim.search (comparing, rules) };

    fn cmp(&self, other: &BitSel<R>) -> Ordering {
        self.into_inner().compare(other.into_inner())
    }
}

impl<R: BitRegister> Hash for BitSel<R> {
    ghost hash_input = { λ word. fed.u128 (R.number word) };

    ghost respects_eq = { Prim.search (hashing, rules) };

    fn hash<H: Hasher>(&self, state: &mut H) {
        let selected = self.into_inner().value();
        selected.hash(state);
    }
}

impl<R: BitRegister> PartialEq for BitMask<R> {
    ghost eq = { on R.number ◌==◌ };

    ghost laws = { Prim.search (comparing, rules) };

    fn eq(&self, other: &BitMask<R>) -> bool {
        self.into_inner().equals(other.into_inner())
    }
}

impl<R: BitRegister> Eq for BitMask<R> {
    ghost laws = { Prim.search (comparing, rules) };
}

impl<R: BitRegister> PartialOrd for BitMask<R> {
    ghost partial_cmp = { as_partial_cmp (on R.number nat_cmp) };

    ghost laws = { partial_order_from_own_ties (Prim.search (comparing, rules)) (Prim.search (comparing, rules)) };

    fn partial_cmp(&self, other: &BitMask<R>) -> Option<Ordering> {
        Some(self.cmp(other))
    }
}

impl<R: BitRegister> Ord for BitMask<R> {
    ghost cmp = { on R.number nat_cmp };

    ghost total = { Prim.search (comparing, rules) };

    ghost matches_partial_cmp = { Prim.search (comparing, rules) };

    ghost matches_eq = { Prim.search (comparing, rules) };

    fn cmp(&self, other: &BitMask<R>) -> Ordering {
        self.into_inner().compare(other.into_inner())
    }
}

impl<R: BitRegister> Hash for BitMask<R> {
    ghost hash_input = { λ word. fed.u128 (R.number word) };

    ghost respects_eq = { Prim.search (hashing, rules) };

    fn hash<H: Hasher>(&self, state: &mut H) {
        let positions = self.into_inner().value();
        positions.hash(state);
    }
}
