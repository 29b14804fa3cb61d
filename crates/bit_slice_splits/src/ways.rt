//! How a list is split where a predicate answers true: which indices are tried, and what comes off then.

ghost use Rattle.std.specs.Prelude.{◌≡◌, ℕ, ◌+◌, ◌-◌, ◌<◌, ◌≤◌, Bool, true, false};
ghost use Rattle.bit_slice_splits.specs.Ways.{SplitWay, from_front, from_back, inclusive_front, inclusive_back};

/// What comes off of a list, and what is left of it.
#[derive(Clone, Copy)]
pub struct Parting {
    /// Where the part that comes off begins.
    pub start: usize,
    /// How long it is.
    pub len: usize,
    /// Where what is left begins.
    pub rest: usize,
    /// How long that is.
    pub rest_len: usize,
    /// Whether it was the last part, so that nothing comes any more.
    pub last: bool,
}

/// A way to take a part off one end of a list: each kind of splits has one for either end.
pub trait SplitEnd {
    ghost way: { SplitWay };

    ghost IS_INCLUSIVE: { Bool };

    /// Whether the bit at a cut stays with a part, so that of a list with bits each part has some.
    const IS_INCLUSIVE: bool;

    /// How many indices of a list of `len` are tried at most.
    fn tries(len: usize) -> usize
        ensures count { result ≡ way.tries len }
        ensures within { result ≤ len };

    /// The index that is tried as number `k`.
    fn index(len: usize, k: usize) -> usize
        requires { k < way.tries len }
        ensures index { result ≡ way.index len k }
        ensures within { result < len };

    /// What comes off where the predicate answered false `m` times, and then true or to no more indices.
    fn part(len: usize, m: usize) -> Parting
        requires { m ≤ way.tries len }
        ensures start { result.start ≡ way.start len m }
        ensures size { result.len ≡ way.size len m }
        ensures rest { result.rest ≡ way.rest len m }
        ensures rest_size { result.rest_len ≡ way.rest_size len m }
        ensures last { result.last ≡ way.last len m }
        ensures within { result.start + result.len ≤ len }
        ensures rest_within { result.rest + result.rest_len ≤ len }
        ensures shorter { len ≤ result.rest_len → result.last ≡ true }
        ensures inclusive { IS_INCLUSIVE ≡ true → result.rest_len ≡ 0 → result.last ≡ true };
}

/// Cut at the first place; the bit there goes.
pub struct FromFront;

#[tactic(auto, using(std::proofs::lemmas::Bool::Decides::nat_tests))]
impl SplitEnd for FromFront {
    ghost way = { from_front };

    ghost IS_INCLUSIVE = { false };

    const IS_INCLUSIVE: bool = false;

    fn tries(len: usize) -> usize {
        len
    }

    fn index(_len: usize, k: usize) -> usize {
        k
    }

    fn part(len: usize, m: usize) -> Parting {
        let last = m == len;
        Parting {
            start: 0,
            len: m,
            rest: if last { len } else { m + 1 },
            rest_len: if last { 0 } else { len - (m + 1) },
            last,
        }
    }
}

/// Cut at the last place, tried descending; the bit there goes.
pub struct FromBack;

#[tactic(auto, using(std::proofs::lemmas::Bool::Decides::nat_tests))]
impl SplitEnd for FromBack {
    ghost way = { from_back };

    ghost IS_INCLUSIVE = { false };

    const IS_INCLUSIVE: bool = false;

    fn tries(len: usize) -> usize {
        len
    }

    fn index(len: usize, k: usize) -> usize {
        len - (k + 1)
    }

    fn part(len: usize, m: usize) -> Parting {
        let last = m == len;
        Parting {
            start: len - m,
            len: m,
            rest: 0,
            rest_len: if last { 0 } else { len - (m + 1) },
            last,
        }
    }
}

/// Cut behind the first place, whose bit stays with the part.
pub struct InclusiveFront;

#[tactic(auto, using(std::proofs::lemmas::Bool::Decides::nat_tests))]
impl SplitEnd for InclusiveFront {
    ghost way = { inclusive_front };

    ghost IS_INCLUSIVE = { true };

    const IS_INCLUSIVE: bool = true;

    fn tries(len: usize) -> usize {
        len
    }

    fn index(_len: usize, k: usize) -> usize {
        k
    }

    fn part(len: usize, m: usize) -> Parting {
        let size = if m == len { len } else { m + 1 };
        Parting {
            start: 0,
            len: size,
            rest: size,
            rest_len: len - size,
            last: size == len,
        }
    }
}

/// Cut behind the last place before the last bit, tried descending; the bit there stays with what is left.
pub struct InclusiveBack;

#[tactic(auto, using(std::proofs::lemmas::Bool::Decides::nat_tests))]
impl SplitEnd for InclusiveBack {
    ghost way = { inclusive_back };

    ghost IS_INCLUSIVE = { true };

    const IS_INCLUSIVE: bool = true;

    fn tries(len: usize) -> usize {
        len.saturating_sub(1)
    }

    fn index(len: usize, k: usize) -> usize {
        len - (k + 2)
    }

    fn part(len: usize, m: usize) -> Parting {
        let rest_len = len.saturating_sub(1) - m;
        Parting {
            start: rest_len,
            len: len - rest_len,
            rest: 0,
            rest_len,
            last: rest_len == 0,
        }
    }
}
