//! The ways to cut a list into pieces.

ghost use Rattle.std.specs.Prelude.{◌≡◌, ℕ, ◌+◌, ◌-◌, ◌*◌, ◌/◌, ◌%◌, ◌<◌, ◌≤◌, min};
ghost use Rattle.std.specs.Int.{div_ceil};
ghost use Rattle.bit_slice_iterators.specs.Cuts.{Cut};
ghost use Rattle.bit_slice_iterators.specs.Cuts.{forward, forward_exact, backward, backward_exact, sliding, single};

/// A way to cut a list by a size into pieces: each kind of pieces is one.
pub trait Cuts {
    ghost cut: { Cut };

    /// How many pieces of the size `by` a list of `len` has.
    fn count(len: usize, by: usize) -> usize
        requires { 0 < by }
        ensures { result ≡ cut.count len by };

    /// Where piece `j` of them begins, and how long it is.
    fn piece(len: usize, by: usize, j: usize) -> (usize, usize)
        requires some { 0 < by }
        requires inside { j < cut.count len by }
        ensures start { result.0 ≡ cut.start len by j }
        ensures size { result.1 ≡ cut.size len by j }
        ensures within { result.0 + result.1 ≤ len };
}

/// A way to cut into whole pieces alone, so that fewer than the size are in none.
pub trait ExactCuts: Cuts {
    // Where those begin that are in none.
    ghost rest: { ℕ → ℕ → ℕ };

    /// Where those of a list of `len` begin that are in no piece.
    fn rest_start(len: usize, by: usize) -> usize
        requires { 0 < by }
        ensures start { result ≡ rest len by }
        ensures within { result + len % by ≤ len };
}

/// From the front on; the last piece may be shorter.
pub struct Forward;

#[tactic(auto, using(crate::proofs::CutLemmas::cuts))]
impl Cuts for Forward {
    ghost cut = { forward };

    fn count(len: usize, by: usize) -> usize {
        len.div_ceil(by)
    }

    fn piece(len: usize, by: usize, j: usize) -> (usize, usize) {
        let start = j * by;
        (start, by.min(len - start))
    }
}

/// From the front on; whole pieces alone.
pub struct ForwardExact;

#[tactic(auto, using(crate::proofs::CutLemmas::cuts))]
impl Cuts for ForwardExact {
    ghost cut = { forward_exact };

    fn count(len: usize, by: usize) -> usize {
        len / by
    }

    fn piece(_len: usize, by: usize, j: usize) -> (usize, usize) {
        (j * by, by)
    }
}

#[tactic(auto, using(crate::proofs::CutLemmas::cuts))]
impl ExactCuts for ForwardExact {
    ghost rest = { λ n k. n - n % k };

    fn rest_start(len: usize, by: usize) -> usize {
        len - len % by
    }
}

/// From the back on; the last piece, at the front, may be shorter.
pub struct Backward;

#[tactic(auto, using(crate::proofs::CutLemmas::cuts))]
impl Cuts for Backward {
    ghost cut = { backward };

    fn count(len: usize, by: usize) -> usize {
        Forward::count(len, by)
    }

    fn piece(len: usize, by: usize, j: usize) -> (usize, usize) {
        let end = len - j * by;
        (end.saturating_sub(by), by.min(end))
    }
}

/// From the back on; whole pieces alone.
pub struct BackwardExact;

#[tactic(auto, using(crate::proofs::CutLemmas::cuts))]
impl Cuts for BackwardExact {
    ghost cut = { backward_exact };

    fn count(len: usize, by: usize) -> usize {
        ForwardExact::count(len, by)
    }

    fn piece(len: usize, by: usize, j: usize) -> (usize, usize) {
        (len - j * by - by, by)
    }
}

impl ExactCuts for BackwardExact {
    ghost rest = { λ n k. 0 };

    fn rest_start(_len: usize, _by: usize) -> usize {
        0
    }
}

/// From each element on, as far as there are whole pieces: they overlap.
pub struct Sliding;

impl Cuts for Sliding {
    ghost cut = { sliding };

    fn count(len: usize, by: usize) -> usize {
        if len < by { 0 } else { len - by + 1 }
    }

    fn piece(_len: usize, by: usize, j: usize) -> (usize, usize) {
        (j, by)
    }
}

/// Each element alone, whatever the size.
pub struct Single;

impl Cuts for Single {
    ghost cut = { single };

    fn count(len: usize, _by: usize) -> usize {
        len
    }

    fn piece(_len: usize, _by: usize, j: usize) -> (usize, usize) {
        (j, 1)
    }
}
