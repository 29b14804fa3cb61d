//! The place where a predicate answers true.

ghost use Rattle.std.specs.Prelude.{◌≡◌, ◌+◌, ◌≤◌, length};
ghost use Rattle.bit_slice_splits.specs.Ways.{Asks};

use crate::ways::SplitEnd;
use bit_slice_views::Bits;

/// How many times the predicate answers false, asked of one index after another, before it answers true or none is left.
pub fn asked_in<V: Bits, F: FnMut(usize, &bool) -> bool, W: SplitEnd>(view: &V, f: &mut F) -> usize
    requires { F.IsAlwaysCallable f.old }
    ensures within { result ≤ W.way.tries (length (V.bits view.now)) }
    ensures callable { F.IsAlwaysCallable f.new }
    ensures asks { Asks W.way F.FnMut (V.bits view.now) f.old result f.new }
{
    let len = view.len();
    let tries = W::tries(len);
    for k in 0..tries {
        let i = W::index(len, k);
        let bit = view.bit(i);
        if f(i, &bit) {
            return k;
        }
    }
    tries
}
