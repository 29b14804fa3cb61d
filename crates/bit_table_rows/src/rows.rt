//! Rows moved by one sweep.

ghost use Rattle.std.specs.Prelude.{◌≡◌, ℕ, ◌+◌, ◌-◌, ◌*◌, ◌^◌, ◌<◌, ◌≤◌, length};
ghost use Rattle.bit_addressing_memory.specs.Memory.{memory, piece, read_by, touched};
ghost use Rattle.bit_addressing_memory.specs.Moves.{Moves, changed};
ghost use Rattle.bit_addressing_memory.specs.Straight.{IsStraight};
ghost use Rattle.bit_addressing_memory.specs.Sweep.{IsFresh, reads_of, sweep_lender, sweep_words, way_of, writes_of};
ghost use Rattle.bit_addressing_memory.specs.Ways.{way_for};
ghost use Rattle.bit_table_rows.specs.RowMoves.{rows_moved};

use bit_addressing_memory::{BitIdx, BitOrder, BitRegister, Sweep, move_in};

/// Moves the rows from `p` up to before `n` to where row `q` stands, and on from there. The rows have `w` bits each and
/// lie end to end from bit `head` of the sweep's first word on; source and target may overlap. Every bit outside the
/// target stays.
///
/// The sweep is fresh, and goes the way that `way_for` names for the places of the rows `p` and `q`. Rows up to before
/// `n` and up to the target's end are there. An insertion takes `q = p + 1`, a deletion `q < p`.
///
/// No word is written twice, and none that the target does not touch.
#[inline(always)]
#[tactic(auto, using(crate::proofs::RowLemmas::rows))]
pub fn move_rows<T: BitRegister, O: BitOrder<T>>(
    sweep: &mut Sweep<'_, T>,
    head: BitIdx<T>,
    p: usize,
    q: usize,
    n: usize,
    w: usize,
)
    requires fresh { IsFresh sweep.old (way_for (head + p * w) (head + q * w)) }
    requires order { p ≤ n }
    requires rows_within { head + n * w ≤ length (sweep_words sweep.old) * T.BITS }
    requires target_within { head + (q + (n - p)) * w ≤ length (sweep_words sweep.old) * T.BITS }
    requires rows_end { head + n * w < 2 ^ 64 }
    requires target_ends { head + (q + (n - p)) * w < 2 ^ 64 }

    // Row by row, and each other bit as before.
    ensures rows { (k : ℕ) → k < n - p
        → piece (memory (read_by T.BitRegister O.position) (sweep_words sweep.new)) (head + (q + k) * w) w
        ≡ piece (memory (read_by T.BitRegister O.position) (sweep_words sweep.old)) (head + (p + k) * w) w }
    ensures moved { Moves (read_by T.BitRegister O.position) (sweep_words sweep.old) (sweep_words sweep.new)
        (head + p * w) (head + q * w) ((n - p) * w) }

    // The list from `head` on, of any length that has both.
    ensures list { (len : ℕ) → n * w ≤ len → (q + (n - p)) * w ≤ len
        → head + len ≤ length (sweep_words sweep.old) * T.BITS
        → piece (memory (read_by T.BitRegister O.position) (sweep_words sweep.new)) head len
        ≡ rows_moved w (piece (memory (read_by T.BitRegister O.position) (sweep_words sweep.old)) head len) p q n }

    // Its writes: at most the words that the target touches, at least the words that became other ones.
    ensures writes { writes_of sweep.new ≤ touched T.BITS (head + q * w) ((n - p) * w) }
    ensures changed { changed T.number (sweep_words sweep.old) (sweep_words sweep.new) ≤ writes_of sweep.new }

    // Its reads, where the positions go straight with the indices.
    ensures reads { IsStraight T.BITS O.position
        → reads_of sweep.new ≤ 3 * touched T.BITS (head + q * w) ((n - p) * w) }

    // What stays.
    ensures way { way_of sweep.new ≡ way_of sweep.old }
    ensures lender { sweep_lender sweep.new ≡ sweep_lender sweep.old }
{
    let first = head.into_inner() as usize;
    move_in::<T, O>(sweep, first + p * w, first + q * w, (n - p) * w);
}
