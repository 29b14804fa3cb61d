//! Bits moved inside one memory.

ghost use Rattle.std.specs.Prelude.{◌≤◌};
ghost use Rattle.bit_addressing_memory.specs.Prelude.{Lies, read_by, touched};
ghost use Rattle.bit_addressing_memory.specs.Moves.{Moves, changed};

use bit_addressing_memory::{BitOrder, BitRegister, Sweep, move_in, way_for};

/// Moves `len` bits of a memory, those from `source` on, to the places from `target` on, and answers how many
/// words were written. Both stretches lie in the memory, and their ends fit a `usize`; they may overlap: what
/// is moved is the bits as they were. Every other bit of the memory stays.
///
/// What `copy_within` of a bitvec slice does to the bits. No word is written twice, and none that the target
/// does not touch.
pub fn move_words<R: BitRegister, O: BitOrder<R>>(
    words: &mut [R],
    source: usize,
    target: usize,
    len: usize,
) -> usize
    requires source_lies { Lies R.BITS words.old source len }
    requires target_lies { Lies R.BITS words.old target len }
    ensures moved { Moves (read_by R.BitRegister O.position) words.old words.new source target len }

    // At most the words that the target touches, at least those that became other ones.
    ensures writes { result ≤ touched R.BITS target len }
    ensures changed { changed R.number words.old words.new ≤ result }
{
    let mut sweep = Sweep::new(words, way_for(source, target));
    move_in::<R, O>(&mut sweep, source, target, len);
    sweep.writes()
}
