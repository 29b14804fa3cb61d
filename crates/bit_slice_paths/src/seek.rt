//! Bits of one memory sought in another, by chunks: their first bits are read once, and a chunk of the memory shows them
//! or not at each of its first places.

ghost use Rattle.std.specs.Prelude.{◌≡◌, ℕ, ◌+◌, ◌*◌, ◌^◌, ◌<◌, ◌≤◌, length, min, true, false};
ghost use Rattle.bit_addressing_memory.specs.Prelude.{Lies, entry, read_by};
ghost use Rattle.bit_slice_chunks.specs.Chunk.{chunk_bit, IsChunk};
ghost use Rattle.bit_slice_paths.specs.Agrees.{AreSame, StandsFirst};

use crate::across::difference;
use bit_addressing_memory::{BitOrder, BitRegister, Direction};
use bit_slice_chunks::any_order::{direction_for, read_bits};
use bit_slice_chunks::{first_bits, lowered};

// Whether so many bits of two memories are the same.
#[inline(never)]
#[tactic(auto, using(crate::proofs::SeekLemmas::stands_agreed, crate::proofs::SeekLemmas::stands_not))]
fn same<R: BitRegister, O: BitOrder<R>, Q: BitRegister, P: BitOrder<Q>>(
    words: &[R],
    place: usize,
    others: &[Q],
    other_place: usize,
    len: usize,
) -> bool
    requires lies { Lies R.BITS words.now place len }
    requires other_lies { Lies Q.BITS others.now other_place len }
    ensures yes { result ≡ true → AreSame (read_by R.BitRegister O.position) words.now place
        (read_by Q.BitRegister P.position) others.now other_place len }
    ensures no { result ≡ false → AreSame (read_by R.BitRegister O.position) words.now place
        (read_by Q.BitRegister P.position) others.now other_place len → ⊥ }
{
    difference::<R, O, Q, P>(words, place, others, other_place, len) == len
}

// Whether bits of another memory stand at a place of which a chunk has the first ones, from bit `from` on. `sought` has
// the first ones of the other memory.
#[inline(always)]
#[tactic(auto, using(crate::proofs::SeekLemmas::shown_chunk, crate::proofs::SeekLemmas::shown_same))]
fn shows<R: BitRegister, O: BitOrder<R>, Q: BitRegister, P: BitOrder<Q>>(
    direction: Direction,
    words: &[R],
    place: usize,
    others: &[Q],
    other_place: usize,
    len: usize,
    chunk: u64,
    from: usize,
    sought: u64,
) -> bool
    requires some { 0 < len }
    requires few { from < 33 }
    requires lies { Lies R.BITS words.now (place + from) len }
    requires other_lies { Lies Q.BITS others.now other_place len }
    requires chunk { (k : ℕ) → k < from + min len 32
        → chunk_bit direction chunk k ≡ entry (read_by R.BitRegister O.position) words.now (place + k) }
    requires sought { IsChunk (read_by Q.BitRegister P.position) others.now other_place (min len 32) direction sought }
    ensures yes { result ≡ true → AreSame (read_by R.BitRegister O.position) words.now (place + from)
        (read_by Q.BitRegister P.position) others.now other_place len }
    ensures no { result ≡ false → AreSame (read_by R.BitRegister O.position) words.now (place + from)
        (read_by Q.BitRegister P.position) others.now other_place len → ⊥ }
{
    let shown = lowered(direction, chunk, from as u8);
    if first_bits(direction, shown, len.min(32) as u8) != sought {
        return false;
    }
    if len <= 32 {
        return true;
    }
    same::<R, O, Q, P>(words, place + from, others, other_place, len)
}

// The first of up to 33 places at which bits of another memory stand, the first of which are `sought`.
#[inline(always)]
#[tactic(auto, using(crate::proofs::SeekLemmas::seeks_none))]
fn start_near<R: BitRegister, O: BitOrder<R>, Q: BitRegister, P: BitOrder<Q>>(
    direction: Direction,
    words: &[R],
    place: usize,
    others: &[Q],
    other_place: usize,
    len: usize,
    starts: usize,
    sought: u64,
) -> usize
    requires some { 0 < len }
    requires some_starts { 0 < starts }
    requires few { starts ≤ 33 }
    requires within { place + starts + len ≤ length words.now * R.BITS + 1 }
    requires ends { place + starts + len ≤ 2 ^ 64 }
    requires other_lies { Lies Q.BITS others.now other_place len }
    requires sought { IsChunk (read_by Q.BitRegister P.position) others.now other_place (min len 32) direction sought }
    ensures { StandsFirst (read_by R.BitRegister O.position) words.now place
        (read_by Q.BitRegister P.position) others.now other_place len starts result }
{
    let count = starts - 1 + len.min(32);
    let chunk = read_bits::<R, O>(direction, words, place, count);
    for i in 0..starts {
        if shows::<R, O, Q, P>(
            direction,
            words,
            place,
            others,
            other_place,
            len,
            chunk,
            i,
            sought,
        ) {
            return i;
        }
    }
    starts
}

/// The first of `starts` places, counted from `place` on, at which `len` bits of another memory stand: `starts` where
/// they stand at none.
#[inline(always)]
#[tactic(auto, using(crate::proofs::SeekLemmas::seeks_none))]
pub fn start<R: BitRegister, O: BitOrder<R>, Q: BitRegister, P: BitOrder<Q>>(
    words: &[R],
    place: usize,
    others: &[Q],
    other_place: usize,
    len: usize,
    starts: usize,
) -> usize
    requires some { 0 < len }
    requires some_starts { 0 < starts }
    requires within { place + starts + len ≤ length words.now * R.BITS + 1 }
    requires ends { place + starts + len ≤ 2 ^ 64 }
    requires other_lies { Lies Q.BITS others.now other_place len }
    ensures { StandsFirst (read_by R.BitRegister O.position) words.now place
        (read_by Q.BitRegister P.position) others.now other_place len starts result }
{
    let direction = direction_for::<R, O>();
    let sought = read_bits::<Q, P>(direction, others, other_place, len.min(32));
    for k in 0..(starts - 1) / 33 + 1 {
        let done = 33 * k;
        let near = (starts - done).min(33);
        let at = start_near::<R, O, Q, P>(
            direction,
            words,
            place + done,
            others,
            other_place,
            len,
            near,
            sought,
        );
        if at < near {
            return done + at;
        }
    }
    starts
}
