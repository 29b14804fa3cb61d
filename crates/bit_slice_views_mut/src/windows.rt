//! Changes of a window of words whose lists have a closure's facts to pass through: by the list, and by what stays
//! beside the window.

ghost use Rattle.std.specs.Prelude.{◌≡◌, ◌+◌, ◌*◌, ◌^◌, ◌<◌, ◌≤◌, length, replicate};
ghost use Rattle.bit_addressing_memory.specs.Memory.{memory, piece, read_by, touched, with_piece};
ghost use Rattle.bit_addressing_memory.specs.Moves.{changed};
ghost use Rattle.bit_slice_views_mut.specs.Frame.{KeepsBeside};

use bit_addressing_memory::{BitOrder, BitRegister};
use bit_slice_views::words::{copy_in, fill_in, move_words};

// Makes each bit of a window `bit`.
#[tactic(auto, using(crate::proofs::FrameLemmas::frames, crate::proofs::WordLists::filled_list))]
pub(crate) fn fill_window<R: BitRegister, O: BitOrder<R>>(
    words: &mut [R],
    place: usize,
    len: usize,
    bit: bool,
)
    requires within { place + len ≤ length words.old * R.BITS }
    requires ends { place + len < 2 ^ 64 }
    ensures list { piece (memory (read_by R.BitRegister O.position) words.new) place len ≡ replicate len bit }
    ensures beside { KeepsBeside (read_by R.BitRegister O.position) words.old words.new place len }
{
    fill_in::<R, O>(words, place, len, bit);
}

// Makes the bits of a window those of another memory from a place on.
#[tactic(auto, using(crate::proofs::FrameLemmas::frames, crate::proofs::WordLists::copied_list))]
pub(crate) fn copy_window<R: BitRegister, O: BitOrder<R>, Q: BitRegister, P: BitOrder<Q>>(
    words: &mut [R],
    place: usize,
    others: &[Q],
    source: usize,
    len: usize,
)
    requires within { place + len ≤ length words.old * R.BITS }
    requires ends { place + len < 2 ^ 64 }
    requires source_within { source + len ≤ length others.now * Q.BITS }
    requires source_ends { source + len < 2 ^ 64 }
    ensures list { piece (memory (read_by R.BitRegister O.position) words.new) place len
        ≡ piece (memory (read_by Q.BitRegister P.position) others.now) source len }
    ensures beside { KeepsBeside (read_by R.BitRegister O.position) words.old words.new place len }
{
    copy_in::<Q, P, R, O>(others, source, words, place, len);
}

// Moves bits inside a window, and answers how many words it wrote.
#[tactic(auto, using(crate::proofs::FrameLemmas::frames, bit_addressing_memory::proofs::WindowLemmas::window_copied))]
pub(crate) fn move_window<R: BitRegister, O: BitOrder<R>>(
    words: &mut [R],
    place: usize,
    all: usize,
    from: usize,
    to: usize,
    len: usize,
) -> usize
    requires within { place + all ≤ length words.old * R.BITS }
    requires ends { place + all < 2 ^ 64 }
    requires source { from + len ≤ all }
    requires target { to + len ≤ all }
    ensures list { piece (memory (read_by R.BitRegister O.position) words.new) place all
        ≡ with_piece (piece (memory (read_by R.BitRegister O.position) words.old) place all) to
        (piece (piece (memory (read_by R.BitRegister O.position) words.old) place all) from len) }
    ensures beside { KeepsBeside (read_by R.BitRegister O.position) words.old words.new place all }
    ensures writes { result ≤ touched R.BITS (place + to) len }
    ensures changed { changed R.number words.old words.new ≤ result }
{
    move_words::<R, O>(words, place + from, place + to, len)
}
