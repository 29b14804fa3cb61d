//! Changes of a window of words by word paths, where both sides have the same words and order.

ghost use Rattle.std.specs.Prelude.{◌≡◌, ◌+◌, ◌*◌, ◌^◌, ◌<◌, ◌≤◌, ◌&&◌, ◌||◌, length};
ghost use Rattle.std.specs.Bool.{xor};
ghost use Rattle.bit_addressing_memory.specs.Memory.{memory, piece, read_by};
ghost use Rattle.bit_slice_views_mut.specs.Combined.{combined};
ghost use Rattle.bit_slice_views_mut.specs.Frame.{KeepsBeside};

use bit_addressing_memory::BitRegister;
use bit_slice_views::words::{Steps, WordPaths, fill_in};

// Makes the bits of a window those of another memory from a place on.
#[tactic(auto, using(crate::proofs::FrameLemmas::frames))]
pub(crate) fn copy_path<R: BitRegister, O: WordPaths<R>>(
    words: &mut [R],
    place: usize,
    others: &[R],
    source: usize,
    len: usize,
)
    requires within { place + len ≤ length words.old * R.BITS }
    requires ends { place + len < 2 ^ 64 }
    requires source_within { source + len ≤ length others.now * R.BITS }
    requires source_ends { source + len < 2 ^ 64 }
    ensures list { piece (memory (read_by R.BitRegister O.position) words.new) place len
        ≡ piece (memory (read_by R.BitRegister O.position) others.now) source len }
    ensures beside { KeepsBeside (read_by R.BitRegister O.position) words.old words.new place len }
{
    O::copy(words, place, others, source, len, &mut Steps::new());
}

// Makes each bit of a window what it and the other's bit are both; those past the other's end are cleared.
pub(crate) fn and_path<R: BitRegister, O: WordPaths<R>>(
    words: &mut [R],
    place: usize,
    len: usize,
    others: &[R],
    source: usize,
    other_len: usize,
)
    requires within { place + len ≤ length words.old * R.BITS }
    requires ends { place + len < 2 ^ 64 }
    requires source_within { source + other_len ≤ length others.now * R.BITS }
    requires source_ends { source + other_len < 2 ^ 64 }
    ensures list { piece (memory (read_by R.BitRegister O.position) words.new) place len
        ≡ combined (λ a b. a && b) (piece (memory (read_by R.BitRegister O.position) words.old) place len)
        (piece (memory (read_by R.BitRegister O.position) others.now) source other_len) }
    ensures beside { KeepsBeside (read_by R.BitRegister O.position) words.old words.new place len }
{
    let shared = len.min(other_len);
    O::and(words, place, others, source, shared, &mut Steps::new());
    fill_in::<R, O>(words, place + shared, len - shared, false);
}

// Makes each bit of a window what it or the other's bit is.
pub(crate) fn or_path<R: BitRegister, O: WordPaths<R>>(
    words: &mut [R],
    place: usize,
    len: usize,
    others: &[R],
    source: usize,
    other_len: usize,
)
    requires within { place + len ≤ length words.old * R.BITS }
    requires ends { place + len < 2 ^ 64 }
    requires source_within { source + other_len ≤ length others.now * R.BITS }
    requires source_ends { source + other_len < 2 ^ 64 }
    ensures list { piece (memory (read_by R.BitRegister O.position) words.new) place len
        ≡ combined (λ a b. a || b) (piece (memory (read_by R.BitRegister O.position) words.old) place len)
        (piece (memory (read_by R.BitRegister O.position) others.now) source other_len) }
    ensures beside { KeepsBeside (read_by R.BitRegister O.position) words.old words.new place len }
{
    O::or(
        words,
        place,
        others,
        source,
        len.min(other_len),
        &mut Steps::new(),
    );
}

// Makes each bit of a window whether it and the other's bit differ.
pub(crate) fn xor_path<R: BitRegister, O: WordPaths<R>>(
    words: &mut [R],
    place: usize,
    len: usize,
    others: &[R],
    source: usize,
    other_len: usize,
)
    requires within { place + len ≤ length words.old * R.BITS }
    requires ends { place + len < 2 ^ 64 }
    requires source_within { source + other_len ≤ length others.now * R.BITS }
    requires source_ends { source + other_len < 2 ^ 64 }
    ensures list { piece (memory (read_by R.BitRegister O.position) words.new) place len
        ≡ combined xor (piece (memory (read_by R.BitRegister O.position) words.old) place len)
        (piece (memory (read_by R.BitRegister O.position) others.now) source other_len) }
    ensures beside { KeepsBeside (read_by R.BitRegister O.position) words.old words.new place len }
{
    O::xor(
        words,
        place,
        others,
        source,
        len.min(other_len),
        &mut Steps::new(),
    );
}
