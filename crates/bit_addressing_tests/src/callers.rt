//! What a user of the crate proves from its contracts alone: bits moved inside the caller's own words,
//! and commands at two spans.

ghost use Rattle.std.specs.Prelude.{◌≡◌, ◌+◌, ◌*◌, ◌^◌, ◌<◌, ◌≤◌, [], ◌∷◌, true, length, slice_index_or, slice_set};
ghost use Rattle.bit_addressing.specs.Memory.{entry, read_by, memory, piece, touched, with_piece};
ghost use Rattle.bit_addressing.specs.Moves.{Moves, changed};
ghost use Rattle.bit_addressing.specs.Span.{span_place};
ghost use Rattle.bit_addressing.specs.Straight.{IsStraight};
ghost use Rattle.bit_addressing.specs.Runs.{AllFit, AreDisjoint, span_at};

use bit_addressing::*;

/// Moves bits inside a slice and tells the writes. The sweep is made, used and gone in here, and the
/// slice is known afterwards with no proof file.
pub fn move_within<R: BitRegister, O: BitOrder<R>>(
    words: &mut [R],
    source: usize,
    target: usize,
    len: usize,
) -> usize
    requires source_within { source + len ≤ length words.old * R.BITS }
    requires target_within { target + len ≤ length words.old * R.BITS }
    requires source_ends { source + len < 2 ^ 64 }
    requires target_ends { target + len < 2 ^ 64 }
    ensures moved { Moves (read_by R.BitRegister O.position) words.old words.new source target len }
    ensures writes { result ≤ touched R.BITS target len }
    ensures changed { changed R.number words.old words.new ≤ result }
{
    let mut sweep = Sweep::new(words, way_for(source, target));
    move_in::<R, O>(&mut sweep, source, target, len);
    sweep.writes()
}

/// Moves bits inside a slice and tells the reads and the writes. Where the positions go straight with the
/// indices, the reads are few.
pub fn move_counted<R: BitRegister, O: BitOrder<R>>(
    words: &mut [R],
    source: usize,
    target: usize,
    len: usize,
) -> (u64, usize)
    requires source_within { source + len ≤ length words.old * R.BITS }
    requires target_within { target + len ≤ length words.old * R.BITS }
    requires source_ends { source + len < 2 ^ 64 }
    requires target_ends { target + len < 2 ^ 64 }
    ensures moved { Moves (read_by R.BitRegister O.position) words.old words.new source target len }
    ensures reads { IsStraight R.BITS O.position → result.0 ≤ 3 * touched R.BITS target len }
    ensures writes { result.1 ≤ touched R.BITS target len }
{
    let mut counted = Sweep::new(words, way_for(source, target));
    move_in::<R, O>(&mut counted, source, target, len);
    (counted.reads(), counted.writes())
}

/// Moves 16 bits of three bytes to their start under either order of the crate, and knows how many words are
/// read at most.
pub fn byte_reads(a: u8, b: u8, c: u8) -> (u64, u64)
    ensures lowest_first { result.0 ≤ 6 }
    ensures highest_first { result.1 ≤ 6 }
{
    let mut words = [a, b, c];
    let (lowest_first, _) = move_counted::<u8, Lsb0>(&mut words, 4, 0, 16);
    let (highest_first, _) = move_counted::<u8, Msb0>(&mut words, 4, 0, 16);
    (lowest_first, highest_first)
}

/// Moves bits inside a slice, said of the memory as a list: what was read is written over the target.
pub fn move_list<R: BitRegister, O: BitOrder<R>>(
    words: &mut [R],
    source: usize,
    target: usize,
    len: usize,
) -> usize
    requires source_within { source + len ≤ length words.old * R.BITS }
    requires target_within { target + len ≤ length words.old * R.BITS }
    requires source_ends { source + len < 2 ^ 64 }
    requires target_ends { target + len < 2 ^ 64 }
    ensures moved { memory (read_by R.BitRegister O.position) words.new
        ≡ with_piece (memory (read_by R.BitRegister O.position) words.old) target
        (piece (memory (read_by R.BitRegister O.position) words.old) source len) }
    ensures writes { result ≤ touched R.BITS target len }
{
    move_within::<R, O>(words, source, target, len)
}

/// Moves inside an array of its own and knows all of it, and the bound on the writes.
pub fn own_array<R: BitRegister, O: BitOrder<R>>(a: R, b: R, c: R) -> ([R; 3], usize)
    ensures moved { memory (read_by R.BitRegister O.position) result.0
        ≡ with_piece (memory (read_by R.BitRegister O.position) (a ∷ b ∷ c ∷ [])) 0
        (piece (memory (read_by R.BitRegister O.position) (a ∷ b ∷ c ∷ [])) 4 16) }
    ensures writes { result.1 ≤ 2 }
{
    let mut words = [a, b, c];
    let writes = move_list::<R, O>(&mut words, 4, 0, 16);
    (words, writes)
}

/// Writes two words of a slice, past one another, through a sweep.
pub fn put_ends<R: BitRegister>(words: &mut [R], first: R, second: R) -> (u64, usize)
    requires { 1 < length words.old }
    ensures words { words.new ≡ slice_set (slice_set words.old 1 second) 0 first }
    ensures reads { result.0 ≡ 1 }
    ensures writes { result.1 ≡ 2 }
{
    let mut sweep = Sweep::new(words, Way::Down);
    let _ = sweep.read(0);
    sweep.put(1, second);
    sweep.put(0, first);
    (sweep.reads(), sweep.writes())
}

/// Sets the first bit of one span and then reads that of another, which may stand in the same word. The bit that
/// was set is known, and so is the reply: what the other span had.
pub fn set_and_read<R: BitRegister, O: BitOrder<R>>(
    memory: &mut [R],
    spans: &[BitSpan<R, O>],
    commands: &[(usize, SpanCommand<R>)],
    replies: &mut [SpanReply<R>],
)
    requires disjoint { AreDisjoint R.BITS spans.now }
    requires fit { AllFit R.BITS spans.now (length memory.old) }
    requires two { length spans.now ≡ 2 }
    requires bits { (0 < (span_at spans.now 0).len) × (0 < (span_at spans.now 1).len) }
    requires commands { commands.now ≡ (0, SpanCommand.Replace 0 true) ∷ (1, SpanCommand.Read 0) ∷ [] }
    requires places { length replies.old ≡ 2 }
    ensures set { entry (read_by R.BitRegister O.position) memory.new
        (span_place R.BITS (span_at spans.now 0)) ≡ true }
    ensures read { slice_index_or replies.new 1 SpanReply.Refused
        ≡ SpanReply.Bit (entry (read_by R.BitRegister O.position) memory.old
        (span_place R.BITS (span_at spans.now 1))) }
{
    run(memory, spans, commands, replies);
}

/// Writes one word through a sweep.
pub fn put_one<R: BitRegister>(words: &mut [R], k: usize, word: R)
    requires { k < length words.old }
    ensures { words.new ≡ slice_set words.old k word }
{
    let mut sweep = Sweep::new(words, Way::Up);
    sweep.put(k, word);
}

/// Writes one word through a sweep over a part of the caller's words. The part is handed to a function that makes the
/// sweep, and the whole is known afterwards.
pub fn put_in_part<R: BitRegister>(words: &mut [R], first: usize, count: usize, k: usize, word: R)
    requires within { first + count ≤ length words.old }
    requires inside { k < count }
    requires ends { first + count < 2 ^ 64 }
    ensures { words.new ≡ slice_set words.old (first + k) word }
{
    put_one(&mut words[first..first + count], k, word);
}
