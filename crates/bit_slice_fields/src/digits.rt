//! The digits of a number and the bits of a window, piece by piece: a piece lies in one segment, or is the whole window
//! where all its bits weigh in turn, and is read and written as a chunk.

ghost use Rattle.std.specs.Prelude.{◌≡◌, ℕ, ◌+◌, ◌-◌, ◌*◌, ◌%◌, ◌^◌, ◌<◌, ◌≤◌, true, length, bit_or};
ghost use Rattle.std.specs.Prelude.{if◌then◌else◌};
ghost use Rattle.bit_addressing_memory.specs.Bits.{bits_in_order, digit_at};
ghost use Rattle.bit_addressing_memory.specs.Memory.{memory, piece, read_by, Overwrites};
ghost use Rattle.bit_slice_fields.specs.Digits.{cut_weight, Gathered, HasDigits};
ghost use Rattle.bit_slice_fields.specs.Number.{field_bits, segment_end, CountsFrom};
ghost use Rattle.bit_slice_fields.specs.Pieces.{way_for, least_bit, ChunkOf, IsPiece};
ghost use Rattle.bit_slice_fields.specs.Segments.{IsSegment};
ghost use Rattle.bit_slice_fields.specs.Whole.{FitsIn};
ghost use Rattle.bit_slice_views.specs.View.{view_bits, view_head};
ghost use Rattle.bit_slice_views_mut.specs.Frame.{KeepsBeside};

use crate::integral::Integral;
use bit_addressing_memory::{BitOrder, BitRegister, Direction, Straight, mem};
use bit_slice_chunks::{
    chunk_of, digits_of, read_bits, read_digits, read_field, write_bits, write_field, write_part,
};
use bit_slice_views::{BitSlice, Bits};

// How the bits of a window weigh: which end of a word counts lowest, whether the first segment does, and the index of
// the first bit in its word.
#[derive(Clone, Copy)]
pub(crate) struct Cut {
    pub low: bool,
    pub le: bool,
    pub head: usize,
}

// A part of a window whose bits weigh one more each: how many they are, and what the least of them weighs.
#[derive(Clone, Copy)]
struct Piece {
    len: usize,
    weight: usize,
}

// The bits of a window in one of its words: which word that is, where in it they begin, which of the window's bits is the
// first of them, and how many they are.
#[derive(Clone, Copy)]
struct Segment {
    word: usize,
    index: usize,
    from: usize,
    len: usize,
}

// The bit before which the segment of bit `from` ends.
#[tactic(auto, using(crate::proofs::WeightLemmas::of_bit))]
#[inline(always)]
fn end_of_segment(cut: Cut, bits: usize, n: usize, from: usize) -> usize
    requires some { 0 < bits }
    requires few { bits ≤ 128 }
    requires head { cut.head < bits }
    requires short { n ≤ 128 }
    requires inside { from < n }
    ensures value { result ≡ segment_end bits cut.head n from }
    ensures behind { from < result }
{
    let first = (cut.head + from) / bits * bits;
    n.min(first + bits - cut.head)
}

// What the least bit of a piece weighs that ends in the segment where it begins.
#[inline(always)]
fn weight_in_segment(cut: Cut, bits: usize, n: usize, from: usize, end: usize) -> usize
    requires some { 0 < bits }
    requires few { bits ≤ 128 }
    requires head { cut.head < bits }
    requires short { n ≤ 128 }
    requires order { from < end }
    requires within { end ≤ n }
    requires segment { end ≤ segment_end bits cut.head n from }
    ensures { result ≡ cut_weight cut bits n (least_bit cut.low from end) }
{
    let first = (cut.head + from) / bits * bits;
    let start = first.saturating_sub(cut.head);
    let last = n.min(first + bits - cut.head);
    let lower = if cut.le { start } else { n - last };
    let inner = if cut.low { from - start } else { last - end };
    lower + inner
}

// What the least bit of a piece weighs where all bits of the window weigh in turn.
#[inline(always)]
fn weight_in_turn(cut: Cut, bits: usize, n: usize, from: usize, end: usize) -> usize
    requires some { 0 < bits }
    requires order { from < end }
    requires within { end ≤ n }
    requires turn { cut.low ≡ cut.le }
    ensures { result ≡ cut_weight cut bits n (least_bit cut.low from end) }
{
    if cut.low { from } else { n - end }
}

// The longest piece of a window from a bit on, of 64 bits at most, whose bits weigh one more each.
#[inline(always)]
fn piece_of(cut: Cut, bits: usize, n: usize, from: usize) -> Piece
    requires some { 0 < bits }
    requires few { bits ≤ 128 }
    requires head { cut.head < bits }
    requires short { n ≤ 128 }
    requires inside { from < n }
    ensures { IsPiece (cut_weight cut bits n) n (way_for cut.low) from result.len result.weight }
{
    let most = n.min(from + 64);
    if cut.low == cut.le {
        return Piece {
            len: most - from,
            weight: weight_in_turn(cut, bits, n, from, most),
        };
    }
    let end = most.min(end_of_segment(cut, bits, n, from));
    Piece {
        len: end - from,
        weight: weight_in_segment(cut, bits, n, from, end),
    }
}

// Whether a window is one piece: it has 64 bits at most, and they weigh in turn or lie in one word.
#[inline(always)]
fn is_one_piece(cut: Cut, bits: usize, n: usize) -> bool
    requires some { 0 < bits }
    requires few { bits ≤ 128 }
    requires head { cut.head < bits }
    requires short { n ≤ 128 }
    ensures { result ≡ true → IsPiece (cut_weight cut bits n) n (way_for cut.low) 0 n 0 }
{
    if n == 0 || n > 64 {
        return false;
    }
    cut.low == cut.le || cut.head + n <= bits
}

// Whether a window lies in one word, and is quicker read there than by a block of 64 bits: of a wider word, or where the
// digits do not go with the order from word to word.
#[inline(always)]
fn goes_by_word(cut: Cut, bits: usize, n: usize) -> bool
    requires head { cut.head < bits }
    requires few { bits ≤ 128 }
    requires short { n ≤ 128 }
    ensures { result ≡ true → cut.head + n ≤ bits }
{
    cut.head + n <= bits && (bits > 64 || cut.low != cut.le)
}

// The direction in which the bits of a word weigh.
#[inline(always)]
fn way_of(low: bool) -> Direction
    ensures { result ≡ way_for low }
{
    if low {
        Direction::Ascending
    } else {
        Direction::Descending
    }
}

// How the positions of a window's words go.
#[inline(always)]
fn straight_of<T: BitRegister, O: BitOrder<T>>(low: bool) -> Straight<T, O>
    requires counts { CountsFrom low T.BITS O.position }
    ensures { result.direction ≡ way_for low }
{
    Straight::new(way_of(low))
}

// The chunk whose first bits are the digits of a number from the digit `weight` on.
#[inline(always)]
fn chunk_from(digits: u128, low: bool, weight: usize, len: usize) -> u64
    requires some { 0 < len }
    requires few { len ≤ 64 }
    requires within { weight < 128 }
    ensures { ChunkOf (way_for low) digits weight len result }
{
    let lowest = ((digits >> weight) % (1 << 64)) as u64;
    chunk_of(way_of(low), lowest, len as u8)
}

// A number with the digits of a piece put in.
#[inline(always)]
fn with_piece(digits: u128, piece: u64, weight: usize) -> u128
    requires { weight < 128 }
    ensures { result ≡ bit_or digits (piece * 2 ^ weight % 2 ^ 128) }
{
    digits | u128::from(piece) << weight
}

// The same of 64 digits.
#[inline(always)]
fn with_few(digits: u64, piece: u64, weight: usize) -> u64
    requires { weight < 64 }
    ensures { result ≡ bit_or digits (piece * 2 ^ weight % 2 ^ 64) }
{
    digits | piece << weight
}

// Whether a window has 64 bits at most, in more than one word of no more, and they weigh in turn in each word alone.
#[inline(always)]
fn goes_by_words(cut: Cut, bits: usize, n: usize) -> bool
    requires head { cut.head < bits }
    requires few { bits ≤ 128 }
    requires short { n ≤ 128 }
    ensures mirrored { result ≡ true → cut.low ≡ cut.le → ⊥ }
    ensures narrow { result ≡ true → bits ≤ 64 }
    ensures few { result ≡ true → n ≤ 64 }
    ensures more { result ≡ true → bits < cut.head + n }
{
    cut.low != cut.le && bits <= 64 && n <= 64 && bits < cut.head + n
}

// What the least bit of a segment weighs, of a window that goes by words.
#[inline(always)]
fn weight_of_segment(low: bool, n: usize, from: usize, len: usize) -> usize
    requires some { 0 < len }
    requires inside { from + len ≤ n }
    ensures value { result ≡ if low then n - (from + len) else from }
    ensures within { result + len ≤ n }
{
    if low { n - (from + len) } else { from }
}

// A number with the digits of a segment put in.
#[inline(always)]
fn with_segment<T: BitRegister, O: BitOrder<T>>(
    digits: u64,
    words: &[T],
    segment: Segment,
    n: usize,
    cut: Cut,
) -> u64
    requires counts { CountsFrom cut.low T.BITS O.position }
    requires mirrored { cut.low ≡ cut.le → ⊥ }
    requires narrow { T.BITS ≤ 64 }
    requires head { cut.head < T.BITS }
    requires few { n ≤ 64 }
    requires fits { cut.head + n ≤ length words.now * T.BITS }
    requires is { IsSegment T.BITS cut.head n segment }
    requires had { Gathered (cut_weight cut T.BITS n)
        (piece (memory (read_by T.BitRegister O.position) words.now) cut.head n) segment.from digits }
    ensures { Gathered (cut_weight cut T.BITS n)
        (piece (memory (read_by T.BitRegister O.position) words.now) cut.head n) (segment.from + segment.len) result }
{
    let Segment {
        word,
        index,
        from,
        len,
    } = segment;
    let weight = weight_of_segment(cut.low, n, from, len);
    let straight = straight_of::<T, O>(cut.low);
    let more = read_digits::<T, O>(straight, words, word, index as u8, len as u8);
    with_few(digits, more, weight)
}

// The number of a window that goes by words, from the first word on.
#[inline(always)]
fn gathered_by_words<T: BitRegister, O: BitOrder<T>>(words: &[T], n: usize, cut: Cut) -> u64
    requires counts { CountsFrom cut.low T.BITS O.position }
    requires mirrored { cut.low ≡ cut.le → ⊥ }
    requires narrow { T.BITS ≤ 64 }
    requires head { cut.head < T.BITS }
    requires few { n ≤ 64 }
    requires more { T.BITS < cut.head + n }
    requires fits { cut.head + n ≤ length words.now * T.BITS }
    ensures { HasDigits (cut_weight cut T.BITS n)
        (piece (memory (read_by T.BitRegister O.position) words.now) cut.head n) result }
{
    let bits = mem::bits_of::<T>();
    let mut from = bits - cut.head;
    let mut word = 1;
    let first = Segment {
        word: 0,
        index: cut.head,
        from: 0,
        len: from,
    };
    let mut digits = with_segment::<T, O>(0, words, first, n, cut);
    while from + bits <= n {
        let whole = Segment {
            word,
            index: 0,
            from,
            len: bits,
        };
        digits = with_segment::<T, O>(digits, words, whole, n, cut);
        from += bits;
        word += 1;
    }
    if from == n {
        return digits;
    }
    let last = Segment {
        word,
        index: 0,
        from,
        len: n - from,
    };
    with_segment::<T, O>(digits, words, last, n, cut)
}

// The number that a window holds.
#[inline(always)]
fn gathered<T: BitRegister, O: BitOrder<T>>(view: BitSlice<'_, T, O>, cut: Cut) -> u128
    requires counts { CountsFrom cut.low T.BITS O.position }
    requires head { cut.head < T.BITS }
    requires begins { view_head view ≡ cut.head }
    requires short { length (view_bits (read_by T.BitRegister O.position) view) ≤ 128 }
    ensures { HasDigits (cut_weight cut T.BITS (length (view_bits (read_by T.BitRegister O.position) view.entry)))
        (view_bits (read_by T.BitRegister O.position) view.entry) result }
{
    let bits = mem::bits_of::<T>();
    let (words, head, len) = view.parts();
    if is_one_piece(cut, bits, len) {
        let straight = straight_of::<T, O>(cut.low);
        if goes_by_word(cut, bits, len) {
            let digits = read_digits::<T, O>(straight, words, 0, head, len as u8);
            return u128::from(digits);
        }
        let all = read_field::<T, O>(straight, words, head as usize, len);
        return u128::from(digits_of(straight.direction, all, len as u8));
    }
    if goes_by_words(cut, bits, len) {
        return u128::from(gathered_by_words::<T, O>(words, len, cut));
    }
    gathered_by_pieces::<T, O>(view, cut)
}

// The same piece by piece. Out of line, so that a number of few pieces is read by a short function.
#[inline(never)]
fn gathered_by_pieces<T: BitRegister, O: BitOrder<T>>(view: BitSlice<'_, T, O>, cut: Cut) -> u128
    requires counts { CountsFrom cut.low T.BITS O.position }
    requires head { cut.head < T.BITS }
    requires begins { view_head view ≡ cut.head }
    requires short { length (view_bits (read_by T.BitRegister O.position) view) ≤ 128 }
    ensures { HasDigits (cut_weight cut T.BITS (length (view_bits (read_by T.BitRegister O.position) view.entry)))
        (view_bits (read_by T.BitRegister O.position) view.entry) result }
{
    let bits = mem::bits_of::<T>();
    let straight = straight_of::<T, O>(cut.low);
    let (words, head, len) = view.parts();
    let mut digits = 0u128;
    let mut from = 0;
    while from < len {
        let piece = piece_of(cut, bits, len, from);
        let chunk = read_bits::<T, O>(straight.direction, words, head as usize + from, piece.len);
        let more = digits_of(straight.direction, chunk, piece.len as u8);
        digits = with_piece(digits, more, piece.weight);
        from += piece.len;
    }
    digits
}

// Makes the `len` bits from a place on the digits of a number.
#[inline(always)]
fn scatter<T: BitRegister, O: BitOrder<T>>(
    words: &mut [T],
    place: usize,
    len: usize,
    digits: u128,
    cut: Cut,
)
    requires counts { CountsFrom cut.low T.BITS O.position }
    requires within { place + len ≤ length words.old * T.BITS }
    requires ends { place + len < 2 ^ 63 }
    requires head { cut.head < T.BITS }
    requires begins { place % T.BITS ≡ cut.head }
    requires short { len ≤ 128 }
    ensures { Overwrites (read_by T.BitRegister O.position) words.old words.new place len
        (λ k. digit_at digits (cut_weight cut T.BITS len k)) }
{
    let bits = mem::bits_of::<T>();
    if is_one_piece(cut, bits, len) {
        let straight = straight_of::<T, O>(cut.low);
        let all = chunk_from(digits, cut.low, 0, len);
        if bits > 64 && goes_by_word(cut, bits, len) {
            write_part::<T, O>(
                straight,
                words,
                place / bits,
                cut.head as u8,
                len as u8,
                all,
            );
            return;
        }
        write_field::<T, O>(straight, words, place, len, all);
        return;
    }
    if goes_by_words(cut, bits, len) {
        scatter_by_words::<T, O>(words, place, len, digits, cut);
        return;
    }
    scatter_by_pieces::<T, O>(words, place, len, digits, cut);
}

// The same piece by piece. Out of line, so that a number of few pieces is written by a short function.
#[inline(never)]
fn scatter_by_pieces<T: BitRegister, O: BitOrder<T>>(
    words: &mut [T],
    place: usize,
    len: usize,
    digits: u128,
    cut: Cut,
)
    requires counts { CountsFrom cut.low T.BITS O.position }
    requires within { place + len ≤ length words.old * T.BITS }
    requires ends { place + len < 2 ^ 63 }
    requires head { cut.head < T.BITS }
    requires short { len ≤ 128 }
    ensures { Overwrites (read_by T.BitRegister O.position) words.old words.new place len
        (λ k. digit_at digits (cut_weight cut T.BITS len k)) }
{
    let bits = mem::bits_of::<T>();
    let straight = straight_of::<T, O>(cut.low);
    let mut from = 0;
    while from < len {
        let piece = piece_of(cut, bits, len, from);
        let chunk = chunk_from(digits, cut.low, piece.weight, piece.len);
        write_bits::<T, O>(straight.direction, words, place + from, piece.len, chunk);
        from += piece.len;
    }
}

// Puts the digits that a segment has, of those of a number in the window from a place on, into its word.
#[inline(always)]
fn put_segment<T: BitRegister, O: BitOrder<T>>(
    words: &mut [T],
    place: usize,
    n: usize,
    digits: u128,
    cut: Cut,
    segment: Segment,
)
    requires counts { CountsFrom cut.low T.BITS O.position }
    requires mirrored { cut.low ≡ cut.le → ⊥ }
    requires head { cut.head < T.BITS }
    requires begins { place % T.BITS ≡ cut.head }
    requires few { n ≤ 64 }
    requires within { place + n ≤ length words.old * T.BITS }
    requires ends { place + n < 2 ^ 63 }
    requires is { IsSegment T.BITS place n segment }
    ensures { Overwrites (read_by T.BitRegister O.position) words.old words.new (place + segment.from) segment.len
        (λ k. digit_at digits (cut_weight cut T.BITS n (segment.from + k))) }
{
    let Segment {
        word,
        index,
        from,
        len,
    } = segment;
    let weight = weight_of_segment(cut.low, n, from, len);
    let chunk = chunk_from(digits, cut.low, weight, len);
    let straight = straight_of::<T, O>(cut.low);
    write_part::<T, O>(straight, words, word, index as u8, len as u8, chunk);
}

// The same as `scatter_by_pieces` of a window that goes by words, from the first word on.
#[inline(always)]
fn scatter_by_words<T: BitRegister, O: BitOrder<T>>(
    words: &mut [T],
    place: usize,
    n: usize,
    digits: u128,
    cut: Cut,
)
    requires counts { CountsFrom cut.low T.BITS O.position }
    requires mirrored { cut.low ≡ cut.le → ⊥ }
    requires head { cut.head < T.BITS }
    requires begins { place % T.BITS ≡ cut.head }
    requires few { n ≤ 64 }
    requires more { T.BITS < cut.head + n }
    requires within { place + n ≤ length words.old * T.BITS }
    requires ends { place + n < 2 ^ 63 }
    ensures { Overwrites (read_by T.BitRegister O.position) words.old words.new place n
        (λ k. digit_at digits (cut_weight cut T.BITS n k)) }
{
    let bits = mem::bits_of::<T>();
    let word = place / bits;
    let mut from = bits - cut.head;
    let mut at = word + 1;
    let first = Segment {
        word,
        index: cut.head,
        from: 0,
        len: from,
    };
    put_segment::<T, O>(words, place, n, digits, cut, first);
    while from + bits <= n {
        let whole = Segment {
            word: at,
            index: 0,
            from,
            len: bits,
        };
        put_segment::<T, O>(words, place, n, digits, cut, whole);
        from += bits;
        at += 1;
    }
    if from < n {
        let last = Segment {
            word: at,
            index: 0,
            from,
            len: n - from,
        };
        put_segment::<T, O>(words, place, n, digits, cut, last);
    }
}

// The number that a window holds, in a type that has as many bits at least.
#[inline(always)]
pub(crate) fn load_window<T: BitRegister, O: BitOrder<T>, M: Integral>(
    view: BitSlice<'_, T, O>,
    cut: Cut,
) -> M
    requires counts { CountsFrom cut.low T.BITS O.position }
    requires head { cut.head < T.BITS }
    requires begins { view_head view ≡ cut.head }
    requires some { 0 < length (view_bits (read_by T.BitRegister O.position) view) }
    requires room { length (view_bits (read_by T.BitRegister O.position) view) ≤ M.BITS }
    ensures bits { view_bits (read_by T.BitRegister O.position) view.entry ≡ field_bits cut.low cut.le T.BITS cut.head
        (length (view_bits (read_by T.BitRegister O.position) view.entry)) (M.whole result) }
    ensures within { FitsIn M.signed (length (view_bits (read_by T.BitRegister O.position) view.entry)) (M.whole result) }
{
    let digits = gathered(view, cut);
    M::from_digits(digits, view.len() as u8)
}

// Stores as many of a number's lowest digits as the window has bits.
#[inline(always)]
pub(crate) fn store_window<T: BitRegister, O: BitOrder<T>, M: Integral>(
    words: &mut [T],
    place: usize,
    len: usize,
    value: M,
    cut: Cut,
)
    requires counts { CountsFrom cut.low T.BITS O.position }
    requires within { place + len ≤ length words.old * T.BITS }
    requires ends { place + len < 2 ^ 63 }
    requires head { cut.head < T.BITS }
    requires begins { place % T.BITS ≡ cut.head }
    requires room { len ≤ M.BITS }
    ensures list { piece (memory (read_by T.BitRegister O.position) words.new) place len
        ≡ field_bits cut.low cut.le T.BITS cut.head len (M.whole value) }
    ensures beside { KeepsBeside (read_by T.BitRegister O.position) words.old words.new place len }
{
    scatter::<T, O>(words, place, len, value.digits(), cut);
}
