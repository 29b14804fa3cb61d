//! Rows marked by their numbers, and the numbers of marked rows.

ghost use Rattle.std.specs.Prelude.{◌≡◌, ℕ, ◌+◌, ◌*◌, ◌^◌, ◌<◌, ◌≤◌, Bool, List, [], length, map, take, IfOk, OnOk};
ghost use Rattle.std.specs.Prelude.{Some};
ghost use Rattle.bit_addressing_memory.specs.Memory.{piece, read_by};
ghost use Rattle.bit_containers_vector.specs.Vector.{vec_bits};
ghost use Rattle.bit_slice_chunks.specs.Chunk.{chunk_bit, IsChunk};
ghost use Rattle.bit_slice_views.specs.View.{view_bits};
ghost use Rattle.bit_table_layout.specs.Layouts.{row_width};
ghost use Rattle.bit_table_layout.specs.Readings.{rows_from};
ghost use Rattle.bit_table_layout.specs.LetterSets.{letter_count};
ghost use Rattle.bit_table_commands.specs.Marks.{number_in_field, passes};
ghost use Rattle.bit_table_fields.specs.Windows.{number_held};
ghost use Rattle.bit_table_script.specs.Told.{ones_from, told, AreDigits, HasChunk};

use bit_addressing_memory::{BitOrder, BitRegister, Direction};
use bit_containers_vector::BitVec;
use bit_slice_chunks::any_order::{direction_for, read_bits, read_chunk};
use bit_slice_views::{BitSlice, BitStore, Bits};
use bit_slice_words::{Steps, WordPaths};
use bit_table_commands::Test;
use bit_table_fields::{Digits, bits_before};
use bit_table_layout::{Layout, Rule};
use bit_table_rows::{Letters, RowOp, row_loop_limit};
use std::alloc::{AllocError, Global};

// How many bits a chunk has, and how many rows are told at once.
const CHUNK: usize = 64;

// How the numbers of a field lie in the bits of rows.
#[derive(Clone, Copy)]
struct Column {
    // How the digits of a number lie, how many there are, and whether the highest is a sign's.
    rule: Rule,
    digits: u32,
    signed: bool,
    // How many bits lie from a number to that of the next row.
    stride: usize,
}

// Makes exactly those rows bear a letter whose number of a field passes a test.
pub(crate) fn mark_rows<T: BitStore, O: WordPaths<T> + Digits<T>>(
    letters: &mut Letters<T, O>,
    layout: &Layout,
    bits: &BitVec<T, O>,
    letter: usize,
    field: usize,
    test: Test,
    value: i128,
)
    requires letter { letter < letter_count }
    requires field { field < length layout.now.fields }
    requires bits { length (vec_bits (read_by T.BitRegister O.position) bits.now)
        ≡ length letters.old.sets * row_width layout.now.fields }
    ensures sets { letters.new.sets ≡ told letter
        (map (λ row. passes test (number_in_field (Some field) row) value)
        (rows_from layout.now (length letters.old.sets) (vec_bits (read_by T.BitRegister O.position) bits.now)))
        letters.old.sets }
    ensures space { letters.new.space ≡ letters.old.space }
{
    if letters.rows() <= row_loop_limit::<T, O>(RowOp::Mark) {
        mark_singly(letters, layout, bits, letter, field, test, value);
    } else {
        mark_by_blocks(letters, layout, bits, letter, field, test, value);
    }
}

// The same, row by row.
fn mark_singly<T: BitStore, O: WordPaths<T> + Digits<T>>(
    letters: &mut Letters<T, O>,
    layout: &Layout,
    bits: &BitVec<T, O>,
    letter: usize,
    field: usize,
    test: Test,
    value: i128,
)
    requires letter { letter < letter_count }
    requires field { field < length layout.now.fields }
    requires bits { length (vec_bits (read_by T.BitRegister O.position) bits.now)
        ≡ length letters.old.sets * row_width layout.now.fields }
    ensures sets { letters.new.sets ≡ told letter
        (map (λ row. passes test (number_in_field (Some field) row) value)
        (rows_from layout.now (length letters.old.sets) (vec_bits (read_by T.BitRegister O.position) bits.now)))
        letters.old.sets }
    ensures space { letters.new.space ≡ letters.old.space }
{
    let shape = &layout.fields()[field];
    let column = Column {
        rule: layout.rule(),
        digits: shape.width(),
        signed: shape.signed(),
        stride: layout.row_bits(),
    };
    let first = bits_before(layout, field);
    // As many bits as a `usize` counts, and so each row's place is one.
    let _bits = bits.len();
    let view = bits.as_bitslice();
    for row in 0..letters.rows() {
        let number = number_in::<T, O>(view, row * column.stride + first, column);
        letters.put(letter, row, test.passes(number, value));
    }
}

// The same, 64 rows at once.
fn mark_by_blocks<T: BitStore, O: WordPaths<T> + Digits<T>>(
    letters: &mut Letters<T, O>,
    layout: &Layout,
    bits: &BitVec<T, O>,
    letter: usize,
    field: usize,
    test: Test,
    value: i128,
)
    requires letter { letter < letter_count }
    requires field { field < length layout.now.fields }
    requires bits { length (vec_bits (read_by T.BitRegister O.position) bits.now)
        ≡ length letters.old.sets * row_width layout.now.fields }
    ensures sets { letters.new.sets ≡ told letter
        (map (λ row. passes test (number_in_field (Some field) row) value)
        (rows_from layout.now (length letters.old.sets) (vec_bits (read_by T.BitRegister O.position) bits.now)))
        letters.old.sets }
    ensures space { letters.new.space ≡ letters.old.space }
{
    let shape = &layout.fields()[field];
    let column = Column {
        rule: layout.rule(),
        digits: shape.width(),
        signed: shape.signed(),
        stride: layout.row_bits(),
    };
    let before = bits_before(layout, field);
    // As many bits as a `usize` counts, and so each number's place is one.
    let _bits = bits.len();
    let view = bits.as_bitslice();
    let rows = letters.rows();
    for block in 0..rows.div_ceil(CHUNK) {
        let first = CHUNK * block;
        let count = CHUNK.min(rows - first);
        let place = first * column.stride + before;
        let answers = answers_from::<T, O>(view, place, count, column, test, value);
        letters.put_many(letter, first, count, answers);
    }
}

// Which of so many numbers of a field, 1 to 64, pass a test, the first of them at a place: digit k is number k's.
#[inline(always)]
fn answers_from<T: BitRegister, O: Digits<T>>(
    bits: BitSlice<'_, T, O>,
    place: usize,
    count: usize,
    column: Column,
    test: Test,
    value: i128,
) -> u64
    requires some { 1 ≤ column.digits }
    requires narrow { column.digits ≤ 64 }
    requires any { 0 < count }
    requires few { count ≤ 64 }
    requires within { (k : ℕ) → k < count → place + k * column.stride + column.digits
        ≤ length (view_bits (read_by T.BitRegister O.position) bits) }
    ensures { AreDigits (λ k. passes test (number_held column.rule column.signed column.digits
        (piece (view_bits (read_by T.BitRegister O.position) bits.entry) (place + k * column.stride) column.digits))
        value) count result }
{
    let mut answers = 0u64;
    // As many bits as a `usize` counts, and so each number's place is one.
    let _bits = bits.len();
    for k in 0..count {
        let number = number_in::<T, O>(bits, place + k * column.stride, column);
        answers = with_answer(answers, k, test.passes(number, value));
    }
    answers
}

// The number of a field that stands at a place among bits.
#[inline(always)]
fn number_in<T: BitRegister, O: Digits<T>>(
    bits: BitSlice<'_, T, O>,
    place: usize,
    column: Column,
) -> i128
    requires some { 1 ≤ column.digits }
    requires narrow { column.digits ≤ 64 }
    requires within { place + column.digits ≤ length (view_bits (read_by T.BitRegister O.position) bits) }
    ensures { result ≡ number_held column.rule column.signed column.digits
        (piece (view_bits (read_by T.BitRegister O.position) bits.entry) place column.digits) }
{
    let (words, head, _len) = bits.parts();
    let first = head as usize + place;
    let (digits, signed) = (column.digits, column.signed);
    let mut steps = Steps::new();
    match column.rule {
        Rule::Low => O::load_low_at(words, first, digits, signed, &mut steps),
        Rule::High => O::load_high_at(words, first, digits, signed, &mut steps),
    }
}

// A number, whose digits from one on are zero, with that one made an answer.
#[inline(always)]
fn with_answer(answers: u64, index: usize, passes: bool) -> u64
    requires { index < 64 }
    ensures { (told : ℕ → Bool) → told index ≡ passes → AreDigits told index answers
        → AreDigits told (index + 1) result }
{
    answers | (u64::from(passes) << index)
}

// The places of the ones among bits, in order.
pub(crate) fn places_of_ones<T: BitRegister, O: BitOrder<T>>(
    alloc: Global,
    bits: BitSlice<'_, T, O>,
) -> Result<Vec<usize>, AllocError>
    ensures { IfOk result (λ places. places.items
        ≡ ones_from 0 (view_bits (read_by T.BitRegister O.position) bits.entry)) }
{
    if bits.len() <= row_loop_limit::<T, O>(RowOp::List) {
        return places_singly(alloc, bits);
    }

    // Memory for all of them is taken first.
    let mut places = Vec::with_capacity(alloc, bits.count_ones())?;
    add_by_chunks(direction_for::<T, O>(), &mut places, bits)?;
    Ok(places)
}

// The same, bit by bit.
fn places_singly<T: BitRegister, O: BitOrder<T>>(
    alloc: Global,
    bits: BitSlice<'_, T, O>,
) -> Result<Vec<usize>, AllocError>
    ensures { IfOk result (λ places. places.items
        ≡ ones_from 0 (view_bits (read_by T.BitRegister O.position) bits.entry)) }
{
    let (_, _, len) = bits.parts();
    let mut places = Vec::new(alloc);
    for place in 0..len {
        if bits.bit(place) {
            places.push(place)?;
        }
    }
    Ok(places)
}

// Adds the places of the ones to none, chunk by chunk.
fn add_by_chunks<T: BitRegister, O: BitOrder<T>>(
    direction: Direction,
    places: &mut Vec<usize>,
    bits: BitSlice<'_, T, O>,
) -> Result<(), AllocError>
    requires none { places.old.items ≡ [] }
    ensures { OnOk result (places.new.items
        ≡ ones_from 0 (view_bits (read_by T.BitRegister O.position) bits.entry)) }
{
    let (words, head, len) = bits.parts();
    for k in 0..len.div_ceil(CHUNK) {
        let first = CHUNK * k;
        let count = CHUNK.min(len - first);
        let chunk = chunk_at::<T, O>(direction, words, head as usize + first, count);
        add_chunk(direction, places, chunk, first, count)?;
    }
    Ok(())
}

// So many bits of a memory from a place on, 1 to 64, as a chunk.
#[inline(always)]
fn chunk_at<T: BitRegister, O: BitOrder<T>>(
    direction: Direction,
    words: &[T],
    place: usize,
    count: usize,
) -> u64
    requires some { 0 < count }
    requires few { count ≤ 64 }
    requires within { place + count ≤ length words.now * T.BITS }
    requires ends { place + count < 2 ^ 64 }
    ensures { IsChunk (read_by T.BitRegister O.position) words.now place count direction result }
{
    if count == CHUNK {
        return read_chunk::<T, O>(direction, words, place);
    }
    read_bits::<T, O>(direction, words, place, count)
}

// Adds the places of the ones of a chunk to those of the bits before it: of a list that has so many bits of the chunk
// from `first` on.
fn add_chunk(
    direction: Direction,
    places: &mut Vec<usize>,
    chunk: u64,
    first: usize,
    count: usize,
) -> Result<(), AllocError>
    requires few { count ≤ 64 }
    requires ends { first + count < 2 ^ 64 }
    ensures { (bits : List Bool) → HasChunk bits first count (chunk_bit direction chunk)
        → places.old.items ≡ ones_from 0 (take first bits)
        → OnOk result (places.new.items ≡ ones_from 0 (take (first + count) bits)) }
{
    if chunk == 0 {
        return Ok(());
    }
    for index in 0..count {
        if chunk_has(direction, chunk, index) {
            places.push(first + index)?;
        }
    }
    Ok(())
}

// Whether a bit of a chunk is 1.
#[tactic(auto, using(std::proofs::lemmas::Nat::Bits::shr_and_one))]
fn chunk_has(direction: Direction, chunk: u64, index: usize) -> bool
    requires { index < 64 }
    ensures { result ≡ chunk_bit direction chunk index }
{
    match direction {
        Direction::Ascending => (chunk >> index) & 1 == 1,
        Direction::Descending => (chunk >> (63 - index)) & 1 == 1,
    }
}
