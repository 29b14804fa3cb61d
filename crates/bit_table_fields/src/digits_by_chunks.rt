//! Numbers in windows for every order and rule: by a chunk, in one step. By `digits_by_bits` go a few bits, and all where
//! the order turns no word quickly, in one step for each.

ghost use Rattle.std.specs.Prelude.{◌≡◌, ℕ, ◌+◌, ◌*◌, ◌^◌, ◌<◌, ◌≤◌, List, length};
ghost use Rattle.bit_addressing_memory.specs.Bits.{digit_at};
ghost use Rattle.bit_addressing_memory.specs.Memory.{memory, piece, read_by, with_piece};
ghost use Rattle.bit_slice_chunks.specs.Chunk.{IsChunk};
ghost use Rattle.bit_slice_views_mut.specs.Frame.{KeepsBeside};
ghost use Rattle.bit_slice_words.specs.Steps.{Takes};
ghost use Rattle.bit_table_fields.specs.Chunks.{rule_way, ChunkOf};
ghost use Rattle.bit_table_fields.specs.Windows.{number_held};
ghost use Rattle.bit_table_layout.specs.Digits.{has_digit};
ghost use Rattle.bit_table_layout.specs.Rows.{field_bits};

use crate::digits_by_bits;
use crate::digits_by_bits::number_of;
use bit_addressing_memory::{BitOrder, BitRegister, BulkOp, Direction, bit_loop_limit};
use bit_slice_chunks::any_order::{read_bits, write_bits};
use bit_slice_chunks::{chunk_of, digits_of};
use bit_slice_views::BitSlice;
use bit_slice_views_mut::BitsMut;
use bit_slice_words::Steps;
use bit_table_layout::Rule;

/// `Digits::load_low_at` or `Digits::load_high_at`, as the rule says.
#[inline(always)]
pub(crate) fn load<R: BitRegister, O: BitOrder<R>>(
    rule: Rule,
    words: &[R],
    place: usize,
    width: u32,
    signed: bool,
    steps: &mut Steps,
) -> i128
    requires some { 1 ≤ width }
    requires narrow { width ≤ 64 }
    requires within { place + width ≤ length words.now * R.BITS }
    requires ends { place + width < 2 ^ 64 }
    ensures value { result ≡ number_held rule signed width
        (piece (memory (read_by R.BitRegister O.position) words.now) place width) }
    ensures steps { Takes steps.old steps.new 1 width }
{
    let few = bit_loop_limit::<R, O>(BulkOp::Load);
    // Where none are read one by one, nothing is asked.
    if few == 0 {
        return load_chunk::<R, O>(rule, words, place, width, signed, steps);
    }
    if width as usize <= few {
        let view = BitSlice::<R, O>::from_place(words, place, width as usize);
        return digits_by_bits::load(rule, &view, signed, steps);
    }
    load_behind_few::<R, O>(rule, words, place, width, signed, steps)
}

// The same of more than a few bits, in one step. Out of line, so that a few are read by a short function.
#[inline(never)]
fn load_behind_few<R: BitRegister, O: BitOrder<R>>(
    rule: Rule,
    words: &[R],
    place: usize,
    width: u32,
    signed: bool,
    steps: &mut Steps,
) -> i128
    requires some { 1 ≤ width }
    requires narrow { width ≤ 64 }
    requires within { place + width ≤ length words.now * R.BITS }
    requires ends { place + width < 2 ^ 64 }
    ensures value { result ≡ number_held rule signed width
        (piece (memory (read_by R.BitRegister O.position) words.now) place width) }
    ensures steps { Takes steps.old steps.new 1 1 }
{
    load_chunk::<R, O>(rule, words, place, width, signed, steps)
}

// The same by a chunk, in one step.
#[inline(always)]
fn load_chunk<R: BitRegister, O: BitOrder<R>>(
    rule: Rule,
    words: &[R],
    place: usize,
    width: u32,
    signed: bool,
    steps: &mut Steps,
) -> i128
    requires some { 1 ≤ width }
    requires narrow { width ≤ 64 }
    requires within { place + width ≤ length words.now * R.BITS }
    requires ends { place + width < 2 ^ 64 }
    ensures value { result ≡ number_held rule signed width
        (piece (memory (read_by R.BitRegister O.position) words.now) place width) }
    ensures steps { Takes steps.old steps.new 1 1 }
{
    steps.step();
    number_at::<R, O>(rule, words, place, width, signed)
}

// The number that `Digits::load_low_at` or `Digits::load_high_at` loads, as the rule says.
#[inline(always)]
fn number_at<R: BitRegister, O: BitOrder<R>>(
    rule: Rule,
    words: &[R],
    place: usize,
    width: u32,
    signed: bool,
) -> i128
    requires some { 1 ≤ width }
    requires narrow { width ≤ 64 }
    requires within { place + width ≤ length words.now * R.BITS }
    requires ends { place + width < 2 ^ 64 }
    ensures { result ≡ number_held rule signed width
        (piece (memory (read_by R.BitRegister O.position) words.now) place width) }
{
    let chunk = read_bits::<R, O>(way_of(rule), words, place, width as usize);
    number_in::<R, O>(rule, chunk, width, signed)
}

// The number whose digits, in the direction of a rule, a chunk of `width` bits of a memory has.
#[inline(always)]
pub(crate) fn number_in<R: BitRegister, O: BitOrder<R>>(
    rule: Rule,
    chunk: u64,
    width: u32,
    signed: bool,
) -> i128
    requires some { 1 ≤ width }
    requires narrow { width ≤ 64 }
    ensures { (words : List R) → (place : ℕ) → place + width ≤ length words * R.BITS
        → IsChunk (read_by R.BitRegister O.position) words place width (rule_way rule) chunk
        → result ≡ number_held rule signed width (piece (memory (read_by R.BitRegister O.position) words) place width) }
{
    number_of(digits_of(way_of(rule), chunk, width as u8), width, signed)
}

/// `Digits::store_low_at` or `Digits::store_high_at`, as the rule says.
#[inline(always)]
pub(crate) fn store<V: BitsMut>(
    rule: Rule,
    view: &mut V,
    at: usize,
    width: u32,
    value: i128,
    steps: &mut Steps,
)
    requires some { 1 ≤ width }
    requires narrow { width ≤ 64 }
    requires within { at + width ≤ length (V.bits view.old) }
    ensures bits { V.bits view.new ≡ with_piece (V.bits view.old) at (field_bits rule width value) }
    ensures len { length (V.bits view.new) ≡ length (V.bits view.old) }
    ensures frame { V.frame view.new ≡ V.frame view.old }
    ensures steps { Takes steps.old steps.new 1 width }
{
    if width as usize <= bit_loop_limit::<V::Store, V::Order>(BulkOp::Store) {
        digits_by_bits::store(rule, view, at, width, value, steps);
        return;
    }
    store_chunk(rule, view, at, width, value, steps);
}

// The same by a chunk, in one step. Out of line, so that a few bits are stored by a short function.
#[inline(never)]
fn store_chunk<V: BitsMut>(
    rule: Rule,
    view: &mut V,
    at: usize,
    width: u32,
    value: i128,
    steps: &mut Steps,
)
    requires some { 1 ≤ width }
    requires narrow { width ≤ 64 }
    requires within { at + width ≤ length (V.bits view.old) }
    ensures bits { V.bits view.new ≡ with_piece (V.bits view.old) at (field_bits rule width value) }
    ensures len { length (V.bits view.new) ≡ length (V.bits view.old) }
    ensures frame { V.frame view.new ≡ V.frame view.old }
    ensures steps { Takes steps.old steps.new 1 1 }
{
    let place = view.first_place();
    let all = view.len();
    view.write(|words| {
        write_number::<V::Store, V::Order>(rule, words, place, all, at, width, value)
    });
    steps.step();
}

// Makes the `width` bits from `at` on of a window digits of a number.
fn write_number<R: BitRegister, O: BitOrder<R>>(
    rule: Rule,
    words: &mut [R],
    place: usize,
    all: usize,
    at: usize,
    width: u32,
    value: i128,
)
    requires some { 1 ≤ width }
    requires narrow { width ≤ 64 }
    requires within { place + all ≤ length words.old * R.BITS }
    requires ends { place + all < 2 ^ 64 }
    requires target { at + width ≤ all }
    ensures list { piece (memory (read_by R.BitRegister O.position) words.new) place all
        ≡ with_piece (piece (memory (read_by R.BitRegister O.position) words.old) place all) at
        (field_bits rule width value) }
    ensures beside { KeepsBeside (read_by R.BitRegister O.position) words.old words.new place all }
{
    let chunk = chunk_for(rule, value, width);
    write_bits::<R, O>(way_of(rule), words, place + at, width as usize, chunk);
}

// The direction in which the digits of a rule lie in a chunk as they do in a number.
pub(crate) fn way_of(rule: Rule) -> Direction
    ensures { result ≡ rule_way rule }
{
    match rule {
        Rule::Low => Direction::Ascending,
        Rule::High => Direction::Descending,
    }
}

// The chunk whose first bits are digits of a number.
pub(crate) fn chunk_for(rule: Rule, value: i128, width: u32) -> u64
    requires some { 1 ≤ width }
    requires narrow { width ≤ 64 }
    ensures { ChunkOf rule width value result }
{
    chunk_of(way_of(rule), lowest_digits(value), width as u8)
}

// The 64 lowest digits of a number.
fn lowest_digits(value: i128) -> u64
    ensures { (k : ℕ) → k < 64 → digit_at result k ≡ has_digit value k }
{
    (value.cast_unsigned() % (1 << 64)) as u64
}
