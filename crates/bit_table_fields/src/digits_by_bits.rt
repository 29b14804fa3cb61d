//! Numbers in windows bit by bit, one step a bit: what an order calls whose two constants of `Digits` are false.

ghost use Rattle.std.specs.Prelude.{◌≡◌, ◌+◌, ◌-◌, ◌*◌, ◌^◌, ◌<◌, ◌≤◌, length};
ghost use Rattle.bit_addressing_memory.specs.Memory.{memory, piece, read_by, with_piece};
ghost use Rattle.bit_slice_words.specs.Steps.{Takes};
ghost use Rattle.bit_table_fields.specs.Places.{digit_place};
ghost use Rattle.bit_table_fields.specs.Windows.{number_held};
ghost use Rattle.bit_table_layout.specs.Digits.{has_digit};
ghost use Rattle.bit_table_layout.specs.Readings.{number_from_digits};
ghost use Rattle.bit_table_layout.specs.Rows.{field_bits};
ghost use Rattle.bit_table_layout.specs.declared.layout.Rule.TheVariants.{Low, High};

use bit_addressing_memory::{BitOrder, BitRegister};
use bit_slice_views::{BitSlice, Bits};
use bit_slice_views_mut::BitsMut;
use bit_slice_words::Steps;
use bit_table_layout::Rule;

/// `Digits::load_low_at`, a step a bit.
pub fn load_low_at<R: BitRegister, O: BitOrder<R>>(
    words: &[R],
    place: usize,
    width: u32,
    signed: bool,
    steps: &mut Steps,
) -> i128
    requires some { 1 ≤ width }
    requires narrow { width ≤ 64 }
    requires within { place + width ≤ length words.now * R.BITS }
    ensures value { result ≡ number_held Low signed width
        (piece (memory (read_by R.BitRegister O.position) words.now) place width) }
    ensures steps { Takes steps.old steps.new width width }
{
    let view = BitSlice::<R, O>::from_place(words, place, width as usize);
    load(Rule::Low, &view, signed, steps)
}

/// `Digits::load_high_at`, a step a bit.
pub fn load_high_at<R: BitRegister, O: BitOrder<R>>(
    words: &[R],
    place: usize,
    width: u32,
    signed: bool,
    steps: &mut Steps,
) -> i128
    requires some { 1 ≤ width }
    requires narrow { width ≤ 64 }
    requires within { place + width ≤ length words.now * R.BITS }
    ensures value { result ≡ number_held High signed width
        (piece (memory (read_by R.BitRegister O.position) words.now) place width) }
    ensures steps { Takes steps.old steps.new width width }
{
    let view = BitSlice::<R, O>::from_place(words, place, width as usize);
    load(Rule::High, &view, signed, steps)
}

/// `Digits::store_low_at`, a step a bit.
pub fn store_low_at<V: BitsMut>(view: &mut V, at: usize, width: u32, value: i128, steps: &mut Steps)
    requires narrow { width ≤ 64 }
    requires within { at + width ≤ length (V.bits view.old) }
    ensures bits { V.bits view.new ≡ with_piece (V.bits view.old) at (field_bits Low width value) }
    ensures len { length (V.bits view.new) ≡ length (V.bits view.old) }
    ensures frame { V.frame view.new ≡ V.frame view.old }
    ensures steps { Takes steps.old steps.new width width }
{
    store(Rule::Low, view, at, width, value, steps);
}

/// `Digits::store_high_at`, a step a bit.
pub fn store_high_at<V: BitsMut>(
    view: &mut V,
    at: usize,
    width: u32,
    value: i128,
    steps: &mut Steps,
)
    requires narrow { width ≤ 64 }
    requires within { at + width ≤ length (V.bits view.old) }
    ensures bits { V.bits view.new ≡ with_piece (V.bits view.old) at (field_bits High width value) }
    ensures len { length (V.bits view.new) ≡ length (V.bits view.old) }
    ensures frame { V.frame view.new ≡ V.frame view.old }
    ensures steps { Takes steps.old steps.new width width }
{
    store(Rule::High, view, at, width, value, steps);
}

// The digit of a field that is bit `index` of it, and the bit that is digit `index`.
fn place_of(rule: Rule, width: u32, index: u32) -> u32
    requires { index < width }
    ensures value { result ≡ digit_place rule width index }
    ensures within { result < width }
{
    match rule {
        Rule::Low => index,
        Rule::High => width - 1 - index,
    }
}

// Whether a digit of a number is 1.
fn digit_at(value: i128, place: u32) -> bool
    requires { place < 64 }
    ensures { result ≡ has_digit value place }
{
    value.div_euclid(1 << place).rem_euclid(2) == 1
}

// The number of `width` digits that are those of another number, the highest of them the sign's where it has one.
pub(crate) fn number_of(digits: u64, width: u32, signed: bool) -> i128
    requires some { 1 ≤ width }
    requires narrow { width ≤ 64 }
    ensures { result ≡ number_from_digits signed width digits }
{
    let half = 1u64 << (width - 1);
    if signed && digits >= half {
        i128::from(digits) - 2 * i128::from(half)
    } else {
        i128::from(digits)
    }
}

// The number that a list holds, from its highest digit on.
#[inline(always)]
pub(crate) fn load<V: Bits>(rule: Rule, view: &V, signed: bool, steps: &mut Steps) -> i128
    requires some { 1 ≤ length (V.bits view.now) }
    requires narrow { length (V.bits view.now) ≤ 64 }
    ensures value { result ≡ number_held rule signed (length (V.bits view.now)) (V.bits view.now) }
    ensures steps { Takes steps.old steps.new (length (V.bits view.now)) (length (V.bits view.now)) }
{
    let width = view.len() as u32;
    let mut digits = 0u128;
    // The count goes through the loop as a value, so that it stays in a register.
    let mut taken = 0usize;
    for k in 0..width {
        let index = place_of(rule, width, width - 1 - k);
        digits = 2 * digits + u128::from(view.bit(index as usize));
        taken += 1;
    }
    steps.many(taken);
    number_of(digits as u64, width, signed)
}

// Makes each of the bits from `at` on the digit that stands there.
#[inline(always)]
pub(crate) fn store<V: BitsMut>(
    rule: Rule,
    view: &mut V,
    at: usize,
    width: u32,
    value: i128,
    steps: &mut Steps,
)
    requires narrow { width ≤ 64 }
    requires within { at + width ≤ length (V.bits view.old) }
    ensures bits { V.bits view.new ≡ with_piece (V.bits view.old) at (field_bits rule width value) }
    ensures len { length (V.bits view.new) ≡ length (V.bits view.old) }
    ensures frame { V.frame view.new ≡ V.frame view.old }
    ensures steps { Takes steps.old steps.new width width }
{
    // As many bits as a `usize` counts, and so each digit's place is one.
    let _bits = view.len();
    for k in 0..width {
        let bit = digit_at(value, place_of(rule, width, k));
        view.set(at + k as usize, bit);
        steps.step();
    }
}
